// Values: their tests and parts, and zext, whose lent room holds 201 to 204 before each call.
use rules::Refusal;
use rules::Refusal::{BadShape, BadValue, NoRoom, ShortAddress};
use try_kit::tally::{Tally, add};

fn undef_case(t: Tally, v: &[u32], want: Result<bool, Refusal>, undef: bool, good: bool) -> Tally {
    let t = add(t, net_value::value_is_undef(v) == want);
    let t = add(t, net_value::is_undef(v) == undef);
    add(t, net_value::value_good(16777216, v) == good)
}

pub(crate) fn undefs(t: Tally) -> Tally {
    let none: [u32; 0] = [];
    let t = undef_case(t, &none, Ok(true), true, true);
    let all = [4294967295u32, 4294967295];
    let t = undef_case(t, &all, Ok(true), true, true);
    let one = [4294967295u32, 1];
    let t = undef_case(t, &one, Ok(false), false, true);
    let nets = [0u32, 1, 2, 16777215];
    let t = undef_case(t, &nets, Ok(false), false, true);
    let past = [4294967295u32, 16777216];
    let t = undef_case(t, &past, Err(BadValue), false, false);
    let below = [4294967294u32, 4294967295];
    undef_case(t, &below, Err(BadValue), false, false)
}

// A part of 10 11 12 13 14.
fn slice_case(t: Tally, start: usize, end: usize, want: &[u32]) -> Tally {
    let v = [10u32, 11, 12, 13, 14];
    add(t, net_value::value_slice(&v, start, end) == want)
}

pub(crate) fn slices(t: Tally) -> Tally {
    let none: [u32; 0] = [];
    let whole = [10u32, 11, 12, 13, 14];
    let t = slice_case(t, 0, 5, &whole);
    let two = [11u32, 12];
    let t = slice_case(t, 1, 3, &two);
    let t = slice_case(t, 0, 0, &none);
    let t = slice_case(t, 5, 5, &none);
    let t = slice_case(t, 3, 1, &none);
    let t = slice_case(t, 0, 6, &none);
    let t = slice_case(t, 6, 6, &none);
    slice_case(t, 0, 18446744073709551615, &none)
}

fn zext_case(t: Tally, v: &[u32], n: usize, answer: Result<(), Refusal>, want: &[u32]) -> Tally {
    let mut room = [201u32, 202, 203, 204];
    let t = add(t, net_value::zext(&mut room, v, n) == answer);
    add(t, &room[..] == want)
}

pub(crate) fn zexts(t: Tally) -> Tally {
    let v = [5u32, 4294967295];
    let none: [u32; 0] = [];
    let longer = [5u32, 4294967295, 0, 204];
    let t = zext_case(t, &v, 3, Ok(()), &longer);
    let exact = [5u32, 4294967295, 0, 0];
    let t = zext_case(t, &v, 4, Ok(()), &exact);
    let whole = [5u32, 4294967295, 203, 204];
    let t = zext_case(t, &v, 2, Ok(()), &whole);
    let zeros = [0u32, 0, 203, 204];
    let t = zext_case(t, &none, 2, Ok(()), &zeros);
    let kept = [201u32, 202, 203, 204];
    zext_case(t, &none, 0, Ok(()), &kept)
}

// A value that is too long before a bad net, and a bad net before room that is one net short.
pub(crate) fn zexts_refused(t: Tally) -> Tally {
    let v = [5u32, 4294967295];
    let bad = [5u32, 16777216];
    let kept = [201u32, 202, 203, 204];
    let t = zext_case(t, &v, 1, Err(BadShape), &kept);
    let t = zext_case(t, &bad, 1, Err(BadShape), &kept);
    let t = zext_case(t, &bad, 2, Err(BadValue), &kept);
    let t = zext_case(t, &bad, 5, Err(BadValue), &kept);
    let t = zext_case(t, &v, 5, Err(NoRoom), &kept);
    zext_case(t, &v, 18446744073709551615, Err(NoRoom), &kept)
}

fn store_case(t: Tally, v: &[u32], n: usize, want: &[u32]) -> Tally {
    let mut room = [201u32, 202, 203, 204];
    net_value::store_zext(&mut room, v, n);
    add(t, &room[..] == want)
}

// What lies past the room is not stored, and a value longer than n is stored whole.
pub(crate) fn stores(t: Tally) -> Tally {
    let v = [5u32, 6];
    let long = [5u32, 6, 7, 8, 9];
    let filled = [5u32, 6, 0, 204];
    let t = store_case(t, &v, 3, &filled);
    let exact = [5u32, 6, 0, 0];
    let t = store_case(t, &v, 9, &exact);
    let whole = [5u32, 6, 203, 204];
    let t = store_case(t, &v, 1, &whole);
    let front = [5u32, 6, 7, 8];
    store_case(t, &long, 5, &front)
}

// Room of no nets.
pub(crate) fn no_room(t: Tally) -> Tally {
    let v = [5u32];
    let none: [u32; 0] = [];
    let mut room: [u32; 0] = [];
    let t = add(t, net_value::zext(&mut room, &v, 1) == Err(NoRoom));
    add(t, net_value::zext(&mut room, &none, 0) == Ok(()))
}

// Of the write address 10 11 12 and the read address 20 21.
fn select_case(t: Tally, kw: u32, kr: u32, answer: Result<(), Refusal>, want: &[u32]) -> Tally {
    let waddr = [10u32, 11, 12];
    let raddr = [20u32, 21];
    let t = add(
        t,
        net_value::narrower_select_refusal(&waddr, &raddr, kw, kr) == answer,
    );
    add(
        t,
        net_value::narrower_select(&waddr, &raddr, kw, kr) == want,
    )
}

pub(crate) fn selects(t: Tally) -> Tally {
    let none: [u32; 0] = [];
    let write_two = [10u32, 11];
    let write_all = [10u32, 11, 12];
    let read_one = [20u32];
    let read_all = [20u32, 21];
    let t = select_case(t, 0, 2, Ok(()), &write_two);
    let t = select_case(t, 1, 4, Ok(()), &write_all);
    let t = select_case(t, 0, 4, Err(ShortAddress), &none);
    let t = select_case(t, 4, 3, Ok(()), &read_one);
    let t = select_case(t, 2, 0, Ok(()), &read_all);
    let t = select_case(t, 3, 0, Err(ShortAddress), &none);
    let t = select_case(t, 4, 4, Ok(()), &none);
    let t = select_case(t, 0, 0, Ok(()), &none);
    let t = select_case(t, 0, 4294967295, Err(ShortAddress), &none);
    select_case(t, 4294967295, 0, Err(ShortAddress), &none)
}
