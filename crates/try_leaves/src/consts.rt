// Trits and constants. The room that is lent holds 201 to 210 before each call.
use net_logic::Trit;
use rules::Refusal;
use rules::Refusal::{BadShape, BadValue, NoRoom, OutOfRange};
use try_kit::tally::{Tally, add};

fn code_case(t: Tally, code: u8, want: Result<Trit, Refusal>, back: u8) -> Tally {
    let t = add(t, net_logic::trit_from_code(code) == want);
    add(t, u8::from(net_logic::trit_at(code)) == back)
}

pub(crate) fn codes(t: Tally) -> Tally {
    let t = code_case(t, 0, Ok(Trit::Zero), 0);
    let t = code_case(t, 1, Ok(Trit::One), 1);
    let t = code_case(t, 2, Ok(Trit::Undef), 2);
    let t = code_case(t, 3, Err(BadValue), 2);
    code_case(t, 255, Err(BadValue), 2)
}

// One line of each table, by codes: not a, a and b, a or b.
fn line(t: Tally, a: u8, b: u8, not: u8, and: u8, or: u8) -> Tally {
    let x = net_logic::trit_at(a);
    let y = net_logic::trit_at(b);
    let t = add(t, u8::from(net_logic::trit_not(x)) == not);
    let t = add(t, u8::from(net_logic::trit_and(x, y)) == and);
    add(t, u8::from(net_logic::trit_or(x, y)) == or)
}

pub(crate) fn tables(t: Tally) -> Tally {
    let t = line(t, 0, 0, 1, 0, 0);
    let t = line(t, 0, 1, 1, 0, 1);
    let t = line(t, 0, 2, 1, 0, 2);
    let t = line(t, 1, 0, 0, 0, 1);
    let t = line(t, 1, 1, 0, 1, 1);
    let t = line(t, 1, 2, 0, 2, 1);
    let t = line(t, 2, 0, 2, 0, 2);
    let t = line(t, 2, 1, 2, 2, 1);
    line(t, 2, 2, 2, 2, 2)
}

fn undef_case(t: Tally, a: &[u8], want: Result<bool, Refusal>, undef: bool, good: bool) -> Tally {
    let t = add(t, net_logic::const_is_undef(a) == want);
    let t = add(t, net_logic::is_undef(a) == undef);
    add(t, net_logic::trits_good(a) == good)
}

pub(crate) fn undefs(t: Tally) -> Tally {
    let t = undef_case(t, b"", Ok(true), true, true);
    let t = undef_case(t, b"\x02\x02", Ok(true), true, true);
    let t = undef_case(t, b"\x02\x01", Ok(false), false, true);
    let t = undef_case(t, b"\x00", Ok(false), false, true);
    let t = undef_case(t, b"\x02\x03", Err(BadValue), false, false);
    undef_case(t, b"\xff", Err(BadValue), false, false)
}

// A part of 0 1 2 1 0.
fn slice_case(
    t: Tally,
    start: usize,
    end: usize,
    answer: Result<(), Refusal>,
    want: &[u8],
) -> Tally {
    let a = [0u8, 1, 2, 1, 0];
    let t = add(t, net_logic::slice_refusal(start, end, 5) == answer);
    add(t, net_logic::const_slice(&a, start, end) == want)
}

pub(crate) fn slices(t: Tally) -> Tally {
    let t = slice_case(t, 0, 5, Ok(()), b"\x00\x01\x02\x01\x00");
    let t = slice_case(t, 1, 3, Ok(()), b"\x01\x02");
    let t = slice_case(t, 0, 0, Ok(()), b"");
    let t = slice_case(t, 5, 5, Ok(()), b"");
    let t = slice_case(t, 3, 1, Err(OutOfRange), b"");
    let t = slice_case(t, 0, 6, Err(OutOfRange), b"");
    let t = slice_case(t, 6, 6, Err(OutOfRange), b"");
    slice_case(t, 0, 18446744073709551615, Err(OutOfRange), b"")
}

// A call's answer, and the whole room after it.
fn room_case<F: Fn(&mut [u8]) -> Result<(), Refusal>>(
    t: Tally,
    call: F,
    answer: Result<(), Refusal>,
    want: &[u8],
) -> Tally
    requires { F.IsAlwaysCallable call }
{
    let mut room = [201u8, 202, 203, 204, 205, 206, 207, 208, 209, 210];
    let t = add(t, call(&mut room) == answer);
    add(t, &room[..] == want)
}

fn not_case(t: Tally, a: &[u8], answer: Result<(), Refusal>, want: &[u8]) -> Tally {
    room_case(t, |room| net_logic::const_not(room, a), answer, want)
}

// Constants shorter than the room, as long, one trit longer and empty; bad codes, also where the room is short.
pub(crate) fn nots(t: Tally) -> Tally {
    let kept = [201u8, 202, 203, 204, 205, 206, 207, 208, 209, 210];
    let t = not_case(
        t,
        b"\x00\x01\x02",
        Ok(()),
        b"\x01\x00\x02\xcc\xcd\xce\xcf\xd0\xd1\xd2",
    );
    let t = not_case(
        t,
        b"\x00\x01\x02\x00\x00\x00\x00\x00\x00\x01",
        Ok(()),
        b"\x01\x00\x02\x01\x01\x01\x01\x01\x01\x00",
    );
    let t = not_case(
        t,
        b"\x00\x01\x02\x00\x00\x00\x00\x00\x00\x01\x01",
        Err(NoRoom),
        &kept,
    );
    let t = not_case(t, b"", Ok(()), &kept);
    let t = not_case(t, b"\x00\x01\x03", Err(BadValue), &kept);
    let t = not_case(t, b"\xff", Err(BadValue), &kept);
    not_case(
        t,
        b"\x00\x01\x02\x00\x00\x00\x00\x00\x00\x01\x03",
        Err(BadValue),
        &kept,
    )
}

fn and_case(t: Tally, a: &[u8], b: &[u8], answer: Result<(), Refusal>, want: &[u8]) -> Tally {
    room_case(t, |room| net_logic::const_and(room, a, b), answer, want)
}

fn or_case(t: Tally, a: &[u8], b: &[u8], answer: Result<(), Refusal>, want: &[u8]) -> Tally {
    room_case(t, |room| net_logic::const_or(room, a, b), answer, want)
}

// Both refuse alike.
fn pair_refused(t: Tally, a: &[u8], b: &[u8], answer: Result<(), Refusal>) -> Tally {
    let kept = [201u8, 202, 203, 204, 205, 206, 207, 208, 209, 210];
    let t = and_case(t, a, b, answer, &kept);
    or_case(t, a, b, answer, &kept)
}

// Every line of the tables, and constants as long as the room.
pub(crate) fn pairs(t: Tally) -> Tally {
    let a = [0u8, 0, 0, 1, 1, 1, 2, 2, 2];
    let b = [0u8, 1, 2, 0, 1, 2, 0, 1, 2];
    let t = and_case(
        t,
        &a,
        &b,
        Ok(()),
        b"\x00\x00\x00\x00\x01\x02\x00\x02\x02\xd2",
    );
    let t = or_case(
        t,
        &a,
        &b,
        Ok(()),
        b"\x00\x01\x02\x01\x01\x01\x02\x01\x02\xd2",
    );
    let c = [1u8, 1, 1, 1, 1, 2, 2, 2, 2, 2];
    let d = [0u8, 0, 1, 1, 2, 2, 0, 1, 2, 0];
    let t = and_case(
        t,
        &c,
        &d,
        Ok(()),
        b"\x00\x00\x01\x01\x02\x02\x00\x02\x02\x00",
    );
    let t = or_case(
        t,
        &c,
        &d,
        Ok(()),
        b"\x01\x01\x01\x01\x01\x02\x02\x01\x02\x02",
    );
    pair_refused(t, b"", b"", Ok(()))
}

// Unequal lengths before bad codes, and bad codes before room that is one trit short.
pub(crate) fn pairs_refused(t: Tally) -> Tally {
    let long = [0u8, 1, 2, 0, 1, 2, 0, 1, 2, 0, 1];
    let bad = [0u8, 1, 2, 0, 1, 2, 0, 1, 2, 0, 3];
    let t = pair_refused(t, &long, &long, Err(NoRoom));
    let t = pair_refused(t, &long, &bad, Err(BadValue));
    let t = pair_refused(t, &bad, &long, Err(BadValue));
    let t = pair_refused(t, b"\x01", b"\xff", Err(BadValue));
    let t = pair_refused(t, b"\x01", b"", Err(BadShape));
    let t = pair_refused(t, b"\x01", &bad, Err(BadShape));
    pair_refused(t, &long, b"\x03", Err(BadShape))
}

// Room of no bytes.
pub(crate) fn no_room(t: Tally) -> Tally {
    let mut room: [u8; 0] = [];
    let full = Err(NoRoom);
    let t = add(t, net_logic::const_not(&mut room, b"") == Ok(()));
    let t = add(t, net_logic::const_not(&mut room, b"\x00") == full);
    let t = add(t, net_logic::const_and(&mut room, b"", b"") == Ok(()));
    let t = add(t, net_logic::const_and(&mut room, b"\x00", b"\x00") == full);
    let t = add(t, net_logic::const_or(&mut room, b"", b"") == Ok(()));
    add(t, net_logic::const_or(&mut room, b"\x00", b"\x00") == full)
}
