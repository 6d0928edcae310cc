// Memories that the numbers 1 to 4 refuse, and their neighbours that none does.
use crate::calls;
use crate::case::{Case, of};
use net_check::Breaks;
use net_flip_flop::Controls;
use net_memory::Memory;
use net_value::ControlNet;
use rules::Refusal;
use rules::Refusal::{BadDepth, BadShape, BadValue, TooLarge};
use try_kit::samples::{
    base, clocked_port, memory, neg, plain, pos, read_by, read_port, usual, with_read, with_write,
    write_by, write_port,
};
use try_kit::tally::{Tally, add};

// Every call is refused so, also for a port that is not there; or none is.
fn numbered(t: Tally, c: Case, n: Option<Refusal>) -> Tally {
    let t = add(t, calls::memory_refusal(c).err() == n);
    let t = add(t, calls::output_len(c).err() == n);
    let t = add(t, calls::can_lower_fallback(c).err() == n);
    if n.is_none() {
        return t;
    }
    add(t, calls::output_slice(c, 99).err() == n)
}

fn bare(t: Tally, depth: u32, width: u32, init: u32, n: Option<Refusal>) -> Tally {
    numbered(t, of(plain(depth, width, init)), n)
}

pub(crate) fn sizes(t: Tally) -> Tally {
    let t = bare(t, 32768, 1, 32768, None);
    let t = bare(t, 32769, 1, 32769, Some(TooLarge));
    let t = bare(t, 1, 128, 128, None);
    let t = bare(t, 1, 129, 129, Some(TooLarge));
    let t = bare(t, 256, 128, 32768, None);
    let t = bare(t, 257, 128, 32896, Some(TooLarge));
    let t = bare(t, 10922, 3, 32766, None);
    let t = bare(t, 10923, 3, 32769, Some(TooLarge));
    let t = bare(t, 0, 128, 0, None);
    let t = bare(t, 0, 129, 0, Some(TooLarge));
    let t = bare(t, 32768, 0, 0, None);
    let t = bare(t, 32769, 0, 0, Some(TooLarge));
    let t = bare(t, 65536, 65536, 0, Some(TooLarge));
    bare(t, 0, 0, 0, None)
}

// So many write ports with 2 bits, and so many clocked read ports.
fn counted(t: Tally, writes: u32, reads: u32, relations: u32, n: Option<Refusal>) -> Tally {
    let m = memory(
        8,
        2,
        16,
        writes,
        write_port(1, 2),
        reads,
        clocked_port(1, 2, relations),
    );
    numbered(t, of(m), n)
}

pub(crate) fn counts(t: Tally) -> Tally {
    let t = counted(t, 8, 0, 0, None);
    let t = counted(t, 9, 0, 0, Some(TooLarge));
    let t = counted(t, 4294967295, 0, 0, Some(TooLarge));
    let t = counted(t, 0, 8, 0, None);
    let t = counted(t, 0, 9, 0, Some(TooLarge));
    let t = counted(t, 8, 8, 8, None);
    let t = counted(t, 8, 8, 7, Some(BadShape));
    let t = counted(t, 8, 8, 9, Some(BadShape));
    let t = counted(t, 2, 1, 2, None);
    let t = counted(t, 2, 1, 1, Some(BadShape));
    let t = counted(t, 2, 1, 3, Some(BadShape));
    counted(t, 0, 1, 1, Some(BadShape))
}

// A write port and a read port with an address of so many nets and so many data bits, each alone.
fn shaped(
    t: Tally,
    depth: u32,
    width: u32,
    init: u32,
    addr: u32,
    data: u32,
    n: Option<Refusal>,
) -> Tally {
    let w = write_port(addr, data);
    let r = read_port(addr, data);
    let t = numbered(t, of(memory(depth, width, init, 1, w, 0, r)), n);
    numbered(t, of(memory(depth, width, init, 0, w, 1, r)), n)
}

pub(crate) fn data_lens(t: Tally) -> Tally {
    let t = shaped(t, 16, 2, 32, 1, 2, None);
    let t = shaped(t, 16, 2, 32, 1, 3, Some(BadShape));
    let t = shaped(t, 16, 2, 32, 1, 1, Some(BadShape));
    let t = shaped(t, 16, 2, 32, 1, 0, Some(BadShape));
    let t = shaped(t, 16, 2, 32, 1, 6, Some(BadShape));
    let t = shaped(t, 32, 2, 64, 1, 32, None);
    let t = shaped(t, 32, 2, 64, 1, 64, Some(BadShape));
    let t = shaped(t, 8, 0, 0, 1, 0, None);
    shaped(t, 8, 0, 0, 1, 1, Some(BadShape))
}

pub(crate) fn addresses(t: Tally) -> Tally {
    let t = shaped(t, 16, 2, 32, 0, 2, None);
    let t = shaped(t, 16, 2, 32, 32, 2, None);
    let t = shaped(t, 16, 2, 32, 33, 2, Some(BadShape));
    let t = shaped(t, 16, 2, 32, 31, 4, None);
    let t = shaped(t, 16, 2, 32, 32, 4, Some(BadShape));
    let t = shaped(t, 16, 2, 32, 28, 32, None);
    let t = shaped(t, 16, 2, 32, 29, 32, Some(BadShape));
    let t = shaped(t, 8, 0, 0, 32, 0, None);
    shaped(t, 8, 0, 0, 33, 0, Some(BadShape))
}

// Depths that are multiples of 2^k, and others.
pub(crate) fn depths(t: Tally) -> Tally {
    let t = shaped(t, 16, 2, 32, 1, 32, None);
    let t = shaped(t, 24, 2, 48, 1, 32, Some(BadDepth));
    let t = shaped(t, 24, 2, 48, 1, 16, None);
    let t = shaped(t, 7, 2, 14, 1, 4, Some(BadDepth));
    let t = shaped(t, 7, 2, 14, 1, 2, None);
    let t = shaped(t, 0, 2, 0, 1, 32, None);
    shaped(t, 7, 0, 0, 1, 0, None)
}

// The first memory with other sizes.
fn sized(depth: u32, width: u32, init: u32) -> Memory {
    try_kit::samples::with_sizes(base(), depth, width, init, 2, 3)
}

// The first memory with another write port 1.
fn written(t: Tally, mask: u32, clock: ControlNet, n: Option<Refusal>) -> Tally {
    let m = with_write(base(), 1, write_by(3, 2, mask, clock));
    numbered(t, of(m), n)
}

// The first memory with another read port 2.
fn read(
    t: Tally,
    clear: u32,
    reset: u32,
    init: u32,
    count: u32,
    relations: [u8; 8],
    flip_flop: Option<Controls>,
    n: Option<Refusal>,
) -> Tally {
    let p = read_by(3, 2, clear, reset, init, count, relations, flip_flop);
    numbered(t, of(with_read(base(), 2, p)), n)
}

pub(crate) fn lens(t: Tally) -> Tally {
    let codes = [2u8, 1, 0, 3, 3, 3, 3, 3];
    let f = usual();
    let t = written(t, 1, pos(9), Some(BadShape));
    let t = written(t, 3, pos(9), Some(BadShape));
    let t = read(t, 2, 2, 2, 2, codes, f, None);
    let t = read(t, 1, 2, 2, 2, codes, f, Some(BadShape));
    let t = read(t, 2, 3, 2, 2, codes, f, Some(BadShape));
    let t = read(t, 2, 2, 1, 2, codes, f, Some(BadShape));
    let t = read(t, 2, 2, 2, 3, codes, f, Some(BadShape));
    let t = read(t, 1, 2, 0, 9, codes, None, None);
    let t = numbered(t, of(sized(8, 2, 15)), Some(BadShape));
    numbered(t, of(sized(8, 2, 17)), Some(BadShape))
}

// Arrays that are not as long as the memory says.
pub(crate) fn arrays(t: Tally) -> Tally {
    let c = of(base());
    let t = numbered(t, c.with_lens(24, 49), None);
    let t = numbered(t, c.with_lens(23, 49), Some(BadShape));
    let t = numbered(t, c.with_lens(25, 49), Some(BadShape));
    let t = numbered(t, c.with_lens(24, 48), Some(BadShape));
    let t = numbered(t, c.with_lens(24, 50), Some(BadShape));
    let t = numbered(t, c.with_lens(0, 49), Some(BadShape));
    numbered(t, c.with_lens(24, 0), Some(BadShape))
}

// A net at each of the 24 places of the first memory.
fn each_net(t: Tally, net: u32, n: Option<Refusal>) -> Tally {
    let mut u = t;
    for i in 0..24 {
        u = numbered(u, of(base()).with_net(i, net), n);
    }
    u
}

pub(crate) fn nets(t: Tally) -> Tally {
    let t = each_net(t, 16777216, Some(BadValue));
    let t = each_net(t, 16777215, None);
    let t = each_net(t, 4294967295, None);
    let t = each_net(t, 4294967294, Some(BadValue));
    let t = each_net(t, 0, None);
    numbered(t, of(base()).with_net(24, 16777216), None)
}

// Nothing looks at the trits 40 to 42, of a port without a flip-flop.
fn trit_refusal(code: u8, i: usize) -> Option<Refusal> {
    if code < 3 || 40 <= i && i < 43 {
        return None;
    }
    Some(BadValue)
}

// A code at each of the 49 places of the first memory.
fn each_trit(t: Tally, code: u8) -> Tally {
    let mut u = t;
    for i in 0..49 {
        u = numbered(u, of(base()).with_trit(i, code), trit_refusal(code, i));
    }
    u
}

pub(crate) fn trits(t: Tally) -> Tally {
    let t = each_trit(t, 2);
    let t = each_trit(t, 3);
    let t = each_trit(t, 255);
    numbered(t, of(base()).with_trit(49, 3), None)
}

pub(crate) fn relations(t: Tally) -> Tally {
    let f = usual();
    let t = read(t, 2, 2, 2, 2, [2u8, 2, 3, 3, 3, 3, 3, 3], f, None);
    let t = read(t, 2, 2, 2, 2, [3u8, 0, 0, 0, 0, 0, 0, 0], f, Some(BadValue));
    let t = read(t, 2, 2, 2, 2, [0u8, 3, 0, 0, 0, 0, 0, 0], f, Some(BadValue));
    read(t, 2, 2, 2, 2, [3u8; 8], None, None)
}

// A control at each of five places: a write clock, and a clocked read port's.
fn each_control(t: Tally, x: ControlNet, n: Option<Refusal>) -> Tally {
    let r = [2u8, 1, 0, 0, 0, 0, 0, 0];
    let z = pos(0);
    let t = written(t, 2, x, n);
    let t = read(t, 2, 2, 2, 2, r, try_kit::samples::controls(x, z, z, z), n);
    let t = read(t, 2, 2, 2, 2, r, try_kit::samples::controls(z, x, z, z), n);
    let t = read(t, 2, 2, 2, 2, r, try_kit::samples::controls(z, z, x, z), n);
    read(t, 2, 2, 2, 2, r, try_kit::samples::controls(z, z, z, x), n)
}

pub(crate) fn controls(t: Tally) -> Tally {
    let t = each_control(t, pos(0), None);
    let t = each_control(t, pos(1), None);
    let t = each_control(t, pos(2), None);
    let t = each_control(t, pos(16777215), None);
    let t = each_control(t, pos(16777216), Some(BadValue));
    let t = each_control(t, pos(4294967295), Some(BadValue));
    let t = each_control(t, neg(0), Some(BadValue));
    let t = each_control(t, neg(1), Some(BadValue));
    let t = each_control(t, neg(2), None);
    let t = each_control(t, neg(16777215), None);
    let t = each_control(t, neg(16777216), Some(BadValue));
    each_control(t, neg(4294967295), Some(BadValue))
}

// Memories that break more than one number.
pub(crate) fn orders(t: Tally) -> Tally {
    let deep = sized(32769, 2, 0);
    let odd = sized(6, 2, 12);
    let last = with_read(base(), 2, clocked_port(3, 3, 2));
    let t = numbered(t, of(deep).with_net(0, 16777216), Some(TooLarge));
    let t = numbered(t, of(odd), Some(BadDepth));
    let t = numbered(t, of(sized(6, 2, 11)), Some(BadShape));
    let t = numbered(t, of(odd).with_net(0, 16777216), Some(BadDepth));
    let t = numbered(t, of(odd).with_trit(0, 3), Some(BadDepth));
    let t = numbered(t, of(last).with_net(0, 16777216), Some(BadShape));
    let t = numbered(t, of(last).with_trit(0, 3), Some(BadShape));
    numbered(
        t,
        of(with_read(odd, 2, clocked_port(3, 3, 2))),
        Some(BadShape),
    )
}

fn flagged(t: Tally, c: Case, beside: Breaks, n: Option<Refusal>) -> Tally {
    add(t, calls::call_refusal(c, 16777216, beside).err() == n)
}

// What else of a call breaks 1, 2 or 4.
pub(crate) fn flags(t: Tally) -> Tally {
    let good = of(base());
    let odd = of(sized(6, 2, 12));
    let none = Breaks::NOTHING;
    let large = Breaks {
        large: true,
        ..none
    };
    let shape = Breaks {
        shape: true,
        ..none
    };
    let value = Breaks {
        value: true,
        ..none
    };
    let both = Breaks {
        large: false,
        shape: true,
        value: true,
    };
    let all = Breaks {
        large: true,
        ..both
    };
    let t = flagged(t, good, none, None);
    let t = flagged(t, good, all, Some(TooLarge));
    let t = flagged(t, good, both, Some(BadShape));
    let t = flagged(t, good, value, Some(BadValue));
    let t = flagged(t, odd, value, Some(BadDepth));
    let t = flagged(t, odd, shape, Some(BadShape));
    let t = flagged(t, odd, large, Some(TooLarge));
    let t = flagged(t, of(plain(32769, 0, 0)), both, Some(TooLarge));
    flagged(t, good.with_net(0, 16777216), value, Some(BadValue))
}

fn next_free(t: Tally, c: Case, next: u32, n: Option<Refusal>) -> Tally {
    add(t, calls::call_refusal(c, next, Breaks::NOTHING).err() == n)
}

// The first memory has nets 5, 7 and 9, and one more.
pub(crate) fn nexts(t: Tally) -> Tally {
    let c = of(base());
    let t = next_free(t, c, 10, None);
    let t = next_free(t, c, 9, Some(BadValue));
    let t = next_free(t, c, 0, Some(BadValue));
    let t = next_free(t, c.with_net(23, 30), 31, None);
    let t = next_free(t, c.with_net(23, 30), 30, Some(BadValue));
    let t = next_free(t, c.with_net(0, 16777216), 16777217, Some(BadValue));
    let t = next_free(t, c.with_net(0, 16777215), 16777217, None);
    next_free(t, c.with_net(0, 4294967295), 26, None)
}

fn total(t: Tally, m: Memory, nets: usize, trits: usize) -> Tally {
    let t = add(t, net_memory::nets_total(&m) == nets);
    add(t, net_memory::trits_total(&m) == trits)
}

// How much a memory says that it is lent.
pub(crate) fn totals(t: Tally) -> Tally {
    let m = memory(8, 2, 16, 8, write_port(3, 4), 8, clocked_port(1, 4, 8));
    let t = total(t, base(), 24, 49);
    let t = total(t, plain(256, 128, 32768), 0, 32768);
    total(t, m, 96, 112)
}
