// output_len, read_port_output_slice and can_lower_fallback.
use crate::calls;
use crate::case::of;
use net_memory::Memory;
use net_value::ControlNet;
use port_outputs::OutputSlice;
use rules::Refusal;
use rules::Refusal::{BadDepth, OutOfRange};
use try_kit::samples::{
    base, memory, neg, plain, pos, read_port, with_sizes, with_write, write_by,
};
use try_kit::tally::{Tally, add};

fn length_is(t: Tally, m: Memory, len: usize) -> Tally {
    add(t, calls::output_len(of(m)) == Ok(len))
}

fn slice_is(t: Tally, m: Memory, port: usize, start: usize, size: usize) -> Tally {
    let slice = OutputSlice { start, size };
    add(t, calls::output_slice(of(m), port) == Ok(slice))
}

fn no_slice(t: Tally, m: Memory, port: usize, refusal: Refusal) -> Tally {
    add(t, calls::output_slice(of(m), port) == Err(refusal))
}

// Eight read ports with four data bits.
fn eight() -> Memory {
    memory(4, 1, 4, 0, write_by(1, 1, 1, pos(9)), 8, read_port(1, 4))
}

fn seven() -> Memory {
    with_sizes(eight(), 4, 1, 4, 0, 7)
}

pub(crate) fn outputs(t: Tally) -> Tally {
    let t = length_is(t, base(), 12);
    let t = slice_is(t, base(), 0, 0, 8);
    let t = slice_is(t, base(), 1, 8, 2);
    let t = slice_is(t, base(), 2, 10, 2);
    let t = no_slice(t, base(), 3, OutOfRange);
    let t = length_is(t, eight(), 32);
    let t = slice_is(t, eight(), 7, 28, 4);
    let t = no_slice(t, eight(), 8, OutOfRange);
    let t = no_slice(t, eight(), 18446744073709551615, OutOfRange);
    let t = length_is(t, seven(), 28);
    let t = no_slice(t, seven(), 7, OutOfRange);
    let t = slice_is(t, seven(), 6, 24, 4);
    let t = no_slice(t, with_sizes(base(), 6, 2, 12, 2, 3), 3, BadDepth);
    let t = length_is(t, plain(4, 1, 4), 0);
    no_slice(t, plain(4, 1, 4), 0, OutOfRange)
}

// Write ports, all with net 9 as their clock but for one.
fn clocked(writes: u32, at: usize, clock: ControlNet) -> Memory {
    let m = memory(
        4,
        1,
        4,
        writes,
        write_by(1, 1, 1, pos(9)),
        0,
        read_port(1, 1),
    );
    with_write(m, at, write_by(1, 1, 1, clock))
}

fn yes(t: Tally, m: Memory) -> Tally {
    add(t, calls::can_lower_fallback(of(m)) == Ok(true))
}

fn no(t: Tally, m: Memory) -> Tally {
    add(t, calls::can_lower_fallback(of(m)) == Ok(false))
}

// One clock is one net with one sign; ports that are not in use do not count.
pub(crate) fn fallbacks(t: Tally) -> Tally {
    let t = yes(t, clocked(0, 0, pos(8)));
    let t = yes(t, clocked(1, 0, neg(8)));
    let t = yes(t, clocked(2, 1, pos(9)));
    let t = no(t, clocked(2, 1, neg(9)));
    let t = no(t, clocked(2, 0, neg(9)));
    let t = no(t, clocked(2, 1, pos(8)));
    let t = no(t, clocked(2, 1, pos(1)));
    let t = yes(t, clocked(2, 2, pos(8)));
    let t = no(t, clocked(3, 2, pos(8)));
    let t = no(t, clocked(8, 7, pos(8)));
    let t = no(t, clocked(8, 4, neg(9)));
    yes(t, clocked(7, 7, pos(8)))
}
