// Extractions from the first memory, whose places `try_kit::samples::base` names.
use crate::case::{Case, of};
use crate::extracts::{extracted, lend, refused};
use net_memory::{Memory, MemoryReadPort};
use rules::Refusal;
use rules::Refusal::{BadDepth, BadShape, BadValue, NoRoom, OutOfRange, TooLarge};
use try_kit::samples::{base, clocked_port, read_by, with_read, with_sizes};
use try_kit::tally::Tally;

// The read ports of the first memory.
fn port_0() -> MemoryReadPort {
    clocked_port(1, 8, 2)
}

fn port_1() -> MemoryReadPort {
    read_by(3, 2, 1, 0, 2, 1, [3u8; 8], None)
}

// Port 1 in a new memory: without its trits.
fn kept_1() -> MemoryReadPort {
    read_by(3, 2, 0, 0, 0, 1, [3u8; 8], None)
}

fn port_2() -> MemoryReadPort {
    clocked_port(3, 2, 2)
}

// The first memory with these read ports.
fn after(count: u32, a: MemoryReadPort, b: MemoryReadPort) -> Memory {
    let m = with_sizes(base(), 8, 2, 16, 2, count);
    let m = with_read(m, 0, a);
    with_read(m, 1, b)
}

// An accepted extraction into rooms of so many places.
fn fits(
    t: Tally,
    c: Case,
    list: &[u32],
    a: usize,
    b: usize,
    e: usize,
    m: Memory,
    nets: &[(usize, usize)],
    trits: &[(usize, usize)],
    outs: &[(usize, usize)],
) -> Tally {
    extracted(t, c, list, lend(a, b, e), None, m, nets, trits, outs)
}

// Ports 2 and 0, and 2 again, into rooms that are exactly full.
fn named_twice(t: Tally) -> Tally {
    let list = [2u32, 0, 2];
    let nets = [(0, 17), (21, 3), (17, 1), (21, 3)];
    let trits = [(0, 16), (43, 6), (16, 24), (43, 6)];
    let outs = [(10, 2), (0, 8), (10, 2)];
    let m = after(3, port_2(), port_0());
    fits(t, of(base()), &list, 24, 52, 12, m, &nets, &trits, &outs)
}

// Port 1 alone, which has trits that nothing looks at and no flip-flop, into larger rooms: its trits are left out.
fn unclocked(t: Tally) -> Tally {
    let nets = [(0, 17), (18, 3)];
    let trits = [(0, 16)];
    let outs = [(8, 2)];
    let m = after(1, kept_1(), port_1());
    fits(t, of(base()), &[1u32], 99, 99, 99, m, &nets, &trits, &outs)
}

// Every port in its order: nothing changes but the trits of port 1.
fn every_port(t: Tally) -> Tally {
    let list = [0u32, 1, 2];
    let nets = [(0, 24)];
    let trits = [(0, 40), (43, 6)];
    let outs = [(0, 12)];
    fits(
        t,
        of(base()),
        &list,
        24,
        46,
        12,
        with_read(base(), 1, kept_1()),
        &nets,
        &trits,
        &outs,
    )
}

// No port: the write ports and the initial trits are left.
fn no_port(t: Tally) -> Tally {
    let list: [u32; 0] = [];
    let nets = [(0, 17)];
    let trits = [(0, 16)];
    let outs: [(usize, usize); 0] = [];
    let m = after(0, port_0(), port_1());
    fits(t, of(base()), &list, 17, 16, 0, m, &nets, &trits, &outs)
}

// Port 1 eight times.
fn eight_times(t: Tally) -> Tally {
    let mut nets = [(18, 3); 9];
    nets[0] = (0, 17);
    let trits = [(0, 16)];
    let outs = [(8, 2); 8];
    let mut m = after(8, kept_1(), kept_1());
    let p = kept_1();
    m.read_ports = [p; 8];
    fits(
        t,
        of(base()),
        &[1u32; 8],
        41,
        16,
        16,
        m,
        &nets,
        &trits,
        &outs,
    )
}

pub(crate) fn accepted(t: Tally) -> Tally {
    let t = named_twice(t);
    let t = unclocked(t);
    let t = every_port(t);
    let t = no_port(t);
    eight_times(t)
}

// An output net at a place that port 2 alone leaves out.
fn other_output(t: Tally, at: usize, net: u32) -> Tally {
    let nets = [(0, 17), (21, 3)];
    let trits = [(0, 16), (43, 6)];
    let outs = [(10, 2)];
    let m = after(1, port_2(), port_1());
    let c = of(base()).with_out(at, net);
    fits(t, c, &[2u32], 20, 22, 2, m, &nets, &trits, &outs)
}

// The largest good net, and constants.
pub(crate) fn output_nets(t: Tally) -> Tally {
    let t = other_output(t, 0, 16777215);
    let t = other_output(t, 9, 4294967295);
    let t = other_output(t, 9, 0);
    other_output(t, 9, 1)
}

// Ports 2, 0 and 2 into rooms of so many places.
fn short(t: Tally, a: usize, b: usize, e: usize) -> Tally {
    let list = [2u32, 0, 2];
    refused(t, of(base()), &list, lend(a, b, e), NoRoom)
}

// An empty list into rooms of so many places.
fn short_empty(t: Tally, a: usize, b: usize) -> Tally {
    let list: [u32; 0] = [];
    refused(t, of(base()), &list, lend(a, b, 0), NoRoom)
}

// Number 20: rooms that are one place short.
pub(crate) fn short_rooms(t: Tally) -> Tally {
    let t = short(t, 23, 52, 12);
    let t = short(t, 24, 51, 12);
    let t = short(t, 24, 52, 11);
    let t = short(t, 0, 0, 0);
    let t = short_empty(t, 16, 16);
    short_empty(t, 17, 15)
}

// So many times a port, into rooms of so many places.
fn listed(t: Tally, c: Case, count: usize, port: u32, size: usize, refusal: Refusal) -> Tally {
    let list = [port; 9];
    refused(
        t,
        c,
        lists::part(&list, 0, count),
        lend(size, size, size),
        refusal,
    )
}

// The first memory with some of its read ports, and a list that names one that is not there.
fn missing(t: Tally, reads: u32, outs: usize, port: u32, size: usize, refusal: Refusal) -> Tally {
    let m = with_sizes(base(), 8, 2, 16, 2, reads);
    let c = of(m);
    listed(
        t,
        c.with_lens(c.nets, c.trits, outs),
        1,
        port,
        size,
        refusal,
    )
}

// Number 15, also with no room, and not before 2.
pub(crate) fn no_ports(t: Tally) -> Tally {
    let t = missing(t, 3, 12, 3, 99, OutOfRange);
    let t = missing(t, 3, 12, 4294967295, 99, OutOfRange);
    let t = missing(t, 3, 12, 3, 0, OutOfRange);
    let t = missing(t, 2, 10, 2, 99, OutOfRange);
    let t = missing(t, 0, 0, 0, 99, OutOfRange);
    let t = missing(t, 3, 11, 3, 99, BadShape);
    missing(t, 3, 13, 3, 99, BadShape)
}

// The first memory with another depth, so many initial trits, and an output net, a net and a trit put at their places 0.
fn broken(depth: u32, init: u32, out: u32, net: u32, trit: u8) -> Case {
    let c = of(with_sizes(base(), depth, 2, init, 2, 3));
    c.with_out(0, out).with_net(0, net).with_trit(0, trit)
}

// So many times port 3, which is not there, into no room; and each number after those that it yields to.
pub(crate) fn orders(t: Tally) -> Tally {
    let t = listed(t, broken(8, 16, 5000, 2, 0), 9, 0, 199, TooLarge);
    let t = listed(t, broken(6, 11, 16777216, 16777216, 3), 9, 3, 0, TooLarge);
    let t = listed(
        t,
        broken(32769, 11, 16777216, 16777216, 3),
        1,
        3,
        0,
        TooLarge,
    );
    let t = listed(t, broken(6, 11, 16777216, 16777216, 3), 8, 3, 0, BadShape);
    let t = listed(t, broken(6, 12, 16777216, 16777216, 3), 8, 3, 0, BadDepth);
    let t = listed(t, broken(8, 16, 16777216, 2, 0), 8, 3, 0, BadValue);
    let t = listed(t, broken(8, 16, 5000, 16777216, 0), 8, 3, 0, BadValue);
    let t = listed(t, broken(8, 16, 5000, 2, 3), 8, 3, 0, BadValue);
    let t = listed(t, broken(8, 16, 5000, 2, 0), 8, 3, 0, OutOfRange);
    let t = listed(t, broken(8, 16, 5000, 2, 0), 8, 1, 0, NoRoom);
    listed(t, broken(8, 16, 5000, 2, 0), 0, 1, 0, NoRoom)
}
