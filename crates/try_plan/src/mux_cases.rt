// swizzle_mux_bits.
use crate::plans::{mux, plan};
use net_memory::Memory;
use rules::Refusal;
use rules::Refusal::{BadEntries, BadSoftMask, BadWideLogs, OutOfRange, TooLarge};
use swizzle_plan::{MemorySwizzle, Plan};
use swizzle_sizes::MuxBits;
use try_kit::samples::{memory, plain, read_port, with_read, with_write, write_port};
use try_kit::tally::Tally;

// Width 1: write ports with k 0 and 2, read ports with k 1, 0 and 3.
fn ports(depth: u32) -> Memory {
    let m = memory(depth, 1, depth, 2, write_port(2, 1), 3, read_port(2, 1));
    let m = with_write(m, 1, write_port(2, 4));
    let m = with_read(m, 0, read_port(2, 2));
    with_read(m, 2, read_port(2, 8))
}

// The words of the write ports and of two listed read ports.
fn two_and_two(
    t: Tally,
    m: Memory,
    list: [u32; 2],
    s: MemorySwizzle,
    writes: [u32; 2],
    reads: [u32; 2],
    want: [u32; 4],
) -> Tally {
    mux(
        t,
        m,
        &list,
        Plan {
            swizzle: s,
            entries: &[0u32],
            writes: &writes,
            reads: &reads,
        },
        Ok(MuxBits {
            writes: [want[0], want[1], 0, 0, 0, 0, 0, 0],
            reads: [want[2], want[3], 0, 0, 0, 0, 0, 0],
        }),
    )
}

// Chunk bits + soft bits + new - old, with 1, 2, 3 and 4 chunks of 8 rows, soft bits, and a port that is listed twice.
pub(crate) fn bits(t: Tally) -> Tally {
    let s = plan(0, 3, 1);
    let t = two_and_two(t, ports(8), [0, 1], s, [0, 2], [1, 0], [0, 0, 0, 0]);
    let t = two_and_two(t, ports(8), [0, 2], s, [3, 2], [3, 3], [3, 0, 2, 0]);
    let t = two_and_two(t, ports(16), [1, 0], s, [0, 2], [0, 1], [1, 1, 1, 1]);
    let t = two_and_two(t, ports(24), [2, 2], s, [0, 3], [3, 3], [2, 3, 2, 2]);
    let t = two_and_two(t, ports(32), [1, 1], s, [0, 2], [0, 2], [2, 2, 2, 4]);
    let t = two_and_two(t, ports(40), [1, 1], s, [0, 2], [0, 3], [3, 3, 3, 6]);
    let soft = plan(3, 3, 1);
    let t = two_and_two(t, ports(32), [0, 2], soft, [0, 0], [0, 1], [2, 0, 1, 0]);
    let t = two_and_two(t, ports(40), [0, 2], soft, [0, 0], [1, 3], [3, 1, 3, 3]);
    let top = plan(4, 3, 1);
    two_and_two(t, ports(24), [0, 2], top, [0, 2], [1, 2], [2, 2, 2, 1])
}

// One write port of width 1 and a plan with so many hard bits: chunks of the depth.
fn chunks(t: Tally, depth: u32, hard: u32, want: u32) -> Tally {
    let m = memory(depth, 1, depth, 1, write_port(2, 1), 0, read_port(0, 1));
    let none: [u32; 0] = [];
    mux(
        t,
        m,
        &none,
        Plan {
            swizzle: plan(0, hard, 1),
            entries: &[0u32],
            writes: &[0u32],
            reads: &none,
        },
        Ok(MuxBits {
            writes: [want, 0, 0, 0, 0, 0, 0, 0],
            reads: [0; 8],
        }),
    )
}

// Chunks 1, 2, 5: 0, 1, 3 bits; a chunk that is not full counts.
pub(crate) fn chunk_bits(t: Tally) -> Tally {
    let t = chunks(t, 1, 0, 0);
    let t = chunks(t, 2, 0, 1);
    let t = chunks(t, 3, 0, 2);
    let t = chunks(t, 4, 0, 2);
    let t = chunks(t, 5, 0, 3);
    let t = chunks(t, 8, 3, 0);
    let t = chunks(t, 9, 3, 1);
    let t = chunks(t, 16, 3, 1);
    let t = chunks(t, 17, 3, 2);
    let t = chunks(t, 32768, 15, 0);
    let t = chunks(t, 32768, 0, 15);
    chunks(t, 0, 0, 0)
}

// Depth 0 with any mask: the soft bits and the logs alone.
pub(crate) fn nothing(t: Tally) -> Tally {
    let all = plan(4294967295, 4, 1);
    let top = plan(2147483648, 4, 1);
    let empty: [u32; 0] = [];
    let t = two_and_two(t, ports(0), [0, 2], all, [0, 4], [1, 0], [32, 34, 32, 29]);
    let t = two_and_two(t, ports(0), [0, 2], top, [0, 2], [1, 3], [1, 1, 1, 1]);
    let none = MuxBits {
        writes: [0; 8],
        reads: [0; 8],
    };
    let flat = plain(5, 0, 0);
    let bare = Plan {
        swizzle: plan(0, 0, 1),
        entries: &empty,
        writes: &empty,
        reads: &empty,
    };
    let t = mux(t, flat, &empty, bare, Ok(none));
    let masked = Plan {
        swizzle: plan(1, 0, 1),
        ..bare
    };
    mux(t, flat, &empty, masked, Err(BadSoftMask))
}

// 8 rows: so many times a listed port, a mask, the hard bits, one entry, so many write logs, of which the first is named, and so many read logs.
fn no_bits(
    t: Tally,
    ports_count: usize,
    port: u32,
    mask: u32,
    hard: u32,
    entry: u32,
    writes: usize,
    first: u32,
    other: u32,
    reads: usize,
    read: u32,
    refusal: Refusal,
) -> Tally {
    let list = [port; 9];
    let logs = [first, other, 2];
    let read_logs = [read; 9];
    mux(
        t,
        ports(8),
        lists::part(&list, 0, ports_count),
        Plan {
            swizzle: plan(mask, hard, 1),
            entries: &[entry],
            writes: lists::part(&logs, 0, writes),
            reads: lists::part(&read_logs, 0, reads),
        },
        Err(refusal),
    )
}

// Number 9: one log to a write port and to a listed read port.
pub(crate) fn log_counts(t: Tally) -> Tally {
    let t = no_bits(t, 1, 0, 0, 3, 0, 1, 0, 2, 1, 1, BadWideLogs);
    let t = no_bits(t, 1, 0, 0, 3, 0, 3, 0, 2, 1, 1, BadWideLogs);
    let t = no_bits(t, 1, 0, 0, 3, 0, 2, 0, 2, 0, 1, BadWideLogs);
    let t = no_bits(t, 1, 0, 0, 3, 0, 2, 0, 2, 2, 1, BadWideLogs);
    let t = no_bits(t, 0, 0, 0, 3, 0, 2, 0, 2, 3, 1, BadWideLogs);
    no_bits(t, 8, 1, 0, 3, 0, 2, 0, 2, 9, 0, BadWideLogs)
}

// Number 9: a log above the hard bits, or below the non-soft bits under the old one.
pub(crate) fn log_sizes(t: Tally) -> Tally {
    let t = no_bits(t, 1, 0, 0, 2, 0, 2, 3, 2, 1, 1, BadWideLogs);
    let t = no_bits(t, 1, 0, 0, 2, 0, 2, 2, 2, 1, 3, BadWideLogs);
    let t = no_bits(t, 1, 0, 0, 3, 0, 2, 0, 1, 1, 1, BadWideLogs);
    let t = no_bits(t, 1, 0, 0, 3, 0, 2, 0, 2, 1, 0, BadWideLogs);
    let t = no_bits(t, 1, 0, 1, 3, 0, 2, 0, 0, 1, 0, BadWideLogs);
    let t = no_bits(t, 1, 2, 4, 3, 0, 2, 0, 2, 1, 1, BadWideLogs);
    let t = no_bits(t, 1, 0, 4, 3, 0, 2, 0, 1, 1, 1, BadWideLogs);
    two_and_two(
        t,
        ports(8),
        [0, 0],
        plan(1, 3, 1),
        [0, 1],
        [0, 1],
        [1, 0, 0, 1],
    )
}

// Number 15 after 9, for ports that are not there.
pub(crate) fn missing(t: Tally) -> Tally {
    let t = no_bits(t, 1, 3, 0, 3, 0, 2, 0, 2, 1, 0, OutOfRange);
    let t = no_bits(t, 1, 4294967295, 0, 3, 0, 2, 0, 2, 1, 3, OutOfRange);
    let t = no_bits(t, 8, 3, 0, 3, 0, 2, 0, 2, 8, 0, OutOfRange);
    let t = no_bits(t, 1, 3, 0, 3, 0, 2, 0, 1, 1, 0, BadWideLogs);
    let t = no_bits(t, 1, 3, 0, 3, 0, 2, 0, 2, 1, 4, BadWideLogs);
    no_bits(t, 1, 3, 0, 3, 0, 2, 0, 2, 2, 0, BadWideLogs)
}

// Port 1 eight times, whose new wide log is 3.
fn eight_times(t: Tally) -> Tally {
    let want = MuxBits {
        writes: [0; 8],
        reads: [3; 8],
    };
    mux(
        t,
        ports(8),
        &[1u32; 8],
        Plan {
            swizzle: plan(0, 3, 1),
            entries: &[0u32],
            writes: &[0u32, 2],
            reads: &[3u32; 8],
        },
        Ok(want),
    )
}

// Lists of eight and nine, and the plan's other numbers.
pub(crate) fn others(t: Tally) -> Tally {
    let t = eight_times(t);
    let t = no_bits(t, 9, 1, 0, 3, 0, 2, 0, 2, 9, 3, TooLarge);
    let t = no_bits(t, 9, 9, 0, 3, 1, 1, 0, 2, 1, 5, TooLarge);
    let t = no_bits(t, 1, 0, 0, 3, 0, 2, 5, 2, 1, 1, TooLarge);
    let t = no_bits(t, 1, 0, 0, 3, 0, 2, 0, 2, 1, 5, TooLarge);
    let t = no_bits(t, 1, 0, 0, 16, 0, 2, 0, 2, 1, 1, TooLarge);
    let t = no_bits(t, 1, 0, 16, 3, 1, 1, 0, 2, 1, 1, BadEntries);
    no_bits(t, 1, 0, 16, 3, 0, 1, 0, 2, 1, 1, BadSoftMask)
}
