// swizzle_depths.
use crate::plans::{Shape, depths, memories, plan};
use rules::Refusal::{
    BadDepth, BadEntries, BadShape, BadSoftMask, BadValue, NoRoom, ResultTooLarge, TooLarge,
};
use rules::{NO_BIT, Refusal};
use swizzle_plan::{MemorySwizzle, Plan};
use try_kit::samples::{memory, plain, pos, read_port, write_by, write_port};
use try_kit::tally::Tally;

// A memory without ports: its numbers, a plan, entries, and so many words of the room.
fn bare(
    t: Tally,
    depth: u32,
    width: u32,
    init: u32,
    s: MemorySwizzle,
    entries: &[u32],
    lent: usize,
    want: Result<Shape, Refusal>,
) -> Tally {
    let none: [u32; 0] = [];
    depths(
        t,
        plain(depth, width, init),
        Plan {
            swizzle: s,
            entries,
            writes: &none,
            reads: &none,
        },
        lent,
        want,
    )
}

// Width 1, and so many entries: bit 0 first, and then None.
fn long_row(
    t: Tally,
    depth: u32,
    s: MemorySwizzle,
    count: usize,
    lent: usize,
    want: Result<Shape, Refusal>,
) -> Tally {
    let mut row = [NO_BIT; 257];
    row[0] = 0;
    bare(
        t,
        depth,
        1,
        depth,
        s,
        lists::part(&row, 0, count),
        lent,
        want,
    )
}

// Document 01's examples.
pub(crate) fn examples(t: Tally) -> Tally {
    let two = [0u32, 1];
    let three = [0u32, 1, 2];
    let one = [0u32];
    let t = bare(t, 3, 2, 6, plan(0, 1, 2), &two, 2, memories(1, 2, 1, 1));
    let t = bare(t, 3, 3, 9, plan(0, 1, 2), &three, 3, memories(2, 2, 1, 1));
    let t = bare(t, 4, 1, 4, plan(2, 1, 1), &one, 2, memories(2, 2, 0, 0));
    let t = bare(t, 8, 1, 8, plan(4, 1, 1), &one, 4, memories(4, 2, 0, 0));
    let t = bare(t, 6, 1, 6, plan(1, 2, 1), &one, 2, memories(0, 0, 2, 3));
    let t = bare(t, 5, 1, 5, plan(1, 2, 1), &one, 2, Err(BadSoftMask));
    bare(
        t,
        32768,
        1,
        32768,
        plan(0, 15, 1),
        &one,
        1,
        memories(1, 32768, 0, 0),
    )
}

// Rooms that are one word short, and larger ones.
pub(crate) fn rooms(t: Tally) -> Tally {
    let two = [0u32, 1];
    let t = bare(t, 3, 2, 6, plan(0, 1, 2), &two, 1, Err(NoRoom));
    let t = bare(t, 3, 2, 6, plan(0, 1, 2), &two, 0, Err(NoRoom));
    let t = bare(t, 3, 2, 6, plan(0, 1, 2), &two, 33000, memories(1, 2, 1, 1));
    let t = long_row(t, 128, plan(0, 0, 1), 256, 32768, memories(32768, 1, 0, 0));
    long_row(t, 128, plan(0, 0, 1), 256, 32767, Err(NoRoom))
}

// Number 1 of a plan.
pub(crate) fn plan_sizes(t: Tally) -> Tally {
    let t = long_row(t, 4, plan(0, 15, 256), 256, 1, memories(0, 0, 1, 4));
    let t = long_row(t, 4, plan(0, 15, 256), 257, 9, Err(TooLarge));
    let t = long_row(t, 4, plan(0, 15, 257), 256, 9, Err(TooLarge));
    let t = long_row(t, 4, plan(0, 15, 0), 256, 9, Err(TooLarge));
    let t = long_row(t, 4, plan(0, 16, 256), 256, 9, Err(TooLarge));
    long_row(t, 4, plan(0, 4294967295, 256), 256, 9, Err(TooLarge))
}

// The new wide logs are tried for their size alone.
fn logged(t: Tally, writes: &[u32], reads: &[u32], want: Result<Shape, Refusal>) -> Tally {
    let m = memory(2, 1, 2, 1, write_port(1, 1), 1, read_port(1, 1));
    let p = Plan {
        swizzle: plan(0, 1, 1),
        entries: &[0u32],
        writes,
        reads,
    };
    depths(t, m, p, 1, want)
}

pub(crate) fn logs(t: Tally) -> Tally {
    let none: [u32; 0] = [];
    let four = [4u32];
    let five = [5u32];
    let t = logged(t, &four, &four, memories(1, 2, 0, 0));
    let t = logged(t, &five, &four, Err(TooLarge));
    let t = logged(t, &four, &five, Err(TooLarge));
    let t = logged(t, &none, &none, memories(1, 2, 0, 0));
    let t = logged(t, &[0u32; 9], &[4u32; 9], memories(1, 2, 0, 0));
    logged(t, &[0u32, 0, 0, 0, 0, 0, 0, 0, 5], &none, Err(TooLarge))
}

// Width 2, depth 2, and these entries, into as many words as there are memories.
fn named(t: Tally, entries: &[u32], want: Result<Shape, Refusal>) -> Tally {
    let lent = want.map_or(0, |shape| shape.full);
    bare(t, 2, 2, 4, plan(0, 1, 2), entries, lent, want)
}

// Number 7: each bit of two is named exactly once, and no other is.
pub(crate) fn names(t: Tally) -> Tally {
    let t = named(t, &[0u32, 1], memories(1, 2, 0, 0));
    let t = named(t, &[1u32, 0], memories(1, 2, 0, 0));
    let t = named(t, &[1u32, NO_BIT, 0], memories(2, 2, 0, 0));
    let t = named(t, &[0u32, 0], Err(BadEntries));
    let t = named(t, &[0u32, 2], Err(BadEntries));
    let t = named(t, &[0u32, 1, 1], Err(BadEntries));
    let t = named(t, &[0u32, 1, 2], Err(BadEntries));
    let t = named(t, &[0u32], Err(BadEntries));
    let t = named(t, &[0u32, NO_BIT], Err(BadEntries));
    let t = named(t, &[], Err(BadEntries));
    named(t, &[0u32, 1, 4294967294], Err(BadEntries))
}

// Width 1, one entry, unit 1: into as many words as there are memories, or into nine where there are none.
fn masked(t: Tally, depth: u32, mask: u32, hard: u32, want: Result<Shape, Refusal>) -> Tally {
    let lent = want.map_or(9, |shape| shape.full);
    let s = plan(mask, hard, 1);
    bare(t, depth, 1, depth, s, &[0u32], lent, want)
}

// Number 8: the depth is a multiple of 2^(top soft bit + 1), not of 2^(soft bits).
pub(crate) fn masks(t: Tally) -> Tally {
    let t = masked(t, 8, 4, 2, memories(2, 4, 0, 0));
    let t = masked(t, 4, 4, 2, Err(BadSoftMask));
    let t = masked(t, 4, 3, 0, memories(4, 1, 0, 0));
    let t = masked(t, 6, 3, 0, Err(BadSoftMask));
    let t = masked(t, 6, 2, 0, Err(BadSoftMask));
    let t = masked(t, 7, 0, 0, memories(7, 1, 0, 0));
    let t = masked(t, 32768, 16384, 14, memories(2, 16384, 0, 0));
    let t = masked(t, 32768, 32768, 14, Err(BadSoftMask));
    let t = masked(t, 4, 2147483648, 2, Err(BadSoftMask));
    masked(t, 4, 4294967295, 2, Err(BadSoftMask))
}

// Depth 0 gives no memory with any mask.
fn no_rows(t: Tally) -> Tally {
    let one = [0u32];
    let none = memories(0, 0, 0, 0);
    let t = bare(t, 0, 1, 0, plan(4294967295, 15, 1), &one, 0, none);
    let t = bare(t, 0, 1, 0, plan(2147483648, 0, 256), &one, 0, none);
    bare(t, 0, 1, 0, plan(1, 0, 1), &[1u32], 0, Err(BadEntries))
}

// Width 0 keeps the formula.
fn no_width(t: Tally) -> Tally {
    let none: [u32; 0] = [];
    let row = [NO_BIT; 3];
    let t = bare(t, 3, 0, 0, plan(0, 1, 2), &none, 0, memories(0, 0, 0, 0));
    let t = bare(t, 3, 0, 0, plan(0, 1, 2), &row, 3, memories(2, 2, 1, 1));
    let t = bare(t, 3, 0, 0, plan(0, 1, 2), &[0u32], 3, Err(BadEntries));
    bare(t, 3, 0, 0, plan(1, 1, 2), &none, 0, Err(BadSoftMask))
}

pub(crate) fn nothing(t: Tally) -> Tally {
    no_width(no_rows(t))
}

// Number 10: 32,768 columns after rounding up to the unit.
pub(crate) fn columns(t: Tally) -> Tally {
    let t = long_row(t, 128, plan(0, 0, 1), 256, 32768, memories(32768, 1, 0, 0));
    let t = long_row(t, 129, plan(0, 0, 1), 256, 33000, Err(ResultTooLarge));
    let t = long_row(t, 129, plan(0, 0, 1), 256, 0, Err(ResultTooLarge));
    let t = long_row(t, 128, plan(0, 0, 256), 256, 128, memories(128, 1, 0, 0));
    let t = long_row(t, 128, plan(0, 0, 3), 256, 33000, Err(ResultTooLarge));
    let t = long_row(t, 128, plan(0, 0, 3), 255, 10880, memories(10880, 1, 0, 0));
    let t = long_row(t, 128, plan(127, 0, 255), 256, 33000, Err(ResultTooLarge));
    let t = long_row(
        t,
        128,
        plan(127, 15, 1),
        256,
        32768,
        memories(0, 0, 32768, 1),
    );
    long_row(t, 256, plan(255, 0, 1), 256, 33000, Err(ResultTooLarge))
}

// Number 10: 131,072 trits, which padding counts among.
pub(crate) fn trits(t: Tally) -> Tally {
    let t = long_row(t, 512, plan(0, 9, 256), 256, 1, memories(1, 512, 0, 0));
    let t = long_row(t, 513, plan(0, 10, 256), 256, 2, Err(ResultTooLarge));
    let t = long_row(t, 512, plan(0, 10, 256), 256, 1, memories(0, 0, 1, 512));
    let t = long_row(t, 513, plan(0, 9, 256), 256, 2, Err(ResultTooLarge));
    let t = long_row(t, 513, plan(0, 9, 255), 255, 2, memories(1, 512, 1, 1));
    let t = long_row(t, 32768, plan(0, 15, 4), 1, 1, memories(1, 32768, 0, 0));
    let t = long_row(t, 32768, plan(0, 15, 5), 1, 1, Err(ResultTooLarge));
    let t = long_row(t, 32767, plan(0, 15, 4), 1, 1, memories(0, 0, 1, 32767));
    let t = long_row(t, 32768, plan(0, 15, 1), 4, 4, memories(4, 32768, 0, 0));
    long_row(t, 32768, plan(0, 15, 1), 5, 5, Err(ResultTooLarge))
}

// One write port, whose mask is not as long as its data or whose clock is no good net.
fn broken(t: Tally, depth: u32, mask: u32, hard: u32, refusal: Refusal) -> Tally {
    let w = write_by(1, 2, mask, pos(16777216));
    let m = memory(depth, 1, depth, 1, w, 0, read_port(0, 0));
    let none: [u32; 0] = [];
    let p = Plan {
        swizzle: plan(1, hard, 1),
        entries: &[1u32],
        writes: &none,
        reads: &none,
    };
    depths(t, m, p, 0, Err(refusal))
}

// Numbers in their order: 1 to 4 of the memory, 7, 8, 10 and 20.
pub(crate) fn orders(t: Tally) -> Tally {
    let one = [0u32];
    let t = broken(t, 3, 1, 16, TooLarge);
    let t = broken(t, 3, 1, 15, BadShape);
    let t = broken(t, 3, 2, 15, BadDepth);
    let t = broken(t, 4, 2, 15, BadValue);
    let t = bare(t, 3, 1, 3, plan(1, 15, 1), &[1u32], 0, Err(BadEntries));
    let t = bare(t, 3, 1, 3, plan(1, 15, 1), &one, 0, Err(BadSoftMask));
    let t = bare(
        t,
        32766,
        1,
        32766,
        plan(4, 15, 5),
        &one,
        0,
        Err(BadSoftMask),
    );
    let t = bare(
        t,
        32768,
        1,
        32768,
        plan(0, 15, 5),
        &one,
        0,
        Err(ResultTooLarge),
    );
    bare(t, 32768, 1, 32768, plan(0, 15, 4), &one, 0, Err(NoRoom))
}
