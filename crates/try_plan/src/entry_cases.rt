// make_data_swizzle: document 01's examples, masks that differ in one subport, and the borders.
use crate::entries::made;
use net_memory::{Given, Memory};
use rules::{NO_BIT, Refusal};
use try_kit::samples::{memory, plain, read_port, write_port};
use try_kit::tally::Tally;

// One row; so many write ports without an address and with so many data bits.
fn row(width: u32, writes: u32, data: u32) -> Memory {
    memory(
        1,
        width,
        width,
        writes,
        write_port(0, data),
        0,
        read_port(0, width),
    )
}

// Width 3, data 5 6 7, and three mask nets.
fn three(
    t: Tally,
    a: u32,
    b: u32,
    c: u32,
    size: u32,
    lent: usize,
    want: Result<&[u32], Refusal>,
) -> Tally {
    let nets = [5u32, 6, 7, a, b, c];
    let trits = [0u8, 1, 2];
    made(
        t,
        Given {
            memory: row(3, 1, 3),
            nets: &nets,
            trits: &trits,
        },
        &[size],
        lent,
        want,
    )
}

pub(crate) fn masks(t: Tally) -> Tally {
    let t = three(t, 10, 10, 11, 2, 4, Ok(&[0u32, 1, 2, NO_BIT]));
    let t = three(t, 10, 11, 11, 2, 4, Ok(&[0u32, NO_BIT, 1, 2]));
    let t = three(
        t,
        10,
        11,
        10,
        2,
        6,
        Ok(&[0u32, NO_BIT, 1, NO_BIT, 2, NO_BIT]),
    );
    let t = three(t, 10, 10, 10, 2, 99, Ok(&[0u32, 1, 2, NO_BIT]));
    let t = three(t, 10, 10, 10, 3, 3, Ok(&[0u32, 1, 2]));
    let t = three(t, 10, 11, 12, 1, 3, Ok(&[0u32, 1, 2]));
    let t = three(t, 10, 10, 11, 2, 3, Err(Refusal::NoRoom));
    let t = three(t, 10, 11, 10, 2, 5, Err(Refusal::NoRoom));
    let t = three(t, 10, 11, 12, 1, 2, Err(Refusal::NoRoom));
    three(t, 10, 11, 12, 1, 0, Err(Refusal::NoRoom))
}

// Two rows of two bits, and a port with two subports of these masks.
fn subports(t: Tally, a: u32, b: u32, c: u32, d: u32, want: &[u32]) -> Tally {
    let m = memory(2, 2, 4, 1, write_port(0, 4), 0, read_port(0, 2));
    let nets = [5u32, 6, 7, 8, a, b, c, d];
    made(
        t,
        Given {
            memory: m,
            nets: &nets,
            trits: &[0u8, 1, 2, 0],
        },
        &[3u32],
        10,
        Ok(want),
    )
}

// The mask of each subport counts.
pub(crate) fn subport_masks(t: Tally) -> Tally {
    let split = [0u32, NO_BIT, NO_BIT, 1, NO_BIT, NO_BIT];
    let t = subports(t, 10, 10, 11, 11, &[0u32, 1, NO_BIT]);
    let t = subports(t, 10, 11, 12, 12, &split);
    let t = subports(t, 10, 10, 12, 13, &split);
    subports(t, 10, 11, 11, 10, &split)
}

// Two ports of width 4, with masks that start with nets 9 9 and 8 8 and end with these; granularities 3 and 4, which divide 12.
fn two(t: Tally, a: u32, b: u32, lent: usize, want: Result<&[u32], Refusal>) -> Tally {
    let nets = [2u32, 3, 4, 5, 9, 9, a, a, 2, 3, 4, 5, 8, 8, b, b];
    let trits = [0u8, 1, 2, 0];
    made(
        t,
        Given {
            memory: row(4, 2, 4),
            nets: &nets,
            trits: &trits,
        },
        &[3u32, 4],
        lent,
        want,
    )
}

// The masks of one net each; then the first port's change after bit 1, then the second's.
pub(crate) fn two_ports(t: Tally) -> Tally {
    let n = NO_BIT;
    let padded = [0u32, 1, 2, 3, n, n, n, n, n, n, n, n];
    let by_three = [0u32, 1, n, 2, 3, n, n, n, n, n, n, n];
    let by_four = [0u32, 1, n, n, 2, 3, n, n, n, n, n, n];
    let t = two(t, 9, 8, 12, Ok(&padded));
    let t = two(t, 7, 8, 12, Ok(&by_three));
    let t = two(t, 9, 6, 12, Ok(&by_four));
    two(t, 9, 6, 11, Err(Refusal::NoRoom))
}

// Two ports of width 1, an initial trit, and some of three granularities.
fn sizes(
    t: Tally,
    trit: u8,
    count: usize,
    a: u32,
    b: u32,
    lent: usize,
    want: Result<&[u32], Refusal>,
) -> Tally {
    let nets = [5u32, 9, 6, 9];
    let list = [a, b, 1];
    made(
        t,
        Given {
            memory: row(1, 2, 1),
            nets: &nets,
            trits: &[trit],
        },
        lists::part(&list, 0, count),
        lent,
        want,
    )
}

// Number 5: one granularity to a write port, from 1 to 64.
fn no_granularities(t: Tally) -> Tally {
    let t = sizes(t, 0, 2, 1, 0, 99, Err(Refusal::BadGranularity));
    let t = sizes(t, 0, 2, 0, 1, 99, Err(Refusal::BadGranularity));
    let t = sizes(t, 0, 2, 65, 1, 99, Err(Refusal::BadGranularity));
    let t = sizes(t, 0, 2, 64, 65, 0, Err(Refusal::BadGranularity));
    let t = sizes(t, 0, 2, 1, 4294967295, 99, Err(Refusal::BadGranularity));
    let t = sizes(t, 0, 1, 1, 1, 99, Err(Refusal::BadGranularity));
    let t = sizes(t, 0, 3, 1, 1, 99, Err(Refusal::BadGranularity));
    let t = sizes(t, 0, 0, 1, 1, 99, Err(Refusal::BadGranularity));
    sizes(t, 3, 0, 1, 1, 99, Err(Refusal::BadValue))
}

pub(crate) fn granularities(t: Tally) -> Tally {
    let none: [u32; 0] = [];
    let trits = [0u8, 1, 2];
    let want = [0u32, 1, 2];
    let t = no_granularities(t);
    let t = sizes(t, 0, 2, 1, 1, 1, Ok(&[0u32]));
    let t = sizes(t, 0, 2, 1, 2, 2, Ok(&[0u32, NO_BIT]));
    made(
        t,
        Given {
            memory: row(3, 0, 0),
            nets: &none,
            trits: &trits,
        },
        &none,
        3,
        Ok(&want),
    )
}

// Width 0, with a granularity or none.
fn flat(t: Tally, size: u32, count: usize, want: Result<&[u32], Refusal>) -> Tally {
    let none: [u32; 0] = [];
    let codes: [u8; 0] = [];
    let list = [size];
    let m = memory(4, 0, 0, 1, write_port(0, 0), 0, read_port(0, 0));
    made(
        t,
        Given {
            memory: m,
            nets: &none,
            trits: &codes,
        },
        lists::part(&list, 0, count),
        0,
        want,
    )
}

// Width 0 without ports.
fn portless(t: Tally) -> Tally {
    let none: [u32; 0] = [];
    let codes: [u8; 0] = [];
    let m = plain(9, 0, 0);
    made(
        t,
        Given {
            memory: m,
            nets: &none,
            trits: &codes,
        },
        &none,
        0,
        Ok(&none),
    )
}

// Width 0 gives no entries; depth 0 gives those of any depth.
pub(crate) fn nothing(t: Tally) -> Tally {
    let codes: [u8; 0] = [];
    let t = flat(t, 64, 1, Ok(&[]));
    let t = flat(t, 65, 1, Err(Refusal::BadGranularity));
    let t = flat(t, 64, 0, Err(Refusal::BadGranularity));
    let m = memory(0, 2, 0, 1, write_port(0, 2), 0, read_port(0, 0));
    let nets = [5u32, 6, 9, 8];
    let want = [0u32, NO_BIT, 1, NO_BIT];
    let t = made(
        t,
        Given {
            memory: m,
            nets: &nets,
            trits: &codes,
        },
        &[2u32],
        4,
        Ok(&want),
    );
    portless(t)
}

// The entry at a place where each bit stands `step` entries after the one before.
fn spread_at(i: usize, step: usize) -> u32 {
    if step == 0 {
        return NO_BIT;
    }
    if i % step != 0 {
        return NO_BIT;
    }
    ((i / step) % 1000) as u32
}

fn spread(want: &mut [u32], step: usize) {
    for (i, entry) in want.iter_mut().enumerate() {
        *entry = spread_at(i, step);
    }
}

// A row whose neighbouring mask nets differ, so that each bit starts a granule.
fn granules(t: Tally, width: u32, size: u32, lent: usize, want: Result<&[u32], Refusal>) -> Tally {
    let mut nets = [0u32; 256];
    spread(&mut nets, 1);
    let trits = [0u8; 128];
    let m = row(width, 1, width);
    made(
        t,
        Given {
            memory: m,
            nets: lists::part(&nets, 0, net_memory::nets_total(&m)),
            trits: lists::part(&trits, 0, net_memory::trits_total(&m)),
        },
        &[size],
        lent,
        want,
    )
}

// Each bit at a multiple of the granularity, the whole row being as long as the last granule's end.
fn exact(t: Tally, width: u32, size: u32, step: usize, count: usize) -> Tally {
    let mut want = [0u32; 256];
    spread(&mut want, step);
    granules(t, width, size, count, Ok(lists::part(&want, 0, count)))
}

fn longer(t: Tally, width: u32, size: u32, lent: usize, refusal: Refusal) -> Tally {
    granules(t, width, size, lent, Err(refusal))
}

// 256 entries are the most: 128 granules of 2, 85 of 3 (86 give 258), 64 of 4 (65 give 260), 4 of 64 (5 give 320).
pub(crate) fn longest(t: Tally) -> Tally {
    let t = exact(t, 128, 2, 2, 256);
    let t = longer(t, 128, 2, 255, Refusal::NoRoom);
    let t = exact(t, 85, 3, 3, 255);
    let t = longer(t, 86, 3, 300, Refusal::RowTooLong);
    let t = longer(t, 86, 3, 0, Refusal::RowTooLong);
    let t = exact(t, 64, 4, 4, 256);
    let t = longer(t, 65, 4, 300, Refusal::RowTooLong);
    let t = exact(t, 4, 64, 64, 256);
    longer(t, 5, 64, 300, Refusal::RowTooLong)
}
