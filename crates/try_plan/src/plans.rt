// swizzle_depths and swizzle_mux_bits.
use net_memory::{Given, Memory};
use rules::Refusal;
use swizzle_plan::{MemorySwizzle, Plan};
use swizzle_sizes::MuxBits;
use try_kit::paint::{paint, painted};
use try_kit::tally::{Tally, add};
use try_kit::words::plus;

// Places for depths, and for nets and trits, which are all 5 and 1.
const ROOM: usize = 33000;

const NETS: usize = 200;

const TRITS: usize = 33000;

pub(crate) fn plan(mask: u32, hard: u32, unit: u32) -> MemorySwizzle {
    MemorySwizzle {
        soft_addr_bits_mask: mask,
        hard_addr_bits: hard,
        data_width_unit: unit,
    }
}

// How many full memories there are, of which depth, and how many others, of which depth.
#[derive(Clone, Copy, Default)]
pub(crate) struct Shape {
    pub(crate) full: usize,
    pub(crate) deep: u32,
    pub(crate) rest: usize,
    pub(crate) shallow: u32,
}

pub(crate) fn memories(
    full: usize,
    deep: u32,
    rest: usize,
    shallow: u32,
) -> Result<Shape, Refusal> {
    Ok(Shape {
        full,
        deep,
        rest,
        shallow,
    })
}

// The call on nets and trits of one value each.
fn call(m: Memory, plan: Plan<'_>, out: &mut [u32]) -> Result<(), Refusal> {
    let nets = [5u32; NETS];
    let trits = [1u8; TRITS];
    let given = Given {
        memory: m,
        nets: lists::part(&nets, 0, net_memory::nets_total(&m)),
        trits: lists::part(&trits, 0, net_memory::trits_total(&m)),
    };
    swizzle_sizes::swizzle_depths(out, given, plan)
}

// The call with so many words of a room.
fn call_in(m: Memory, plan: Plan<'_>, out: &mut [u32], lent: usize) -> Result<(), Refusal> {
    let n = lent.min(out.len());
    call(m, plan, &mut out[0..n])
}

// So many words from a place on are one word.
fn all_are(room: &[u32], at: usize, count: usize, word: u32) -> bool {
    let run = lists::part(room, at, count);
    run.len() == count && run.iter().all(|x| *x == word)
}

// swizzle_depths with so many words of a painted room.
pub(crate) fn depths(
    t: Tally,
    m: Memory,
    plan: Plan<'_>,
    lent: usize,
    want: Result<Shape, Refusal>,
) -> Tally {
    let mut out = [0u32; ROOM];
    paint(&mut out);
    let answer = call_in(m, plan, &mut out, lent);
    let t = add(t, answer.err() == want.err());
    let made = want.unwrap_or(Shape::default());
    let t = add(t, all_are(&out, 0, made.full, made.deep));
    let t = add(t, all_are(&out, made.full, made.rest, made.shallow));
    add(t, painted(&out, plus(made.full, made.rest)))
}

fn mux_call(m: Memory, list: &[u32], plan: Plan<'_>) -> Result<MuxBits, Refusal> {
    let nets = [5u32; NETS];
    let trits = [1u8; TRITS];
    let given = Given {
        memory: m,
        nets: lists::part(&nets, 0, net_memory::nets_total(&m)),
        trits: lists::part(&trits, 0, net_memory::trits_total(&m)),
    };
    swizzle_sizes::swizzle_mux_bits(given, list, plan)
}

// swizzle_mux_bits: the refusal, and all sixteen words of the answer, which are 0 of a refused call.
pub(crate) fn mux(
    t: Tally,
    m: Memory,
    list: &[u32],
    plan: Plan<'_>,
    want: Result<MuxBits, Refusal>,
) -> Tally {
    let answer = mux_call(m, list, plan);
    let t = add(t, answer.err() == want.err());
    let bits = answer.unwrap_or(MuxBits::default());
    let wanted = want.unwrap_or(MuxBits::default());
    let t = add(t, bits.writes == wanted.writes);
    add(t, bits.reads == wanted.reads)
}
