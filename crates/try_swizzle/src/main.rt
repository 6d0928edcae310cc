// Runs the swizzle of a small memory, 8 rows of 2 bits with a write port and a clocked read port, over soft and hard bits and an entry of None, and prints
// what it gives and leaves. The stored output is the Rust's answer to the same call: number, log, nets, trits and image; what lies behind the image is kept.
#![tactic(auto)]

use log_entries::LogState;
use net_memory::{Given, Memory};
use rules::Refusal;
use std::{fmt, io};
use swizzle_call::Swizzled;
use swizzle_counts::Swizzle;
use swizzle_plan::{MemorySwizzle, Plan};
use try_kit::samples;

// Words or trits, on a line.
fn line<T: fmt::Display>(rt: &impl Print, l: &[T]) -> io::Result<()> {
    for x in l {
        print!(rt; "{x} ")?;
    }
    rt.print("\n")
}

// 8 rows of 2 bits, with a write port and a clocked read port.
fn memory() -> Memory {
    let w = samples::write_by(3, 2, 2, samples::pos(16));
    let f = samples::controls(
        samples::pos(16),
        samples::pos(0),
        samples::pos(23),
        samples::pos(20),
    );
    let r = samples::read_by(3, 2, 2, 2, 2, 1, [0u8; 8], f);
    samples::memory(8, 2, 16, 1, w, 1, r)
}

// The number of a swizzle; where it is 0 also what it gives, and the arrays that it was lent.
fn print_answer(
    rt: &impl Print,
    answer: Result<Swizzled, Refusal>,
    log: &[u32],
    nets: &[u32],
    trits: &[u8],
    image: &[u8],
) -> io::Result<()> {
    let x = match answer {
        Ok(x) => x,
        Err(refusal) => return line(rt, &[refusal.number()]),
    };
    let made = x.made;
    let state = made.state;
    let g = made.memory;
    line(rt, &[0u32])?;
    println!(rt; "{} {} ", state.used, state.next)?;
    line(rt, lists::part(log, 0, state.used))?;
    line(rt, &[g.mems, g.full, g.full_depth, g.part_depth, g.unit])?;
    line(rt, lists::part(nets, 0, made.nets_at))?;
    line(rt, lists::part(trits, 0, made.trits_at))?;
    line(rt, lists::part(image, 0, 64))
}

fn main(rt: HostRuntime) -> io::Result<()> {
    let given = Given {
        memory: memory(),
        nets: &[10, 11, 12, 13, 14, 15, 15, 17, 18, 19],
        trits: &[
            0, 1, 1, 0, 2, 1, 0, 0, 1, 1, 0, 2, 1, 0, 1, 1, 0, 1, 1, 2, 2, 0,
        ],
    };
    let plan = Plan {
        swizzle: MemorySwizzle {
            soft_addr_bits_mask: 2,
            hard_addr_bits: 1,
            data_width_unit: 4,
        },
        entries: &[0, 4294967295, 1],
        writes: &[0],
        reads: &[0],
    };
    let asked = Swizzle {
        given,
        output: &[21, 22],
        plan,
    };
    let st = LogState { used: 0, next: 30 };
    let mut log = [0u32; 2000];
    let mut image = [9u8; 200];
    let mut nets = [7u32; 400];
    let mut trits = [9u8; 400];
    let mut scratch = [0u32; 400];
    let answer = swizzle_call::swizzle(
        &mut log,
        st,
        &mut image,
        &mut nets,
        &mut trits,
        &mut scratch,
        asked,
    );
    print_answer(&rt, answer, &log, &nets, &trits, &image)
}
