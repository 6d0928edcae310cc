// Tries the test of a memory and the calls that only look at one, at the borders of the numbers 1 to 4 and 15.
#![tactic(auto)]

mod calls;
mod case;
mod look_cases;
mod numbers;

use std::io;
use try_kit::tally;

fn try_sizes(rt: &impl Print) -> io::Result<()> {
    println!(rt;
        "lengths that a memory says: {}",
        numbers::totals(tally::start())
    )?;
    println!(rt; "sizes: {}", numbers::sizes(tally::start()))?;
    println!(rt; "numbers of ports: {}", numbers::counts(tally::start()))?;
    println!(rt; "data lengths: {}", numbers::data_lens(tally::start()))
}

fn try_lens(rt: &impl Print) -> io::Result<()> {
    println!(rt; "address lengths: {}", numbers::addresses(tally::start()))?;
    println!(rt; "depths and 2^k: {}", numbers::depths(tally::start()))?;
    println!(rt; "other lengths: {}", numbers::lens(tally::start()))?;
    println!(rt; "lengths of arrays: {}", numbers::arrays(tally::start()))
}

fn try_elements(rt: &impl Print) -> io::Result<()> {
    println!(rt; "nets: {}", numbers::nets(tally::start()))?;
    println!(rt; "trits: {}", numbers::trits(tally::start()))?;
    println!(rt; "relations: {}", numbers::relations(tally::start()))?;
    println!(rt; "controls: {}", numbers::controls(tally::start()))
}

fn try_orders(rt: &impl Print) -> io::Result<()> {
    println!(rt; "two numbers: {}", numbers::orders(tally::start()))?;
    println!(rt; "numbers of a call: {}", numbers::flags(tally::start()))?;
    println!(rt; "next free net: {}", numbers::nexts(tally::start()))?;
    println!(rt; "outputs: {}", look_cases::outputs(tally::start()))?;
    println!(rt; "fallbacks: {}", look_cases::fallbacks(tally::start()))
}

fn main(rt: HostRuntime) -> io::Result<()> {
    try_sizes(&rt)?;
    try_lens(&rt)?;
    try_elements(&rt)?;
    try_orders(&rt)
}
