// Tries make_data_swizzle, swizzle_depths and swizzle_mux_bits. Every word of a lent room is painted before each call and compared after it, also
// past the part that is lent.
#![tactic(auto)]

mod depth_cases;
mod entries;
mod entry_cases;
mod mux_cases;
mod plans;

use std::io;
use try_kit::tally;

fn try_entries(rt: &impl Print) -> io::Result<()> {
    println!(rt; "entries by masks: {}", entry_cases::masks(tally::start()))?;
    println!(rt;
        "masks of subports: {}",
        entry_cases::subport_masks(tally::start())
    )?;
    println!(rt; "two ports: {}", entry_cases::two_ports(tally::start()))?;
    println!(rt;
        "granularities: {}",
        entry_cases::granularities(tally::start())
    )?;
    println!(rt;
        "no bits, no rows: {}",
        entry_cases::nothing(tally::start())
    )?;
    println!(rt; "longest rows: {}", entry_cases::longest(tally::start()))
}

fn try_depths(rt: &impl Print) -> io::Result<()> {
    println!(rt; "depths: {}", depth_cases::examples(tally::start()))?;
    println!(rt; "rooms for depths: {}", depth_cases::rooms(tally::start()))?;
    println!(rt;
        "sizes of plans: {}",
        depth_cases::plan_sizes(tally::start())
    )?;
    println!(rt; "wide logs: {}", depth_cases::logs(tally::start()))?;
    println!(rt; "names of bits: {}", depth_cases::names(tally::start()))
}

fn try_borders(rt: &impl Print) -> io::Result<()> {
    println!(rt; "soft masks: {}", depth_cases::masks(tally::start()))?;
    println!(rt;
        "depths of nothing: {}",
        depth_cases::nothing(tally::start())
    )?;
    println!(rt; "columns: {}", depth_cases::columns(tally::start()))?;
    println!(rt; "trits: {}", depth_cases::trits(tally::start()))?;
    println!(rt; "order of numbers: {}", depth_cases::orders(tally::start()))
}

fn try_mux(rt: &impl Print) -> io::Result<()> {
    println!(rt; "mux bits: {}", mux_cases::bits(tally::start()))?;
    println!(rt; "chunks: {}", mux_cases::chunk_bits(tally::start()))?;
    println!(rt;
        "mux bits of nothing: {}",
        mux_cases::nothing(tally::start())
    )?;
    println!(rt; "counts of logs: {}", mux_cases::log_counts(tally::start()))?;
    println!(rt; "sizes of logs: {}", mux_cases::log_sizes(tally::start()))?;
    println!(rt; "missing ports: {}", mux_cases::missing(tally::start()))?;
    println!(rt; "other numbers: {}", mux_cases::others(tally::start()))
}

fn main(rt: HostRuntime) -> io::Result<()> {
    try_entries(&rt)?;
    try_depths(&rt)?;
    try_borders(&rt)?;
    try_mux(&rt)
}
