// Tries unmap_read_dff. Every lent word holds a pattern before a call; after it the answer, the memory, the outputs and every word of the log are
// compared, for accepted and for refused calls.
#![tactic(auto)]

mod cases;
mod sample;

use std::io;
use try_kit::tally;

fn main(rt: HostRuntime) -> io::Result<()> {
    println!(rt; "unmapped: {}", cases::accepted(tally::start()))?;
    println!(rt; "no flip-flop: {}", cases::unclocked(tally::start()))?;
    println!(rt; "refused: {}", cases::refused(tally::start()))
}
