// Tries extract_read_ports. Every place of the lent rooms is painted before each call and compared after it, also past the part that is lent.
#![tactic(auto)]

mod case;
mod extract_cases;
mod extracts;
mod room;
mod same;

use std::io;
use try_kit::tally;

fn main(rt: HostRuntime) -> io::Result<()> {
    println!(rt; "extractions: {}", extract_cases::accepted(tally::start()))?;
    println!(rt;
        "output nets: {}",
        extract_cases::output_nets(tally::start())
    )?;
    println!(rt;
        "short rooms: {}",
        extract_cases::short_rooms(tally::start())
    )?;
    println!(rt;
        "missing ports: {}",
        extract_cases::no_ports(tally::start())
    )?;
    println!(rt;
        "order of numbers: {}",
        extract_cases::orders(tally::start())
    )
}
