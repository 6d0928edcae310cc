// Tries every request of `log_lent`, the three merges too, at border lengths, rooms and next free nets. Every lent word holds a pattern before a call;
// after it the answer, the state and every word of the log and of the room for results are compared with those of the same request by value, for
// accepted and for refused calls.
#![tactic(auto)]

mod calls;
mod cases;
mod got;

use cases::BothWays;
use std::io;
use try_kit::requests::{CountedTrial, OF_ANY, OF_ONE_ENTRY, Request};

fn report(rt: &impl Print, request: Request) -> io::Result<()> {
    println!(rt; "{request}: {}", BothWays::try_all(request))
}

fn main(rt: HostRuntime) -> io::Result<()> {
    for request in &OF_ONE_ENTRY {
        report(&rt, *request)?;
    }
    for request in &OF_ANY {
        report(&rt, *request)?;
    }
    Ok(())
}
