// Tries every request of one entry at border lengths, rooms and next free nets. Every lent word holds a pattern before a call, and every word of log,
// state and result is compared after it with what a plain computation here expects, for accepted and for refused calls.
#![tactic(auto)]

mod cells;

use cells::OneEntry;
use std::io;
use try_kit::requests::{CountedTrial, OF_ONE_ENTRY};

// The kinds of entries: void, not, and, or, mux, eq, shl, ushr, flip-flop and replace.
fn main(rt: HostRuntime) -> io::Result<()> {
    for request in &OF_ONE_ENTRY {
        println!(rt; "kind {}: {}", request.kind(), OneEntry::try_all(*request))?;
    }
    Ok(())
}
