// What the programs that try calls share: tallies, sums that ask nothing, patterned buffers, border sizes, requests and their cases, and nets and memories to call with.
#![tactic(auto)]

pub mod borders;
pub mod nets;
pub mod numbered;
pub mod paint;
pub mod requests;
pub mod samples;
pub mod spoilt;
pub mod sums;
pub mod tally;
pub mod words;

// No count, length or place of a case is larger, and no net.
const MOST: u32 = 1000000;

const MOST_NET: u32 = 100000000;
