// The static library for callers in C and Rust: each function has the name, the parameters and the clauses of one of the crates c_,
// and only calls it. Made by scripts/exports.py.
#![tactic(auto)]

pub mod fallback_calls;
pub mod image_calls;
pub mod log_merges_calls;
pub mod log_requests_calls;
pub mod memory_calls;
pub mod net_logic_calls;
pub mod net_value_calls;
pub mod plan_calls;
pub mod port_calls;
pub mod record_calls;
pub mod swizzle_calls;
pub mod swizzle_parts_calls;
