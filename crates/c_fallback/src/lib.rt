// The fallback for callers in C and Rust: numbers, slices and `repr(C)` structs, no enums. A refused call gives state and lent arrays back as they were.
#![tactic(auto)]

ghost use Rattle.std.specs.Prelude.{◌≡◌};
ghost use Rattle.rules.specs.Answers.{lower_fallback_call};
ghost use Rattle.rules.specs.Fallback.{fallback_scratch};
ghost use Rattle.log_entries.specs.View.{state_of};
ghost use Rattle.net_memory.specs.View.{memory_of};
ghost use Rattle.net_memory.specs.Given.{given_of};
ghost use Rattle.fallback.specs.Answer.{lowered_of, Lowers};
ghost use Rattle.c_memory.specs.View.{given_memory};
ghost use Rattle.c_fallback.specs.View.{given_lowered};

use c_log::Logged;
use c_memory::Memory;
use log_entries::LogState;

// A memory as flip-flops and muxes: a register for each row.
pub fn tablegoose_lower_fallback(
    log: &mut [u32],
    st: LogState,
    scratch: &mut [u32],
    m: Memory,
    nets: &[u32],
    trits: &[u8],
    output: &[u32],
) -> Logged
    ensures scratch_after { lowered_of (given_lowered result) (fallback_scratch (memory_of (given_memory m) nets.now trits.now)) log.new scratch.new ≡ lower_fallback_call scratch.old log.old (state_of st) (given_of (given_memory m) nets.now trits.now) output.now }
    ensures lowers { Lowers (given_memory m) nets.now trits.now output.now st log.old scratch.old (given_lowered result) log.new scratch.new }
{
    let given = c_memory::given_by(m, nets, trits);
    let x = fallback::lower_fallback(log, st, scratch, given, output);
    c_log::answer_struct(x, st)
}
