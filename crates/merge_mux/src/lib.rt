// memory/src/lib.rs, add_dedup_mux and add_bitwise_mux with their numbers: a refused call changes neither the log nor the room for the result nets.
#![tactic(auto)]

ghost use Rattle.std.specs.Prelude.{◌≡◌};
ghost use Rattle.lists.specs.Choice.{◌or_else◌};
ghost use Rattle.rules.specs.Merge.{add_dedup_mux_of, add_bitwise_mux_of};
ghost use Rattle.rules.specs.Refusals.{mux_number, bitwise_number, result_refusal, log_refusal, bitwise_lens_number};
ghost use Rattle.rules.specs.Refusal.{number_of};
ghost use Rattle.rules.specs.Answers.{add_dedup_mux_call, add_bitwise_mux_call};
ghost use Rattle.net_value.specs.View.{control_of};
ghost use Rattle.log_entries.specs.View.{state_of};
ghost use Rattle.log_requests.specs.Merged.{merged_of};
ghost use Rattle.merge_mux.specs.Results.{limited};
ghost use Rattle.merge_mux.specs.Runs.{bitwise_of};

use log_entries::{Log, LogState};
use merge_keys::Keys;
use net_value::ControlNet;
use rules::Refusal;

pub mod emit;

// 1, 2 and 4 of a merging mux, and 20 where the result nets do not fit the room for them.
#[tactic(auto, using(rules::proofs::Answers::else_err, rules::proofs::Answers::else_ok))]
fn mux_input_refusal(
    room: usize,
    next: u32,
    select: ControlNet,
    a: &[u32],
    b: &[u32],
) -> Result<(), Refusal>
    ensures { number_of result ≡ (mux_number next (control_of select) a.now b.now or_else result_refusal room a.now) }
{
    log_requests::mux_input_refusal(next, select, a, b)?;
    log_requests::result_refusal(room, a)
}

// 20 and 21 of a merging mux, by a run without a log.
fn mux_log_refusal(
    room: usize,
    st: LogState,
    keys: &mut Keys,
    select: ControlNet,
    a: &[u32],
    b: &[u32],
) -> Result<(), Refusal>
    ensures { number_of result ≡ log_refusal room (state_of st) (add_dedup_mux_of (control_of select) (limited a.now) (limited b.now)) }
{
    let mut dry = Log {
        words: &mut [],
        state: st.dry_start(),
    };
    emit::emit_dedup_mux(&mut dry, keys, &mut [], 0, select, a, b);
    st.dry_refusal(room, dry.state)
}

// A mux in which equal bits are kept once; the result net of each bit goes to `out`. A call takes its log and the log's state apart, as C hands them.
pub fn add_dedup_mux(
    log: &mut [u32],
    st: LogState,
    out: &mut [u32],
    select: ControlNet,
    a: &[u32],
    b: &[u32],
) -> Result<LogState, Refusal>
    ensures { merged_of (add_dedup_mux_of (control_of select) a.now b.now st.next).value result log.new out.new ≡ add_dedup_mux_call out.old log.old (state_of st) (control_of select) a.now b.now }
{
    mux_input_refusal(out.len(), st.next, select, a, b)?;
    let mut keys = Keys::new();
    mux_log_refusal(log.len(), st, &mut keys, select, a, b)?;
    let mut log = Log {
        words: log,
        state: st,
    };
    emit::emit_dedup_mux(&mut log, &mut keys, out, 0, select, a, b);
    Ok(log.state)
}

// 1 and 2 of a bitwise mux.
#[tactic(auto, unfolding(rules::specs::Refusals::bitwise_lens_number, rules::specs::Conditions::long_value, rules::specs::Conditions::unequal))]
fn bitwise_lens_refusal(s: &[u32], a: &[u32], b: &[u32]) -> Result<(), Refusal>
    ensures { number_of result ≡ bitwise_lens_number s.now a.now b.now }
{
    let most = rules::MAX_MERGE;
    if most < s.len() || most < a.len() || most < b.len() {
        return Err(Refusal::TooLarge);
    }
    if s.len() != a.len() || s.len() != b.len() {
        return Err(Refusal::BadShape);
    }
    Ok(())
}

// 1, 2 and 4 of a bitwise mux.
#[tactic(auto, using(rules::proofs::Answers::else_err, rules::proofs::Answers::else_ok), unfolding(rules::specs::Refusals::bitwise_number, rules::specs::Conditions::bad_value))]
fn bitwise_values_refusal(next: u32, s: &[u32], a: &[u32], b: &[u32]) -> Result<(), Refusal>
    ensures { number_of result ≡ bitwise_number next s.now a.now b.now }
{
    bitwise_lens_refusal(s, a, b)?;
    if !net_value::value_good(next, s)
        || !net_value::value_good(next, a)
        || !net_value::value_good(next, b)
    {
        return Err(Refusal::BadValue);
    }
    Ok(())
}

// The same, and 20 where the result nets do not fit the room for them.
#[tactic(auto, using(rules::proofs::Answers::else_err, rules::proofs::Answers::else_ok))]
fn bitwise_input_refusal(
    room: usize,
    next: u32,
    s: &[u32],
    a: &[u32],
    b: &[u32],
) -> Result<(), Refusal>
    ensures { number_of result ≡ (bitwise_number next s.now a.now b.now or_else result_refusal room a.now) }
{
    bitwise_values_refusal(next, s, a, b)?;
    log_requests::result_refusal(room, a)
}

// 20 and 21 of a bitwise mux, by a run without a log.
fn bitwise_log_refusal(
    room: usize,
    st: LogState,
    keys: &mut Keys,
    s: &[u32],
    a: &[u32],
    b: &[u32],
) -> Result<(), Refusal>
    ensures { number_of result ≡ log_refusal room (state_of st) (bitwise_of s.now a.now b.now) }
{
    let mut dry = Log {
        words: &mut [],
        state: st.dry_start(),
    };
    emit::emit_bitwise_nets(&mut dry, keys, &mut [], s, a, b);
    st.dry_refusal(room, dry.state)
}

// A merging mux for each run of equal neighbouring selects; the result net of each bit goes to `out`.
pub fn add_bitwise_mux(
    log: &mut [u32],
    st: LogState,
    out: &mut [u32],
    s: &[u32],
    a: &[u32],
    b: &[u32],
) -> Result<LogState, Refusal>
    ensures { merged_of (add_bitwise_mux_of s.now a.now b.now st.next).value result log.new out.new ≡ add_bitwise_mux_call out.old log.old (state_of st) s.now a.now b.now }
{
    bitwise_input_refusal(out.len(), st.next, s, a, b)?;
    let mut keys = Keys::new();
    bitwise_log_refusal(log.len(), st, &mut keys, s, a, b)?;
    let mut log = Log {
        words: log,
        state: st,
    };
    emit::emit_bitwise_nets(&mut log, &mut keys, out, s, a, b);
    Ok(log.state)
}
