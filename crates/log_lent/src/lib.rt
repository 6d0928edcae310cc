// The requests and merges of a design on a lent log and a lent log state: each takes the state by `&mut`, calls the core by value and stores the state
// after it. A refused one leaves the log, the state and the room for results as they were.
#![tactic(auto)]

ghost use Rattle.std.specs.Prelude.{◌≡◌, length};
ghost use Rattle.lists.specs.Lists.{up_from};
ghost use Rattle.rules.specs.Log.{add_and_of, add_or_of, add_eq_of, add_shl_of, add_ushr_of, replace_value_of};
ghost use Rattle.rules.specs.Merge.{add_dedup_mux_of, add_dedup_dff_of, add_bitwise_mux_of};
ghost use Rattle.rules.specs.Answers.{add_void_call, add_not_call, add_pair_call, add_shift_call, add_mux_call, add_dff_call, into_pos_call, remap_call, add_dedup_mux_call, add_dedup_dff_call, add_bitwise_mux_call, lent_call, lent_merge};
ghost use Rattle.net_value.specs.View.{control_of};
ghost use Rattle.net_flip_flop.specs.View.{controls_of, flip_flop_of};
ghost use Rattle.log_entries.specs.View.{state_of};
ghost use Rattle.log_lent.specs.Returned.{returned, returned_merge, nets_of, net_of, pos_of_of, no_nets, none_of_of, new_controls_of, made_nets, state_then};

use log_entries::LogState;
use net_flip_flop::{Controls, FlipFlop};
use net_value::{ControlNet, Net};
use rules::Refusal;

// The new nets of a request: the first, and how many.
#[derive(Clone, Copy)]
pub struct NewNets {
    pub first: u32,
    pub width: usize,
}

// Stores the state after a request, and gives the nets that it made.
fn nets_made(
    st: &mut LogState,
    width: usize,
    r: Result<LogState, Refusal>,
) -> Result<NewNets, Refusal>
    ensures value { result ≡ made_nets st.old width r }
    ensures state { st.new ≡ state_then st.old r }
{
    let first = st.next;
    *st = r?;
    Ok(NewNets { first, width })
}

// Kind 1: so many new nets.
#[tactic(auto, using(crate::proofs::Made::nets_made))]
pub fn add_void(log: &mut [u32], st: &mut LogState, width: u32) -> Result<NewNets, Refusal>
    ensures { returned (nets_of result) st.new log.new ≡ lent_call (state_of st.old) (add_void_call log.old (state_of st.old) width) }
{
    let r = log_requests::add_void(log, *st, width);
    nets_made(st, width as usize, r)
}

// Kind 2: the inverse of each net.
#[tactic(auto, using(crate::proofs::Made::nets_made))]
pub fn add_not(log: &mut [u32], st: &mut LogState, a: &[u32]) -> Result<NewNets, Refusal>
    ensures { returned (nets_of result) st.new log.new ≡ lent_call (state_of st.old) (add_not_call log.old (state_of st.old) a.now) }
{
    let r = log_requests::add_not(log, *st, a);
    nets_made(st, a.len(), r)
}

// Kind 3: net by net.
#[tactic(auto, using(crate::proofs::Made::nets_made))]
pub fn add_and(log: &mut [u32], st: &mut LogState, a: &[u32], b: &[u32]) -> Result<NewNets, Refusal>
    ensures { returned (nets_of result) st.new log.new ≡ lent_call (state_of st.old) (add_pair_call add_and_of log.old (state_of st.old) a.now b.now) }
{
    let r = log_requests::add_and(log, *st, a, b);
    nets_made(st, a.len(), r)
}

// Kind 4: net by net.
#[tactic(auto, using(crate::proofs::Made::nets_made))]
pub fn add_or(log: &mut [u32], st: &mut LogState, a: &[u32], b: &[u32]) -> Result<NewNets, Refusal>
    ensures { returned (nets_of result) st.new log.new ≡ lent_call (state_of st.old) (add_pair_call add_or_of log.old (state_of st.old) a.now b.now) }
{
    let r = log_requests::add_or(log, *st, a, b);
    nets_made(st, a.len(), r)
}

// Kind 5: a mux.
#[tactic(auto, using(crate::proofs::Made::nets_made))]
pub fn add_mux(
    log: &mut [u32],
    st: &mut LogState,
    select: ControlNet,
    a: &[u32],
    b: &[u32],
) -> Result<NewNets, Refusal>
    ensures { returned (nets_of result) st.new log.new ≡ lent_call (state_of st.old) (add_mux_call log.old (state_of st.old) (control_of select) a.now b.now) }
{
    let r = log_requests::add_mux(log, *st, select, a, b);
    nets_made(st, a.len(), r)
}

// Kind 6: whether two values are equal, in one net.
pub fn add_eq(log: &mut [u32], st: &mut LogState, a: &[u32], b: &[u32]) -> Result<Net, Refusal>
    ensures { returned (net_of result) st.new log.new ≡ lent_call (state_of st.old) (add_pair_call add_eq_of log.old (state_of st.old) a.now b.now) }
{
    let net = Net(st.next);
    *st = log_requests::add_eq(log, *st, a, b)?;
    Ok(net)
}

// Kind 7: a value moved up by select times stride.
#[tactic(auto, using(crate::proofs::Made::nets_made))]
pub fn add_shl(
    log: &mut [u32],
    st: &mut LogState,
    stride: u32,
    select: &[u32],
    a: &[u32],
) -> Result<NewNets, Refusal>
    ensures { returned (nets_of result) st.new log.new ≡ lent_call (state_of st.old) (add_shift_call add_shl_of log.old (state_of st.old) stride select.now a.now) }
{
    let r = log_requests::add_shl(log, *st, stride, select, a);
    nets_made(st, a.len(), r)
}

// Kind 8: down.
#[tactic(auto, using(crate::proofs::Made::nets_made))]
pub fn add_ushr(
    log: &mut [u32],
    st: &mut LogState,
    stride: u32,
    select: &[u32],
    a: &[u32],
) -> Result<NewNets, Refusal>
    ensures { returned (nets_of result) st.new log.new ≡ lent_call (state_of st.old) (add_shift_call add_ushr_of log.old (state_of st.old) stride select.now a.now) }
{
    let r = log_requests::add_ushr(log, *st, stride, select, a);
    nets_made(st, a.len(), r)
}

// Kind 9: a flip-flop of controls, data, and clear, reset and init trits.
#[tactic(auto, using(crate::proofs::Made::nets_made))]
pub fn add_dff(log: &mut [u32], st: &mut LogState, f: FlipFlop) -> Result<NewNets, Refusal>
    ensures { returned (nets_of result) st.new log.new ≡ lent_call (state_of st.old) (add_dff_call log.old (state_of st.old) (flip_flop_of f.entry)) }
{
    let r = log_requests::add_dff(log, *st, f);
    nets_made(st, f.bits.len(), r)
}

// Kind 10: each net of a value replaced by another's.
pub fn replace_value(
    log: &mut [u32],
    st: &mut LogState,
    from: &[u32],
    to: &[u32],
) -> Result<(), Refusal>
    ensures { returned (none_of_of no_nets result) st.new log.new ≡ lent_call (state_of st.old) (add_pair_call replace_value_of log.old (state_of st.old) from.now to.now) }
{
    *st = log_requests::replace_value(log, *st, from, to)?;
    Ok(())
}

// into_pos: a net that is the control.
pub fn into_pos(log: &mut [u32], st: &mut LogState, c: ControlNet) -> Result<Net, Refusal>
    ensures { returned (pos_of_of result) st.new log.new ≡ lent_call (state_of st.old) (into_pos_call log.old (state_of st.old) (control_of c)) }
{
    let made = log_requests::into_pos(log, *st, c)?;
    *st = made.state;
    Ok(made.value)
}

// remap_reset_over_enable, of a flip-flop's controls or of a read port's.
pub fn remap_reset_over_enable(
    log: &mut [u32],
    st: &mut LogState,
    c: Controls,
) -> Result<Controls, Refusal>
    ensures { returned (new_controls_of result) st.new log.new ≡ lent_call (state_of st.old) (remap_call log.old (state_of st.old) (controls_of c)) }
{
    let made = log_requests::remap_reset_over_enable(log, *st, c)?;
    *st = made.state;
    Ok(made.value)
}

// A mux in which equal bits are kept once; the result net of each bit goes to `out`.
pub fn add_dedup_mux(
    log: &mut [u32],
    st: &mut LogState,
    out: &mut [u32],
    select: ControlNet,
    a: &[u32],
    b: &[u32],
) -> Result<(), Refusal>
    ensures { returned_merge (none_of_of (add_dedup_mux_of (control_of select) a.now b.now st.old.next).value result) st.new log.new out.new ≡ lent_merge (state_of st.old) (add_dedup_mux_call out.old log.old (state_of st.old) (control_of select) a.now b.now) }
{
    *st = merge_mux::add_dedup_mux(log, *st, out, select, a, b)?;
    Ok(())
}

// A flip-flop in which equal bits are kept once; the result net of each bit goes to `out`.
pub fn add_dedup_dff(
    log: &mut [u32],
    st: &mut LogState,
    out: &mut [u32],
    f: FlipFlop,
) -> Result<(), Refusal>
    ensures { returned_merge (none_of_of (add_dedup_dff_of (flip_flop_of f.entry) st.old.next).value result) st.new log.new out.new ≡ lent_merge (state_of st.old) (add_dedup_dff_call out.old log.old (state_of st.old) (flip_flop_of f.entry)) }
{
    *st = merge_dff::add_dedup_dff(log, *st, out, f)?;
    Ok(())
}

// A merging mux for each run of equal neighbouring selects; the result net of each bit goes to `out`.
pub fn add_bitwise_mux(
    log: &mut [u32],
    st: &mut LogState,
    out: &mut [u32],
    s: &[u32],
    a: &[u32],
    b: &[u32],
) -> Result<(), Refusal>
    ensures { returned_merge (none_of_of (add_bitwise_mux_of s.now a.now b.now st.old.next).value result) st.new log.new out.new ≡ lent_merge (state_of st.old) (add_bitwise_mux_call out.old log.old (state_of st.old) s.now a.now b.now) }
{
    *st = merge_mux::add_bitwise_mux(log, *st, out, s, a, b)?;
    Ok(())
}
