// design.rs, the requests, for callers in C and Rust. The nets that an accepted request makes are those from the given state's next free net on.
ghost use Rattle.std.specs.Prelude.{◌≡◌, [], length};
ghost use Rattle.lists.specs.Lists.{up_from};
ghost use Rattle.rules.specs.Log.{add_and_of, add_or_of, add_eq_of, add_shl_of, add_ushr_of, replace_value_of};
ghost use Rattle.rules.specs.Answers.{add_void_call, add_not_call, add_pair_call, add_shift_call, add_mux_call, add_dff_call, into_pos_call, remap_call, lent_call};
ghost use Rattle.net_flip_flop.specs.View.{flip_flop};
ghost use Rattle.log_entries.specs.View.{state_of};
ghost use Rattle.c_net.specs.View.{given_control};
ghost use Rattle.c_log.specs.View.{given_controls, left_by, net_struct, new_controls_struct};

use crate::{Controls, ControlsLogged, Logged, NetLogged};
use c_net::Control;
use log_entries::LogState;
use net_flip_flop::FlipFlop;
use net_value::ControlNet;

// Kind 1: so many new nets.
pub fn tablegoose_add_void(log: &mut [u32], st: LogState, width: u32) -> Logged
    ensures { left_by (up_from st.next width) result log.new ≡ lent_call (state_of st) (add_void_call log.old (state_of st) width) }
{
    let r = log_requests::add_void(log, st, width);
    crate::answer_struct(r, st)
}

// Kind 2: the inverse of each net.
pub fn tablegoose_add_not(log: &mut [u32], st: LogState, a: &[u32]) -> Logged
    ensures { left_by (up_from st.next (length a.now)) result log.new ≡ lent_call (state_of st) (add_not_call log.old (state_of st) a.now) }
{
    let r = log_requests::add_not(log, st, a);
    crate::answer_struct(r, st)
}

// Kind 3: net by net.
pub fn tablegoose_add_and(log: &mut [u32], st: LogState, a: &[u32], b: &[u32]) -> Logged
    ensures { left_by (up_from st.next (length a.now)) result log.new ≡ lent_call (state_of st) (add_pair_call add_and_of log.old (state_of st) a.now b.now) }
{
    let r = log_requests::add_and(log, st, a, b);
    crate::answer_struct(r, st)
}

// Kind 4: net by net.
pub fn tablegoose_add_or(log: &mut [u32], st: LogState, a: &[u32], b: &[u32]) -> Logged
    ensures { left_by (up_from st.next (length a.now)) result log.new ≡ lent_call (state_of st) (add_pair_call add_or_of log.old (state_of st) a.now b.now) }
{
    let r = log_requests::add_or(log, st, a, b);
    crate::answer_struct(r, st)
}

// Kind 5: a mux.
pub fn tablegoose_add_mux(
    log: &mut [u32],
    st: LogState,
    select: Control,
    a: &[u32],
    b: &[u32],
) -> Logged
    ensures { left_by (up_from st.next (length a.now)) result log.new ≡ lent_call (state_of st) (add_mux_call log.old (state_of st) (given_control select) a.now b.now) }
{
    let c = ControlNet::from(select);
    let r = log_requests::add_mux(log, st, c, a, b);
    crate::answer_struct(r, st)
}

// Kind 6: whether two values are equal, in one net.
pub fn tablegoose_add_eq(log: &mut [u32], st: LogState, a: &[u32], b: &[u32]) -> Logged
    ensures { left_by st.next result log.new ≡ lent_call (state_of st) (add_pair_call add_eq_of log.old (state_of st) a.now b.now) }
{
    let r = log_requests::add_eq(log, st, a, b);
    crate::answer_struct(r, st)
}

// Kind 7: a value moved up by select times stride.
pub fn tablegoose_add_shl(
    log: &mut [u32],
    st: LogState,
    stride: u32,
    select: &[u32],
    a: &[u32],
) -> Logged
    ensures { left_by (up_from st.next (length a.now)) result log.new ≡ lent_call (state_of st) (add_shift_call add_shl_of log.old (state_of st) stride select.now a.now) }
{
    let r = log_requests::add_shl(log, st, stride, select, a);
    crate::answer_struct(r, st)
}

// Kind 8: down.
pub fn tablegoose_add_ushr(
    log: &mut [u32],
    st: LogState,
    stride: u32,
    select: &[u32],
    a: &[u32],
) -> Logged
    ensures { left_by (up_from st.next (length a.now)) result log.new ≡ lent_call (state_of st) (add_shift_call add_ushr_of log.old (state_of st) stride select.now a.now) }
{
    let r = log_requests::add_ushr(log, st, stride, select, a);
    crate::answer_struct(r, st)
}

// Kind 9: a flip-flop of controls, data, and clear, reset and init trits.
pub fn tablegoose_add_dff(
    log: &mut [u32],
    st: LogState,
    c: Controls,
    bits: &[u32],
    clear: &[u8],
    reset: &[u8],
    init: &[u8],
) -> Logged
    ensures { left_by (up_from st.next (length bits.now)) result log.new ≡ lent_call (state_of st) (add_dff_call log.old (state_of st) (flip_flop (given_controls c) bits.now clear.now reset.now init.now)) }
{
    let f = FlipFlop {
        controls: c.into(),
        bits,
        clear,
        reset,
        init,
    };
    let r = log_requests::add_dff(log, st, f);
    crate::answer_struct(r, st)
}

// Kind 10: each net of a value replaced by another's. It makes no nets.
pub fn tablegoose_replace_value(log: &mut [u32], st: LogState, from: &[u32], to: &[u32]) -> Logged
    ensures { left_by ([]) result log.new ≡ lent_call (state_of st) (add_pair_call replace_value_of log.old (state_of st) from.now to.now) }
{
    let r = log_requests::replace_value(log, st, from, to);
    crate::answer_struct(r, st)
}

// A net that is the control.
pub fn tablegoose_into_pos(log: &mut [u32], st: LogState, c: Control) -> NetLogged
    ensures value { result ≡ net_struct st (into_pos_call log.old (state_of st) (given_control c)).answer }
    ensures log_after { log.new ≡ (into_pos_call log.old (state_of st) (given_control c)).log }
{
    let given = ControlNet::from(c);
    let r = log_requests::into_pos(log, st, given);
    crate::net_answer_struct(r, st)
}

// Of a flip-flop's controls or of a read port's.
pub fn tablegoose_remap_reset_over_enable(
    log: &mut [u32],
    st: LogState,
    c: Controls,
) -> ControlsLogged
    ensures value { result ≡ new_controls_struct st (remap_call log.old (state_of st) (given_controls c)).answer }
    ensures log_after { log.new ≡ (remap_call log.old (state_of st) (given_controls c)).log }
{
    let given = net_flip_flop::Controls::from(c);
    let r = log_requests::remap_reset_over_enable(log, st, given);
    crate::controls_answer_struct(r, st)
}
