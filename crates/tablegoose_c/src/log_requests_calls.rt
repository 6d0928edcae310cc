// The exported functions of `requests` of c_log. Made by scripts/exports.py.
ghost use Rattle.std.specs.Prelude.{◌≡◌, [], length};
ghost use Rattle.lists.specs.Lists.{up_from};
ghost use Rattle.rules.specs.Log.{add_and_of, add_or_of, add_eq_of, add_shl_of, add_ushr_of, replace_value_of};
ghost use Rattle.rules.specs.Answers.{add_void_call, add_not_call, add_pair_call, add_shift_call, add_mux_call, add_dff_call, into_pos_call, remap_call, lent_call};
ghost use Rattle.net_flip_flop.specs.View.{flip_flop};
ghost use Rattle.log_entries.specs.View.{state_of};
ghost use Rattle.c_net.specs.View.{given_control};
ghost use Rattle.c_log.specs.View.{given_controls, left_by, net_struct, new_controls_struct};

use c_log::{Controls, ControlsLogged, Logged, NetLogged};
use c_net::Control;
use log_entries::LogState;

#[unsafe(no_mangle)]
pub extern "C" fn tablegoose_add_void(log: &mut [u32], st: LogState, width: u32) -> Logged
    ensures { left_by (up_from st.next width) result log.new ≡ lent_call (state_of st) (add_void_call log.old (state_of st) width) }
{
    c_log::requests::tablegoose_add_void(log, st, width)
}

#[unsafe(no_mangle)]
pub extern "C" fn tablegoose_add_not(log: &mut [u32], st: LogState, a: &[u32]) -> Logged
    ensures { left_by (up_from st.next (length a.now)) result log.new ≡ lent_call (state_of st) (add_not_call log.old (state_of st) a.now) }
{
    c_log::requests::tablegoose_add_not(log, st, a)
}

#[unsafe(no_mangle)]
pub extern "C" fn tablegoose_add_and(log: &mut [u32], st: LogState, a: &[u32], b: &[u32]) -> Logged
    ensures { left_by (up_from st.next (length a.now)) result log.new ≡ lent_call (state_of st) (add_pair_call add_and_of log.old (state_of st) a.now b.now) }
{
    c_log::requests::tablegoose_add_and(log, st, a, b)
}

#[unsafe(no_mangle)]
pub extern "C" fn tablegoose_add_or(log: &mut [u32], st: LogState, a: &[u32], b: &[u32]) -> Logged
    ensures { left_by (up_from st.next (length a.now)) result log.new ≡ lent_call (state_of st) (add_pair_call add_or_of log.old (state_of st) a.now b.now) }
{
    c_log::requests::tablegoose_add_or(log, st, a, b)
}

#[unsafe(no_mangle)]
pub extern "C" fn tablegoose_add_mux(
    log: &mut [u32],
    st: LogState,
    select: Control,
    a: &[u32],
    b: &[u32],
) -> Logged
    ensures { left_by (up_from st.next (length a.now)) result log.new ≡ lent_call (state_of st) (add_mux_call log.old (state_of st) (given_control select) a.now b.now) }
{
    c_log::requests::tablegoose_add_mux(log, st, select, a, b)
}

#[unsafe(no_mangle)]
pub extern "C" fn tablegoose_add_eq(log: &mut [u32], st: LogState, a: &[u32], b: &[u32]) -> Logged
    ensures { left_by st.next result log.new ≡ lent_call (state_of st) (add_pair_call add_eq_of log.old (state_of st) a.now b.now) }
{
    c_log::requests::tablegoose_add_eq(log, st, a, b)
}

#[unsafe(no_mangle)]
pub extern "C" fn tablegoose_add_shl(
    log: &mut [u32],
    st: LogState,
    stride: u32,
    select: &[u32],
    a: &[u32],
) -> Logged
    ensures { left_by (up_from st.next (length a.now)) result log.new ≡ lent_call (state_of st) (add_shift_call add_shl_of log.old (state_of st) stride select.now a.now) }
{
    c_log::requests::tablegoose_add_shl(log, st, stride, select, a)
}

#[unsafe(no_mangle)]
pub extern "C" fn tablegoose_add_ushr(
    log: &mut [u32],
    st: LogState,
    stride: u32,
    select: &[u32],
    a: &[u32],
) -> Logged
    ensures { left_by (up_from st.next (length a.now)) result log.new ≡ lent_call (state_of st) (add_shift_call add_ushr_of log.old (state_of st) stride select.now a.now) }
{
    c_log::requests::tablegoose_add_ushr(log, st, stride, select, a)
}

#[unsafe(no_mangle)]
pub extern "C" fn tablegoose_add_dff(
    log: &mut [u32],
    st: LogState,
    c: Controls,
    bits: &[u32],
    clear: &[u8],
    reset: &[u8],
    init: &[u8],
) -> Logged
    ensures { left_by (up_from st.next (length bits.now)) result log.new ≡ lent_call (state_of st) (add_dff_call log.old (state_of st) (flip_flop (given_controls c) bits.now clear.now reset.now init.now)) }
{
    c_log::requests::tablegoose_add_dff(log, st, c, bits, clear, reset, init)
}

#[unsafe(no_mangle)]
pub extern "C" fn tablegoose_replace_value(
    log: &mut [u32],
    st: LogState,
    from: &[u32],
    to: &[u32],
) -> Logged
    ensures { left_by ([]) result log.new ≡ lent_call (state_of st) (add_pair_call replace_value_of log.old (state_of st) from.now to.now) }
{
    c_log::requests::tablegoose_replace_value(log, st, from, to)
}

#[unsafe(no_mangle)]
pub extern "C" fn tablegoose_into_pos(log: &mut [u32], st: LogState, c: Control) -> NetLogged
    ensures value { result ≡ net_struct st (into_pos_call log.old (state_of st) (given_control c)).answer }
    ensures log_after { log.new ≡ (into_pos_call log.old (state_of st) (given_control c)).log }
{
    c_log::requests::tablegoose_into_pos(log, st, c)
}

#[unsafe(no_mangle)]
pub extern "C" fn tablegoose_remap_reset_over_enable(
    log: &mut [u32],
    st: LogState,
    c: Controls,
) -> ControlsLogged
    ensures value { result ≡ new_controls_struct st (remap_call log.old (state_of st) (given_controls c)).answer }
    ensures log_after { log.new ≡ (remap_call log.old (state_of st) (given_controls c)).log }
{
    c_log::requests::tablegoose_remap_reset_over_enable(log, st, c)
}
