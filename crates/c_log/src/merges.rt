// memory/src/lib.rs, DesignExt, for callers in C and Rust: requests that keep equal bits once. The result net of each bit goes to `out`.
ghost use Rattle.std.specs.Prelude.{◌≡◌};
ghost use Rattle.rules.specs.Merge.{add_dedup_mux_of, add_dedup_dff_of, add_bitwise_mux_of};
ghost use Rattle.rules.specs.Answers.{add_dedup_mux_call, add_dedup_dff_call, add_bitwise_mux_call, lent_merge};
ghost use Rattle.net_flip_flop.specs.View.{flip_flop};
ghost use Rattle.log_entries.specs.View.{state_of};
ghost use Rattle.c_net.specs.View.{given_control};
ghost use Rattle.c_log.specs.View.{given_controls, merge_left_by};

use crate::{Controls, Logged};
use c_net::Control;
use log_entries::LogState;
use net_flip_flop::FlipFlop;
use net_value::ControlNet;

// A mux in which equal bits are kept once.
pub fn tablegoose_add_dedup_mux(
    log: &mut [u32],
    st: LogState,
    out: &mut [u32],
    select: Control,
    a: &[u32],
    b: &[u32],
) -> Logged
    ensures { merge_left_by (add_dedup_mux_of (given_control select) a.now b.now st.next).value result log.new out.new ≡ lent_merge (state_of st) (add_dedup_mux_call out.old log.old (state_of st) (given_control select) a.now b.now) }
{
    let c = ControlNet::from(select);
    let r = merge_mux::add_dedup_mux(log, st, out, c, a, b);
    crate::answer_struct(r, st)
}

// A merging mux for each run of equal neighbouring selects.
pub fn tablegoose_add_bitwise_mux(
    log: &mut [u32],
    st: LogState,
    out: &mut [u32],
    s: &[u32],
    a: &[u32],
    b: &[u32],
) -> Logged
    ensures { merge_left_by (add_bitwise_mux_of s.now a.now b.now st.next).value result log.new out.new ≡ lent_merge (state_of st) (add_bitwise_mux_call out.old log.old (state_of st) s.now a.now b.now) }
{
    let r = merge_mux::add_bitwise_mux(log, st, out, s, a, b);
    crate::answer_struct(r, st)
}

// A flip-flop in which equal bits are kept once.
pub fn tablegoose_add_dedup_dff(
    log: &mut [u32],
    st: LogState,
    out: &mut [u32],
    c: Controls,
    bits: &[u32],
    clear: &[u8],
    reset: &[u8],
    init: &[u8],
) -> Logged
    ensures { merge_left_by (add_dedup_dff_of (flip_flop (given_controls c) bits.now clear.now reset.now init.now) st.next).value result log.new out.new ≡ lent_merge (state_of st) (add_dedup_dff_call out.old log.old (state_of st) (flip_flop (given_controls c) bits.now clear.now reset.now init.now)) }
{
    let f = FlipFlop {
        controls: c.into(),
        bits,
        clear,
        reset,
        init,
    };
    let r = merge_dff::add_dedup_dff(log, st, out, f);
    crate::answer_struct(r, st)
}
