// The requests of a design, each logged as one entry: the cores, which take the log state by value. A refused request changes nothing.
#![tactic(auto)]

ghost use Rattle.std.specs.Prelude.{◌≡◌, ◌∷◌, [], ◌+◌, ◌*◌, ◌<◌, ◌≤◌, length, false, ◌||◌};
ghost use Rattle.lists.specs.Choice.{◌or_else◌};
ghost use Rattle.lists.specs.Lists.{up_from};
ghost use Rattle.rules.specs.Log.{add_and_of, add_or_of, add_eq_of, add_shl_of, add_ushr_of, replace_value_of, into_pos_of, with_reset, remap_reset_over_enable_of};
ghost use Rattle.rules.specs.Conditions.{bad_trit_lens, bad_trits};
ghost use Rattle.rules.specs.Refusals.{room_refusal, value_number, pair_number, shift_number, mux_number, dff_number, control_number, remap_number, result_refusal};
ghost use Rattle.rules.specs.Refusal.{number_of};
ghost use Rattle.rules.specs.Answers.{add_void_call, add_not_call, add_pair_call, add_shift_call, add_mux_call, add_dff_call, into_pos_call, remap_call};
ghost use Rattle.net_value.specs.View.{control_of};
ghost use Rattle.net_flip_flop.specs.View.{controls_of, flip_flop_of};
ghost use Rattle.log_entries.specs.Emission.{is_over, run};
ghost use Rattle.log_entries.specs.View.{state_of, lent_of};
ghost use Rattle.log_requests.specs.Answers.{logged_of, net_logged_of, controls_logged_of};
ghost use Rattle.log_requests.specs.Remap.{nots_of, gated_reset};

use log_entries::{Log, LogState};
use net_flip_flop::{Controls, FlipFlop};
use net_value::{ControlNet, Net};
use rules::Refusal;

// What a request gives, and the state after it.
#[derive(Clone, Copy)]
pub struct After<T> {
    pub value: T,
    pub state: LogState,
}

// 4, 20 and 21 of a request of one value.
#[tactic(auto, using(lists::proofs::Choice::else_first, lists::proofs::Choice::else_rest), unfolding(rules::specs::Refusals::value_number, rules::specs::Conditions::bad_value))]
fn value_refusal(room: usize, st: LogState, a: &[u32]) -> Result<(), Refusal>
    ensures { number_of result ≡ (value_number st.next a.now or_else room_refusal room (state_of st) (4 + length a.now) (length a.now)) }
{
    if !net_value::value_good(st.next, a) {
        return Err(Refusal::BadValue);
    }
    st.room_refusal(room, 4 + a.len(), a.len())
}

// 2 and 4 of two values.
#[tactic(auto, unfolding(rules::specs::Refusals::pair_number, rules::specs::Conditions::unequal, rules::specs::Conditions::bad_value))]
fn pair_input_refusal(next: u32, a: &[u32], b: &[u32]) -> Result<(), Refusal>
    ensures { number_of result ≡ pair_number next a.now b.now }
{
    if a.len() != b.len() {
        return Err(Refusal::BadShape);
    }
    if !net_value::value_good(next, a) || !net_value::value_good(next, b) {
        return Err(Refusal::BadValue);
    }
    Ok(())
}

// 2, 4, 20 and 21 of a request of two values that gives so many nets.
#[tactic(auto, using(rules::proofs::Answers::else_err, rules::proofs::Answers::else_ok))]
fn pair_refusal(room: usize, st: LogState, a: &[u32], b: &[u32], nets: usize) -> Result<(), Refusal>
    ensures { number_of result ≡ (pair_number st.next a.now b.now or_else room_refusal room (state_of st) (4 + (length a.now + length b.now)) nets) }
{
    pair_input_refusal(st.next, a, b)?;
    st.room_refusal(room, 4 + (a.len() + b.len()), nets)
}

// 4, 20 and 21 of a shift.
#[tactic(auto, using(lists::proofs::Choice::else_first, lists::proofs::Choice::else_rest), unfolding(rules::specs::Refusals::shift_number, rules::specs::Conditions::bad_value))]
fn shift_refusal(room: usize, st: LogState, select: &[u32], a: &[u32]) -> Result<(), Refusal>
    ensures { number_of result ≡ (shift_number st.next select.now a.now or_else room_refusal room (state_of st) (6 + (length select.now + length a.now)) (length a.now)) }
{
    if !net_value::value_good(st.next, select) || !net_value::value_good(st.next, a) {
        return Err(Refusal::BadValue);
    }
    st.room_refusal(room, 6 + (select.len() + a.len()), a.len())
}

// Kind 1: so many new nets.
pub fn add_void(log: &mut [u32], st: LogState, width: u32) -> Result<LogState, Refusal>
    ensures { logged_of (up_from st.next width) result log.new ≡ add_void_call log.old (state_of st) width }
{
    st.room_refusal(log.len(), 4, width as usize)?;
    let mut log = Log {
        words: log,
        state: st,
    };
    log.emit_void(width);
    Ok(log.state)
}

// Kind 2: the inverse of each net.
pub fn add_not(log: &mut [u32], st: LogState, a: &[u32]) -> Result<LogState, Refusal>
    ensures { logged_of (up_from st.next (length a.now)) result log.new ≡ add_not_call log.old (state_of st) a.now }
{
    value_refusal(log.len(), st, a)?;
    let mut log = Log {
        words: log,
        state: st,
    };
    log.emit_not(a);
    Ok(log.state)
}

// Kind 3: net by net. (Each request is its test and its emission: one function over the kind would be no plainer.)
pub fn add_and(log: &mut [u32], st: LogState, a: &[u32], b: &[u32]) -> Result<LogState, Refusal>
    ensures { logged_of (up_from st.next (length a.now)) result log.new ≡ add_pair_call add_and_of log.old (state_of st) a.now b.now }
{
    pair_refusal(log.len(), st, a, b, a.len())?;
    let mut log = Log {
        words: log,
        state: st,
    };
    log.emit_and(a, b);
    Ok(log.state)
}

// Kind 4: net by net.
pub fn add_or(log: &mut [u32], st: LogState, a: &[u32], b: &[u32]) -> Result<LogState, Refusal>
    ensures { logged_of (up_from st.next (length a.now)) result log.new ≡ add_pair_call add_or_of log.old (state_of st) a.now b.now }
{
    pair_refusal(log.len(), st, a, b, a.len())?;
    let mut log = Log {
        words: log,
        state: st,
    };
    log.emit_or(a, b);
    Ok(log.state)
}

// Kind 6: whether two values are equal, in one net.
pub fn add_eq(log: &mut [u32], st: LogState, a: &[u32], b: &[u32]) -> Result<LogState, Refusal>
    ensures { logged_of st.next result log.new ≡ add_pair_call add_eq_of log.old (state_of st) a.now b.now }
{
    pair_refusal(log.len(), st, a, b, 1)?;
    let mut log = Log {
        words: log,
        state: st,
    };
    log.emit_eq(a, b);
    Ok(log.state)
}

// Kind 10: each net of a value replaced by another's.
pub fn replace_value(
    log: &mut [u32],
    st: LogState,
    from: &[u32],
    to: &[u32],
) -> Result<LogState, Refusal>
    ensures { logged_of [] result log.new ≡ add_pair_call replace_value_of log.old (state_of st) from.now to.now }
{
    pair_refusal(log.len(), st, from, to, 0)?;
    let mut log = Log {
        words: log,
        state: st,
    };
    log.emit_replace(from, to);
    Ok(log.state)
}

// Kind 7: a value moved up by select times stride.
pub fn add_shl(
    log: &mut [u32],
    st: LogState,
    stride: u32,
    select: &[u32],
    a: &[u32],
) -> Result<LogState, Refusal>
    ensures { logged_of (up_from st.next (length a.now)) result log.new ≡ add_shift_call add_shl_of log.old (state_of st) stride select.now a.now }
{
    shift_refusal(log.len(), st, select, a)?;
    let mut log = Log {
        words: log,
        state: st,
    };
    log.emit_shl(stride, select, a);
    Ok(log.state)
}

// Kind 8: down.
pub fn add_ushr(
    log: &mut [u32],
    st: LogState,
    stride: u32,
    select: &[u32],
    a: &[u32],
) -> Result<LogState, Refusal>
    ensures { logged_of (up_from st.next (length a.now)) result log.new ≡ add_shift_call add_ushr_of log.old (state_of st) stride select.now a.now }
{
    shift_refusal(log.len(), st, select, a)?;
    let mut log = Log {
        words: log,
        state: st,
    };
    log.emit_ushr(stride, select, a);
    Ok(log.state)
}

// 1, 2 and 4 of a mux, or of a merging one.
#[tactic(auto, unfolding(rules::specs::Refusals::mux_number, rules::specs::Conditions::long_value, rules::specs::Conditions::unequal, rules::specs::Conditions::bad_value))]
pub fn mux_input_refusal(next: u32, select: ControlNet, a: &[u32], b: &[u32]) -> Result<(), Refusal>
    ensures { number_of result ≡ mux_number next (control_of select) a.now b.now }
{
    if rules::MAX_MERGE < a.len() || rules::MAX_MERGE < b.len() {
        return Err(Refusal::TooLarge);
    }
    if a.len() != b.len() {
        return Err(Refusal::BadShape);
    }
    let good = net_value::value_good(next, a) && net_value::value_good(next, b);
    if !net_value::select_good(next, select) || !good {
        return Err(Refusal::BadValue);
    }
    Ok(())
}

// 1, 2, 4, 20 and 21 of a mux.
#[tactic(auto, using(rules::proofs::Answers::else_err, rules::proofs::Answers::else_ok))]
fn mux_refusal(
    room: usize,
    st: LogState,
    select: ControlNet,
    a: &[u32],
    b: &[u32],
) -> Result<(), Refusal>
    ensures { number_of result ≡ (mux_number st.next (control_of select) a.now b.now or_else room_refusal room (state_of st) (5 + (length a.now + length b.now)) (length a.now)) }
{
    mux_input_refusal(st.next, select, a, b)?;
    st.room_refusal(room, 5 + (a.len() + b.len()), a.len())
}

// Kind 5: a mux.
pub fn add_mux(
    log: &mut [u32],
    st: LogState,
    select: ControlNet,
    a: &[u32],
    b: &[u32],
) -> Result<LogState, Refusal>
    ensures { logged_of (up_from st.next (length a.now)) result log.new ≡ add_mux_call log.old (state_of st) (control_of select) a.now b.now }
{
    mux_refusal(log.len(), st, select, a, b)?;
    let mut log = Log {
        words: log,
        state: st,
    };
    log.emit_mux(select, a, b);
    Ok(log.state)
}

// Whether some trits of a flip-flop are not one to each bit.
#[tactic(auto, unfolding(rules::specs::Conditions::bad_trit_lens))]
fn lens_bad(f: FlipFlop) -> bool
    ensures { result ≡ bad_trit_lens (length f.entry.bits.now) f.entry.clear.now f.entry.reset.now f.entry.init.now }
{
    let n = f.bits.len();
    f.clear.len() != n || f.reset.len() != n || f.init.len() != n
}

// Whether some trit code of a flip-flop is bad.
#[tactic(auto, unfolding(rules::specs::Conditions::bad_trits))]
fn trits_bad(f: FlipFlop) -> bool
    ensures { result ≡ (bad_trits f.entry.clear.now || (bad_trits f.entry.reset.now || bad_trits f.entry.init.now)) }
{
    !net_logic::trits_good(f.clear)
        || !net_logic::trits_good(f.reset)
        || !net_logic::trits_good(f.init)
}

// 2 and 4 of a flip-flop.
#[tactic(auto, unfolding(rules::specs::Refusals::dff_number, rules::specs::Refusals::bad_flip_flop_lens, rules::specs::Refusals::bad_flip_flop, rules::specs::Conditions::bad_value))]
pub fn dff_input_refusal(next: u32, f: FlipFlop) -> Result<(), Refusal>
    ensures { number_of result ≡ dff_number next (flip_flop_of f.entry) }
{
    if lens_bad(f) {
        return Err(Refusal::BadShape);
    }
    if !net_value::value_good(next, f.bits) || f.controls.is_bad(next) || trits_bad(f) {
        return Err(Refusal::BadValue);
    }
    Ok(())
}

// 2, 4, 20 and 21 of a flip-flop.
#[tactic(auto, using(rules::proofs::Answers::else_err, rules::proofs::Answers::else_ok))]
fn dff_refusal(room: usize, st: LogState, f: FlipFlop) -> Result<(), Refusal>
    ensures { number_of result ≡ (dff_number st.next (flip_flop_of f.entry) or_else room_refusal room (state_of st) (13 + 4 * length f.entry.bits.now) (length f.entry.bits.now)) }
{
    dff_input_refusal(st.next, f)?;
    st.room_refusal(room, 13 + 4 * f.bits.len(), f.bits.len())
}

// Kind 9: a flip-flop.
pub fn add_dff(log: &mut [u32], st: LogState, f: FlipFlop) -> Result<LogState, Refusal>
    ensures { logged_of (up_from st.next (length f.entry.bits.now)) result log.new ≡ add_dff_call log.old (state_of st) (flip_flop_of f.entry) }
{
    dff_refusal(log.len(), st, f)?;
    let mut log = Log {
        words: log,
        state: st,
    };
    log.emit_dff(f);
    Ok(log.state)
}

// The nots that into_pos logs: 1 where the control is Neg.
#[tactic(auto, unfolding(crate::specs::Remap::nots_of))]
fn nots(c: ControlNet) -> usize
    ensures value { result ≡ nots_of (control_of c) }
    ensures most { result ≤ 1 }
{
    match c {
        ControlNet::Pos(_) => 0,
        ControlNet::Neg(_) => 1,
    }
}

// 4, 20 and 21 of into_pos.
#[tactic(auto, using(lists::proofs::Choice::else_first, lists::proofs::Choice::else_rest), unfolding(rules::specs::Refusals::control_number, rules::specs::Conditions::bad_control))]
fn into_pos_refusal(room: usize, st: LogState, c: ControlNet) -> Result<(), Refusal>
    ensures { number_of result ≡ (control_number st.next (control_of c) or_else room_refusal room (state_of st) (5 * nots_of (control_of c)) (nots_of (control_of c))) }
{
    if !net_value::control_good(st.next, c) {
        return Err(Refusal::BadValue);
    }
    let k = nots(c);
    st.room_refusal(room, 5 * k, k)
}

// The net of a control, with a not where it is Neg.
#[tactic(auto, using(crate::proofs::Remap::pos_run, crate::proofs::Remap::pos_value, crate::proofs::Remap::neg_run, crate::proofs::Remap::neg_value))]
fn emit_into_pos(log: &mut Log, c: ControlNet) -> Net
    ensures log_after { lent_of log.new ≡ run (into_pos_of (control_of c)) (lent_of log.old) }
    ensures net_value { result.0 ∷ [] ≡ (into_pos_of (control_of c) log.old.state.next).value }
{
    match c {
        ControlNet::Pos(net) => net,
        ControlNet::Neg(n) => {
            let net = Net(log.state.next);
            log.emit_not(&[n.0]);
            net
        }
    }
}

// into_pos: a net that is the control.
pub fn into_pos(log: &mut [u32], st: LogState, c: ControlNet) -> Result<After<Net>, Refusal>
    ensures { net_logged_of result log.new ≡ into_pos_call log.old (state_of st) (control_of c) }
{
    into_pos_refusal(log.len(), st, c)?;
    let mut log = Log {
        words: log,
        state: st,
    };
    let value = emit_into_pos(&mut log, c);
    Ok(After {
        value,
        state: log.state,
    })
}

// The controls with another reset, which is over the enable.
#[tactic(auto, unfolding(rules::specs::Log::with_reset))]
fn with_reset(c: Controls, reset: ControlNet) -> Controls
    ensures { controls_of result ≡ with_reset (controls_of c) (control_of reset) }
{
    Controls {
        reset,
        reset_over_enable: true,
        ..c
    }
}

// A reset that is its and with the enable: not of the reset, not of the enable, and.
fn emit_gated(log: &mut Log, c: Controls) -> Controls
    ensures log_after { lent_of log.new ≡ run (gated_reset (controls_of c)) (lent_of log.old) }
    ensures controls_value { is_over (state_of log.new.state) ≡ false → controls_of result ≡ (gated_reset (controls_of c) log.old.state.next).value }
{
    let reset = emit_into_pos(log, c.reset);
    let enable = emit_into_pos(log, c.enable);
    let gated = log.state.next;
    log.emit_and(&[reset.0], &[enable.0]);
    with_reset(c, ControlNet::Pos(Net(gated)))
}

// remap_reset_over_enable, without its numbers.
fn emit_remap(log: &mut Log, c: Controls) -> Controls
    ensures log_after { lent_of log.new ≡ run (remap_reset_over_enable_of (controls_of c)) (lent_of log.old) }
    ensures controls_value { is_over (state_of log.new.state) ≡ false → controls_of result ≡ (remap_reset_over_enable_of (controls_of c) log.old.state.next).value }
{
    if c.reset_over_enable {
        return c;
    }
    if net_value::is_always(c.reset, false) || net_value::is_always(c.enable, true) {
        return with_reset(c, c.reset);
    }
    emit_gated(log, c)
}

// 4 of the two controls that remap_reset_over_enable reads.
#[tactic(auto, unfolding(rules::specs::Refusals::remap_number, rules::specs::Conditions::bad_control))]
fn remap_input_refusal(next: u32, c: Controls) -> Result<(), Refusal>
    ensures { number_of result ≡ remap_number next (controls_of c) }
{
    if !net_value::control_good(next, c.reset) || !net_value::control_good(next, c.enable) {
        return Err(Refusal::BadValue);
    }
    Ok(())
}

// remap_reset_over_enable, of a flip-flop's controls or of a read port's.
pub fn remap_reset_over_enable(
    log: &mut [u32],
    st: LogState,
    c: Controls,
) -> Result<After<Controls>, Refusal>
    ensures { controls_logged_of result log.new ≡ remap_call log.old (state_of st) (controls_of c) }
{
    remap_input_refusal(st.next, c)?;
    let mut dry = Log {
        words: &mut [],
        state: st.dry_start(),
    };
    emit_remap(&mut dry, c);
    st.dry_refusal(log.len(), dry.state)?;
    let mut log = Log {
        words: log,
        state: st,
    };
    let value = emit_remap(&mut log, c);
    Ok(After {
        value,
        state: log.state,
    })
}

// 20 where the result nets of a merge, one per bit, do not fit the room for them.
#[tactic(auto, unfolding(rules::specs::Refusals::result_refusal, rules::specs::Conditions::no_room_of))]
pub fn result_refusal(room: usize, bits: &[u32]) -> Result<(), Refusal>
    ensures { number_of result ≡ result_refusal room bits.now }
{
    if room < bits.len() {
        return Err(Refusal::NoRoom);
    }
    Ok(())
}
