// memory/src/lib.rs, DesignExt: add_dedup_mux and add_bitwise_mux. Equal bits are kept once, in order of first appearance.
ghost use Rattle.std.specs.Prelude.{◌≡◌, false, not, ◌+◌, ◌-◌, ◌<◌, ◌≤◌, min, length, drop, get_or, eqb, position};
ghost use Rattle.std.proofs.lemmas.List.Edits.{sets};
ghost use Rattle.lists.specs.Lists.{part, up_from};
ghost use Rattle.rules.specs.Limits.{X};
ghost use Rattle.rules.specs.Log.{add_mux_of};
ghost use Rattle.rules.specs.Merge.{spread, add_dedup_mux_of, add_bitwise_mux_of};
ghost use Rattle.rules.specs.Value.{Pos};
ghost use Rattle.net_value.specs.View.{control_of};
ghost use Rattle.log_entries.specs.Emission.{is_over, run};
ghost use Rattle.log_entries.specs.View.{state_of, lent_of};
ghost use Rattle.merge_mux.specs.Runs.{run_at, Bits, Within, bits_taken, bitwise_of};
ghost use Rattle.merge_mux.specs.Results.{limited, results};

use log_entries::{Log, LogState};
use merge_keys::columns::Columns;
use merge_keys::{Kept, Keys};
use net_value::{ControlNet, Net};

// The net of a kept bit: `first` is that of the first of `width` kept bits.
#[tactic(auto, using(lists::proofs::UpFrom::up_at, lists::proofs::UpFrom::up_past))]
fn net_at(first: u32, width: u32, place: u32) -> u32
    requires { first + width ≤ X }
    ensures { result ≡ get_or (up_from first width) place X }
{
    if place < width {
        return first + place;
    }
    rules::NET_X
}

// Stores the net of each bit from `to` on, by its place among the kept bits. What lies past the end of `out` is not stored.
fn spread_nets(out: &mut [u32], to: usize, first: u32, width: u32, at: &[u32])
    requires { first + width ≤ X }
    ensures { out.new ≡ sets out.old to (spread at.now (up_from first width)) }
{
    let start = to.min(out.len());
    let n = at.len().min(out.len() - start);
    for (i, place) in at[..n].iter().enumerate() {
        out[start + i] = net_at(first, width, *place);
    }
}

// The nets between two states, given to each bit by its place; nothing where the emission between them overflowed.
#[tactic(auto, using(crate::proofs::Spread::results_none, crate::proofs::Spread::results_some))]
pub fn spread_results(out: &mut [u32], to: usize, st: LogState, after: LogState, at: &[u32])
    ensures { out.new ≡ results (is_over (state_of after)) out.old to (spread at.now (up_from st.next (after.next - st.next))) }
{
    if after.is_over() {
        return;
    }
    let width = after.next.saturating_sub(st.next);
    spread_nets(out, to, st.next, width, at);
}

// A mux of kept bits, whose result nets go to each bit by its place, from `to` on.
pub fn emit_kept_mux(log: &mut Log, out: &mut [u32], to: usize, select: ControlNet, kept: Kept<'_>)
    ensures log_after { lent_of log.new ≡ run (add_mux_of (control_of select) kept.entry.x.now kept.entry.y.now) (lent_of log.old) }
    ensures out_after { out.new ≡ results (is_over (state_of log.new.state)) out.old to (spread kept.entry.at.now (add_mux_of (control_of select) kept.entry.x.now kept.entry.y.now log.old.state.next).value) }
{
    let st = log.state;
    log.emit_mux(select, kept.x, kept.y);
    spread_results(out, to, st, log.state, kept.at);
}

// add_dedup_mux without its numbers: a mux in which equal bits are kept once. The result net of each bit goes to `out`, from `to` on.
pub fn emit_dedup_mux(
    log: &mut Log,
    keys: &mut Keys,
    out: &mut [u32],
    to: usize,
    select: ControlNet,
    a: &[u32],
    b: &[u32],
)
    ensures log_after { lent_of log.new ≡ run (add_dedup_mux_of (control_of select) (limited a.now) (limited b.now)) (lent_of log.old) }
    ensures out_after { out.new ≡ results (is_over (state_of log.new.state)) out.old to (add_dedup_mux_of (control_of select) (limited a.now) (limited b.now) log.old.state.next).value }
{
    let kept = keys.merge(Columns { x: a, y: b });
    emit_kept_mux(log, out, to, select, kept);
}

// Where the first element stands that differs from x.
fn first_other(s: &[u32], x: u32) -> Option<usize>
    ensures { result ≡ position (λ y. not (eqb y x)) s.now }
{
    s.iter().position(|y| *y != x)
}

// The end of the run of equal neighbours that starts at i.
fn run_end(s: &[u32], i: usize) -> usize
    requires { i < length s.now }
    ensures value { result ≡ i + run_at (drop i s.now) }
    ensures lower_bound { (i < result) × (result ≤ length s.now) }
{
    let rest = &s[i..];
    i + first_other(rest, s[i]).unwrap_or(rest.len())
}

// A merging mux for each run of equal neighbouring selects.
fn mux_runs(log: &mut Log, keys: &mut Keys, nets: &mut [u32], s: &[u32], a: &[u32], b: &[u32])
    requires { Bits s.now a.now b.now }
    ensures log_after { lent_of log.new ≡ run (add_bitwise_mux_of s.now a.now b.now) (lent_of log.old) }
    ensures nets_after { is_over (state_of log.new.state) ≡ false → nets.new ≡ sets nets.old 0 (add_bitwise_mux_of s.now a.now b.now log.old.state.next).value }
{
    let mut i = 0;
    // goes from run to run, and not from index to index
    while i < s.len() {
        let e = run_end(s, i);
        let select = ControlNet::Pos(Net(s[i]));
        emit_dedup_mux(log, keys, nets, i, select, &a[i..e], &b[i..e]);
        i = e;
    }
}

// How many bits a bitwise mux of these values has.
#[tactic(auto, using(crate::proofs::Bitwise::within_bits))]
fn bits_of(s: &[u32], a: &[u32], b: &[u32]) -> usize
    ensures value { result ≡ bits_taken s.now a.now b.now }
    ensures within { Within s.now a.now b.now result }
{
    rules::MAX_MERGE.min(s.len()).min(a.len().min(b.len()))
}

// add_bitwise_mux without its numbers: a merging mux for each run of equal neighbouring selects. The result net of each bit goes to `nets`, which is left
// open where the emission overflowed.
#[tactic(auto, using(crate::proofs::Bitwise::cut_bits, crate::proofs::Bitwise::cut_is))]
pub fn emit_bitwise_nets(
    log: &mut Log,
    keys: &mut Keys,
    nets: &mut [u32],
    s: &[u32],
    a: &[u32],
    b: &[u32],
)
    ensures log_after { lent_of log.new ≡ run (bitwise_of s.now a.now b.now) (lent_of log.old) }
    ensures nets_after { is_over (state_of log.new.state) ≡ false → nets.new ≡ sets nets.old 0 (bitwise_of s.now a.now b.now log.old.state.next).value }
{
    let n = bits_of(s, a, b);
    mux_runs(log, keys, nets, &s[..n], &a[..n], &b[..n]);
}

// The same, where `out` keeps what it has if the emission overflows.
pub fn emit_bitwise_mux(
    log: &mut Log,
    keys: &mut Keys,
    out: &mut [u32],
    s: &[u32],
    a: &[u32],
    b: &[u32],
)
    ensures log_after { lent_of log.new ≡ run (bitwise_of s.now a.now b.now) (lent_of log.old) }
    ensures out_after { out.new ≡ results (is_over (state_of log.new.state)) out.old 0 (bitwise_of s.now a.now b.now log.old.state.next).value }
{
    let n = bits_of(s, a, b);
    let mut nets = [0u32; rules::MAX_MERGE];
    mux_runs(log, keys, &mut nets, &s[..n], &a[..n], &b[..n]);
    if log.state.is_over() {
        return;
    }
    lists::copy(out, 0, &nets[..n]);
}
