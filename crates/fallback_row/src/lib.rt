// One row of a memory as a register, by its values: the void nets, a bitwise mux for each write port over them, the flip-flop whose results take
// their place, and the outputs that they drive. A row of more nets than a merge takes, which no memory has, gives nothing.
#![tactic(auto)]

ghost use Rattle.std.specs.Prelude.{◌≡◌, ◌≤◌, length, take};
ghost use Rattle.std.proofs.lemmas.List.Edits.{sets};
ghost use Rattle.lists.specs.Lists.{up_from};
ghost use Rattle.rules.specs.Limits.{max_merge, max_nets};
ghost use Rattle.rules.specs.Value.{net_of_trit, of_const};
ghost use Rattle.rules.specs.Log.{add_void_of, replace_value_of};
ghost use Rattle.net_value.specs.View.{control_of};
ghost use Rattle.log_entries.specs.Emission.{run};
ghost use Rattle.log_entries.specs.View.{lent_of};
ghost use Rattle.port_transparency.specs.Gave.{Gave};
ghost use Rattle.fallback_row.specs.Row.{start_if, over, over_if, held_back, held_if, driven_by};

use log_entries::Log;
use merge_keys::Keys;
use net_flip_flop::{Controls, FlipFlop};
use net_value::ControlNet;

// A row: its nets as the write ports leave them, and room for muxes. It is lent, so that many rows clear it once. The room stands first: what is copied
// from it goes upwards, and is no memmove.
#[derive(Drop)]
pub struct Row {
    pub spare: [u32; rules::MAX_MERGE],
    pub nets: [u32; rules::MAX_MERGE],
    pub keys: Keys,
}

// The void nets of a row of w bits, which become the first of `out` and of the row; any w.
pub fn emit_start(log: &mut Log, row: &mut Row, out: &mut [u32; rules::MAX_MERGE], w: u32)
    ensures nets { Gave (start_if w (take w out.old)) (lent_of log.old) (lent_of log.new) (take w out.new) }
    ensures row { w ≤ max_merge → take w row.new.nets ≡ take w out.new }
{
    if rules::MAX_MERGE < w as usize {
        return;
    }
    port_transparency::void_into(log, out, w);
    lists::copy(&mut row.nets, 0, &out[..w as usize]);
}

// A write port over the row.
fn over_row(log: &mut Log, row: &mut Row, w: usize, mask: &[u32], bits: &[u32])
    requires { (w ≤ max_merge) × (length mask.now ≡ w) × (length bits.now ≡ w) }
    ensures { Gave (over mask.now bits.now (take w row.old.nets)) (lent_of log.old) (lent_of log.new) (take w row.new.nets) }
{
    let under = &row.nets[..w];
    merge_mux::emit::emit_bitwise_nets(log, &mut row.keys, &mut row.spare, mask, bits, under);
    lists::copy(&mut row.nets, 0, &row.spare[..w]);
}

// The same of any port; one whose data or mask is not as long as the row gives nothing.
pub fn emit_over(log: &mut Log, row: &mut Row, w: usize, mask: &[u32], bits: &[u32])
    ensures { Gave (over_if w mask.now bits.now (take w row.old.nets)) (lent_of log.old) (lent_of log.new) (take w row.new.nets) }
{
    if rules::MAX_MERGE < w || mask.len() != w || bits.len() != w {
        return;
    }
    over_row(log, row, w, mask, bits);
}

// The flip-flop of the row, whose results take the place of the first w nets of `q`.
fn held_row(log: &mut Log, row: &mut Row, w: usize, clock: ControlNet, init: &[u8], q: &[u32])
    requires { (w ≤ max_merge) × (max_merge ≤ length q.now) }
    ensures log_after { lent_of log.new ≡ run (held_back (control_of clock) init.now (take w row.old.nets) (take w q.now)) (lent_of log.old) }
    ensures nets_kept { row.new.nets ≡ row.old.nets }
{
    let f = FlipFlop {
        controls: Controls::plain(clock),
        bits: &row.nets[..w],
        clear: init,
        reset: init,
        init,
    };
    port_transparency::dff_into(log, &mut row.spare, f);
    log.emit_replace(&q[..w], &row.spare[..w]);
}

// The same of any w. The row keeps its nets.
pub fn emit_held(
    log: &mut Log,
    row: &mut Row,
    w: usize,
    clock: ControlNet,
    init: &[u8],
    q: &[u32; rules::MAX_MERGE],
)
    ensures log_after { lent_of log.new ≡ run (held_if w (control_of clock) init.now (take w row.old.nets) (take w q.now)) (lent_of log.old) }
    ensures nets_kept { row.new.nets ≡ row.old.nets }
{
    if rules::MAX_MERGE < w {
        return;
    }
    held_row(log, row, w, clock, init, q);
}

// The net of a trit.
#[tactic(auto, unfolding(rules::specs::Value::net_of_trit))]
fn net_of_trit(t: u8) -> u32
    ensures { result ≡ net_of_trit t }
{
    if t == rules::TRIT_X {
        return rules::NET_X;
    }
    u32::from(t)
}

// The nets of trits, from the start of `row` on.
pub fn const_row(row: &mut [u32], init: &[u8])
    ensures { row.new ≡ sets row.old 0 (of_const init.now) }
{
    let n = row.len().min(init.len());
    for (i, trit) in init[..n].iter().enumerate() {
        row[i] = net_of_trit(*trit);
    }
}

// The w outputs from `first` on replaced by the row.
fn drive(log: &mut Log, spare: &mut [u32], first: u32, w: u32, q: &[u32])
    requires { (w ≤ max_merge) × (first ≤ max_nets) × (max_merge ≤ length spare.old) × (max_merge ≤ length q.now) }
    ensures { lent_of log.new ≡ run (replace_value_of (up_from first w) (take w q.now)) (lent_of log.old) }
{
    let n = w as usize;
    lists::store_run(spare, 0, first, first + w);
    log.emit_replace(&spare[..n], &q[..n]);
}

// The same of any w and any first net.
pub fn emit_drive(
    log: &mut Log,
    spare: &mut [u32; rules::MAX_MERGE],
    first: u32,
    w: u32,
    q: &[u32; rules::MAX_MERGE],
)
    ensures { lent_of log.new ≡ run (driven_by first w (take w q.now)) (lent_of log.old) }
{
    if rules::MAX_MERGE < w as usize || rules::MAX_NETS < first {
        return;
    }
    drive(log, spare, first, w, q);
}
