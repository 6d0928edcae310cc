// The mux tree of a read port, over pieces that stand side by side in lent scratch. The scratch and the width of a piece go apart: a struct of both,
// lent on from call to call, is no plainer: each promise would also say that the width and the lent slice stay what they are.
#![tactic(auto)]

ghost use Rattle.std.specs.Prelude.{◌≡◌, false, ◌+◌, ◌-◌, ◌*◌, ◌<◌, ◌≤◌, length, take, drop};
ghost use Rattle.std.proofs.lemmas.List.Edits.{sets};
ghost use Rattle.lists.specs.Lists.{part, up_from};
ghost use Rattle.rules.specs.Log.{add_mux_of};
ghost use Rattle.rules.specs.Value.{Pos};
ghost use Rattle.rules.specs.Swizzle.{pair_up, mux_tree};
ghost use Rattle.log_entries.specs.Emission.{is_over, run};
ghost use Rattle.log_entries.specs.View.{state_of, lent_of};
ghost use Rattle.swizzle_laws.specs.Cuts.{cut, joined};
ghost use Rattle.swizzle_tree.specs.Scratch.{results, Paired, Treed, Built};

use log_entries::Log;
use net_value::{ControlNet, Net};

// The mux of two neighbouring pieces: the second where the bit is 1.
fn emit_pair(log: &mut Log, bit: u32, pieces: &[u32], from: usize, width: usize)
    requires { from + (width + width) ≤ length pieces.now }
    ensures { lent_of log.new ≡ run (add_mux_of (Pos bit) (part (from + width) width pieces.now) (part from width pieces.now)) (lent_of log.old) }
{
    let middle = from + width;
    let end = middle + width;
    log.emit_mux(
        ControlNet::Pos(Net(bit)),
        &pieces[middle..end],
        &pieces[from..middle],
    );
}

// The same, and its result nets stored as a piece.
fn pair_at(log: &mut Log, bit: u32, pieces: &mut [u32], from: usize, to: usize, width: usize)
    requires { from + (width + width) ≤ length pieces.old }
    ensures log_after { lent_of log.new ≡ run (add_mux_of (Pos bit) (part (from + width) width pieces.old) (part from width pieces.old)) (lent_of log.old) }
    ensures pieces_after { pieces.new ≡ results (is_over (state_of log.new.state)) pieces.old to (up_from log.old.state.next width) }
{
    let first = log.state.next;
    emit_pair(log, bit, pieces, from, width);
    if log.state.is_over() {
        return;
    }
    lists::store_run(pieces, to, first, log.state.next);
}

// Moves a piece down. (One by one: `copy_within` needs a function of the C library that nothing else here needs.)
fn move_down(pieces: &mut [u32], from: usize, to: usize, width: usize)
    requires { (to ≤ from) × (from + width ≤ length pieces.old) }
    ensures { pieces.new ≡ sets pieces.old to (part from width pieces.old) }
{
    for i in 0..width {
        pieces[to + i] = pieces[from + i];
    }
}

// The piece that is left where there is no other to pair it with.
fn last_alone(pieces: &mut [u32], left: usize, from: usize, to: usize, width: usize)
    requires { (left ≤ 1) × (to ≤ from) × (from + left * width ≤ length pieces.old) }
    ensures { pieces.new ≡ sets pieces.old to (joined (cut width left (drop from pieces.old))) }
{
    if left == 0 {
        return;
    }
    move_down(pieces, from, to, width);
}

// One level: pieces paired by one bit, in place; a last piece alone, from where the pairs end, passes without a mux.
fn pair_up(log: &mut Log, bit: u32, pieces: &mut [u32], count: usize, width: usize)
    requires { count * width ≤ length pieces.old }
    ensures { Paired bit width count pieces.old pieces.new (lent_of log.old) (lent_of log.new) }
{
    // By number: the pairs go to the front of the array that they stand in, and the last one is looked for where these end.
    let mut from = 0;
    let mut to = 0;
    for _ in 0..count / 2 {
        pair_at(log, bit, pieces, from, to, width);
        from += width + width;
        to += width;
    }
    last_alone(pieces, count % 2, from, to, width);
}

// The tree over the pieces: paired by the lowest bit, then the tree over half as many, rounded up, with one bit fewer.
fn tree(log: &mut Log, bits: &[u32], pieces: &mut [u32], count: usize, width: usize)
    requires { (0 < count) × (count * width ≤ length pieces.old) }
    ensures { Treed bits.now width count pieces.old pieces.new (lent_of log.old) (lent_of log.new) }
{
    if bits.is_empty() {
        return;
    }
    pair_up(log, bits[0], pieces, count, width);
    tree(log, &bits[1..], pieces, count.div_ceil(2), width);
}

// The tree over `count` pieces of `width` nets, which stand at the front of the scratch; where there is none, or the scratch does not hold
// them, nothing is done.
pub fn emit_tree(log: &mut Log, pieces: &mut [u32], bits: &[u32], count: u32, width: u32)
    ensures { Built bits.now width count pieces.old pieces.new (lent_of log.old) (lent_of log.new) }
{
    if count == 0 {
        return;
    }
    let n = count as usize;
    let w = width as usize;
    if pieces.len() < n * w {
        return;
    }
    tree(log, bits, pieces, n, w);
}
