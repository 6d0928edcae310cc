// memory/src/lib.rs, unmap_read_dff without its numbers: the port reads at once, the write ports that it is transparent to are laid over what it
// reads, and the flip-flop stands behind. Where a port has a mask beside its data, that is laid over too.
#![tactic(auto)]

ghost use Rattle.std.specs.Prelude.{◌≡◌, false, List, ℕ, ◌+◌, ◌≤◌, take};
ghost use Rattle.rules.specs.Limits.{max_merge};
ghost use Rattle.rules.specs.Cell.{write_at, write_wide_log2};
ghost use Rattle.log_entries.specs.Emission.{is_over, run};
ghost use Rattle.log_entries.specs.View.{state_of, lent_of};
ghost use Rattle.net_memory.specs.View.{memory_of};
ghost use Rattle.port_transparency.specs.Gave.{Gave};
ghost use Rattle.port_transparency.specs.Pairs.{writing, write_of, read_of, data_and};
ghost use Rattle.port_overlay.specs.Laid.{laid_by, laid_as, laid_from, behind, with_bits, unmapped, unmapped_if};

use log_entries::Log;
use net_flip_flop::FlipFlop;
use net_memory::{Given, Memory, MemoryPortRelation};
use port_transparency::{NoMask, Over, Overlay, Reading, Writing};

// A clocked read port in parts: what it reads, its relations to the write ports, and its flip-flop as a cell of its own, whose bits are the port's
// outputs.
#[derive(Clone, Copy)]
pub struct Parts<'a> {
    pub reading: Reading<'a>,
    pub relations: &'a [u8],
    pub flip_flop: FlipFlop<'a>,
}

// Write port j, as a transparency reads it.
pub fn writing<'a>(given: Given<'a>, j: usize) -> Writing<'a>
    ensures k_value { (trits : List ℕ) → result.k ≡ write_wide_log2 (memory_of given.entry.memory given.entry.nets.now trits) (write_at (memory_of given.entry.memory given.entry.nets.now trits) j) }
    ensures port { (trits : List ℕ) → write_of result ≡ writing (write_at (memory_of given.entry.memory given.entry.nets.now trits) j).addr (write_at (memory_of given.entry.memory given.entry.nets.now trits) j).bits (write_at (memory_of given.entry.memory given.entry.nets.now trits) j).mask }
{
    let w = given.write_port(j);
    let bits = w.bits();
    Writing {
        k: net_memory::wide::wide_log(given.memory.width, bits.len()),
        addr: w.addr(),
        bits,
        mask: w.mask(),
    }
}

// Write port j over what a read port reads, and over its mask where there is one.
pub fn emit_pair<'a, O: Over>(
    log: &mut Log,
    overlay: &mut Overlay,
    over: &mut O,
    given: Given<'a>,
    j: usize,
    r: Reading<'a>,
)
    ensures { (trits : List ℕ) → Gave (laid_by (memory_of given.entry.memory given.entry.nets.now trits) r.entry.k (read_of r.entry) j (data_and (take r.entry.count overlay.old.under) (O.mask over.old r.entry.count))) (lent_of log.old) (lent_of log.new) (data_and (take r.entry.count overlay.new.under) (O.mask over.new r.entry.count)) }
{
    overlay.emit_transparency(log, over, writing(given, j), r);
}

// The same where the relation to it is Transparent.
fn emit_related<'a, O: Over>(
    log: &mut Log,
    overlay: &mut Overlay,
    over: &mut O,
    given: Given<'a>,
    x: u8,
    j: usize,
    r: Reading<'a>,
)
    ensures { (trits : List ℕ) → Gave (laid_as (memory_of given.entry.memory given.entry.nets.now trits) r.entry.k (read_of r.entry) x j (data_and (take r.entry.count overlay.old.under) (O.mask over.old r.entry.count))) (lent_of log.old) (lent_of log.new) (data_and (take r.entry.count overlay.new.under) (O.mask over.new r.entry.count)) }
{
    if x != u8::from(MemoryPortRelation::Transparent) {
        return;
    }
    emit_pair(log, overlay, over, given, j, r);
}

// The write ports that these relations are Transparent to, one after the other.
pub fn emit_pairs<'a, O: Over>(
    log: &mut Log,
    overlay: &mut Overlay,
    over: &mut O,
    given: Given<'a>,
    rels: &[u8],
    r: Reading<'a>,
)
    ensures { (trits : List ℕ) → Gave (laid_from (memory_of given.entry.memory given.entry.nets.now trits) r.entry.k (read_of r.entry) 0 rels.now (data_and (take r.entry.count overlay.old.under) (O.mask over.old r.entry.count))) (lent_of log.old) (lent_of log.new) (data_and (take r.entry.count overlay.new.under) (O.mask over.new r.entry.count)) }
{
    for (j, x) in rels.iter().enumerate() {
        emit_related(log, overlay, over, given, *x, j, r);
    }
}

// The flip-flop of n nets that stands behind a port: its results take the place of the port's outputs, which `f` has as its bits.
fn emit_behind(log: &mut Log, overlay: &mut Overlay, f: FlipFlop, n: usize)
    requires { n ≤ max_merge }
    ensures { lent_of log.new ≡ run (behind (with_bits f.entry (take n overlay.old.under)) f.entry.bits.now) (lent_of log.old) }
{
    let data = FlipFlop {
        bits: &overlay.under[..n],
        ..f
    };
    port_transparency::dff_into(log, &mut overlay.bits, data);
    log.emit_replace(f.bits, &overlay.bits[..n]);
}

// A clocked port unmapped. Gives the net after the void nets.
fn emit_unmapped<'a>(log: &mut Log, overlay: &mut Overlay, given: Given<'a>, port: Parts<'a>) -> u32
    requires { port.reading.count ≤ max_merge }
    ensures by_index { (trits : List ℕ) → lent_of log.new ≡ run (unmapped (memory_of given.entry.memory given.entry.nets.now trits) port.entry.reading.k (read_of port.entry.reading) port.entry.reading.count port.entry.relations.now (with_bits port.entry.flip_flop) port.entry.flip_flop.bits.now) (lent_of log.old) }
    ensures last_value { is_over (state_of log.new.state) ≡ false → result ≡ log.old.state.next + port.entry.reading.count }
{
    let Parts {
        reading: r,
        relations,
        flip_flop,
    } = port;
    port_transparency::void_into(log, &mut overlay.under, r.count as u32);
    let last = log.state.next;
    emit_pairs(log, overlay, &mut NoMask, given, relations, r);
    emit_behind(log, overlay, flip_flop, r.count);
    last
}

// The same of any port: one of more nets than a merge takes, which no memory has, gives nothing.
pub fn emit_unmap<'a>(
    log: &mut Log,
    overlay: &mut Overlay,
    given: Given<'a>,
    port: Parts<'a>,
) -> u32
    ensures by_index { (trits : List ℕ) → lent_of log.new ≡ run (unmapped_if (memory_of given.entry.memory given.entry.nets.now trits) port.entry.reading.k (read_of port.entry.reading) port.entry.reading.count port.entry.relations.now (with_bits port.entry.flip_flop) port.entry.flip_flop.bits.now) (lent_of log.old) }
    ensures last_value { port.entry.reading.count ≤ max_merge → is_over (state_of log.new.state) ≡ false → result ≡ log.old.state.next + port.entry.reading.count }
{
    if rules::MAX_MERGE < port.reading.count {
        return log.state.next;
    }
    emit_unmapped(log, overlay, given, port)
}
