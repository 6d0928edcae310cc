// memory/src/lib.rs, unmap_read_dff: a read port reads at once, and its flip-flop stands behind it as a cell of its own.
#![tactic(auto)]

ghost use Rattle.std.specs.Prelude.{◌≡◌, false, List, ℕ, ◌+◌, ◌<◌, ◌≤◌, min, length, ◌&&◌};
ghost use Rattle.lists.specs.Lists.{any, part};
ghost use Rattle.rules.specs.Limits.{max_ports, max_merge};
ghost use Rattle.rules.specs.Cell as rules;
ghost use Rattle.rules.specs.Cell.{read_at_of, read_wide_log2, output_slice, is_transparent, transparent_from};
ghost use Rattle.rules.specs.Conditions.{short_pair, short_port};
ghost use Rattle.rules.specs.Refusal.{number_of};
ghost use Rattle.rules.specs.Refusals.{log_refusal, unmap_read_dff_number};
ghost use Rattle.rules.specs.Answers.{driven, unmap_read_dff_call};
ghost use Rattle.rules.specs.Ports.{unmap_dff, unmap_read_dff};
ghost use Rattle.log_entries.specs.Emission.{is_over, run};
ghost use Rattle.log_entries.specs.View.{state_of, lent_of};
ghost use Rattle.net_memory.specs.View.{memory_of, read_port, clocked_by};
ghost use Rattle.net_memory.specs.Ports.{read_of};
ghost use Rattle.net_memory.specs.Given.{view_given, mem_of};
ghost use Rattle.port_unmap.specs.Ready.{flip_flop_in, ReadyIn};
ghost use Rattle.port_unmap.specs.Short.{ReadBy};
ghost use Rattle.port_unmap.specs.Trace.{FlipFlopOf, port_trace};
ghost use Rattle.port_unmap.specs.Call.{unclocking, driving, rooms_of, driven_of, NewStruct};

use log_entries::{Log, LogState};
use net_flip_flop::{Controls, FlipFlop};
use net_memory::{Given, Memory, MemoryPortRelation, ReadPort};
use port_overlay::Parts;
use port_transparency::{Overlay, Reading};
use rules::Refusal;

// The memory and the log's state after a call that drives nets.
#[derive(Clone, Copy)]
pub struct Driven {
    pub memory: Memory,
    pub state: LogState,
}

// What an overlay reads of a read port, in a memory of this width.
pub fn reading<'a>(width: u32, own: ReadPort<'a>) -> Reading<'a>
    ensures { (v : rules.Mem) (r : rules.ReadPort) → width ≡ v.width → read_of own.entry ≡ r → ReadBy v r result × (result.count ≡ r.data_len) }
{
    let count = own.port.data_len as usize;
    Reading {
        k: net_memory::wide::wide_log(width, count),
        addr: own.addr(),
        count,
    }
}

// Read port i in parts, with these controls.
pub fn parts_of<'a>(
    given: Given<'_>,
    i: usize,
    own: &'a ReadPort<'a>,
    c: Controls,
    output: &'a [u32],
) -> Parts<'a>
    ensures reading { read_of own.now ≡ read_at_of (mem_of given.entry) i → (result.reading.k ≡ read_wide_log2 (mem_of given.entry) (read_at_of (mem_of given.entry) i)) × (result.reading.addr.now ≡ (read_at_of (mem_of given.entry) i).addr) × (result.reading.count ≡ (read_at_of (mem_of given.entry) i).data_len) × (result.flip_flop.bits.now ≡ output_slice (mem_of given.entry) i output.now) }
    ensures flip_flop { FlipFlopOf result.flip_flop (clocked_by c own.now.port own.now.trits.now) }
    ensures relations { result.relations.now ≡ part 0 own.now.port.relations_len own.now.port.relations }
{
    let reading = reading(given.memory.width, *own);
    let start = net_memory::output_start(&given.memory, i);
    let flip_flop = FlipFlop {
        controls: c,
        bits: lists::part(output, start, reading.count),
        clear: own.clear(),
        reset: own.reset(),
        init: own.init(),
    };
    Parts {
        reading,
        relations: own.relations(),
        flip_flop,
    }
}

// A clocked read port to unmap: its memory, its number there, and its controls.
#[derive(Clone, Copy)]
pub struct Clocked<'a> {
    pub given: Given<'a>,
    pub i: usize,
    pub controls: Controls,
}

impl<'a> Clocked<'a> {
    // The port unmapped: the same function runs dry on an empty log. Gives the net after the void nets.
    pub fn emit(&self, log: &mut Log, overlay: &mut Overlay, output: &[u32]) -> u32
        ensures log_after { self.now.i < min max_ports self.now.given.memory.read_count → lent_of log.new ≡ run (port_trace (mem_of self.now.given) self.now.i output.now (flip_flop_in self.now)) (lent_of log.old) }
        ensures last_value { (read_at_of (mem_of self.now.given) self.now.i).data_len ≤ max_merge → is_over (state_of log.new.state) ≡ false → result ≡ log.old.state.next + (read_at_of (mem_of self.now.given) self.now.i).data_len }
    {
        let own = self.given.read_port(self.i);
        let port = parts_of(self.given, self.i, &own, self.controls, output);
        port_overlay::emit_unmap(log, overlay, self.given, port)
    }

    // 20 and 21 of it, by a run without a log.
    fn dry_refusal(
        &self,
        room: usize,
        st: LogState,
        overlay: &mut Overlay,
        output: &[u32],
    ) -> Result<(), Refusal>
        requires { ReadyIn self.now }
        ensures { number_of result ≡ log_refusal room (state_of st) (unmap_dff (mem_of self.now.given) self.now.i output.now (flip_flop_in self.now)) }
    {
        let mut dry = Log {
            words: &mut [],
            state: st.dry_start(),
        };
        self.emit(&mut dry, overlay, output);
        st.dry_refusal(room, dry.state)
    }

    // 20 and 21 by a dry run, then the same for good. (Log and state stay apart down to here: the dry run asks for the log's length and for the state
    // alone, and the answer holds the state.)
    fn unmap(&self, log: &mut [u32], st: LogState, output: &mut [u32]) -> Result<Driven, Refusal>
        requires { ReadyIn self.now }
        ensures log_after { driven_of self.now.given.memory result self.now.given.nets.now self.now.given.trits.now output.new log.new ≡ driven (log_refusal (length log.old) (state_of st) (unmap_dff (mem_of self.now.given) self.now.i output.old (flip_flop_in self.now))) log.old (state_of st) (driving self.now.given.memory self.now.given.nets.now self.now.given.trits.now output.old) (unmap_dff (mem_of self.now.given) self.now.i output.old (flip_flop_in self.now)) }
        ensures new_struct { NewStruct self.now.given.memory self.now.i result }
    {
        let mut overlay = Overlay::new();
        self.dry_refusal(log.len(), st, &mut overlay, output)?;
        let mut log = Log {
            words: log,
            state: st,
        };
        let last = self.emit(&mut log, &mut overlay, output);
        let start = net_memory::output_start(&self.given.memory, self.i);
        lists::store_run(output, start, st.next, last);
        Ok(Driven {
            memory: unclock(self.given.memory, self.i),
            state: log.state,
        })
    }
}

// The pair of a read port and write port j has too few address bits.
pub fn pair_short(given: Given<'_>, r: Reading, j: usize) -> bool
    ensures { (trits : List ℕ) (p : rules.ReadPort) → ReadBy (memory_of given.entry.memory given.entry.nets.now trits) p r.entry → result ≡ short_pair (memory_of given.entry.memory given.entry.nets.now trits) p j }
{
    let w = port_overlay::writing(given, j);
    net_value::narrower_select_refusal(w.addr, r.addr, w.k, r.k).is_err()
}

// The same where the relation to it is Transparent.
#[tactic(auto, unfolding(rules::specs::Cell::is_transparent))]
fn related_short(given: Given<'_>, r: Reading, x: u8, j: usize) -> bool
    ensures { (trits : List ℕ) (p : rules.ReadPort) → ReadBy (memory_of given.entry.memory given.entry.nets.now trits) p r.entry → result ≡ (is_transparent x && short_pair (memory_of given.entry.memory given.entry.nets.now trits) p j) }
{
    x == u8::from(MemoryPortRelation::Transparent) && pair_short(given, r, j)
}

// Some pair of these relations has too few.
fn pairs_short(given: Given<'_>, r: Reading, rels: &[u8]) -> bool
    ensures { (trits : List ℕ) (p : rules.ReadPort) → ReadBy (memory_of given.entry.memory given.entry.nets.now trits) p r.entry → result ≡ any (short_pair (memory_of given.entry.memory given.entry.nets.now trits) p) (transparent_from 0 rels.now) }
{
    rels.iter()
        .enumerate()
        .any(|(j, x)| related_short(given, r, *x, j))
}

// A transparent pair of port i has too few; a port that is not there has none.
pub fn port_short(given: Given<'_>, i: usize) -> bool
    ensures { (trits : List ℕ) → result ≡ short_port (memory_of given.entry.memory given.entry.nets.now trits) (read_at_of (memory_of given.entry.memory given.entry.nets.now trits) i) }
{
    let own = given.read_port(i);
    own.port.flip_flop.is_some()
        && pairs_short(given, reading(given.memory.width, own), own.relations())
}

// 1 to 4, 14 and 15.
#[tactic(auto, using(rules::proofs::Answers::else_err), unfolding(rules::specs::Refusals::unmap_read_dff_number))]
fn unmap_refusal(given: Given<'_>, i: usize, output: &[u32], next: u32) -> Result<(), Refusal>
    ensures { number_of result ≡ unmap_read_dff_number next (view_given given.entry) i output.now }
{
    port_outputs::driving_refusal(given, output, next, false)?;
    if port_short(given, i) {
        return Err(Refusal::ShortAddress);
    }
    if net_memory::ports_used(given.memory.read_count) <= i {
        return Err(Refusal::OutOfRange);
    }
    Ok(())
}

// The memory whose port i has no flip-flop.
fn unclock(m: Memory, i: usize) -> Memory
    requires { i < 8 }
    ensures { result ≡ unclocking m i }
{
    let mut out = m;
    out.read_ports[i].flip_flop = None;
    out
}

// A port that numbers 1 to 4, 14 and 15 pass; without a flip-flop nothing is done.
fn unmap_port(
    log: &mut [u32],
    st: LogState,
    output: &mut [u32],
    given: Given<'_>,
    i: usize,
) -> Result<Driven, Refusal>
    requires { unmap_read_dff_number st.next (view_given given) i output.old ≡ 0 }
    ensures log_after { driven_of given.entry.memory result given.entry.nets.now given.entry.trits.now output.new log.new ≡ driven (log_refusal (length log.old) (state_of st) (unmap_read_dff (mem_of given.entry) i output.old)) log.old (state_of st) (driving given.entry.memory given.entry.nets.now given.entry.trits.now output.old) (unmap_read_dff (mem_of given.entry) i output.old) }
    ensures new_struct { NewStruct given.entry.memory i result }
{
    match given.read_port(i).port.flip_flop {
        None => {
            st.room_refusal(log.len(), 0, 0)?;
            Ok(Driven {
                memory: given.memory,
                state: st,
            })
        }
        Some(controls) => {
            let port = Clocked { given, i, controls };
            port.unmap(log, st, output)
        }
    }
}

// unmap_read_dff: the port reads at once into new void nets, which take its place among the outputs; its flip-flop stands behind. The call takes its log
// and the log's state apart, as C hands them.
pub fn unmap_read_dff(
    log: &mut [u32],
    st: LogState,
    output: &mut [u32],
    given: Given<'_>,
    port: usize,
) -> Result<Driven, Refusal>
    ensures log_after { driven_of given.entry.memory result given.entry.nets.now given.entry.trits.now output.new log.new ≡ unmap_read_dff_call (rooms_of given.entry.nets.now given.entry.trits.now output.old) log.old (state_of st) (view_given given.entry) port output.old }
    ensures new_struct { NewStruct given.entry.memory port result }
{
    unmap_refusal(given, port, output, st.next)?;
    unmap_port(log, st, output, given, port)
}
