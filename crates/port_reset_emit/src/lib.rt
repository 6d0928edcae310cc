// memory/src/lib.rs, unmap_read_init_reset_transparency without its numbers: the write ports that a port is transparent to are laid over no data, the
// flip-flops of data and mask stand behind, and muxes choose between them and what the port reads.
#![tactic(auto)]

ghost use Rattle.std.specs.Prelude.{◌≡◌, Bool, List, ℕ, ◌-◌, ◌≤◌, take, replicate};
ghost use Rattle.lists.specs.Lists.{up_from};
ghost use Rattle.rules.specs.Limits.{max_merge, X};
ghost use Rattle.rules.specs.Merge.{add_dedup_dff_of};
ghost use Rattle.net_flip_flop.specs.View.{controls_of};
ghost use Rattle.log_entries.specs.View.{lent_of};
ghost use Rattle.net_memory.specs.View.{memory_of};
ghost use Rattle.port_transparency.specs.Gave.{Gave};
ghost use Rattle.port_transparency.specs.Pairs.{read_of};
ghost use Rattle.port_overlay.specs.Laid.{with_bits};
ghost use Rattle.port_reset_emit.specs.Behind.{start_trit, mask_behind, mask_of, choice, reset_behind, reset_laid, reset_if};
ghost use Rattle.port_reset_emit.specs.Room.{zero_mask, zero_room};

use log_entries::Log;
use merge_dff::Trits;
use net_flip_flop::{Controls, FlipFlop};
use net_memory::Given;
use port_overlay::Parts;
use port_transparency::Overlay;

// Room for the mask of an unmapping: the mask, and the trits of its flip-flop.
#[derive(Drop)]
pub struct Mask {
    pub over: [u32; rules::MAX_MERGE],
    pub trits: Trits,
    pub ones: [u8; rules::MAX_MERGE],
    pub starts: [u8; rules::MAX_MERGE],
}

impl Mask {
    // A room of zeros.
    pub fn new() -> Mask
        ensures { result ≡ zero_mask }
    {
        Mask {
            over: [0; rules::MAX_MERGE],
            trits: Trits::new(),
            ones: [0; rules::MAX_MERGE],
            starts: [0; rules::MAX_MERGE],
        }
    }
}

// Room for an unmapping: what is laid over the port's nets, and the mask. A dry run and a run for good share it.
#[derive(Drop)]
pub struct Room {
    pub overlay: Overlay,
    pub mask: Mask,
}

impl Room {
    // A room of zeros.
    pub fn new() -> Room
        ensures { result ≡ zero_room }
    {
        Room {
            overlay: Overlay::new(),
            mask: Mask::new(),
        }
    }
}

// The void nets of an unmapping: from `first` on, `last` is the net after them.
#[derive(Clone, Copy)]
pub struct ResetNets {
    pub first: u32,
    pub last: u32,
}

// The trit that the mask's flip-flop starts with.
fn start_trit(initial: bool) -> u8
    ensures { result ≡ start_trit initial }
{
    if initial { 1 } else { rules::TRIT_X }
}

// Here and below `n ≤ max_merge` stands in each contract: a type that knew it would be taken apart for its number in each function, and be made by a
// test that `emit_reset` has already. Overlay and mask go apart: of a room within a room the proof of `emit_behind` did not find the lengths.
// The merging flip-flop of the mask of n nets, whose results are the first nets of the overlay's mask.
fn emit_mask(
    log: &mut Log,
    overlay: &mut Overlay,
    mask: &mut Mask,
    c: Controls,
    initial: bool,
    n: usize,
)
    requires { n ≤ max_merge }
    ensures mask_after { Gave (add_dedup_dff_of (mask_behind (controls_of c) initial n (take n mask.old.over))) (lent_of log.old) (lent_of log.new) (take n overlay.new.mask) }
    ensures data_stays { overlay.new.bits ≡ overlay.old.bits }
{
    lists::fill(&mut mask.ones, 0, n, 1);
    lists::fill(&mut mask.starts, 0, n, start_trit(initial));
    let own = &mask.ones[..n];
    let f = FlipFlop {
        controls: c,
        bits: &mask.over[..n],
        clear: own,
        reset: own,
        init: &mask.starts[..n],
    };
    merge_dff::emit_dedup_dff(
        log,
        &mut overlay.keys,
        &mut mask.trits,
        &mut overlay.mask,
        f,
    );
}

// The muxes of n nets by the overlay's mask, between its data and what is under them; their results take the place of the nets of `from`.
fn emit_choice(log: &mut Log, overlay: &mut Overlay, from: &[u32], n: usize)
    requires { n ≤ max_merge }
    ensures { Gave (choice (take n overlay.old.mask) (take n overlay.old.bits) (take n overlay.old.under) from.now) (lent_of log.old) (lent_of log.new) (take n overlay.old.under) }
{
    merge_mux::emit::emit_bitwise_nets(
        log,
        &mut overlay.keys,
        &mut overlay.spare,
        &overlay.mask[..n],
        &overlay.bits[..n],
        &overlay.under[..n],
    );
    log.emit_replace(from, &overlay.spare[..n]);
}

// The flip-flops of n data nets and of their mask, the void nets, and the muxes between them. `f` has the port's outputs as its bits.
fn emit_behind(
    log: &mut Log,
    overlay: &mut Overlay,
    mask: &mut Mask,
    f: FlipFlop,
    n: usize,
) -> ResetNets
    requires { n ≤ max_merge }
    ensures { Gave (reset_behind (with_bits f.entry (take n overlay.old.under)) (mask_of f.entry n (take n mask.old.over)) n f.entry.bits.now) (lent_of log.old) (lent_of log.new) (up_from result.first (result.last - result.first)) }
{
    let initial = !net_logic::is_undef(f.init);
    let data = FlipFlop {
        bits: &overlay.under[..n],
        ..f
    };
    port_transparency::dff_into(log, &mut overlay.bits, data);
    emit_mask(log, overlay, mask, f.controls, initial, n);
    let first = log.state.next;
    port_transparency::void_into(log, &mut overlay.under, n as u32);
    let last = log.state.next;
    emit_choice(log, overlay, f.bits, n);
    ResetNets { first, last }
}

// No data and no mask yet: n nets X and n nets 0.
#[tactic(auto, using(crate::proofs::Behind::first_filled))]
fn start_over(overlay: &mut Overlay, mask: &mut Mask, n: usize)
    requires { n ≤ max_merge }
    ensures { (take n overlay.new.under ≡ replicate n X) × (take n mask.new.over ≡ replicate n 0) }
{
    lists::fill(&mut overlay.under, 0, n, rules::NET_X);
    lists::fill(&mut mask.over, 0, n, 0);
}

// A clocked port, the data and the mask of the write ports laid over none.
fn emit_laid<'a>(log: &mut Log, room: &mut Room, given: Given<'a>, port: Parts<'a>) -> ResetNets
    requires { port.reading.count ≤ max_merge }
    ensures { (trits : List ℕ) → Gave (reset_laid (memory_of given.entry.memory given.entry.nets.now trits) port.entry.reading.k (read_of port.entry.reading) port.entry.reading.count port.entry.relations.now (with_bits port.entry.flip_flop) (mask_of port.entry.flip_flop port.entry.reading.count) port.entry.flip_flop.bits.now) (lent_of log.old) (lent_of log.new) (up_from result.first (result.last - result.first)) }
{
    let Room { overlay, mask } = room;
    let n = port.reading.count;
    start_over(overlay, mask, n);
    let over = &mut mask.over;
    port_overlay::emit_pairs(log, overlay, over, given, port.relations, port.reading);
    emit_behind(log, overlay, mask, port.flip_flop, n)
}

// The same of any port: one of more nets than a merge takes, which no memory has, gives nothing.
pub fn emit_reset<'a>(
    log: &mut Log,
    room: &mut Room,
    given: Given<'a>,
    port: Parts<'a>,
) -> ResetNets
    ensures { (trits : List ℕ) → Gave (reset_if (memory_of given.entry.memory given.entry.nets.now trits) port.entry.reading.k (read_of port.entry.reading) port.entry.reading.count port.entry.relations.now (with_bits port.entry.flip_flop) (mask_of port.entry.flip_flop port.entry.reading.count) port.entry.flip_flop.bits.now) (lent_of log.old) (lent_of log.new) (up_from result.first (result.last - result.first)) }
{
    if rules::MAX_MERGE < port.reading.count {
        let next = log.state.next;
        return ResetNets {
            first: next,
            last: next,
        };
    }
    emit_laid(log, room, given, port)
}
