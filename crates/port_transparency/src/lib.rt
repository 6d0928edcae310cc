// memory/src/lib.rs, transparency_mux without its numbers: a write port's data laid over what a read port reads, where the addresses are equal.
//
// Values stand in lent room of as many nets as a merge takes; where the emission overflowed the room is left open.
#![tactic(auto)]

ghost use Rattle.std.specs.Prelude.{◌≡◌, List, ℕ, ◌-◌, ◌<◌, ◌≤◌, max, length, take, drop};
ghost use Rattle.std.proofs.Math.Option.{Option, none, some};
ghost use Rattle.std.proofs.lemmas.List.Edits.{sets};
ghost use Rattle.lists.specs.Lists.{up_from};
ghost use Rattle.rules.specs.Limits.{max_merge};
ghost use Rattle.rules.specs.Value.{Value, zext};
ghost use Rattle.rules.specs.Log.{add_void_of, add_eq_of, add_shl_of, add_ushr_of, add_dff_of};
ghost use Rattle.rules.specs.Ports.{seen, seen_wider, seen_narrower, overlaid_mask};
ghost use Rattle.log_entries.specs.Emission.{Lent};
ghost use Rattle.net_flip_flop.specs.View.{flip_flop_of};
ghost use Rattle.log_entries.specs.View.{lent_of};
ghost use Rattle.port_transparency.specs.Gave.{Gave};
ghost use Rattle.port_transparency.specs.Pairs.{writing, reading, write_of, read_of, data_and, covered, laid_over, laid_if, like_wide, fitting, Fit};
ghost use Rattle.port_transparency.specs.Room.{zero_overlay};

use log_entries::Log;
use merge_keys::Keys;
use net_flip_flop::FlipFlop;
use net_value::{ControlNet, Net};

// A write port, by what a transparency reads of it: k is the log of how much wider than the memory its data is.
#[derive(Clone, Copy)]
pub struct Writing<'a> {
    pub k: u32,
    pub addr: &'a [u32],
    pub bits: &'a [u32],
    pub mask: &'a [u32],
}

// A read port that reads so many nets: data nets, not those of its address.
#[derive(Clone, Copy)]
pub struct Reading<'a> {
    pub k: u32,
    pub addr: &'a [u32],
    pub count: usize,
}

// Room for overlays: what is read, and then what is laid over it; a write port's data and mask as the read port sees them; and the muxes' nets. It is
// lent, so that many overlays clear it once. The muxes' nets stand first: what is copied from them goes upwards, and is no memmove.
#[derive(Drop)]
pub struct Overlay {
    pub spare: [u32; rules::MAX_MERGE],
    pub under: [u32; rules::MAX_MERGE],
    pub bits: [u32; rules::MAX_MERGE],
    pub mask: [u32; rules::MAX_MERGE],
    pub select: [u32; rules::MAX_MERGE],
    pub keys: Keys,
}

// What lies beside an overlay's data: a mask, to which the write ports add theirs, or none.
pub trait Over {
    // The first nets of the mask, where there is one.
    ghost mask: { Self → ℕ → Option Value };

    // The overlay's write mask of n nets added where the addresses are equal, by the net of the address test. No mask has more nets than a merge takes.
    fn add(&mut self, overlay: &mut Overlay, log: &mut Log, same: u32, n: usize)
        ensures mask_after { n ≤ max_merge → Gave (overlaid_mask same (take n overlay.old.mask) (mask self.old n)) (lent_of log.old) (lent_of log.new) (mask self.new n) }
        ensures data_stays { overlay.new.under ≡ overlay.old.under };
}

// No mask.
#[derive(Clone, Copy)]
pub struct NoMask;

impl Over for NoMask {
    ghost mask = { λ over n. none };

    fn add(&mut self, overlay: &mut Overlay, log: &mut Log, same: u32, n: usize) {}
}

// A mask, in room for as many nets as a merge takes.
impl Over for [u32; rules::MAX_MERGE] {
    ghost mask = { λ over n. some (take n over) };

    fn add(&mut self, overlay: &mut Overlay, log: &mut Log, same: u32, n: usize) {
        if n <= rules::MAX_MERGE {
            overlay.emit_over(log, self, same, n);
        }
    }
}

// Void nets, which become the first of `out`. (This and the three like it are an emission and a store each: one function over a closure would lend it
// the log, of which the proof did not close.)
pub fn void_into(log: &mut Log, out: &mut [u32], n: u32)
    ensures { n ≤ length out.old → Gave (add_void_of n) (lent_of log.old) (lent_of log.new) (take n out.new) }
{
    let first = log.state.next;
    log.emit_void(n);
    lists::store_run(out, 0, first, log.state.next);
}

// A flip-flop, whose result nets become the first of `out`.
pub fn dff_into(log: &mut Log, out: &mut [u32], f: FlipFlop)
    ensures { length f.entry.bits.now ≤ length out.old → Gave (add_dff_of (flip_flop_of f.entry)) (lent_of log.old) (lent_of log.new) (take (length f.entry.bits.now) out.new) }
{
    let first = log.state.next;
    log.emit_dff(f);
    lists::store_run(out, 0, first, log.state.next);
}

// An address without the bits that select a part of the wider port's data: `k` is the other port's.
fn addr_rest(addr: &[u32], k: u32, own: u32) -> &[u32]
    ensures { result.now ≡ drop (k - own) addr.now }
{
    let d = (k.saturating_sub(own) as usize).min(addr.len());
    &addr[d..]
}

// A value moved up to its place among n nets. (Here and below `n ≤ max_merge` goes with the lengths of other slices: one fact of several, which
// `Fit` joins for a pair of ports.)
fn shl_into(log: &mut Log, out: &mut [u32], z: &mut [u32], select: &[u32], v: &[u32], n: usize)
    requires { (length v.now ≤ n) × (n ≤ max_merge) × (n ≤ length out.old) × (n ≤ length z.old) }
    ensures { Gave (add_shl_of (length v.now) select.now (zext v.now n)) (lent_of log.old) (lent_of log.new) (take n out.new) }
{
    net_value::store_zext(z, v, n);
    let first = log.state.next;
    log.emit_shl(v.len() as u32, select, &z[..n]);
    lists::store_run(out, 0, first, log.state.next);
}

// A value moved down by a part of n nets.
fn ushr_into(log: &mut Log, out: &mut [u32], n: usize, select: &[u32], v: &[u32])
    requires { (n ≤ length v.now) × (length v.now ≤ max_merge) × (length v.now ≤ length out.old) }
    ensures { Gave (add_ushr_of n select.now v.now) (lent_of log.old) (lent_of log.new) (take (length v.now) out.new) }
{
    let first = log.state.next;
    log.emit_ushr(n as u32, select, v);
    lists::store_run(out, 0, first, log.state.next);
}

// Data and mask of a narrower write port.
fn seen_wider(
    log: &mut Log,
    bits: &mut [u32],
    mask: &mut [u32],
    z: &mut [u32],
    select: &[u32],
    w: Writing,
    n: usize,
)
    requires { (length w.bits.now ≤ n) × (length w.mask.now ≤ n) × (n ≤ max_merge) × (n ≤ length bits.old) × (n ≤ length mask.old) × (n ≤ length z.old) }
    ensures { (d : ℕ) (a b : List ℕ) → Gave (seen_wider select.now d (writing a w.entry.bits.now w.entry.mask.now) (reading b n)) (lent_of log.old) (lent_of log.new) (record { write_addr = drop d a; read_addr = b; bits = take n bits.new; mask = take n mask.new }) }
{
    shl_into(log, bits, z, select, w.bits, n);
    shl_into(log, mask, z, select, w.mask, n);
}

// Data and mask of a wider write port.
fn seen_narrower(
    log: &mut Log,
    bits: &mut [u32],
    mask: &mut [u32],
    select: &[u32],
    w: Writing,
    n: usize,
)
    requires { (n ≤ length w.bits.now) × (length w.mask.now ≡ length w.bits.now) × (length w.bits.now ≤ max_merge) × (length w.bits.now ≤ length bits.old) × (length w.bits.now ≤ length mask.old) }
    ensures { (d : ℕ) (a b : List ℕ) → Gave (seen_narrower select.now d (writing a w.entry.bits.now w.entry.mask.now) (reading b n)) (lent_of log.old) (lent_of log.new) (record { write_addr = a; read_addr = drop d b; bits = take n bits.new; mask = take n mask.new }) }
{
    ushr_into(log, bits, n, select, w.bits);
    ushr_into(log, mask, n, select, w.mask);
}

// A write port's data and mask as a read port sees them.
fn emit_seen<'a>(
    log: &mut Log,
    bits: &mut [u32; rules::MAX_MERGE],
    mask: &mut [u32; rules::MAX_MERGE],
    z: &mut [u32; rules::MAX_MERGE],
    w: Writing<'a>,
    r: Reading<'a>,
)
    requires { Fit w.k r.k (length w.addr.now) (length r.addr.now) (length w.bits.now) (length w.mask.now) r.count }
    ensures { Gave (seen w.entry.k r.entry.k (write_of w.entry) (read_of r.entry)) (lent_of log.old) (lent_of log.new) (record { write_addr = drop (r.entry.k - w.entry.k) w.entry.addr.now; read_addr = drop (w.entry.k - r.entry.k) r.entry.addr.now; bits = take r.entry.count bits.new; mask = take r.entry.count mask.new }) }
{
    let select = net_value::narrower_select(w.addr, r.addr, w.k, r.k);
    if w.k < r.k {
        return seen_wider(log, bits, mask, z, select, w, r.count);
    }
    if r.k < w.k {
        return seen_narrower(log, bits, mask, select, w, r.count);
    }
    lists::copy(bits, 0, w.bits);
    lists::copy(mask, 0, w.mask);
}

// Whether the two addresses are equal, in one net.
fn emit_same(
    log: &mut Log,
    x: &mut [u32; rules::MAX_MERGE],
    y: &mut [u32; rules::MAX_MERGE],
    waddr: &[u32],
    raddr: &[u32],
)
    requires { (length waddr.now ≤ max_merge) × (length raddr.now ≤ max_merge) }
    ensures { Gave (add_eq_of (zext raddr.now (length waddr.now)) (zext waddr.now (length raddr.now))) (lent_of log.old) (lent_of log.new) log.old.state.next }
{
    let n = waddr.len().max(raddr.len());
    net_value::store_zext(x, raddr, waddr.len());
    net_value::store_zext(y, waddr, raddr.len());
    log.emit_eq(&x[..n], &y[..n]);
}

// The data's lengths go with the k's.
#[tactic(auto, unfolding(crate::specs::Pairs::like_wide))]
fn like_wide(kw: u32, kr: u32, size: usize, n: usize) -> bool
    ensures { result ≡ like_wide kw kr size n }
{
    if kw < kr {
        return size <= n;
    }
    if kr < kw {
        return n <= size;
    }
    size == n
}

// The two ports fit each other and the room.
#[tactic(auto, unfolding(crate::specs::Pairs::fitting))]
fn pair_fits(w: Writing, r: Reading) -> bool
    ensures { result ≡ fitting w.entry.k r.entry.k (length w.entry.addr.now) (length r.entry.addr.now) (length w.entry.bits.now) (length w.entry.mask.now) r.entry.count }
{
    if rules::MAX_MERGE < w.addr.len() {
        return false;
    }
    if rules::MAX_MERGE < r.addr.len() {
        return false;
    }
    if w.addr.len() < r.k.saturating_sub(w.k) as usize {
        return false;
    }
    if r.addr.len() < w.k.saturating_sub(r.k) as usize {
        return false;
    }
    if rules::MAX_MERGE < r.count {
        return false;
    }
    if rules::MAX_MERGE < w.bits.len() {
        return false;
    }
    if w.mask.len() != w.bits.len() {
        return false;
    }
    like_wide(w.k, r.k, w.bits.len(), r.count)
}

impl Overlay {
    // A room of zeros.
    pub fn new() -> Overlay
        ensures { result ≡ zero_overlay }
    {
        Overlay {
            spare: [0; rules::MAX_MERGE],
            under: [0; rules::MAX_MERGE],
            bits: [0; rules::MAX_MERGE],
            mask: [0; rules::MAX_MERGE],
            select: [0; rules::MAX_MERGE],
            keys: Keys::new(),
        }
    }

    // The data where the addresses are equal and the mask is set, by the net of the address test; what else was read stays.
    fn emit_covered(&mut self, log: &mut Log, same: u32, n: usize)
        requires { n ≤ max_merge }
        ensures data_after { Gave (covered same (take n self.old.mask) (take n self.old.bits) (take n self.old.under)) (lent_of log.old) (lent_of log.new) (take n self.new.under) }
        ensures mask_stays { self.new.mask ≡ self.old.mask }
    {
        lists::fill(&mut self.spare, 0, n, 0);
        merge_mux::emit::emit_dedup_mux(
            log,
            &mut self.keys,
            &mut self.select,
            0,
            ControlNet::Pos(Net(same)),
            &self.mask[..n],
            &self.spare[..n],
        );
        merge_mux::emit::emit_bitwise_nets(
            log,
            &mut self.keys,
            &mut self.spare,
            &self.select[..n],
            &self.bits[..n],
            &self.under[..n],
        );
        lists::copy(&mut self.under, 0, &self.spare[..n]);
    }

    // A pair of ports that fit: the write port's data is laid over what is read, and the net of the address test is given.
    // `mask` then has the write mask as the read port sees it; the overlay's own mask, where there is one, is left to do.
    fn emit_laid<'a>(&mut self, log: &mut Log, w: Writing<'a>, r: Reading<'a>) -> u32
        requires { Fit w.k r.k (length w.addr.now) (length r.addr.now) (length w.bits.now) (length w.mask.now) r.count }
        ensures { (o k : Option Value) (l : Lent) → Gave (overlaid_mask result (take r.entry.count self.new.mask) o) (lent_of log.new) l k → Gave (laid_over w.entry.k r.entry.k (write_of w.entry) (read_of r.entry) (record { bits = take r.entry.count self.old.under; mask = o })) (lent_of log.old) l (record { bits = take r.entry.count self.new.under; mask = k }) }
    {
        emit_seen(log, &mut self.bits, &mut self.mask, &mut self.spare, w, r);
        let wrest = addr_rest(w.addr, r.k, w.k);
        let rrest = addr_rest(r.addr, w.k, r.k);
        let same = log.state.next;
        emit_same(log, &mut self.select, &mut self.spare, wrest, rrest);
        self.emit_covered(log, same, r.count);
        same
    }

    // The write mask added to the mask of an overlay where the addresses are equal.
    fn emit_over(&mut self, log: &mut Log, over: &mut [u32; rules::MAX_MERGE], same: u32, n: usize)
        requires { n ≤ max_merge }
        ensures mask_after { Gave (overlaid_mask same (take n self.old.mask) (some (take n over.old))) (lent_of log.old) (lent_of log.new) (some (take n over.new)) }
        ensures data_stays { self.new.under ≡ self.old.under }
    {
        let first = log.state.next;
        log.emit_or(&over[..n], &self.mask[..n]);
        lists::store_run(&mut self.spare, 0, first, log.state.next);
        merge_mux::emit::emit_dedup_mux(
            log,
            &mut self.keys,
            &mut self.select,
            0,
            ControlNet::Pos(Net(same)),
            &self.spare[..n],
            &over[..n],
        );
        lists::copy(over, 0, &self.select[..n]);
    }

    // transparency_mux without its numbers: the nets that are read become those with the write port's data laid over them, and where there is a mask,
    // the write mask is added to it where the addresses are equal.
    pub fn emit_transparency<'a, O: Over>(
        &mut self,
        log: &mut Log,
        over: &mut O,
        w: Writing<'a>,
        r: Reading<'a>,
    )
        ensures { Gave (laid_if w.entry.k r.entry.k (write_of w.entry) (read_of r.entry) (data_and (take r.entry.count self.old.under) (O.mask over.old r.entry.count))) (lent_of log.old) (lent_of log.new) (data_and (take r.entry.count self.new.under) (O.mask over.new r.entry.count)) }
    {
        if !pair_fits(w, r) {
            return;
        }
        let same = self.emit_laid(log, w, r);
        over.add(self, log, same, r.count);
    }
}
