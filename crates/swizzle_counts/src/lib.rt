// What a swizzle asks for before it stores anything: words and nets of the log, nets and trits of the resulting memories, and scratch, in
// closed form.
#![tactic(auto)]

ghost use Rattle.std.specs.Prelude.{◌≡◌, ℕ, true, [], eqb, ◌*◌, ◌<◌, ◌≤◌, length, map, get_or};
ghost use Rattle.lists.specs.Lists.{up_from};
ghost use Rattle.lists.specs.Choice.{when◌then◌else◌};
ghost use Rattle.rules.specs.Limits.{max_ports, max_width, max_row, max_merge};
ghost use Rattle.image_geometry.specs.View.{layout_by};
ghost use Rattle.swizzle_split.specs.Steps.{can_split};
ghost use Rattle.swizzle_counts.specs.Needs.{plus_needs, all_needs, Most, port_most, split_of, Lengths, Ranges, read_from, read_needs, ReadFits, ReadsFit, reads_needs, write_from, kept_nets, MaskFits, write_needs, WriteFits, WritesFit, writes_needs};

use image_geometry::{Layout, Params};
use log_entries::LogState;
use merge_keys::Keys;
use merge_keys::columns::Columns;
use net_memory::Given;
use swizzle_columns::WidePort;
use swizzle_plan::Plan;
use swizzle_split::Split;

pub mod refusal;

// Words and nets of the log, nets and trits of the resulting memories, and nets of scratch.
#[derive(Clone, Copy, Default)]
pub struct Needs {
    pub words: usize,
    pub nets: usize,
    pub room: usize,
    pub trits: usize,
    pub scratch: usize,
}

// A swizzle that is asked for: of a memory with the outputs that it drives, by a plan.
#[derive(Clone, Copy)]
pub struct Swizzle<'a> {
    pub given: Given<'a>,
    pub output: &'a [u32],
    pub plan: Plan<'a>,
}

// What a swizzle is lent: a log of so many words with its state, room for the image, for the nets and the trits of the resulting memories, and scratch.
#[derive(Clone, Copy)]
pub struct SwizzleRooms {
    pub log: usize,
    pub state: LogState,
    pub image: usize,
    pub nets: usize,
    pub trits: usize,
    pub scratch: usize,
}

// A memory with a layout, and the columns of a row.
#[derive(Clone, Copy)]
struct Sized<'a> {
    given: Given<'a>,
    layout: Layout<'a>,
    columns: usize,
}

impl Needs {
    // What two ask for together; the scratch serves one after the other.
    fn plus(self, other: Needs) -> Needs
        requires { Most (16 * port_most) self × Most (16 * port_most) other }
        ensures { result ≡ plus_needs self other }
    {
        Needs {
            words: self.words + other.words,
            nets: self.nets + other.nets,
            room: self.room + other.room,
            trits: self.trits + other.trits,
            scratch: self.scratch.max(other.scratch),
        }
    }
}

// The numbers of a split; its two parts are not kept.
fn split_of(p: Params, old: u32, new: u32, addr: &[u32]) -> Split
    ensures { can_split (layout_by p []) old new (length addr.now) ≡ true → Lengths (split_of p old new addr.now) result }
{
    let mut hw = [0u32; 1];
    let mut mux = [0u32; 1];
    swizzle_split::split_addr(&mut hw, &mut mux, p, old, new, addr).unwrap_or_default()
}

// A product of two of a port's numbers.
fn product(a: usize, b: usize) -> usize
    requires { (a ≤ 1048576) × (b ≤ 32768) }
    ensures { (result ≡ a * b) × (result ≤ 34359738368) }
{
    a * b
}

// A read port by its split.
fn read_by(s: Split, rows: usize, columns: usize, len: usize, clocked: bool) -> Needs
    requires { Ranges s.pieces s.mux_len s.hw_len rows columns len }
    ensures { (result ≡ read_from s.pieces s.mux_len s.hw_len rows columns len clocked) × Most port_most result }
{
    let n = s.pieces as usize;
    let room = s.hw_len as usize;
    let wide = product(rows, columns);
    let muxes = product(n - 1, 5 + 2 * len) + (4 + 2 * len);
    let made = product(n - 1, len);
    let scratch = product(n, len);
    if !clocked {
        return Needs {
            words: rows * 4 + muxes,
            nets: wide + made,
            room,
            trits: 0,
            scratch,
        };
    }
    let m = s.mux_len as usize;
    Needs {
        words: rows * 4 + (13 + 4 * m + muxes),
        nets: wide + (m + made),
        room,
        trits: 3 * wide,
        scratch,
    }
}

// What the ports of these new wide logs ask for together, where `needs` says it of each.
fn needs_of<F: Fn(usize, u32) -> Needs>(wides: &[u32], needs: F) -> Needs
    requires few { length wides.now ≤ max_ports }
    requires callable { (i : ℕ) → i < length wides.now → F.pre needs i (get_or wides.now i 0) }
    requires small { (i new : ℕ) (r : Needs) → F.post needs i new r → Most port_most r }
    ensures sum { (f : ℕ → ℕ → Needs) → ((i new : ℕ) (r : Needs) → F.post needs i new r → r ≡ f i new) → result ≡ all_needs (map (λ i. f i (get_or wides.now i 0)) (up_from 0 (length wides.now))) }
    ensures most { Most (max_ports * port_most) result }
{
    let mut total = Needs::default();
    for (i, new) in wides.iter().enumerate() {
        total = total.plus(needs(i, *new));
    }
    total
}

// The nets of a row's mask that differ, where the row has n nets.
fn mask_count(w: WidePort, n: usize, entries: &[u32], mask: &[u32]) -> usize
    requires { MaskFits w (length entries.now) n }
    ensures { (result ≡ kept_nets w.olds w.width entries.now mask.now) × (result ≤ max_merge) }
{
    let mut row = [0u32; rules::MAX_MERGE];
    let zeros = [0u32; rules::MAX_MERGE];
    let mut keys = Keys::new();
    swizzle_columns::mask_row(&mut row, w, entries, mask);
    let given = Columns {
        x: &row[..n],
        y: &zeros[..n],
    };
    keys.merge(given).x.len()
}

// Those of a port with so many old rows.
fn port_mask_count(width: u32, olds: u32, entries: &[u32], mask: &[u32]) -> usize
    requires { (olds ≤ 16) × (width ≤ max_width) × (length entries.now ≤ max_row) }
    ensures { (result ≡ kept_nets olds width entries.now mask.now) × (result ≤ max_merge) }
{
    let w = WidePort {
        olds,
        width,
        ..WidePort::default()
    };
    let n = product(olds as usize, entries.len());
    mask_count(w, n, entries, mask)
}

// So much of a piece's mux; an empty mux address makes none.
fn if_mux(mux_len: usize, n: usize) -> usize
    ensures { (result ≡ (when eqb mux_len 0 then 0 else n)) × (result ≤ n) }
{
    if mux_len == 0 {
        return 0;
    }
    n
}

// A write port by its split, and the nets of its mask that differ.
fn write_by(s: Split, rows: usize, columns: usize, kept: usize) -> Needs
    requires { Ranges s.pieces s.mux_len s.hw_len rows columns kept }
    ensures { (result ≡ write_from s.pieces s.mux_len s.hw_len rows columns kept) × Most port_most result }
{
    let n = s.pieces as usize;
    let m = s.mux_len as usize;
    let wide = product(rows, columns);
    let words = product(n, 4 + 2 * m + if_mux(m, 5 + 2 * kept));
    let nets = product(n, 1 + if_mux(m, kept));
    Needs {
        words,
        nets,
        room: s.hw_len as usize + 2 * wide,
        trits: 0,
        scratch: 0,
    }
}

impl Sized<'_> {
    // Read port i with its new wide log.
    #[tactic(auto, using(swizzle_split::proofs::Rows::rows_are))]
    fn read_needs(&self, i: usize, new: u32) -> Needs
        requires { ReadFits self.now.given.memory self.now.given.nets.now self.now.layout.params self.now.columns new i }
        ensures { (result ≡ read_needs self.now.given.memory self.now.given.nets.now self.now.layout.params self.now.columns new i) × Most port_most result }
    {
        let r = self.given.read_port(i);
        let len = r.port.data_len as usize;
        let old = net_memory::wide::wide_log(self.given.memory.width, len);
        // (Its nets are its address.)
        let s = split_of(self.layout.params, old, new, r.nets);
        let rows = swizzle_split::rows_of(new) as usize;
        read_by(s, rows, self.columns, len, r.port.flip_flop.is_some())
    }

    // All read ports.
    fn reads_needs(&self, reads: &[u32]) -> Needs
        requires { ReadsFit self.now.given.memory self.now.given.nets.now self.now.layout.params self.now.columns reads.now }
        ensures { (result ≡ reads_needs self.now.given.memory self.now.given.nets.now self.now.layout.params self.now.columns reads.now) × Most (max_ports * port_most) result }
    {
        needs_of(reads, |i, new| self.read_needs(i, new))
    }

    // Write port i with its new wide log.
    #[tactic(auto, using(swizzle_split::proofs::Rows::rows_are))]
    fn write_needs(&self, i: usize, new: u32) -> Needs
        requires { WriteFits self.now.given.memory self.now.given.nets.now self.now.layout.params self.now.columns self.now.layout.entries.now new i }
        ensures { (result ≡ write_needs self.now.given.memory self.now.given.nets.now self.now.layout.params self.now.columns self.now.layout.entries.now new i) × Most port_most result }
    {
        let w = self.given.write_port(i);
        let width = self.given.memory.width;
        let old = net_memory::wide::wide_log(width, w.bits().len());
        let s = split_of(self.layout.params, old, new, w.addr());
        let olds = swizzle_split::rows_of(old);
        let kept = port_mask_count(width, olds, self.layout.entries, w.mask());
        write_by(s, swizzle_split::rows_of(new) as usize, self.columns, kept)
    }

    // All write ports.
    fn writes_needs(&self, writes: &[u32]) -> Needs
        requires { WritesFit self.now.given.memory self.now.given.nets.now self.now.layout.params self.now.columns self.now.layout.entries.now writes.now }
        ensures { (result ≡ writes_needs self.now.given.memory self.now.given.nets.now self.now.layout.params self.now.columns self.now.layout.entries.now writes.now) × Most (max_ports * port_most) result }
    {
        needs_of(writes, |i, new| self.write_needs(i, new))
    }
}
