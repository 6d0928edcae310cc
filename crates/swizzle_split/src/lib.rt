// The rows of a wide port (`rows_of`), and the split of a port's address: which bits go to the result's address and which to the mux address, how
// many pieces there are, and which bits of a piece's number select a row.
#![tactic(auto)]

ghost use Rattle.std.specs.Prelude.{◌≡◌, ◌+◌, ◌-◌, ◌*◌, ◌/◌, ◌^◌, ◌<◌, ◌≤◌, length, set, List, ℕ, replicate};
ghost use Rattle.rules.specs.Swizzle.{role_of};
ghost use Rattle.swizzle_split.specs.Rows.{rows_of};
ghost use Rattle.swizzle_split.specs.Steps.{start_by, taken, to_row, to_mux, Roomy, Starts, Took, low_by, Fits, Splits, can_split, Answers};
ghost use Rattle.rules.specs.Limits.{addr_bits};
ghost use Rattle.rules.specs.Numbers.{bits_for, softs};
ghost use Rattle.std.proofs.lemmas.List.Edits.{sets};
ghost use Rattle.rules.specs.Geometry.{all_chunks, soft};
ghost use Rattle.image_geometry.specs.View.{layout_by};

use image_geometry::Params;

// The rows of a port with this wide log, of which the largest has sixteen.
#[tactic(auto, using(crate::proofs::Rows::rows_by, crate::proofs::Rows::rows_by_most))]
pub fn rows_of(wide: u32) -> u32
    ensures value { result ≡ rows_of wide }
    ensures most { result ≤ 16 }
{
    lists::two_to(wide.min(rules::MAX_WIDE)) as u32
}

// The split of a port with an old and a new wide log: the lengths of the result's address and of the mux address, the pieces, and the bits of a
// piece's number that are chunk bits. Without a heap the two addresses stand in lent rooms; a plan's sizes are counted from their lengths alone.
#[derive(Clone, Copy, Default)]
pub struct Split {
    pub old: u32,
    pub new: u32,
    pub hw_len: u32,
    pub mux_len: u32,
    pub pieces: u32,
    pub mask: u32,
}

// A walk over an address on its way: what is left of the mask, the wide bits and the row bits; the nets so far; the bits that double the pieces;
// the weight of the next bit of a piece's number, and the bits of it that select a row.
#[derive(Clone, Copy)]
struct Taking {
    mask: u32,
    wide: u32,
    rows: u32,
    hw: u32,
    mux: u32,
    doubled: u32,
    weight: u64,
    row_mask: u64,
}

// The bits below an address: what is left of the mask, the soft bits, the weight of the next bit, and the bits that select a row.
#[derive(Clone, Copy)]
struct Low {
    mask: u32,
    softs: u32,
    weight: u64,
    row_mask: u64,
}

impl Taking {
    // A bit of an address by its role. The two rooms go apart, as they come: a struct of both is no plainer, since a promise tells of each room alone,
    // and would also say that the two lent slices stay what they are.
    #[tactic(auto, unfolding(rules::specs::Swizzle::role_of))]
    fn take(self, net: u32, hw: &mut [u32], mux: &mut [u32]) -> Taking
        requires { Roomy self }
        ensures value { result ≡ taken (role_of self.mask self.wide self.rows) self }
        ensures hw_after { hw.new ≡ to_row (role_of self.mask self.wide self.rows) self net hw.old }
        ensures mux_after { mux.new ≡ to_mux (role_of self.mask self.wide self.rows) self net mux.old }
    {
        let soft = self.mask % 2 == 1;
        let left = Taking {
            mask: self.mask / 2,
            ..self
        };
        if !soft && self.wide == 0 && 0 < self.rows {
            lists::put(hw, self.hw as usize, net);
            return Taking {
                rows: self.rows - 1,
                hw: self.hw + 1,
                ..left
            };
        }
        lists::put(mux, self.mux as usize, net);
        let left = Taking {
            mux: self.mux + 1,
            weight: 2 * self.weight,
            ..left
        };
        if soft {
            return Taking {
                doubled: self.doubled + 1,
                ..left
            };
        }
        if 0 < self.wide {
            return Taking {
                wide: self.wide - 1,
                doubled: self.doubled + 1,
                row_mask: self.row_mask + self.weight,
                ..left
            };
        }
        left
    }

    // Every bit of an address.
    fn take_all(self, addr: &[u32], hw: &mut [u32], mux: &mut [u32]) -> Taking
        requires { Starts self addr.now }
        ensures { Took self result addr.now hw.old hw.new mux.old mux.new }
    {
        let mut t = self;
        for net in addr {
            t = t.take(*net, hw, mux);
        }
        t
    }
}

// The bits that a wide port leaves out of its address; those that are not soft select a row.
fn low_bits(old: u32, mask: u32) -> Low
    requires { old ≤ addr_bits }
    ensures value { result ≡ low_by old mask }
    ensures few { result.softs ≤ old }
{
    let weight = lists::two_to(old);
    let all = u64::from(mask);
    Low {
        mask: (all / weight) as u32,
        softs: image_geometry::low_softs(old, mask),
        weight,
        row_mask: weight - 1 - all % weight,
    }
}

// Into how many parts the soft bits divide the rows.
#[tactic(auto, using(crate::proofs::Lows::parts_are))]
fn parts(p: Params) -> u64
    ensures value { (es : List ℕ) → result ≡ 2 ^ soft (layout_by p es) }
    ensures positive { 0 < result }
    ensures most { result ≤ 4294967296 }
{
    lists::two_to(image_geometry::soft_bits(p.soft_mask))
}

// The chunks of a layout, whatever its entries are.
fn all_chunks(p: Params) -> u64
    requires { p.hard ≤ addr_bits }
    ensures value { (es : List ℕ) → result ≡ all_chunks (layout_by p es) }
    ensures most { result ≤ 4294967295 }
{
    let base = u64::from(p.depth) / parts(p);
    base.div_ceil(lists::two_to(p.hard))
}

// A value of `len` nets at the front filled up with net 0 to `want`; gives its length.
fn pad(to: &mut [u32], len: u32, want: u32) -> u32
    ensures value { result ≡ len + (want - len) }
    ensures to_after { to.new ≡ sets to.old len (replicate (want - len) 0) }
{
    lists::fill(to, len as usize, want.saturating_sub(len) as usize, 0);
    want.max(len)
}

// How many bits count up to n things.
#[tactic(auto, unfolding(rules::specs::Numbers::bits_for))]
fn bits_for(n: u32) -> u32
    ensures { result ≡ bits_for n }
{
    image_geometry::top_bits(n.saturating_sub(1))
}

// What splits a port's address: the numbers of a layout, and the port's old and new wide logs.
#[derive(Clone, Copy)]
struct Splitter {
    p: Params,
    old: u32,
    new: u32,
}

impl Splitter {
    // Where the walk over an address starts.
    fn start(self) -> Taking
        requires { (self.old ≤ addr_bits) × (self.old - softs self.old self.p.soft_mask ≤ self.new) × (self.new ≤ self.p.hard) }
        ensures { result ≡ start_by self.p.soft_mask self.p.hard self.old self.new }
    {
        let low = low_bits(self.old, self.p.soft_mask);
        Taking {
            mask: low.mask,
            wide: self.new - (self.old - low.softs),
            rows: self.p.hard - self.new,
            hw: 0,
            mux: 0,
            doubled: 0,
            weight: low.weight,
            row_mask: low.row_mask,
        }
    }

    // The split of an address; its two parts go to the front of the lent rooms.
    fn split(self, addr: &[u32], hw: &mut [u32], mux: &mut [u32]) -> Split
        requires { (es : List ℕ) → Fits (layout_by self.p es) self.old self.new (length addr.now) }
        ensures { (es : List ℕ) → Splits (layout_by self.p es) self.old self.new addr.now hw.old hw.new mux.old mux.new result }
    {
        let t = self.start().take_all(addr, hw, mux);
        let pieces = (all_chunks(self.p) * lists::two_to(t.doubled)) as u32;
        let hw_len = pad(hw, t.hw, self.p.hard - self.new);
        let useful = bits_for(pieces);
        let mux_len = pad(mux, t.mux, useful);
        Split {
            old: self.old,
            new: self.new,
            hw_len,
            mux_len,
            pieces,
            mask: (4294967295 - t.row_mask) as u32,
        }
    }

    // Whether an address of this length can be split: the limits of a plan that is accepted.
    #[tactic(auto, using(crate::proofs::Limits::chunk_room), unfolding(crate::specs::Steps::can_split))]
    fn can_split(self, len: usize) -> bool
        ensures { (es : List ℕ) → result ≡ can_split (layout_by self.p es) self.old self.new len }
    {
        self.old <= rules::MAX_WIDE
            && self.new <= rules::MAX_WIDE
            && self.new <= self.p.hard
            && self.p.hard <= rules::ADDR_BITS
            && self.old - low_bits(self.old, self.p.soft_mask).softs <= self.new
            && len <= (rules::ADDR_BITS - self.old) as usize
            && all_chunks(self.p) * parts(self.p) <= rules::MAX_COLUMNS
    }
}

// The split of an address; its two parts go to the front of the lent rooms, whose rest is kept.
pub fn split_addr(
    hw: &mut [u32],
    mux: &mut [u32],
    p: Params,
    old: u32,
    new: u32,
    addr: &[u32],
) -> Option<Split>
    ensures { (es : List ℕ) → Answers (layout_by p es) old new addr.now hw.old hw.new mux.old mux.new result }
{
    let splitter = Splitter { p, old, new };
    if !splitter.can_split(addr.len()) {
        return None;
    }
    Some(splitter.split(addr, hw, mux))
}
