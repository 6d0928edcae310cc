// Sizes of a layout: the memories that a swizzle gives and their depths, the bits that select among chunks, and the walk over the bits of a
// row number.
#![tactic(auto)]

ghost use Rattle.std.specs.Prelude.{◌≡◌, true, List, ℕ, ◌+◌, ◌-◌, ◌*◌, ◌^◌, ◌≤◌, ◌<◌, ltb, length};
ghost use Rattle.rules.specs.Limits.{addr_bits, max_row};
ghost use Rattle.rules.specs.Numbers.{softs, top_bits};
ghost use Rattle.rules.specs.Geometry.{soft_bits, chunk_mux_bits, to_chunk, walk};
ghost use Rattle.rules.specs.Geometry as rules;
ghost use Rattle.rules.specs.Conditions.{bad_layout_sizes, result_too_large};
ghost use Rattle.rules.specs.Beside.Shape.{shape_of, shape_call, depths_call, soft_mask_number, result_number};
ghost use Rattle.rules.specs.Answers.{filled_with};
ghost use Rattle.rules.specs.Refusal.{number_of};
ghost use Rattle.image_geometry.specs.View.{view_spot, layout_by, layout_of, shape_by, measured_of};
ghost use Rattle.image_geometry.specs.Steps.{Narrow, mems_of, Roomy, moved, stepped, taken_away};

use rules::Refusal;

// A layout's numbers: the memory's depth and width, and the plan's without its entries.
#[repr(C)]
#[derive(Clone, Copy, Debug, PartialEq, Eq)]
pub struct Params {
    pub depth: u32,
    pub width: u32,
    pub soft_mask: u32,
    pub hard: u32,
    pub unit: u32,
}

// A layout: its numbers, and the entries of a row.
#[derive(Clone, Copy)]
pub struct Layout<'a> {
    pub params: Params,
    pub entries: &'a [u32],
}

// Where a row goes: the chunk, and the row in it.
#[derive(Clone, Copy, Debug, PartialEq, Eq)]
pub struct Spot {
    pub chunk: u32,
    pub row: u32,
}

// What a layout gives: the full memories and all, the depth of a full one and of the others, columns rounded up to the unit, the trits of all
// memories, and those of the image, which has none where the width is 0.
#[repr(C)]
#[derive(Clone, Copy, Debug, Default, PartialEq, Eq)]
pub struct Shape {
    pub full_mems: u64,
    pub all_mems: u64,
    pub full_depth: u64,
    pub part_depth: u64,
    pub columns: u64,
    pub trits: u64,
    pub image_size: u64,
}

// A walk on its way: what the bits so far give, the weights of the next chunk bit and of the next row bit, and the hard bits left.
#[derive(Clone, Copy)]
struct Walk {
    chunk: u64,
    cb: u64,
    row: u64,
    rb: u64,
    hard: u32,
}

// The full memories and all, with their depths.
#[derive(Clone, Copy)]
struct Mems {
    full: u64,
    all: u64,
    full_depth: u64,
    part_depth: u64,
}

// The soft bits of a mask.
pub fn soft_bits(mask: u32) -> u32
    ensures { result ≡ soft_bits mask }
{
    mask.count_ones()
}

// Those among the lowest k bits.
pub fn low_softs(k: u32, mask: u32) -> u32
    ensures value { result ≡ softs k mask }
    ensures most { result ≤ k }
{
    soft_bits((u64::from(mask) % lists::two_to(k)) as u32)
}

// One more than the highest bit that is set, or 0.
pub fn top_bits(word: u32) -> u32
    ensures { result ≡ top_bits addr_bits word }
{
    rules::ADDR_BITS - word.leading_zeros()
}

// A row of so many entries is too long: the one test of a row's length.
pub fn row_bad(len: usize) -> bool
    ensures { result ≡ ltb max_row len }
{
    rules::MAX_ROW < len
}

// Number 8: the depth is no multiple of 2^(top soft bit + 1).
pub fn check_soft_mask(depth: u32, mask: u32) -> Result<(), Refusal>
    ensures { number_of result ≡ soft_mask_number depth mask }
{
    if u64::from(depth) % lists::two_to(top_bits(mask)) != 0 {
        return Err(Refusal::BadSoftMask);
    }
    Ok(())
}

impl Params {
    // The bits that select among a row's chunks, whatever the entries are.
    pub fn chunk_mux_bits(self) -> u32
        ensures { (es : List ℕ) → result ≡ chunk_mux_bits (layout_by self es) }
    {
        let soft = soft_bits(self.soft_mask);
        if self.depth == 0 || rules::ADDR_BITS < self.hard || rules::ADDR_BITS < soft + self.hard {
            return 0;
        }
        let chunks = u64::from(self.depth).div_ceil(lists::two_to(soft + self.hard));
        top_bits((chunks - 1) as u32)
    }

    // Number 1, of what a layout holds.
    #[tactic(auto, unfolding(rules::specs::Conditions::bad_layout_sizes))]
    fn sizes_bad(self, len: usize) -> bool
        ensures { result ≡ bad_layout_sizes self.depth self.width len self.unit self.hard }
    {
        rules::MAX_DEPTH < self.depth
            || rules::MAX_WIDTH < self.width
            || rules::MAX_BITS < u64::from(self.depth) * u64::from(self.width)
            || row_bad(len)
            || self.unit == 0
            || rules::MAX_UNIT < self.unit
            || rules::MAX_HARD < self.hard
    }

    // The memories of a layout with `len` entries.
    fn mems(self, len: u64) -> Mems
        requires { Narrow self len }
        ensures { (es : List ℕ) → length es ≡ len → result ≡ mems_of (layout_by self es) }
    {
        let parts = lists::two_to(soft_bits(self.soft_mask));
        let deep = lists::two_to(self.hard);
        let base = u64::from(self.depth) / parts;
        let chunks = base / deep;
        let part = base % deep;
        let unit = u64::from(self.unit);
        let full = (len * parts * chunks).div_ceil(unit);
        let all = if part == 0 {
            full
        } else {
            (len * parts * (chunks + 1)).div_ceil(unit)
        };
        Mems {
            full,
            all,
            full_depth: deep,
            part_depth: part,
        }
    }

    fn shape(self, len: u64) -> Shape
        requires { Narrow self len }
        ensures { (es : List ℕ) → length es ≡ len → shape_by result ≡ shape_of (layout_by self es) }
    {
        let m = self.mems(len);
        let unit = u64::from(self.unit);
        let trits = (m.full * m.full_depth + (m.all - m.full) * m.part_depth) * unit;
        Shape {
            full_mems: m.full,
            all_mems: m.all,
            full_depth: m.full_depth,
            part_depth: m.part_depth,
            columns: m.all * unit,
            trits,
            image_size: if self.width == 0 { 0 } else { trits },
        }
    }
}

impl Shape {
    // The columns or the trits pass their limits.
    #[tactic(auto, unfolding(rules::specs::Conditions::result_too_large, rules::specs::Beside::Shape::shape_of))]
    pub fn is_too_large(self) -> bool
        ensures { (q : rules.Layout) → shape_by self ≡ shape_of q → result ≡ result_too_large q }
    {
        rules::MAX_COLUMNS < self.columns || rules::MAX_IMAGE < self.trits
    }
}

impl<'a> Layout<'a> {
    // The sizes of a layout, unless they pass number 1's limits.
    pub fn measure(self) -> Result<Shape, Refusal>
        ensures { measured_of result ≡ shape_call (layout_of self.entry) }
    {
        if self.params.sizes_bad(self.entries.len()) {
            return Err(Refusal::TooLarge);
        }
        Ok(self.params.shape(self.entries.len() as u64))
    }

    // The depths of a layout's memories, into `out`.
    pub fn depths(self, out: &mut [u32]) -> Result<(), Refusal>
        ensures { filled_with (number_of result) out.new ≡ depths_call out.old (layout_of self.entry) }
    {
        let s = self.measure()?;
        if (out.len() as u64) < s.all_mems {
            return Err(Refusal::NoRoom);
        }
        let full = s.full_mems as usize;
        let all = s.all_mems as usize;
        lists::fill(out, 0, full, s.full_depth as u32);
        lists::fill(out, full, all - full, s.part_depth as u32);
        Ok(())
    }

    // Number 10, or 1 where the sizes pass their limits.
    pub fn check_result(self) -> Result<(), Refusal>
        ensures { number_of result ≡ result_number (layout_of self.entry) }
    {
        if self.measure()?.is_too_large() {
            return Err(Refusal::ResultTooLarge);
        }
        Ok(())
    }
}

impl Walk {
    // Before the first bit, with the place so far.
    fn from(chunk: u64, row: u64, hard: u32) -> Walk
        ensures { result ≡ record { chunk = chunk; cb = 1; row = row; rb = 1; hard = hard } }
    {
        Walk {
            chunk,
            cb: 1,
            row,
            rb: 1,
            hard,
        }
    }

    // After a bit: a soft one, or any once the hard bits are taken, is the next chunk bit; another is the next row bit. The chunk or the row becomes the
    // one that is given.
    fn moved(self, mask: u32, chunk: u64, row: u64) -> Walk
        requires { (self.cb ≤ 4294967296) × (self.rb ≤ 4294967296) }
        ensures { result ≡ moved (to_chunk mask self.hard) chunk row self }
    {
        if mask % 2 == 1 || self.hard == 0 {
            return Walk {
                chunk,
                cb: 2 * self.cb,
                ..self
            };
        }
        Walk {
            row,
            rb: 2 * self.rb,
            hard: self.hard - 1,
            ..self
        }
    }

    // A bit of a row number: its weight is added to the chunk or to the row.
    fn step(self, mask: u32, bit: u64) -> Walk
        requires { Roomy self bit }
        ensures { result ≡ stepped (to_chunk mask self.hard) bit self }
    {
        let chunk = self.chunk + bit * self.cb;
        let row = self.row + bit * self.rb;
        self.moved(mask, chunk, row)
    }

    // A bit that is 1 becomes 0: its weight is taken away from the chunk or from the row.
    fn pass(self, mask: u32) -> Walk
        requires { Roomy self 1 }
        ensures { result ≡ taken_away (to_chunk mask self.hard) self }
    {
        let chunk = self.chunk.saturating_sub(self.cb);
        let row = self.row.saturating_sub(self.rb);
        self.moved(mask, chunk, row)
    }

    // Where the walk has come; a number that no walk of a row reaches is cut to the largest.
    fn spot(self) -> Spot
        ensures chunk { self.chunk < 4294967296 → result.chunk ≡ self.chunk }
        ensures row { self.row < 4294967296 → result.row ≡ self.row }
    {
        Spot {
            chunk: u32::try_from(self.chunk).unwrap_or(u32::MAX),
            row: u32::try_from(self.row).unwrap_or(u32::MAX),
        }
    }
}

// Walks the bits of a row number upward. Those above its highest are 0 and add nothing.
pub fn walk_row(mask: u32, hard: u32, row: u32) -> Spot
    ensures { view_spot result ≡ walk addr_bits mask hard row }
{
    let mut w = Walk::from(0, 0, hard);
    for i in 0..top_bits(row) {
        w = w.step(mask >> i, u64::from((row >> i) % 2));
    }
    w.spot()
}

// The spot of the next row, from that of this one: the bits from 0 on that are 1 become 0, and the first that is 0 becomes 1. Of another spot, and of
// the last row number, nothing is said.
pub fn next_row(mask: u32, hard: u32, row: u32, spot: Spot) -> Spot
    ensures { row < 4294967295 → view_spot spot ≡ walk addr_bits mask hard row → view_spot result ≡ walk addr_bits mask hard (row + 1) }
{
    let mut w = Walk::from(u64::from(spot.chunk), u64::from(spot.row), hard);
    let mut soft = mask;
    for _ in 0..row.trailing_ones() {
        w = w.pass(soft);
        soft /= 2;
    }
    w.step(soft, 1).spot()
}
