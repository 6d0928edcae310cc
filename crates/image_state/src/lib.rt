// Images: the state that a swizzle hands on, and by it an image laid out from rows, a row patched, a row read back and the record's sizes.
#![tactic(auto)]

ghost use Rattle.std.specs.Prelude.{◌≡◌, false, List, ℕ, ◌≤◌, length, min, take};
ghost use Rattle.rules.specs.Limits.{max_row};
ghost use Rattle.std.proofs.Math.Option.{none};
ghost use Rattle.rules.specs.Record.{Sizes, depth_if, sizes_of};
ghost use Rattle.rules.specs.Conditions.{bad_sizes};
ghost use Rattle.rules.specs.Beside.Shape.{handed_on, shape_of};
ghost use Rattle.rules.specs.Beside.Layouts.{fill_call, read_row_call};
ghost use Rattle.rules.specs.Answers.{Accepted, patch_call, sizes_call, filled_with};
ghost use Rattle.rules.specs.Refusal.{number_of};
ghost use Rattle.record_sizes.specs.View.{view_sizes};
ghost use Rattle.image_geometry.specs.View.{layout_by, layout_of, shape_by};
ghost use Rattle.image_state.specs.View.{laid_of, lent_params, unset_laid, laid_by, sizes_answer};
ghost use Rattle.image_state.specs.Counts.{Counted};

use image_check::check_layout;
use image_geometry::{Layout, Params, Shape, row_bad};
use rules::Refusal;

// What a swizzle hands on for patches: the layout's numbers, and the entries of a row, of which the first `len` are in use: C keeps it as it is,
// without a heap, and names each number, so they stand here and not in a `Params`. The unit is 0 where no swizzle was accepted yet.
#[repr(C)]
#[derive(Clone, Copy)]
pub struct Laid {
    pub depth: u32,
    pub width: u32,
    pub soft_mask: u32,
    pub hard: u32,
    pub unit: u32,
    pub len: u32,
    pub entries: [u32; rules::MAX_ROW],
}

impl Laid {
    // The state before any swizzle is accepted. (By hand: an array of 256 has no `Default`.)
    pub fn unset() -> Laid
        ensures value { result ≡ unset_laid }
        ensures result_value { laid_of result ≡ none }
    {
        Laid {
            depth: 0,
            width: 0,
            soft_mask: 0,
            hard: 0,
            unit: 0,
            len: 0,
            entries: [0u32; rules::MAX_ROW],
        }
    }

    // The state of a layout: its numbers and entries as they are given, or `unset()` where the row is longer than MAX_ROW. The calls by a layout
    // that no accepted swizzle has are refused by 23.
    pub fn laid_out(layout: Layout<'_>) -> Laid
        ensures value { result ≡ laid_by layout.entry.params layout.entry.entries.now }
        ensures result_value { laid_of result ≡ handed_on (layout_of layout.entry) }
    {
        if row_bad(layout.entries.len()) {
            return Laid::unset();
        }
        let mut kept = [0u32; rules::MAX_ROW];
        lists::copy(&mut kept, 0, layout.entries);
        let p = layout.params;
        Laid {
            depth: p.depth,
            width: p.width,
            soft_mask: p.soft_mask,
            hard: p.hard,
            unit: p.unit,
            len: layout.entries.len() as u32,
            entries: kept,
        }
    }

    // The layout by which the calls go: of the entries in use, as many as there is place for. Where the length passes that place the unit is 0, as
    // before any swizzle: the calls by such a state are refused by 23.
    pub fn layout(&self) -> Layout<'_>
        ensures value { handed_on (layout_of result) ≡ laid_of self.now }
        ensures params { result.params ≡ lent_params self.now }
        ensures entries { result.entries.now ≡ take (min max_row self.now.len) self.now.entries }
    {
        let len = self.len as usize;
        Layout {
            params: Params {
                depth: self.depth,
                width: self.width,
                soft_mask: self.soft_mask,
                hard: self.hard,
                unit: if row_bad(len) { 0 } else { self.unit },
            },
            entries: &self.entries[..len.min(rules::MAX_ROW)],
        }
    }

    // Exchanges one row of the last accepted swizzle.
    pub fn patch(&self, image: &mut [u8], row: u32, trits: &[u8]) -> Result<(), Refusal>
        ensures { filled_with (number_of result) image.new ≡ patch_call (laid_of self.now) (record { row = row; trits = trits.now; room = length image.old }) image.old }
    {
        image_rows::patch_row(image, self.layout(), row, trits)
    }

    // Lays the rows out in the image of a swizzle.
    pub fn fill(&self, image: &mut [u8], rows: &[u8]) -> Result<(), Refusal>
        ensures { filled_with (number_of result) image.new ≡ fill_call (laid_of self.now) rows.now image.old }
    {
        image_rows::fill_rows(image, self.layout(), rows)
    }

    // The trits that the image of a swizzle holds at a row's places, into `room`.
    pub fn read_row(&self, room: &mut [u8], image: &[u8], row: u32) -> Result<(), Refusal>
        ensures { filled_with (number_of result) room.new ≡ read_row_call (laid_of self.now) room.old image.now row }
    {
        image_rows::read_row(room, self.layout(), image, row)
    }

    // The record's sizes for the images of a swizzle. A record of these sizes is never refused by 17.
    pub fn sizes(&self) -> Result<record_sizes::Sizes, Refusal>
        ensures result_value { sizes_answer result ≡ sizes_call (laid_of self.now) }
        ensures z_value { (z : Sizes) → sizes_answer result ≡ Accepted z → bad_sizes z ≡ false }
    {
        sizes_by(self.layout())
    }
}

// A depth, or 0 where there is no memory of it.
#[tactic(auto, unfolding(rules::specs::Record::depth_if))]
fn depth_if(count: u32, depth: u32) -> u32
    ensures { result ≡ depth_if count depth }
{
    if count == 0 { 0 } else { depth }
}

// So many full memories and so many partial ones.
fn sizes_with(
    unit: u32,
    full: u32,
    full_depth: u32,
    partial: u32,
    partial_depth: u32,
) -> record_sizes::Sizes
    ensures { view_sizes result ≡ record { unit = unit; full = full; full_depth_of = depth_if full full_depth; partial = partial; partial_depth = depth_if partial partial_depth } }
{
    record_sizes::Sizes {
        unit,
        full,
        full_depth: depth_if(full, full_depth),
        partial,
        partial_depth: depth_if(partial, partial_depth),
    }
}

// The record's sizes of a layout. A memory of width 0 gives no memories.
fn layout_sizes(p: Params, s: Shape) -> record_sizes::Sizes
    requires { Counted s }
    ensures { (es : List ℕ) → shape_by s ≡ shape_of (layout_by p es) → view_sizes result ≡ sizes_of (layout_by p es) }
{
    if p.width == 0 {
        return sizes_with(p.unit, 0, 0, 0, 0);
    }
    sizes_with(
        p.unit,
        s.full_mems as u32,
        s.full_depth as u32,
        (s.all_mems - s.full_mems) as u32,
        s.part_depth as u32,
    )
}

// The record's sizes for an image with this layout.
fn sizes_by(layout: Layout<'_>) -> Result<record_sizes::Sizes, Refusal>
    ensures { sizes_answer result ≡ sizes_call (handed_on (layout_of layout.entry)) }
{
    let s = check_layout(layout)?;
    Ok(layout_sizes(layout.params, s))
}
