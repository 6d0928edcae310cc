// Tests of a plan: each bit of the width named exactly once (number 7), and the test of a laid-out state behind number 23.
#![tactic(auto)]

ghost use Rattle.std.specs.Prelude.{◌≡◌, IfErr, not, ◌+◌, ◌-◌, ◌≤◌, ◌<◌, eqb, get_or, replicate};
ghost use Rattle.lists.specs.Lists.{any, up_from};
ghost use Rattle.rules.specs.Limits.{max_width};
ghost use Rattle.rules.specs.Conditions.{bad_entry, bad_names, bad_entries};
ghost use Rattle.rules.specs.Beside.Shape.{entries_number, laid_shape};
ghost use Rattle.rules.specs.Refusal.{number_of};
ghost use Rattle.rules.specs.declared.numbers.Refusal.TheVariants.{NotLaidOut};
ghost use Rattle.image_geometry.specs.View.{layout_of};
ghost use Rattle.image_check.specs.Marks.{bumped, Marked, not_once};
ghost use Rattle.image_check.specs.View.{shape_if, checked_of};

use image_geometry::{Layout, Shape, check_soft_mask};
use rules::Refusal;

// Marks are made for so many bits at a time, which is every bit of a width within the limits.
const BLOCK: usize = rules::MAX_WIDTH as usize;

// An entry names a bit that is not below the width.
#[tactic(auto, unfolding(rules::specs::Conditions::bad_entry))]
fn name_bad(width: u32, entry: u32) -> bool
    ensures { result ≡ bad_entry width entry }
{
    entry != rules::NO_BIT && width <= entry
}

// Some entry does.
fn names_bad(width: u32, entries: &[u32]) -> bool
    ensures { result ≡ bad_names width entries.now }
{
    entries.iter().any(|entry| name_bad(width, *entry))
}

// Marks one entry's bit, if it is among those from `base` on: 0 becomes 1, and 1 becomes 2, which stands for more.
fn mark(marks: &mut [u8; BLOCK], base: u32, entry: u32)
    ensures { marks.new ≡ bumped base entry marks.old }
{
    if entry < base {
        return;
    }
    let at = (entry - base) as usize;
    if at < BLOCK {
        marks[at] = if marks[at] == 0 { 1 } else { 2 };
    }
}

// Marks the bits from `base` on by every entry.
fn mark_all(marks: &mut [u8; BLOCK], base: u32, entries: &[u32])
    requires { marks.old ≡ replicate max_width 0 }
    ensures { Marked base entries.now marks.new }
{
    for entry in entries {
        mark(marks, base, *entry);
    }
}

// Some of the first `count` bits is not marked once.
fn unmarked(marks: &[u8; BLOCK], count: usize) -> bool
    requires { count ≤ max_width }
    ensures { result ≡ any (λ j. not (eqb (get_or marks.now j 0) 1)) (up_from 0 count) }
{
    marks[..count].iter().any(|mark| *mark != 1)
}

// Some of `count` bits from `base` on is not named exactly once.
fn block_bad(base: u32, count: usize, entries: &[u32]) -> bool
    requires { count ≤ max_width }
    ensures { result ≡ any (not_once entries.now) (up_from base count) }
{
    let mut marks = [0u8; BLOCK];
    mark_all(&mut marks, base, entries);
    unmarked(&marks, count)
}

// Some bit below the width is not named exactly once. A width within the limits takes one block, so one pass over the entries.
fn bits_bad(width: u32, entries: &[u32]) -> bool
    ensures { result ≡ any (not_once entries.now) (up_from 0 width) }
{
    (0..width.div_ceil(rules::MAX_WIDTH)).any(|block| {
        let base = block * rules::MAX_WIDTH;
        block_bad(base, (width - base).min(rules::MAX_WIDTH) as usize, entries)
    })
}

#[tactic(auto, unfolding(rules::specs::Conditions::bad_entries))]
fn entries_bad(width: u32, entries: &[u32]) -> bool
    ensures { result ≡ bad_entries width entries.now }
{
    names_bad(width, entries) || bits_bad(width, entries)
}

// Number 7.
#[tactic(auto, unfolding(rules::specs::Beside::Shape::entries_number))]
pub fn check_entries(width: u32, entries: &[u32]) -> Result<(), Refusal>
    ensures { number_of result ≡ entries_number width entries.now }
{
    if entries_bad(width, entries) {
        return Err(Refusal::BadEntries);
    }
    Ok(())
}

// The sizes of a layout that passes numbers 1, 7, 8 and 10.
fn laid_shape(layout: Layout<'_>) -> Option<Shape>
    ensures { shape_if result ≡ laid_shape (layout_of layout.entry) }
{
    let p = layout.params;
    let s = layout.measure().ok()?;
    if entries_bad(p.width, layout.entries) {
        return None;
    }
    check_soft_mask(p.depth, p.soft_mask).ok()?;
    if p.width != 0 && s.is_too_large() {
        return None;
    }
    Some(s)
}

// The sizes of a layout that an accepted swizzle can have handed on, or number 23.
pub fn check_layout(layout: Layout<'_>) -> Result<Shape, Refusal>
    ensures shape { checked_of result ≡ laid_shape (layout_of layout.entry) }
    ensures number { IfErr result (λ e. e ≡ NotLaidOut) }
{
    laid_shape(layout).ok_or(Refusal::NotLaidOut)
}
