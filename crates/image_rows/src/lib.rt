// Rows of an image with a given layout: the place of an entry, the rows laid out, a row patched and a row read back.
#![tactic(auto)]

ghost use Rattle.std.specs.Prelude.{◌≡◌, ◌+◌, ◌-◌, ◌*◌, ◌≤◌, ◌<◌, length};
ghost use Rattle.rules.specs.Limits.{max_row};
ghost use Rattle.rules.specs.Image.{put_row, write_row, write_rows, index_of};
ghost use Rattle.rules.specs.Beside.Shape.{handed_on, place_call};
ghost use Rattle.rules.specs.Beside.Layouts.{fill_call, read_row_call, fill_refusal_by, fill_refusal, read_row_refusal_by};
ghost use Rattle.rules.specs.Answers.{patch_call, filled_with};
ghost use Rattle.rules.specs.Refusal.{number_of};
ghost use Rattle.rules.specs.Refusals.{patch_refusal_by};
ghost use Rattle.image_geometry.specs.View.{layout_of};
ghost use Rattle.image_rows.specs.View.{placed_of};
ghost use Rattle.image_rows.specs.Steps.{steps_by, ReadyRows, OnSpot, Low, Lows, next_of, last_of, At, index_from, Plain, RunOf, PutRun, take_row};

use image_check::check_layout;
use image_geometry::{Layout, Params, Shape, Spot, next_row, walk_row};
use rules::Refusal;

pub mod entry;

// The place of an entry: the memory, the row in it, the bit of that row, and the index in the flat image.
#[repr(C)]
#[derive(Clone, Copy, Debug, Default, PartialEq, Eq)]
pub struct Place {
    pub memory: u64,
    pub row: u64,
    pub bit: u64,
    pub index: u64,
}

// The full memories, the trits of a full one and of another, and the trits of a row in each.
#[derive(Clone, Copy)]
struct Steps {
    full: u64,
    full_step: u64,
    part_step: u64,
    unit: u64,
}

// Where the next entry of a row goes: its memory, its bit there, and the index of the row's bit 0.
#[derive(Clone, Copy)]
struct Cursor {
    memory: u64,
    bit: u64,
    start: u64,
}

// A row's number with its spot. Behind the last row the number is the depth: that it is lower is a fact of the calls, not of the line.
#[derive(Clone, Copy)]
struct Line {
    number: u32,
    spot: Spot,
}

// A layout whose rows are written and read: with its steps, and so many of the first entries that are their own numbers, of which a run is a copy.
#[derive(Clone, Copy)]
struct Rows<'a> {
    layout: Layout<'a>,
    steps: Steps,
    plain: usize,
    ghost ready: { ReadyRows layout steps plain },
}

impl Line {
    fn at(p: Params, number: u32) -> Line
        ensures { (result.number ≡ number) × OnSpot p result }
    {
        Line {
            number,
            spot: walk_row(p.soft_mask, p.hard, number),
        }
    }

    // The next row, without a walk over all bits of its number.
    fn next(self, p: Params) -> Line
        requires { (self.number < p.depth) × OnSpot p self }
        ensures { (result.number ≡ self.number + 1) × OnSpot p result }
    {
        Line {
            number: self.number + 1,
            spot: next_row(p.soft_mask, p.hard, self.number, self.spot),
        }
    }
}

impl Steps {
    fn of(s: Shape, unit: u32) -> Steps
        requires { (s.full_depth ≤ 1048576) × (s.part_depth ≤ 1048576) }
        ensures { result ≡ steps_by s unit }
    {
        Steps {
            full: s.full_mems,
            full_step: s.full_depth * u64::from(unit),
            part_step: s.part_depth * u64::from(unit),
            unit: u64::from(unit),
        }
    }
}

impl Cursor {
    // The next bit of the memory, or bit 0 of the next memory.
    fn next(self, g: Steps) -> Cursor
        requires { Low self g }
        ensures { result ≡ next_of g self }
    {
        if self.bit + 1 < g.unit {
            return Cursor {
                bit: self.bit + 1,
                ..self
            };
        }
        let step = if self.memory < g.full {
            g.full_step
        } else {
            g.part_step
        };
        Cursor {
            memory: self.memory + 1,
            bit: 0,
            start: self.start + step,
        }
    }

    // So many places from the cursor's on follow each other: to the end of the memory's row, or of the entries.
    fn run_length(self, g: Steps, left: usize) -> usize
        requires { (self.bit < g.unit) × (0 < left) }
        ensures { (0 < result) × (result ≤ left) × (self.bit + result ≤ g.unit) }
    {
        ((g.unit - self.bit) as usize).min(left)
    }

    // The cursor after a run of `count` places.
    fn after_run(self, g: Steps, count: usize) -> Cursor
        requires { Low self g × (0 < count) × (self.bit + count ≤ g.unit) }
        ensures { result ≡ next_of g (last_of self count) }
    {
        let last = Cursor {
            bit: self.bit + (count as u64 - 1),
            ..self
        };
        last.next(g)
    }
}

// So many entries from the first on are their own numbers.
fn plain_entries(entries: &[u32]) -> usize
    ensures { Plain entries.now result }
{
    let first = entries
        .iter()
        .enumerate()
        .position(|(i, entry)| *entry as usize != i);
    first.unwrap_or(entries.len())
}

// Writes the trits of the entries from number `from` to below `to` to the places from `at` on, one by one.
fn put_each(image: &mut [u8], at: u64, entries: &[u32], from: usize, to: usize, trits: &[u8])
    requires { RunOf at from to entries.now }
    ensures { PutRun at entries.now from to trits.now image.old image.new }
{
    for (i, entry) in entries[from..to].iter().enumerate() {
        entry::put_trit(image, at + i as u64, trits, *entry);
    }
}

// Takes the trits at a row's places, from the first entry's on.
fn take_entries(room: &mut [u8], first: Cursor, g: Steps, entries: &[u32], image: &[u8])
    requires { Lows first g (length entries.now) }
    ensures { room.new ≡ take_row (index_from g first) entries.now 0 image.now room.old }
{
    let mut c = first;
    for entry in entries {
        entry::take_trit(room, *entry, image, c.start + c.bit);
        c = c.next(g);
    }
}

impl<'a> Rows<'a> {
    fn of(layout: Layout<'a>, s: Shape, plain: usize) -> Rows<'a>
        requires { (s.full_depth ≤ 1048576) × (s.part_depth ≤ 1048576) × ReadyRows layout (steps_by s layout.params.unit) plain }
        ensures { result.layout ≡ layout.entry }
    {
        Rows {
            layout,
            steps: Steps::of(s, layout.params.unit),
            plain,
        }
    }

    // The cursor at entry number `entry` of a row: the one division of a row's places.
    fn cursor_at(self, line: Line, entry: usize) -> Cursor
        requires number_lt_depth { (line.number < self.layout.params.depth) × (entry ≤ length self.layout.entries.now) × OnSpot self.layout.params line }
        ensures { At (layout_of self.entry.layout) line.number entry result }
    {
        let g = self.steps;
        let column = u64::from(line.spot.chunk) * self.layout.entries.len() as u64 + entry as u64;
        let memory = column / g.unit;
        let bit = column % g.unit;
        let above = u64::from(line.spot.row) * g.unit;
        let full = memory.min(g.full);
        Cursor {
            memory,
            bit,
            start: full * g.full_step + (memory - full) * g.part_step + above,
        }
    }

    // Writes the trits of the entries from number `from` to below `to` to the places from `at` on.
    fn put_run(self, image: &mut [u8], at: u64, from: usize, to: usize, trits: &[u8])
        requires run_of { RunOf at from to self.layout.entries.now }
        ensures { PutRun at self.entry.layout.entries.now from to trits.now image.old image.new }
    {
        if to <= self.plain && to <= trits.len() {
            lists::copy(image, at as usize, &trits[from..to]);
        } else {
            put_each(image, at, self.layout.entries, from, to, trits);
        }
    }

    // Writes the trits of a row to its places, from the first entry's on: a run of places that follow each other at a time.
    fn put_entries(self, image: &mut [u8], first: Cursor, trits: &[u8])
        requires lows { Lows first self.steps (length self.layout.entries.now) }
        ensures { image.new ≡ put_row (index_from self.entry.steps first) self.entry.layout.entries.now 0 trits.now image.old }
    {
        let len = self.layout.entries.len();
        let mut c = first;
        let mut i: usize = 0;
        // no count: each turn is a run, as long as the memory's row goes on
        while i < len {
            let count = c.run_length(self.steps, len - i);
            let to = i + count;
            self.put_run(image, c.start + c.bit, i, to, trits);
            c = c.after_run(self.steps, count);
            i = to;
        }
    }

    // Writes one row.
    fn write_row(self, image: &mut [u8], line: Line, trits: &[u8])
        requires number_lt_depth { (line.number < self.layout.params.depth) × OnSpot self.layout.params line }
        ensures { image.new ≡ write_row (layout_of self.entry.layout) line.number trits.now image.old }
    {
        let first = self.cursor_at(line, 0);
        self.put_entries(image, first, trits);
    }

    // Writes every row, row 0 first, and goes from row to row.
    fn write_rows(self, image: &mut [u8], rows: &[u8])
        requires rows_len { length rows.now ≡ self.layout.params.depth * self.layout.params.width }
        ensures { image.new ≡ write_rows (layout_of self.entry.layout) rows.now self.entry.layout.params.depth image.old }
    {
        let p = self.layout.params;
        let width = p.width as usize;
        let mut line = Line::at(p, 0);
        // by number: rows of width 0 are written too, and have no chunks
        for number in 0..p.depth {
            let from = number as usize * width;
            self.write_row(image, line, &rows[from..from + width]);
            line = line.next(p);
        }
    }

    // Takes one row.
    fn take_row(self, room: &mut [u8], row: u32, image: &[u8])
        requires row_lt_depth { row < self.layout.params.depth }
        ensures { room.new ≡ take_row (index_of (layout_of self.entry.layout) row) self.entry.layout.entries.now 0 image.now room.old }
    {
        let first = self.cursor_at(Line::at(self.layout.params, row), 0);
        take_entries(room, first, self.steps, self.layout.entries, image);
    }
}

// Numbers 4, 15 and 20 of a patch, where the image has `size` trits. (This check and the two below test each the sizes that its own call has.)
#[tactic(auto, unfolding(rules::specs::Refusals::patch_refusal_by, rules::specs::Conditions::bad_trits, rules::specs::Conditions::not_below, rules::specs::Conditions::no_room_of))]
fn check_patch(room: usize, p: Params, size: u64, row: u32, trits: &[u8]) -> Result<(), Refusal>
    ensures { number_of result ≡ patch_refusal_by p.width p.depth size row trits.now room }
{
    if trits.len() != p.width as usize || !net_logic::trits_good(trits) {
        return Err(Refusal::BadValue);
    }
    if p.depth <= row {
        return Err(Refusal::OutOfRange);
    }
    if (room as u64) < size {
        return Err(Refusal::NoRoom);
    }
    Ok(())
}

// Exchanges one row of an image with this layout.
pub fn patch_row(
    image: &mut [u8],
    layout: Layout<'_>,
    row: u32,
    trits: &[u8],
) -> Result<(), Refusal>
    ensures { filled_with (number_of result) image.new ≡ patch_call (handed_on (layout_of layout.entry)) (record { row = row; trits = trits.now; room = length image.old }) image.old }
{
    let p = layout.params;
    let s = check_layout(layout)?;
    check_patch(image.len(), p, s.image_size, row, trits)?;
    let rows = Rows::of(layout, s, 0);
    rows.write_row(image, Line::at(p, row), trits);
    Ok(())
}

// Numbers 2, 4 and 20 of rows to lay out, where the image has `size` trits.
#[tactic(auto, unfolding(rules::specs::Beside::Layouts::fill_refusal_by, rules::specs::Conditions::bad_trits, rules::specs::Conditions::no_room_of))]
fn check_fill(room: usize, p: Params, size: u64, rows: &[u8]) -> Result<(), Refusal>
    ensures { number_of result ≡ fill_refusal_by p.depth p.width size room rows.now }
{
    if rows.len() as u64 != u64::from(p.depth) * u64::from(p.width) {
        return Err(Refusal::BadShape);
    }
    if !net_logic::trits_good(rows) {
        return Err(Refusal::BadValue);
    }
    if (room as u64) < size {
        return Err(Refusal::NoRoom);
    }
    Ok(())
}

// Whether rows can be laid out in so many lent trits; nothing is stored.
pub fn check_rows(room: usize, layout: Layout<'_>, rows: &[u8]) -> Result<(), Refusal>
    ensures { number_of result ≡ fill_refusal (handed_on (layout_of layout.entry)) room rows.now }
{
    let s = check_layout(layout)?;
    check_fill(room, layout.params, s.image_size, rows)
}

// Lays the rows out in an image with this layout. Every code is looked at before the first trit is stored.
pub fn fill_rows(image: &mut [u8], layout: Layout<'_>, rows: &[u8]) -> Result<(), Refusal>
    ensures { filled_with (number_of result) image.new ≡ fill_call (handed_on (layout_of layout.entry)) rows.now image.old }
{
    let s = check_layout(layout)?;
    check_fill(image.len(), layout.params, s.image_size, rows)?;
    lists::fill(image, 0, s.image_size as usize, rules::TRIT_X);
    let lines = Rows::of(layout, s, plain_entries(layout.entries));
    lines.write_rows(image, rows);
    Ok(())
}

// Numbers 15 and 20 of a row read back, where the image has `size` trits.
#[tactic(auto, unfolding(rules::specs::Beside::Layouts::read_row_refusal_by, rules::specs::Conditions::not_below, rules::specs::Conditions::no_room_of))]
fn check_read(room: usize, p: Params, size: u64, len: usize, row: u32) -> Result<(), Refusal>
    ensures { number_of result ≡ read_row_refusal_by p.depth p.width size room len row }
{
    if p.depth <= row {
        return Err(Refusal::OutOfRange);
    }
    if (len as u64) < size || room < p.width as usize {
        return Err(Refusal::NoRoom);
    }
    Ok(())
}

// The trits at a row's places in an image with this layout, into `room`.
pub fn read_row(room: &mut [u8], layout: Layout<'_>, image: &[u8], row: u32) -> Result<(), Refusal>
    ensures { filled_with (number_of result) room.new ≡ read_row_call (handed_on (layout_of layout.entry)) room.old image.now row }
{
    let p = layout.params;
    let s = check_layout(layout)?;
    check_read(room.len(), p, s.image_size, image.len(), row)?;
    let rows = Rows::of(layout, s, 0);
    rows.take_row(room, row, image);
    Ok(())
}

// The place of entry number `entry` of a row. Refused are sizes past their limits (1), and where there is no such row or entry (15).
pub fn place_of(layout: Layout<'_>, row: u32, entry: usize) -> Result<Place, Refusal>
    ensures { placed_of result ≡ place_call (layout_of layout.entry) row entry }
{
    let p = layout.params;
    let s = layout.measure()?;
    if p.depth <= row || layout.entries.len() <= entry {
        return Err(Refusal::OutOfRange);
    }
    let line = Line::at(p, row);
    let rows = Rows::of(layout, s, 0);
    let c = rows.cursor_at(line, entry);
    Ok(Place {
        memory: c.memory,
        row: u64::from(line.spot.row),
        bit: c.bit,
        index: c.start + c.bit,
    })
}
