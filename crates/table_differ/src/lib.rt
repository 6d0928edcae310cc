// The rows in which two tables differ, as text. The inner functions store what fits and count all: a run on one byte gives the length.
#![tactic(auto)]

ghost use Rattle.std.specs.Prelude.{◌≡◌, [], ◌+◌, ◌*◌, ◌≤◌, length};
ghost use Rattle.std.proofs.lemmas.List.Edits.{sets};
ghost use Rattle.rules.specs.Limits.{max_depth};
ghost use Rattle.record_listing.specs.Put.{max_place, Added};
ghost use Rattle.table_print.specs.Rows.{bits_text};
ghost use Rattle.table_differ.specs.Differ.{diff_line, diff_of, differs, diff_lines, differing, last_line, diff_text};

use record_listing::text::Text;
use table_text::scan::Size;

// The trits of one row, the most significant first.
fn put_trits(text: &mut Text<'_>, size: Size, row: &[u8])
    requires { text.old.at + 128 ≤ max_place }
    ensures { Added text.old (bits_text row.now 0 size.width []) text.new × (text.new.at ≤ text.old.at + 128) }
{
    let mut line = [0u8; rules::MAX_WIDTH as usize + 1];
    table_print::put_rows(&mut line, 1, size.width, row);
    text.put(lists::part(&line, 0, size.width as usize));
}

// ---- one row

// The line of a row that differs: its number, the trits of the first table and those of the second.
fn put_line(text: &mut Text<'_>, row: u32, size: Size, x: &[u8], y: &[u8])
    requires { text.old.at + 274 ≤ max_place }
    ensures { Added text.old (diff_line size.width row x.now y.now) text.new × (text.new.at ≤ text.old.at + 274) }
{
    text.put(b"row ");
    text.put_number(row as usize);
    text.put(b": ");
    put_trits(text, size, x);
    text.put(b" ");
    put_trits(text, size, y);
    text.put(b"\n");
}

// A line where a row of the two tables differs; with it so many rows differ.
fn put_row(text: &mut Text<'_>, count: usize, row: u32, size: Size, x: &[u8], y: &[u8]) -> usize
    requires { (text.old.at + 274 ≤ max_place) × (count ≤ max_depth) }
    ensures { Added text.old (diff_of size.width row x.now y.now) text.new × (result ≡ count + differs x.now y.now) × (text.new.at ≤ text.old.at + 274) × (result ≤ count + 1) }
{
    if x == y {
        return count;
    }
    put_line(text, row, size, x, y);
    count + 1
}

// The last line.
fn put_last(text: &mut Text<'_>, count: usize)
    requires { text.old.at + 18 ≤ max_place }
    ensures { Added text.old (last_line count) text.new }
{
    if count == 0 {
        text.put(b"same\n");
        return;
    }
    text.put(b"differ ");
    text.put_number(count);
    text.put(b"\n");
}

// ---- all rows

// How many differ, with a line for each. (`text.old.at` is no fact of Text: how many bytes are still to come differs from call to call.)
fn put_all(text: &mut Text<'_>, size: Size, a: &[u8], b: &[u8]) -> usize
    requires { (size.depth ≤ max_depth) × (text.old.at ≡ 0) }
    ensures { Added text.old (diff_lines size.width a.now b.now 0 size.depth) text.new × (result ≡ differing size.width a.now b.now 0 size.depth) × (text.new.at ≤ 274 * size.depth) }
{
    let w = size.width as usize;
    let mut count: usize = 0;
    // by number: rows of width 0 have no chunks
    let mut from: usize = 0;
    for row in 0..size.depth {
        count = put_row(
            text,
            count,
            row,
            size,
            lists::part(a, from, w),
            lists::part(b, from, w),
        );
        from += w;
    }
    count
}

// Stores the rows in which two tables of one shape differ, as far as the room goes, and how many they are; the length of the text.
pub fn put_differences(out: &mut [u8], depth: u32, width: u32, a: &[u8], b: &[u8]) -> usize
    ensures { (out.new ≡ sets out.old 0 (diff_text depth width a.now b.now)) × (result ≡ length (diff_text depth width a.now b.now)) }
{
    if rules::MAX_DEPTH < depth || rules::MAX_WIDTH < width {
        return 0;
    }
    let mut text = Text { out, at: 0 };
    let count = put_all(&mut text, Size { depth, width }, a, b);
    put_last(&mut text, count);
    text.at
}
