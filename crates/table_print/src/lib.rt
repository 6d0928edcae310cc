// The rows of a table as text.
#![tactic(auto)]

ghost use Rattle.std.specs.Prelude.{◌≡◌, [], ◌∷◌, ◌+◌, ◌*◌, ◌≤◌, length, get_or};
ghost use Rattle.std.proofs.lemmas.List.Edits.{sets};
ghost use Rattle.rules.specs.Limits.{trit_x, max_depth};
ghost use Rattle.record_listing.specs.Put.{Added};
ghost use Rattle.table_print.specs.Rows.{char_of, bits_text, rows_from, rows_shown};

use record_listing::text::Text;
use table_text::scan::Size;

// The character of a trit.
#[tactic(auto, unfolding(crate::specs::Rows::char_of))]
pub fn char_of(t: u8) -> u8
    ensures { result ≡ char_of t }
{
    match t {
        0 => b'0',
        1 => b'1',
        _ => b'x',
    }
}

// The trit at a place, and X past the end.
fn trit_at(rows: &[u8], at: usize) -> u8
    ensures { result ≡ get_or rows.now at trit_x }
{
    rows.get(at).copied().unwrap_or(rules::TRIT_X)
}

// Stores the trits of a row from `from` on, the last first.
fn put_bits(text: &mut Text<'_>, rows: &[u8], from: usize, size: Size)
    requires { (text.old.at ≤ 1000000000) × (from ≤ 1000000000) }
    ensures { Added text.old (bits_text rows.now from size.width []) text.new }
{
    // by number: past the end of the rows stands X
    for left in (0..size.width).rev() {
        text.put_byte(char_of(trit_at(rows, from + left as usize)));
    }
}

// Stores one row and its line break.
fn put_row(text: &mut Text<'_>, rows: &[u8], from: usize, size: Size)
    requires { (text.old.at ≤ 1000000000) × (from ≤ 1000000000) }
    ensures { Added text.old (bits_text rows.now from size.width (10 ∷ [])) text.new }
{
    put_bits(text, rows, from, size);
    text.put_byte(b'\n');
}

// Stores the text of all rows; its length.
fn put_all(out: &mut [u8], size: Size, rows: &[u8]) -> usize
    requires { size.depth ≤ max_depth }
    ensures { (out.new ≡ sets out.old 0 (rows_from size.width rows.now 0 size.depth [])) × (result ≡ size.depth * (size.width + 1)) }
{
    let mut text = Text { out, at: 0 };
    // by number: rows of width 0 have no chunks
    let mut from: usize = 0;
    for row in 0..size.depth {
        put_row(&mut text, rows, from, size);
        from += size.width as usize;
    }
    text.at
}

// Stores the text of the rows of a table, as far as the room goes; its length.
pub fn put_rows(out: &mut [u8], depth: u32, width: u32, rows: &[u8]) -> usize
    ensures { (out.new ≡ sets out.old 0 (rows_shown depth width rows.now)) × (result ≡ length (rows_shown depth width rows.now)) }
{
    if rules::MAX_DEPTH < depth || rules::MAX_WIDTH < width {
        return 0;
    }
    put_all(out, Size { depth, width }, rows)
}
