// The rows of a record as a table's text, or the rows in which they differ from a table: the text has a header line, the record, and the table.
#![tactic(auto)]

ghost use Rattle.std.specs.Prelude.{◌≡◌, false, ◌++◌, ◌≤◌, length, Ok};
ghost use Rattle.std.proofs.lemmas.List.Edits.{sets};
ghost use Rattle.rules.specs.Conditions.{bad_sizes};
ghost use Rattle.rules.specs.Refusal.{number_of};
ghost use Rattle.rules.specs.Answers.{Accepted, filled_with};
ghost use Rattle.record_sizes.specs.View.{view_sizes};
ghost use Rattle.record_codec.specs.View.{view_head};
ghost use Rattle.image_geometry.specs.View.{layout_of};
ghost use Rattle.table_read.specs.View.{parsed_of};
ghost use Rattle.table_print.specs.Rows.{rows_shown};
ghost use Rattle.table_differ.specs.Differ.{diff_text};
ghost use Rattle.table_readback.specs.Back.{line_end, sized_rows, record_rows, text_end, compared_end, behind_end, record_end, head_end, back_call};
ghost use Rattle.table_readback.specs.View.{end_as};

use image_geometry::Layout;
use image_state::Laid;
use record_sizes::Sizes;
use rules::Refusal;
use std::fmt;
use table_read::{Fault, Table};

// What refuses a text: a fault of the header or of the table behind the record, or a call. (No enum for split too: a split has no table behind a
// record, so table_record's would have a variant that it never gives.)
#[derive(Clone, Copy, Debug, PartialEq, Eq)]
pub enum Refused {
    Text(Fault),
    Table(Fault),
    Call(Refusal),
}

// The lines of a table behind the record are counted by themselves.
impl fmt::Display for Refused {
    fn fmt<W: fmt::Write>(&self, f: &mut fmt::Formatter<W>) -> fmt::Result {
        match self {
            Refused::Text(fault) => write!(f, "{}", fault),
            Refused::Table(fault) => write!(f, "table {}", fault),
            Refused::Call(refusal) => write!(f, "refused {}", refusal.number()),
        }
    }
}

// Rows of a table: how many, the bits of each, and their trits.
#[derive(Clone, Copy)]
struct Rows<'a> {
    depth: u32,
    width: u32,
    trits: &'a [u8],
}

// ---- the record's rows

// The rows of an image whose record had this head.
fn sized_rows(
    room: &mut [u8],
    layout: Layout<'_>,
    sizes: Sizes,
    head: Result<Sizes, Refusal>,
    image: &[u8],
) -> Result<(), Refusal>
    ensures { filled_with (number_of result) room.new ≡ sized_rows (layout_of layout.entry) (view_sizes sizes) room.old image.now (view_head head) }
{
    let read = head?;
    if read != sizes {
        return Err(Refusal::BadSizes);
    }
    table_rows::read_rows(room, layout, image)
}

// The rows of a record in a layout of these sizes.
fn record_rows(
    room: &mut [u8],
    layout: Layout<'_>,
    sizes: Sizes,
    bytes: &[u8],
) -> Result<(), Refusal>
    ensures { filled_with (number_of result) room.new ≡ record_rows (layout_of layout.entry) (view_sizes sizes) room.old bytes.now }
{
    let mut image = [0u8; rules::MAX_IMAGE as usize];
    let head = record_codec::read_record(&mut image, bytes);
    sized_rows(room, layout, sizes, head, &image)
}

// ---- the text

// The length of the rows' text, by a run that keeps one byte of it.
fn rows_size(rows: Rows<'_>) -> usize
    ensures { result ≡ length (rows_shown rows.entry.depth rows.entry.width rows.entry.trits.now) }
{
    let mut one = [0u8; 1];
    table_print::put_rows(&mut one, rows.depth, rows.width, rows.trits)
}

// The rows' text, from a place on.
fn put_behind(out: &mut [u8], at: usize, rows: Rows<'_>)
    requires { at ≤ length out.old }
    ensures { out.new ≡ sets out.old at (rows_shown rows.entry.depth rows.entry.width rows.entry.trits.now) }
{
    table_print::put_rows(&mut out[at..], rows.depth, rows.width, rows.trits);
}

// The header line and the rows.
fn shown(out: &mut [u8], line: &[u8], rows: Rows<'_>) -> Result<usize, Refused>
    ensures { end_as result out.new ≡ text_end out.old (line.now ++ rows_shown rows.entry.depth rows.entry.width rows.entry.trits.now) }
{
    let size = rows_size(rows);
    let n = line.len();
    if out.len() < n {
        return Err(Refused::Call(Refusal::NoRoom));
    }
    if out.len() - n < size {
        return Err(Refused::Call(Refusal::NoRoom));
    }
    lists::copy(out, 0, line);
    put_behind(out, n, rows);
    Ok(n + size)
}

// The length of the text of the differing rows, by a run that keeps one byte of it.
fn differences_size(rows: Rows<'_>, theirs: &[u8]) -> usize
    ensures { result ≡ length (diff_text rows.entry.depth rows.entry.width rows.entry.trits.now theirs.now) }
{
    let mut one = [0u8; 1];
    table_differ::put_differences(&mut one, rows.depth, rows.width, rows.trits, theirs)
}

// The rows that differ.
fn differences(out: &mut [u8], rows: Rows<'_>, theirs: &[u8]) -> Result<usize, Refused>
    ensures { end_as result out.new ≡ text_end out.old (diff_text rows.entry.depth rows.entry.width rows.entry.trits.now theirs.now) }
{
    if out.len() < differences_size(rows, theirs) {
        return Err(Refused::Call(Refusal::NoRoom));
    }
    Ok(table_differ::put_differences(out, rows.depth, rows.width, rows.trits, theirs))
}

// Against a table.
fn compared(out: &mut [u8], rows: Rows<'_>, table: &Table) -> Result<usize, Refused>
    ensures { end_as result out.new ≡ compared_end out.old rows.entry.depth rows.entry.width rows.entry.trits.now (parsed_of (Ok table.now)) }
{
    if table.params.depth != rows.depth {
        return Err(Refused::Call(Refusal::BadShape));
    }
    if table.params.width != rows.width {
        return Err(Refused::Call(Refusal::BadShape));
    }
    differences(out, rows, table.trits())
}

// By what follows the record.
fn behind_end(out: &mut [u8], line: &[u8], rows: Rows<'_>, behind: &[u8]) -> Result<usize, Refused>
    ensures { end_as result out.new ≡ behind_end out.old line.now rows.entry.depth rows.entry.width rows.entry.trits.now behind.now }
{
    if behind.len() == 0 {
        return shown(out, line, rows);
    }
    let table = table_read::read_table(behind).map_err(Refused::Table)?;
    compared(out, rows, &table)
}

// ---- the whole

// By the record of these sizes.
fn record_end(
    out: &mut [u8],
    line: &[u8],
    layout: Layout<'_>,
    after: &[u8],
    sizes: Sizes,
) -> Result<usize, Refused>
    requires { bad_sizes (view_sizes sizes) ≡ false }
    ensures { end_as result out.new ≡ record_end out.old line.now (layout_of layout.entry) after.now (Accepted (view_sizes sizes)) }
{
    let n = record_codec::record_bytes(sizes);
    let mut room = [0u8; rules::MAX_BITS as usize];
    record_rows(&mut room, layout, sizes, lists::part(after, 0, n)).map_err(Refused::Call)?;
    let depth = layout.params.depth;
    let width = layout.params.width;
    let trits = lists::part(&room, 0, depth as usize * width as usize);
    let rows = Rows {
        depth,
        width,
        trits,
    };
    behind_end(out, line, rows, lists::part(after, n, after.len()))
}

// By the header's table.
fn head_end(out: &mut [u8], line: &[u8], after: &[u8], table: &Table) -> Result<usize, Refused>
    ensures { end_as result out.new ≡ head_end out.old line.now after.now (parsed_of (Ok table.now)) }
{
    let layout = table.layout();
    let sizes = Laid::laid_out(layout).sizes().map_err(Refused::Call)?;
    record_end(out, line, layout, after, sizes)
}

// Where the first line ends.
#[tactic(auto, using(crate::proofs::Ends::line_at, crate::proofs::Ends::line_none))]
fn line_end(text: &[u8]) -> usize
    ensures { (result ≡ line_end text.now) × (result ≤ length text.now) }
{
    text.iter()
        .position(|b| *b == b'\n')
        .map_or(text.len(), |i| i + 1)
}

// The rows of a text's record, or the rows in which they differ from its table: the bytes of the text.
pub fn read_back(out: &mut [u8], text: &[u8]) -> Result<usize, Refused>
    ensures { end_as result out.new ≡ back_call out.old text.now }
{
    let n = line_end(text);
    let line = lists::part(text, 0, n);
    let after = lists::part(text, n, text.len());
    let table = table_read::read_table(line).map_err(Refused::Text)?;
    head_end(out, line, after, &table)
}
