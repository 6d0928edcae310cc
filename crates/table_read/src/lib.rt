// The table of a text: the layout of its header line and its rows, or the line and the reason that refuse it.
#![tactic(auto)]

ghost use Rattle.std.specs.Prelude.{◌≡◌, ◌∷◌, [], ◌++◌, ◌*◌, ◌≤◌, length, take, get_or, drop};
ghost use Rattle.lists.specs.Choice.{when◌then◌else◌};
ghost use Rattle.rules.specs.Limits.{max_width, max_row};
ghost use Rattle.rules.specs.Conditions.{bad_layout};
ghost use Rattle.image_geometry.specs.View.{layout_by, layout_of};
ghost use Rattle.table_text.specs.Bytes.{max_text};
ghost use Rattle.table_text.specs.View.{head_of};
ghost use Rattle.table_read.specs.Table.{max_words, entries_read, layout_read, head_number, rows_table, layout_table, head_table, parse_table};
ghost use Rattle.table_read.specs.View.{layout_in, layout_given, params_read, parsed_of};

use image_geometry::{Layout, Params};
use std::fmt;
use table_text::head::{Ended, Head};
use table_text::reason::Reason;
use table_text::{head, scan};

// The words of a header: two numbers, up to MAX_ROW entries, three numbers.
const MAX_WORDS: usize = rules::MAX_ROW + 5;

// The trits of a table.
pub const MAX_TRITS: usize = rules::MAX_BITS as usize;

// Entries of a row, of which the first `len` are in use: there is no heap.
#[derive(Clone, Copy, Debug, PartialEq, Eq)]
pub struct Entries {
    pub len: u32,
    pub list: [u32; rules::MAX_ROW],
}

// A table: its layout's numbers and entries, and rows of which the first depth × width are in use.
#[derive(Clone, Copy)]
pub struct Table {
    pub params: Params,
    pub entries: Entries,
    pub rows: [u8; MAX_TRITS],
}

// The line of a text that is refused, and the reason.
#[derive(Clone, Copy, Debug, PartialEq, Eq)]
pub struct Fault {
    pub line: u32,
    pub reason: Reason,
}

// A text that is not too long.
#[derive(Clone, Copy)]
struct Text<'a> {
    bytes: &'a [u8],
    ghost short: { length bytes.now ≤ max_text },
}

// What a header line gives: a layout's numbers and its entries.
#[derive(Clone, Copy)]
struct Header {
    params: Params,
    entries: Entries,
    ghost few: { entries.len ≤ max_row },
}

impl Fault {
    // A fault of the first line, or of the whole text.
    pub fn in_header(reason: Reason) -> Fault
        ensures { result ≡ record { line = 1; reason = reason } }
    {
        Fault { line: 1, reason }
    }
}

impl fmt::Display for Fault {
    fn fmt<W: fmt::Write>(&self, f: &mut fmt::Formatter<W>) -> fmt::Result {
        write!(f, "line {}: {}", self.line, self.reason)
    }
}

impl Entries {
    // Those in use.
    pub fn used(&self) -> &[u32]
        ensures { result.now ≡ take self.now.len self.now.list }
    {
        lists::part(&self.list, 0, self.len as usize)
    }

    // The layout of these numbers and the entries in use.
    fn layout(&self, params: Params) -> Layout<'_>
        ensures { layout_of result ≡ layout_given params self.now }
    {
        Layout {
            params,
            entries: self.used(),
        }
    }
}

impl Table {
    // Its layout.
    pub fn layout(&self) -> Layout<'_>
        ensures { layout_of result ≡ layout_in self.now }
    {
        self.entries.layout(self.params)
    }

    // The trits in use.
    pub fn trits(&self) -> &[u8]
        ensures { result.now ≡ take (self.now.params.depth * self.now.params.width) self.now.rows }
    {
        let count = self.params.depth as usize * self.params.width as usize;
        lists::part(&self.rows, 0, count)
    }
}

// ---- the header

// The word at a place, 0 past the end.
fn word_at(words: &[u32], at: u32) -> u32
    ensures { result ≡ get_or words.now at 0 }
{
    words.get(at as usize).copied().unwrap_or(0)
}

// The header is not read whole, or has more words than fit.
#[tactic(auto, unfolding(crate::specs::Table::head_number))]
fn is_bad_head(head: Head) -> bool
    ensures { (when result then 9 else 0) ≡ head_number (head_of head) }
{
    head.kind != head::Kind::Read || MAX_WORDS < head.count as usize
}

// Not of a slice that ends behind the last word: that the last three are found there takes a proof that no header has fewer words.
fn params_of(words: &[u32; MAX_WORDS], count: u32) -> Params
    ensures { result ≡ params_read words.now count }
{
    Params {
        depth: word_at(words, 0),
        width: word_at(words, 1),
        soft_mask: word_at(words, count.saturating_sub(3)),
        hard: word_at(words, count.saturating_sub(2)),
        unit: word_at(words, count.saturating_sub(1)),
    }
}

// The entries among the words; where none is given, each bit in its place.
fn entries_of(words: &[u32; MAX_WORDS], count: u32, width: u32) -> Entries
    requires { (count ≤ max_words) × (width ≡ get_or words.now 1 0) × (width ≤ max_width) }
    ensures { (take result.len result.list ≡ entries_read words.now count) × (result.len ≤ max_row) }
{
    let mut list = [0u32; rules::MAX_ROW];
    if count == 5 {
        lists::store_run(&mut list, 0, 0, width);
        return Entries { len: width, list };
    }
    let len = count.saturating_sub(5);
    lists::copy(&mut list, 0, lists::part(words, 2, len as usize));
    Entries { len, list }
}

// ---- the table

impl Header {
    // No accepted swizzle has its layout.
    fn is_bad(&self) -> bool
        ensures { result ≡ bad_layout (layout_given self.now.params self.now.entries) }
    {
        image_check::check_layout(self.entries.layout(self.params)).is_err()
    }

    // The table with the rows from a place of the text on.
    fn with_rows(&self, text: Text<'_>, at: usize) -> Result<Table, Fault>
        requires { self.now.params.width ≤ max_width }
        ensures { parsed_of result ≡ rows_table (layout_given self.now.params self.now.entries) (drop at (text.entry.bytes.now ++ (10 ∷ []))) }
    {
        let params = self.params;
        let mut rows = [rules::TRIT_X; MAX_TRITS];
        let end = scan::read_rows(&mut rows, params.depth, params.width, text.bytes, at);
        match end.kind {
            scan::Kind::Refused { reason, .. } => Err(Fault {
                line: end.line,
                reason,
            }),
            // Behind the line break at its end a text that is not refused is between words.
            _ => Ok(Table {
                params,
                entries: self.entries,
                rows,
            }),
        }
    }

    // The same, where an accepted swizzle has the layout.
    fn table(&self, text: Text<'_>, at: usize) -> Result<Table, Fault>
        ensures { parsed_of result ≡ layout_table (layout_given self.now.params self.now.entries) (drop at (text.entry.bytes.now ++ (10 ∷ []))) }
    {
        if self.is_bad() {
            return Err(Fault::in_header(Reason::BadLayout));
        }
        self.with_rows(text, at)
    }
}

// The table behind a header that is read.
fn head_table(text: Text<'_>, words: &[u32; MAX_WORDS], end: Ended) -> Result<Table, Fault>
    ensures { parsed_of result ≡ head_table (record { state = head_of end.head; words = words.now; rest = drop end.at (text.entry.bytes.now ++ (10 ∷ [])) }) }
{
    if is_bad_head(end.head) {
        return Err(Fault::in_header(Reason::BadHeader));
    }
    let count = end.head.count;
    let params = params_of(words, count);
    if rules::MAX_WIDTH < params.width {
        return Err(Fault::in_header(Reason::BadLayout));
    }
    let entries = entries_of(words, count, params.width);
    Header { params, entries }.table(text, end.at)
}

// The table of a text.
pub fn read_table(text: &[u8]) -> Result<Table, Fault>
    ensures { parsed_of result ≡ parse_table text.now }
{
    if table_text::bytes::MAX_TEXT < text.len() {
        return Err(Fault::in_header(Reason::TextTooLong));
    }
    let mut words = [0u32; MAX_WORDS];
    let end = head::read_head(&mut words, text);
    head_table(Text { bytes: text }, &words, end)
}
