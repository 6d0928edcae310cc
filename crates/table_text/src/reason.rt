// The reasons for which a table's text is refused, each with its number.
ghost use Rattle.std.specs.Prelude.{◌≡◌};
ghost use Rattle.table_text.specs.View.{reason_number};

use std::fmt;

#[derive(Clone, Copy, Debug, PartialEq, Eq)]
pub enum Reason {
    // more bytes than are read
    TextTooLong = 8,
    // a header line that is none
    BadHeader = 9,
    // a layout that no accepted swizzle has
    BadLayout = 10,
    // a byte that does not belong there
    BadByte = 11,
    // a word with too few bits
    ShortWord = 12,
    // a word with too many bits
    LongWord = 13,
    // a row past the depth
    RowPastDepth = 14,
    // rows that are not read: wider than a memory's, or of a text with more bytes than are read
    Unread = 15,
}

impl Reason {
    // Its number.
    pub fn number(self) -> u32
        ensures { result ≡ reason_number self }
    {
        self as u32
    }
}

impl fmt::Display for Reason {
    fn fmt<W: fmt::Write>(&self, f: &mut fmt::Formatter<W>) -> fmt::Result {
        f.write_str(match self {
            Reason::TextTooLong => "text too long",
            Reason::BadHeader => "header",
            Reason::BadLayout => "layout",
            Reason::BadByte => "character",
            Reason::ShortWord => "too few bits",
            Reason::LongWord => "too many bits",
            Reason::RowPastDepth => "row past the depth",
            Reason::Unread => "rows not read",
        })
    }
}
