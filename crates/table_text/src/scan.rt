// The rows of a table's text.
ghost use Rattle.std.specs.Prelude.{◌≡◌, ◌∷◌, [], ◌++◌, ◌≤◌, ◌&&◌, true, false, eqb, ltb, leb, drop, length};
ghost use Rattle.rules.specs.Limits.{max_width};
ghost use Rattle.table_text.specs.Bytes.{max_text};
ghost use Rattle.table_text.specs.View.{reason_number, scan_kind, scan_left, scan_value, scan_of};
ghost use Rattle.table_text.specs.Scan.{scan_as, scan_start, with_kind, word_end, number_end, ended, between, left_of, scan_trit, scan_hex, scan_comment, scan_slash, scan_word, scan_plain, scan_step_of, place_of, scan_stored, scan_run, rows_read};

use crate::bytes;
use crate::reason::Reason;

// Where the machine is, or why it refuses the rows.
#[derive(Clone, Copy, Debug, PartialEq, Eq)]
pub enum Kind {
    // between words
    Gap,
    // in a word, of which so many bits are to come
    Word(u32),
    // in this row number
    Number(u64),
    // after one slash
    Slash,
    // in a comment
    Comment,
    // after `@`
    At,
    // refused, with the bits that were to come and the row number so far
    Refused {
        reason: Reason,
        left: u32,
        value: u64,
    },
}

// How many rows there are, and the bits of each: no more than a memory has.
#[derive(Clone, Copy)]
pub struct Size {
    pub depth: u32,
    pub width: u32,
    ghost within: { width ≤ max_width },
}

// The machine that reads the rows: where it is, and the line and the row in hand.
#[derive(Clone, Copy, Debug, PartialEq, Eq)]
pub struct Scan {
    pub kind: Kind,
    pub line: u32,
    pub row: u32,
}

impl Scan {
    fn new(kind: Kind, line: u32, row: u32) -> Scan
        ensures { scan_of result ≡ scan_as (scan_kind kind) line row (scan_left kind) (scan_value kind) }
    {
        Scan { kind, line, row }
    }

    fn turned(self, kind: Kind) -> Scan
        ensures { scan_of result ≡ scan_as (scan_kind kind) self.line self.row (scan_left kind) (scan_value kind) }
    {
        Scan { kind, ..self }
    }

    // The bits of the word in hand that are to come.
    fn left(self) -> u32
        ensures { result ≡ (scan_of self).left }
    {
        match self.kind {
            Kind::Word(left) | Kind::Refused { left, .. } => left,
            Kind::Gap | Kind::Number(_) | Kind::Slash | Kind::Comment | Kind::At => 0,
        }
    }

    // The row number so far.
    fn number(self) -> u64
        ensures { result ≡ (scan_of self).value }
    {
        match self.kind {
            Kind::Number(value) | Kind::Refused { value, .. } => value,
            Kind::Gap | Kind::Word(_) | Kind::Slash | Kind::Comment | Kind::At => 0,
        }
    }

    fn refused(self, reason: Reason) -> Scan
        ensures { scan_of result ≡ with_kind (scan_of self) (reason_number reason) }
    {
        self.turned(Kind::Refused {
            reason,
            left: self.left(),
            value: self.number(),
        })
    }

    #[tactic(auto, unfolding(crate::specs::Scan::word_end))]
    fn word_end(self) -> Scan
        ensures { scan_of result ≡ word_end (scan_of self) }
    {
        if self.left() == 0 {
            Scan::new(Kind::Gap, self.line, bytes::bumped(self.row))
        } else {
            self.refused(Reason::ShortWord)
        }
    }

    #[tactic(auto, unfolding(crate::specs::Scan::number_end))]
    fn number_end(self, size: Size) -> Scan
        ensures { scan_of result ≡ number_end size.depth (scan_of self) }
    {
        let value = self.number();
        if value <= u64::from(size.depth) {
            Scan::new(Kind::Gap, self.line, bytes::low_word(value))
        } else {
            self.refused(Reason::RowPastDepth)
        }
    }

    // A word or a row number is at its end.
    #[tactic(auto, unfolding(crate::specs::Scan::ended))]
    fn end_word(self, size: Size) -> Scan
        ensures { scan_of result ≡ ended size.depth (scan_of self) }
    {
        match self.kind {
            Kind::Gap => self,
            Kind::Word(_) => self.word_end(),
            Kind::Number(_) => self.number_end(size),
            Kind::Slash | Kind::Comment | Kind::At | Kind::Refused { .. } => self.refused(
                Reason::BadByte,
            ),
        }
    }

    // Between words.
    #[tactic(auto, unfolding(crate::specs::Scan::between))]
    fn gap(self, b: u8) -> Scan
        ensures { scan_of result ≡ between (scan_of self) b }
    {
        if self.kind != Kind::Gap {
            return self;
        }
        match b {
            b'\n' => Scan::new(Kind::Gap, bytes::bumped(self.line), self.row),
            b'/' => self.turned(Kind::Slash),
            _ => self,
        }
    }

    // The bits that are to come before a trit: a new word has all.
    #[tactic(auto, unfolding(crate::specs::Scan::left_of))]
    fn left_of(self, size: Size) -> u32
        ensures { result ≡ left_of size.width (scan_of self) }
    {
        match self.kind {
            Kind::Gap => size.width,
            Kind::Word(left) | Kind::Refused { left, .. } => left,
            Kind::Number(_) | Kind::Slash | Kind::Comment | Kind::At => 0,
        }
    }

    // A trit.
    #[tactic(auto, unfolding(crate::specs::Scan::scan_trit))]
    fn trit(self, size: Size) -> Scan
        ensures { scan_of result ≡ scan_trit size.depth size.width (scan_of self) }
    {
        let left = self.left_of(size);
        if size.depth <= self.row {
            self.refused(Reason::RowPastDepth)
        } else if left == 0 {
            self.refused(Reason::LongWord)
        } else {
            Scan::new(Kind::Word(left - 1), self.line, self.row)
        }
    }

    // In a word.
    fn is_in_word(self) -> bool
        ensures { result ≡ eqb (scan_of self).kind 1 }
    {
        matches!(self.kind, Kind::Word(_))
    }

    // Between words or in one.
    fn takes_trits(self) -> bool
        ensures { result ≡ leb (scan_of self).kind 1 }
    {
        matches!(self.kind, Kind::Gap | Kind::Word(_))
    }

    // A byte of a row number.
    #[tactic(auto, unfolding(crate::specs::Scan::scan_hex))]
    fn hex(self, b: u8) -> Scan
        ensures { scan_of result ≡ scan_hex (scan_of self) b }
    {
        let Some(digit) = bytes::hex_of(u32::from(b)) else {
            return self.refused(Reason::BadByte);
        };
        let value = bytes::more(16, self.number(), digit);
        Scan::new(Kind::Number(value), self.line, self.row)
    }

    #[tactic(auto, unfolding(crate::specs::Scan::scan_comment))]
    fn comment(self, b: u8) -> Scan
        ensures { scan_of result ≡ scan_comment (scan_of self) b }
    {
        if b == b'\n' {
            Scan::new(Kind::Gap, bytes::bumped(self.line), self.row)
        } else {
            self
        }
    }

    #[tactic(auto, unfolding(crate::specs::Scan::scan_slash))]
    fn slash(self, b: u8) -> Scan
        requires { eqb (scan_of self).kind 3 ≡ true }
        ensures { scan_of result ≡ scan_slash (scan_of self) b }
    {
        if b == b'/' {
            self.turned(Kind::Comment)
        } else {
            self.refused(Reason::BadByte)
        }
    }

    // Between words or in one.
    #[tactic(auto, unfolding(crate::specs::Scan::scan_word))]
    fn word(self, size: Size, b: u8) -> Scan
        ensures { scan_of result ≡ scan_word size.depth size.width (scan_of self) b }
    {
        if bytes::trit_of(u32::from(b)).is_some() {
            self.trit(size)
        } else if self.is_in_word() && b == b'_' {
            self
        } else if self.kind == Kind::Gap && b == b'@' {
            self.turned(Kind::At)
        } else {
            self.refused(Reason::BadByte)
        }
    }

    // Outside comments.
    #[tactic(auto, unfolding(crate::specs::Scan::scan_plain))]
    fn plain(self, size: Size, b: u8) -> Scan
        ensures { scan_of result ≡ scan_plain size.depth size.width (scan_of self) b }
    {
        if bytes::is_end(u32::from(b)) {
            self.end_word(size).gap(b)
        } else if self.takes_trits() {
            self.word(size, b)
        } else {
            self.hex(b)
        }
    }

    // One byte; the machine has not refused the text as too long, which that of the header does.
    #[tactic(auto, unfolding(crate::specs::Scan::scan_step_of))]
    fn step(self, size: Size, b: u8) -> Scan
        requires { eqb (scan_of self).kind 8 ≡ false }
        ensures { scan_of result ≡ scan_step_of size.depth size.width (scan_of self) b }
    {
        match self.kind {
            Kind::Refused { .. } => self,
            Kind::Comment => self.comment(b),
            Kind::Slash => self.slash(b),
            Kind::Gap | Kind::Word(_) | Kind::Number(_) | Kind::At => self.plain(size, b),
        }
    }

    // A trit has a place in the rows.
    fn has_place(self, size: Size) -> bool
        ensures { result ≡ (leb (scan_of self).kind 1 && (ltb self.row size.depth && ltb 0 (left_of size.width (scan_of self)))) }
    {
        self.takes_trits() && self.row < size.depth && 0 < self.left_of(size)
    }

    // Where a trit goes.
    fn place(self, size: Size) -> usize
        ensures { result ≡ place_of size.width (scan_of self) }
    {
        let left = self.left_of(size).saturating_sub(1);
        self.row as usize * size.width as usize + left as usize
    }

    // Stores a trit.
    #[tactic(auto, unfolding(crate::specs::Scan::scan_stored, crate::specs::Scan::is_stored))]
    fn store(self, rows: &mut [u8], size: Size, b: u8)
        ensures { rows.new ≡ scan_stored size.depth size.width (scan_of self) b rows.old }
    {
        let Some(trit) = bytes::trit_of(u32::from(b)) else {
            return;
        };
        if self.has_place(size) {
            lists::put(rows, self.place(size), trit);
        }
    }
}

// Reads the rows from a place of the text on; the end of the text is a line break.
fn read_from(rows: &mut [u8], size: Size, text: &[u8], from: usize) -> Scan
    requires { length text.now ≤ max_text }
    ensures { scan_run size.depth size.width scan_start rows.old (drop from (text.now ++ (10 ∷ []))) ≡ record { state = scan_of result; rows = rows.new } }
{
    let mut scan = Scan::new(Kind::Gap, 2, 0);
    for i in from..text.len() + 1 {
        let b = bytes::byte_at(text, i);
        scan.store(rows, size, b);
        scan = scan.step(size, b);
    }
    scan
}

// The rows of a text behind its header line; past the longest row, which no memory has, nothing is read and the text is refused.
#[tactic(auto, unfolding(crate::specs::Scan::rows_read))]
pub fn read_rows(rows: &mut [u8], depth: u32, width: u32, text: &[u8], from: usize) -> Scan
    ensures { rows_read depth width rows.old text.now from ≡ record { state = scan_of result; rows = rows.new } }
{
    if rules::MAX_WIDTH < width || bytes::MAX_TEXT < text.len() {
        return Scan::new(
            Kind::Refused {
                reason: Reason::Unread,
                left: 0,
                value: 0,
            },
            1,
            0,
        );
    }
    read_from(rows, Size { depth, width }, text, from)
}
