// The header line of a table's text.
ghost use Rattle.std.specs.Prelude.{◌≡◌, ◌∷◌, [], ◌++◌, ◌≤◌, Some, None, drop, eqb, leb, length};
ghost use Rattle.lists.specs.Choice.{when◌then◌else◌};
ghost use Rattle.table_text.specs.Bytes.{max_text};
ghost use Rattle.table_text.specs.View.{head_kind, head_value, head_of};
ghost use Rattle.table_text.specs.Head.{head_as, head_start, head_bad, number_end, head_blank, head_comma, head_break, head_digit, head_entry, head_letter, head_word, head_step_of, is_stop, head_stored, head_run, head_read};

use crate::bytes;
use crate::reason::Reason;

// The fields of the line are counted from 0: this one has the entries,
const ENTRIES: u32 = 2;
// and so many there are.
const FIELDS: u32 = 6;

// What the machine waits for, or why it refuses the line.
#[derive(Clone, Copy, Debug, PartialEq, Eq)]
pub enum Kind {
    // a word
    Gap,
    // the end of the number in hand
    Number(u64),
    // the end of the word `plain`
    AfterPlain,
    // nothing: the line is read
    Read,
    // the letter of `plain` with this number
    Plain(u64),
    // nothing: the number in hand is kept
    Refused { reason: Reason, value: u64 },
}

// The machine that reads the line: what it waits for, the field in hand, and the words stored.
#[derive(Clone, Copy, Debug, PartialEq, Eq)]
pub struct Head {
    pub kind: Kind,
    pub field: u32,
    pub count: u32,
}

#[tactic(auto, unfolding(crate::specs::Head::is_stop))]
fn is_stop(b: u8) -> bool
    ensures { result ≡ is_stop b }
{
    bytes::is_blank(u32::from(b)) || b == b',' || b == b'\n'
}

impl Head {
    fn new(kind: Kind, field: u32, count: u32) -> Head
        ensures { head_of result ≡ head_as (head_kind kind) field count (head_value kind) }
    {
        Head { kind, field, count }
    }

    // The number in hand, 0 where there is none.
    fn value(self) -> u64
        ensures { result ≡ (head_of self).value }
    {
        match self.kind {
            Kind::Number(value) | Kind::Plain(value) | Kind::Refused { value, .. } => value,
            Kind::Gap | Kind::AfterPlain | Kind::Read => 0,
        }
    }

    fn bad(self) -> Head
        ensures { head_of result ≡ head_bad (head_of self) }
    {
        let reason = Reason::BadHeader;
        let value = self.value();
        Head {
            kind: Kind::Refused { reason, value },
            ..self
        }
    }

    // A number is at its end, and the next word is of that field.
    #[tactic(auto, unfolding(crate::specs::Head::number_end))]
    fn number_end(self, field: u32) -> Head
        ensures { head_of result ≡ number_end (head_of self) field }
    {
        if self.value() < 4294967296 {
            Head::new(Kind::Gap, field, bytes::bumped(self.count))
        } else {
            self.bad()
        }
    }

    #[tactic(auto, unfolding(crate::specs::Head::head_blank))]
    fn blank(self) -> Head
        ensures { head_of result ≡ head_blank (head_of self) }
    {
        match self.kind {
            Kind::Gap => self,
            Kind::Number(_) => self.number_end(bytes::bumped(self.field)),
            Kind::AfterPlain => Head::new(Kind::Gap, bytes::bumped(self.field), self.count),
            Kind::Read | Kind::Plain(_) | Kind::Refused { .. } => self.bad(),
        }
    }

    #[tactic(auto, unfolding(crate::specs::Head::head_comma))]
    fn comma(self) -> Head
        ensures { head_of result ≡ head_comma (head_of self) }
    {
        if matches!(self.kind, Kind::Number(_)) && self.field == ENTRIES {
            self.number_end(ENTRIES)
        } else {
            self.bad()
        }
    }

    #[tactic(auto, unfolding(crate::specs::Head::head_break))]
    fn line_break(self) -> Head
        ensures { head_of result ≡ head_break (head_of self) }
    {
        let end = self.blank();
        if end.kind == Kind::Gap && end.field == FIELDS {
            Head::new(Kind::Read, FIELDS, end.count)
        } else {
            self.bad()
        }
    }

    // The number to which a digit is added.
    fn number(self) -> Option<u64>
        ensures { result ≡ when leb (head_of self).kind 1 then Some (head_of self).value else None }
    {
        match self.kind {
            Kind::Gap => Some(0),
            Kind::Number(value) => Some(value),
            Kind::AfterPlain | Kind::Read | Kind::Plain(_) | Kind::Refused { .. } => None,
        }
    }

    #[tactic(auto, unfolding(crate::specs::Head::head_digit))]
    fn digit(self, b: u8) -> Head
        ensures { head_of result ≡ head_digit (head_of self) b }
    {
        let Some(value) = self.number() else {
            return self.bad();
        };
        let more = bytes::more(10, value, u32::from(b.saturating_sub(b'0')));
        Head::new(Kind::Number(more), self.field, self.count)
    }

    // The first byte of an entry that names no bit, or of `plain`.
    #[tactic(auto, unfolding(crate::specs::Head::head_entry))]
    fn entry(self, kind: Kind) -> Head
        ensures { head_of result ≡ head_entry (head_of self) (head_kind kind) (head_value kind) }
    {
        if self.kind == Kind::Gap && self.field == ENTRIES {
            Head::new(kind, ENTRIES, self.count)
        } else {
            self.bad()
        }
    }

    // A further letter of `plain`.
    #[tactic(auto, unfolding(crate::specs::Head::head_letter))]
    fn letter(self, b: u8) -> Head
        ensures { head_of result ≡ head_letter (head_of self) b }
    {
        let Kind::Plain(letter) = self.kind else {
            return self.bad();
        };
        if b != bytes::letter_of(letter) {
            return self.bad();
        }
        if letter == 4 {
            Head::new(Kind::AfterPlain, ENTRIES, self.count)
        } else {
            Head::new(Kind::Plain(bytes::next_letter(letter)), ENTRIES, self.count)
        }
    }

    #[tactic(auto, unfolding(crate::specs::Head::head_word))]
    fn word(self, b: u8) -> Head
        ensures { head_of result ≡ head_word (head_of self) b }
    {
        match b {
            b'-' => self.entry(Kind::Number(u32::MAX.into())),
            b'p' => self.entry(Kind::Plain(1)),
            _ => self.letter(b),
        }
    }

    fn is_read(self) -> bool
        ensures { result ≡ eqb (head_of self).kind 3 }
    {
        self.kind == Kind::Read
    }

    // One byte.
    #[tactic(auto, unfolding(crate::specs::Head::head_step_of, crate::specs::Bytes::is_digit_of))]
    fn step(self, b: u8) -> Head
        ensures { head_of result ≡ head_step_of (head_of self) b }
    {
        if bytes::is_digit(u32::from(b)) {
            self.digit(b)
        } else if bytes::is_blank(u32::from(b)) {
            self.blank()
        } else if b == b',' {
            self.comma()
        } else if b == b'\n' {
            self.line_break()
        } else {
            self.word(b)
        }
    }

    // Stores a number that ends.
    #[tactic(auto, unfolding(crate::specs::Head::head_stored))]
    fn store(self, words: &mut [u32], b: u8)
        ensures { words.new ≡ head_stored (head_of self) b words.old }
    {
        let Kind::Number(value) = self.kind else {
            return;
        };
        if is_stop(b) {
            lists::put(words, self.count as usize, bytes::low_word(value));
        }
    }
}

// The machine after the line, and the place after it.
#[derive(Clone, Copy, Debug, PartialEq, Eq)]
pub struct Ended {
    pub head: Head,
    pub at: usize,
}

// Reads the line of a text that is not too long.
fn read_line(words: &mut [u32], text: &[u8]) -> Ended
    requires { length text.now ≤ max_text }
    ensures { head_run head_start words.old (text.now ++ (10 ∷ [])) ≡ record { state = head_of result.head; words = words.new; rest = drop result.at (text.now ++ (10 ∷ [])) } }
{
    let mut head = Head::new(Kind::Gap, 0, 0);
    for at in 0..text.len() + 1 {
        if head.is_read() {
            return Ended { head, at };
        }
        let b = bytes::byte_at(text, at);
        head.store(words, b);
        head = head.step(b);
    }
    Ended {
        head,
        at: text.len() + 1,
    }
}

// Reads the line; the end of the text is a line break.
#[tactic(auto, unfolding(crate::specs::Head::head_read))]
pub fn read_head(words: &mut [u32], text: &[u8]) -> Ended
    ensures { head_read words.old text.now ≡ record { state = head_of result.head; words = words.new; rest = drop result.at (text.now ++ (10 ∷ [])) } }
{
    if bytes::MAX_TEXT < text.len() {
        let reason = Reason::TextTooLong;
        return Ended {
            head: Head::new(Kind::Refused { reason, value: 0 }, 0, 0),
            at: 0,
        };
    }
    read_line(words, text)
}
