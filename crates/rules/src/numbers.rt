// The reasons for which a call is refused, each with its number of docs/NUMBERS.md.
ghost use Rattle.std.specs.Prelude.{◌≡◌};
ghost use Rattle.rules.specs.Refusal.{number, number_of};

use std::fmt;

// A call that is refused changes nothing that it was lent.
#[derive(Clone, Copy, Debug, PartialEq, Eq)]
pub enum Refusal {
    // a size or the length of a list above its limit
    TooLarge = 1,
    // lengths that do not fit each other
    BadShape = 2,
    // a depth that is no multiple of a port's 2^k
    BadDepth = 3,
    // a net, a control, a trit or a code that is none
    BadValue = 4,
    // a granularity out of range, or not one per write port
    BadGranularity = 5,
    // a padded row above its limit
    RowTooLong = 6,
    // an entry that names no bit of the width, or a bit that is not named exactly once
    BadEntries = 7,
    // a depth that is no multiple of 2^(top soft bit + 1)
    BadSoftMask = 8,
    // wide logs not one per port, too large or too small
    BadWideLogs = 9,
    // a result with too many columns or trits
    ResultTooLarge = 10,
    // write ports of different clocks
    WriteClocksDiffer = 11,
    // read ports of different clocks
    ReadClocksDiffer = 12,
    // a write port with both a read-before-write and a transparent relation
    MixedRelations = 13,
    // a narrower port with too few address bits
    ShortAddress = 14,
    // a port, a row or a part out of range
    OutOfRange = 15,
    // a record's first word, or its length
    BadHead = 16,
    // a record's sizes
    BadSizes = 17,
    // a record's bits
    BadBits = 18,
    // the log, the image, the record or another result does not fit its room
    NoRoom = 20,
    // no nets are left
    NetsFull = 21,
    // a port without the flip-flop that is needed
    Unclocked = 22,
    // no swizzle was accepted
    NotLaidOut = 23,
}

impl Refusal {
    // Its number.
    pub fn number(self) -> u32
        ensures { result ≡ number self }
    {
        self as u32
    }
}

// The number of an answer without a value: 0 where the call is accepted.
pub fn number_of(answer: Result<(), Refusal>) -> u32
    ensures { result ≡ number_of answer }
{
    answer.err().map_or(0, Refusal::number)
}

impl fmt::Display for Refusal {
    fn fmt<W: fmt::Write>(&self, f: &mut fmt::Formatter<W>) -> fmt::Result {
        f.write_str(match self {
            Refusal::TooLarge => "a size or a list above its limit",
            Refusal::BadShape => "lengths that do not fit each other",
            Refusal::BadDepth => "the depth is no multiple of a port's rows",
            Refusal::BadValue => "a net, a control, a trit or a code that is none",
            Refusal::BadGranularity => "a granularity out of range, or not one per write port",
            Refusal::RowTooLong => "the padded row is too long",
            Refusal::BadEntries => "an entry names no bit, or a bit is not named exactly once",
            Refusal::BadSoftMask => "the depth is no multiple of the soft mask's span",
            Refusal::BadWideLogs => "wide logs not one per port, too large or too small",
            Refusal::ResultTooLarge => "the result has too many columns or trits",
            Refusal::WriteClocksDiffer => "the write ports have different clocks",
            Refusal::ReadClocksDiffer => "the read ports have different clocks",
            Refusal::MixedRelations => "a write port has relations of both kinds",
            Refusal::ShortAddress => "the narrower port has too few address bits",
            Refusal::OutOfRange => "a port, a row or a part out of range",
            Refusal::BadHead => "the record's first word or its length is wrong",
            Refusal::BadSizes => "the record's sizes break the rules",
            Refusal::BadBits => "the record has a bit that it may not have",
            Refusal::NoRoom => "a result does not fit its room",
            Refusal::NetsFull => "no nets are left",
            Refusal::Unclocked => "a port lacks the flip-flop that is needed",
            Refusal::NotLaidOut => "no swizzle was accepted",
        })
    }
}
