// A reader holds a record's bytes and a place in them, which counts bytes in the head and trits behind it: after six words it stands at trit 0.
#![tactic(auto)]

ghost use Rattle.std.specs.Prelude.{◌≡◌, ◌+◌, ◌≤◌, IfSome, length, get_or};
ghost use Rattle.std.proofs.lemmas.List.Edits.{sets};
ghost use Rattle.rules.specs.Record.{size_trits, word_at, array_bytes, bits_of, head_sizes};
ghost use Rattle.record_sizes.specs.View.{view_sizes};
ghost use Rattle.record_bits.specs.Groups.{trits_by};
ghost use Rattle.record_reader.specs.Reading.{has_word, word_there, place_after_word, words_from, place_after_head, word_of, head_words, sizes_by, trit_numbered, trit_there, place_after_trit, first_trits, has_trits, trits_there, place_after_trits, many_trits, many_bytes, Words};

use record_bits::Group;
use record_sizes::Sizes;

// Above the trits of any five 16-bit sizes.
const MANY: u64 = 1125899906842624;

// ---- words

// The word at a place as a number; a byte that is not there counts 0.
fn word_at(bytes: &[u8], at: usize) -> u16
    ensures { result ≡ word_at bytes.now at }
{
    let byte = bytes.get(at).copied().unwrap_or(0);
    let word = Reader { bytes, at }.word_there();
    word.unwrap_or(u16::from(byte))
}

// A word that was found, else 0.
pub fn word_of(word: Option<u16>) -> u16
    ensures { result ≡ word_of word }
{
    word.unwrap_or(0)
}

// The six words of a head, as far as they are there.
#[derive(Clone, Copy, Debug, PartialEq, Eq)]
pub struct HeadWords {
    pub mark: Option<u16>,
    pub unit: Option<u16>,
    pub full: Option<u16>,
    pub full_depth: Option<u16>,
    pub partial: Option<u16>,
    pub partial_depth: Option<u16>,
}

impl HeadWords {
    // Reads the six words of a head, by one reader.
    pub fn of(bytes: &[u8]) -> HeadWords
        ensures { result ≡ head_words bytes.now }
    {
        Reader::new(bytes).next_head()
    }

    // The sizes that the words after the first give. Where a head ends within a word they are not `head_sizes`: here that word is not there and
    // counts 0, there its one byte counts.
    #[tactic(auto, unfolding(crate::specs::Reading::sizes_by))]
    pub fn sizes(self) -> Sizes
        ensures { (view_sizes result ≡ sizes_by self) × Words result }
    {
        Sizes {
            unit: u32::from(word_of(self.unit)),
            full: u32::from(word_of(self.full)),
            full_depth: u32::from(word_of(self.full_depth)),
            partial: u32::from(word_of(self.partial)),
            partial_depth: u32::from(word_of(self.partial_depth)),
        }
    }

    // The trits that those sizes give.
    pub fn trits(self) -> u64
        ensures { (result ≡ size_trits (sizes_by self)) × (result ≤ many_trits) }
    {
        self.sizes().trits_within(MANY)
    }
}

// The sizes that a record's bytes give; a byte that is not there counts 0.
#[tactic(auto, unfolding(rules::specs::Record::head_sizes))]
pub fn head_sizes(bytes: &[u8]) -> Sizes
    ensures { (view_sizes result ≡ head_sizes bytes.now) × Words result }
{
    Sizes {
        unit: u32::from(word_at(bytes, 2)),
        full: u32::from(word_at(bytes, 4)),
        full_depth: u32::from(word_at(bytes, 6)),
        partial: u32::from(word_at(bytes, 8)),
        partial_depth: u32::from(word_at(bytes, 10)),
    }
}

// The trits that those sizes give.
pub fn head_trits(bytes: &[u8]) -> u64
    ensures { (result ≡ size_trits (head_sizes bytes.now)) × (result ≤ many_trits) }
{
    head_sizes(bytes).trits_within(MANY)
}

// ---- trits

// The trit of that number.
pub fn trit_numbered(bytes: &[u8], at: usize) -> Option<u8>
    ensures value { result ≡ trit_numbered bytes.now at }
    ensures small { IfSome result (λ t. at ≤ many_trits) }
{
    let count = head_trits(bytes) as usize;
    if count <= at {
        return None;
    }
    let known = rules::HEAD_BYTES + at / 8;
    let value = rules::HEAD_BYTES + array_bytes(count) + at / 8;
    if bytes.len() <= value {
        return None;
    }
    let k = record_bits::bit_at(bytes[known], at % 8);
    let v = record_bits::bit_at(bytes[value], at % 8);
    Some(record_bits::trit_by(k, v))
}

// The first two trits of a record, as far as they are there.
#[derive(Clone, Copy, Debug, PartialEq, Eq)]
pub struct FirstTrits {
    pub first: Option<u8>,
    pub second: Option<u8>,
}

impl FirstTrits {
    // Reads a record's first two trits, by one reader: it goes over the head, and then takes one trit and the next.
    pub fn of(bytes: &[u8]) -> FirstTrits
        ensures { result ≡ first_trits bytes.now }
    {
        let mut reader = Reader::new(bytes);
        reader.next_head();
        let first = reader.next_trit();
        let second = reader.next_trit();
        FirstTrits { first, second }
    }
}

// ---- all the trits that are left

// The bytes of an array of so many bits.
fn array_bytes(count: usize) -> usize
    ensures { (result ≡ array_bytes count) × (result ≤ many_bytes) }
{
    count.div_ceil(8)
}

// Stores the trits of two arrays, a byte of each at a time.
fn put_groups(image: &mut [u8], count: usize, ks: &[u8], vs: &[u8])
    requires { (length ks.now ≡ length vs.now) × (length ks.now ≤ many_bytes) }
    ensures { image.new ≡ sets image.old 0 (trits_by count (bits_of ks.now) (bits_of vs.now)) }
{
    for (j, (known, value)) in ks.iter().zip(vs).enumerate() {
        let group = Group {
            known: *known,
            value: *value,
        };
        group.spread(image, 8 * j, count.saturating_sub(8 * j));
    }
}

// ---- the reader

#[derive(Clone, Copy)]
pub struct Reader<'a> {
    pub bytes: &'a [u8],
    pub at: usize,
}

impl<'a> Reader<'a> {
    // A reader at the record's start.
    pub fn new(bytes: &'a [u8]) -> Reader<'a>
        ensures { (result.bytes ≡ bytes.entry) × (result.at ≡ 0) }
    {
        Reader { bytes, at: 0 }
    }

    // Both bytes of the word at a place are there.
    fn has_word(self) -> bool
        ensures { result ≡ has_word self.entry.bytes.now self.entry.at }
    {
        self.at < self.bytes.len() && 2 <= self.bytes.len() - self.at
    }

    // The word whose first byte stands at a place.
    #[tactic(auto, unfolding(crate::specs::Reading::word_there, rules::specs::Record::next_word, rules::specs::Record::word_at))]
    fn word_there(self) -> Option<u16>
        ensures { result ≡ word_there self.entry.bytes.now self.entry.at }
    {
        if self.has_word() {
            Some(u16::from_le_bytes([self.bytes[self.at], self.bytes[self.at + 1]]))
        } else {
            None
        }
    }

    // The place after that word, or the same place where there is none.
    #[tactic(auto, unfolding(crate::specs::Reading::place_after_word, rules::specs::Record::after_word))]
    fn place_after_word(self) -> usize
        ensures { result ≡ place_after_word self.entry.bytes.now self.entry.at }
    {
        if self.has_word() {
            self.at + 2
        } else {
            self.at
        }
    }

    // Takes the next word: the reader goes on behind it.
    pub fn next_word(&mut self) -> Option<u16>
        ensures { (result ≡ word_there self.old.bytes.now self.old.at) × (self.new.bytes ≡ self.old.bytes) × (self.new.at ≡ place_after_word self.old.bytes.now self.old.at) }
    {
        let word = self.word_there();
        self.at = self.place_after_word();
        word
    }

    // Takes the next six words: the reader goes on behind them.
    pub fn next_head(&mut self) -> HeadWords
        ensures { (result ≡ words_from self.old.bytes.now self.old.at) × (self.new.bytes ≡ self.old.bytes) × (self.new.at ≡ place_after_head self.old.bytes.now self.old.at) }
    {
        HeadWords {
            mark: self.next_word(),
            unit: self.next_word(),
            full: self.next_word(),
            full_depth: self.next_word(),
            partial: self.next_word(),
            partial_depth: self.next_word(),
        }
    }

    // The trit at a reader's place: behind the head the place counts trits.
    fn trit_there(self) -> Option<u8>
        ensures value { result ≡ trit_there self.entry.bytes.now self.entry.at }
        ensures small { IfSome result (λ t. self.entry.at ≤ many_trits + 12) }
    {
        if self.at < rules::HEAD_BYTES {
            return None;
        }
        trit_numbered(self.bytes, self.at - rules::HEAD_BYTES)
    }

    // The place after that trit, or the same where there is none.
    #[tactic(auto, unfolding(crate::specs::Reading::place_after_trit, rules::specs::Record::after_trit), using(crate::proofs::Places::found_is))]
    fn place_after_trit(self) -> usize
        ensures { result ≡ place_after_trit self.entry.bytes.now self.entry.at }
    {
        if self.trit_there().is_some() {
            self.at + 1
        } else {
            self.at
        }
    }

    // Takes the next trit: the reader goes on behind it.
    pub fn next_trit(&mut self) -> Option<u8>
        ensures { (result ≡ trit_there self.old.bytes.now self.old.at) × (self.new.bytes ≡ self.old.bytes) × (self.new.at ≡ place_after_trit self.old.bytes.now self.old.at) }
    {
        let trit = self.trit_there();
        self.at = self.place_after_trit();
        trit
    }

    // A byte of trits starts at the place, and the record is as long as so many trits take.
    fn has_trits(self, count: usize) -> bool
        ensures { result ≡ has_trits count self.entry.bytes.now self.entry.at }
    {
        rules::HEAD_BYTES <= self.at
            && (self.at - rules::HEAD_BYTES) % 8 == 0
            && count as u64 <= MANY
            && self.bytes.len() == rules::HEAD_BYTES + 2 * array_bytes(count)
    }

    // Stores the trits from a place on, all that are left of a record of `count` trits; the place after them.
    fn put_rest(self, image: &mut [u8], count: usize) -> usize
        ensures { (image.new ≡ sets image.old 0 (trits_there count self.entry.bytes.now self.entry.at)) × (result ≡ place_after_trits count self.entry.bytes.now self.entry.at) }
    {
        if !self.has_trits(count) {
            return self.at;
        }
        let from = self.at - rules::HEAD_BYTES;
        if count <= from {
            return self.at;
        }
        let middle = rules::HEAD_BYTES + array_bytes(count);
        let known = rules::HEAD_BYTES + from / 8;
        let value = middle + from / 8;
        put_groups(
            image,
            count - from,
            &self.bytes[known..middle],
            &self.bytes[value..],
        );
        rules::HEAD_BYTES + count
    }

    // Takes all the trits that are left of a record of `count` trits into the image: the reader goes on behind them.
    pub fn next_trits(&mut self, image: &mut [u8], count: usize)
        ensures { (image.new ≡ sets image.old 0 (trits_there count self.old.bytes.now self.old.at)) × (self.new.bytes ≡ self.old.bytes) × (self.new.at ≡ place_after_trits count self.old.bytes.now self.old.at) }
    {
        self.at = self.put_rest(image, count);
    }
}
