// The image record: its head, writing one and reading one.
#![tactic(auto)]

ghost use Rattle.std.specs.Prelude.{◌≡◌, false, ◌+◌, ◌*◌, ◌<◌, ◌≤◌, length, drop};
ghost use Rattle.std.proofs.lemmas.List.Edits.{sets};
ghost use Rattle.lists.specs.Lists.{part};
ghost use Rattle.rules.specs.Limits.{head_bytes};
ghost use Rattle.rules.specs.Record.{size_trits, record_image, word16, array_bytes, record_head, encode_record, head_sizes, record_bytes, bits_of};
ghost use Rattle.rules.specs.Conditions.{bad_head, bad_sizes, bad_bits};
ghost use Rattle.rules.specs.Refusal.{number_of};
ghost use Rattle.rules.specs.Refusals.{record_number, read_record_refusal, write_record_refusal, header_refusal};
ghost use Rattle.rules.specs.Answers.{answer_of, write_record_call, read_record_call, header_call};
ghost use Rattle.record_sizes.specs.View.{view_sizes};
ghost use Rattle.record_bits.specs.Groups.{bad_by};
ghost use Rattle.record_reader.specs.Reading.{many_trits, many_bytes, Words, head_words};
ghost use Rattle.record_codec.specs.View.{view_head, view_written, to_take};

use record_bits::Group;
use record_reader::{HeadWords, Reader};
use record_sizes::Sizes;
use rules::Refusal;

// ---- the head

// The bytes of a record of so many trits.
fn bytes_for(trits: u64) -> u64
    requires { trits ≤ many_trits }
    ensures { result ≡ head_bytes + 2 * array_bytes trits }
{
    (rules::HEAD_BYTES as u64) + 2 * trits.div_ceil(8)
}

// The bytes of the record of these sizes.
pub fn record_bytes(sizes: Sizes) -> usize
    ensures { bad_sizes (view_sizes sizes) ≡ false → result ≡ record_bytes (view_sizes sizes) }
{
    bytes_for(sizes.trits_within(rules::MAX_IMAGE)) as usize
}

// The first bytes of a record, or all, with the six words of their head.
#[derive(Clone, Copy)]
struct Head<'a> {
    bytes: &'a [u8],
    words: HeadWords,
    ghost read: { words ≡ head_words bytes.now },
}

impl<'a> Head<'a> {
    fn of(bytes: &'a [u8]) -> Head<'a>
        ensures { result.bytes.now ≡ bytes.now }
    {
        Head {
            bytes,
            words: HeadWords::of(bytes),
        }
    }

    // Number 16, of a record of `total` bytes.
    fn is_bad(&self, total: usize) -> bool
        ensures { result ≡ bad_head self.now.bytes.now total }
    {
        if self.bytes.len() < rules::HEAD_BYTES {
            return true;
        }
        record_reader::word_of(self.words.mark) != rules::RECORD_MARK
            || total as u64 != bytes_for(self.words.trits())
    }

    // 16, then 17, of a record of `total` bytes.
    fn check(&self, total: usize) -> Result<(), Refusal>
        ensures { number_of result ≡ header_refusal self.now.bytes.now total }
    {
        if self.is_bad(total) {
            return Err(Refusal::BadHead);
        }
        if self.words.sizes().is_bad() {
            return Err(Refusal::BadSizes);
        }
        Ok(())
    }

    // 16, 17, 18.
    fn check_record(&self) -> Result<(), Refusal>
        ensures { number_of result ≡ record_number self.now.bytes.now }
    {
        self.check(self.bytes.len())?;
        if bad_bits(self.bytes, self.words.trits() as usize) {
            return Err(Refusal::BadBits);
        }
        Ok(())
    }

    // 16, 17, 18, 20.
    fn check_read(&self, room: usize) -> Result<(), Refusal>
        ensures { number_of result ≡ read_record_refusal room self.now.bytes.now }
    {
        self.check_record()?;
        if (room as u64) < self.words.trits() {
            return Err(Refusal::NoRoom);
        }
        Ok(())
    }

    // The sizes of a record that is to be read into so much room.
    fn sizes_in(&self, room: usize) -> Result<Sizes, Refusal>
        ensures { view_head result ≡ answer_of (read_record_refusal room self.now.bytes.now) (head_sizes self.now.bytes.now) }
    {
        self.check_read(room)?;
        Ok(self.words.sizes())
    }
}

// 16, then 17, of a record of `total` bytes whose first are given.
pub fn header_refusal(first: &[u8], total: usize) -> Result<(), Refusal>
    ensures { number_of result ≡ header_refusal first.now total }
{
    Head::of(first).check(total)
}

// The sizes of a record of `total` bytes whose first are given.
pub fn record_header(first: &[u8], total: usize) -> Result<Sizes, Refusal>
    ensures { view_head result ≡ header_call first.now total }
{
    let head = Head::of(first);
    head.check(total)?;
    Ok(head.words.sizes())
}

// ---- writing

// 4, 17, 20.
fn check_write(room: usize, sizes: Sizes, image: &[u8]) -> Result<(), Refusal>
    ensures { number_of result ≡ write_record_refusal room (view_sizes sizes) image.now }
{
    if !net_logic::trits_good(sizes.image_of(image)) {
        return Err(Refusal::BadValue);
    }
    if sizes.is_bad() {
        return Err(Refusal::BadSizes);
    }
    let count = sizes.trits_within(rules::MAX_IMAGE);
    if (image.len() as u64) < count || room < record_bytes(sizes) {
        return Err(Refusal::NoRoom);
    }
    Ok(())
}

// Stores a word.
fn put_word(out: &mut [u8], at: usize, w: u32)
    requires { w < 65536 }
    ensures { out.new ≡ sets out.old at (word16 w) }
{
    lists::copy(out, at, &(w as u16).to_le_bytes());
}

// Stores the six words.
fn put_head(out: &mut [u8], sizes: Sizes)
    requires { Words sizes }
    ensures { out.new ≡ sets out.old 0 (record_head (view_sizes sizes)) }
{
    put_word(out, 0, u32::from(rules::RECORD_MARK));
    put_word(out, 2, sizes.unit);
    put_word(out, 4, sizes.full);
    put_word(out, 6, sizes.full_depth);
    put_word(out, 8, sizes.partial);
    put_word(out, 10, sizes.partial_depth);
}

// Stores the record of an image that no number refuses.
fn put_record(out: &mut [u8], sizes: Sizes, image: &[u8]) -> usize
    requires { write_record_refusal (length out.old) (view_sizes sizes) image.now ≡ 0 }
    ensures { (result ≡ record_bytes (view_sizes sizes)) × (out.new ≡ sets out.old 0 (encode_record (view_sizes sizes) (record_image (view_sizes sizes) image.now))) }
{
    put_head(out, sizes);
    record_bits::put_arrays(out, rules::HEAD_BYTES, sizes.image_of(image));
    record_bytes(sizes)
}

// Writes the record of an image, and gives its bytes; the rest of the room is kept.
pub fn write_record(out: &mut [u8], sizes: Sizes, image: &[u8]) -> Result<usize, Refusal>
    ensures { (view_written result ≡ answer_of (write_record_refusal (length out.old) (view_sizes sizes) image.now) (record_bytes (view_sizes sizes))) × (out.new ≡ (write_record_call out.old (view_sizes sizes) image.now).out) }
{
    check_write(out.len(), sizes, image)?;
    Ok(put_record(out, sizes, image))
}

// ---- reading

// A value bit without its known bit, or a spare bit set, in two arrays of so many trits.
fn bad_arrays(count: usize, ks: &[u8], vs: &[u8]) -> bool
    requires { (length ks.now ≡ length vs.now) × (length ks.now ≤ many_bytes) }
    ensures { result ≡ bad_by count (bits_of ks.now) (bits_of vs.now) }
{
    // a loop: the library has no law of `any` over a `zip`
    for (j, (known, value)) in ks.iter().zip(vs).enumerate() {
        let group = Group {
            known: *known,
            value: *value,
        };
        if group.is_bad(count.saturating_sub(8 * j)) {
            return true;
        }
    }
    false
}

// Where the second array starts.
fn middle_of(bytes: &[u8]) -> usize
    ensures { (result ≡ head_bytes + array_bytes (size_trits (head_sizes bytes.now))) × (result < many_trits) }
{
    rules::HEAD_BYTES + (record_reader::head_trits(bytes) as usize).div_ceil(8)
}

// The bytes of a record's known bits, and those of its value bits; of other bytes, what stands there.
pub fn known_array(bytes: &[u8]) -> &[u8]
    ensures { (result.now ≡ part head_bytes (array_bytes (size_trits (head_sizes bytes.now))) bytes.now) × (length result.now < many_trits) }
{
    let end = middle_of(bytes).min(bytes.len());
    let start = rules::HEAD_BYTES.min(end);
    &bytes[start..end]
}

pub fn value_array(bytes: &[u8]) -> &[u8]
    ensures { result.now ≡ drop (head_bytes + array_bytes (size_trits (head_sizes bytes.now))) bytes.now }
{
    let start = middle_of(bytes).min(bytes.len());
    &bytes[start..]
}

// Number 18, of a record of so many trits whose head is good.
fn bad_bits(bytes: &[u8], count: usize) -> bool
    requires { (bad_head bytes.now (length bytes.now) ≡ false) × (count ≡ size_trits (head_sizes bytes.now)) × (count ≤ many_trits) }
    ensures { result ≡ bad_bits bytes.now }
{
    let middle = rules::HEAD_BYTES + count.div_ceil(8);
    bad_arrays(count, &bytes[rules::HEAD_BYTES..middle], &bytes[middle..])
}

// 16, 17, 18.
pub fn record_number(bytes: &[u8]) -> Result<(), Refusal>
    ensures { number_of result ≡ record_number bytes.now }
{
    Head::of(bytes).check_record()
}

// The trits to take: none of a record that is refused.
fn trits_to_take(head: Result<Sizes, Refusal>) -> usize
    ensures { result ≡ to_take (view_head head) }
{
    head.map_or(0, |sizes| sizes.trits_within(rules::MAX_IMAGE) as usize)
}

// Reads a record: its sizes, and its image into the lent array, whose rest is kept. One reader takes the six words and then the trits; the numbers stand
// between them, before the first store.
pub fn read_record(image: &mut [u8], bytes: &[u8]) -> Result<Sizes, Refusal>
    ensures { (view_head result ≡ (read_record_call image.old bytes.now).answer) × (image.new ≡ (read_record_call image.old bytes.now).image) }
{
    let mut reader = Reader::new(bytes);
    let words = reader.next_head();
    let head = Head { bytes, words };
    let sizes = head.sizes_in(image.len());
    reader.next_trits(image, trits_to_take(sizes));
    sizes
}
