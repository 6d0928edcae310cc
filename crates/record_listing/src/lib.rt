// The lister's text for a record, as bytes in a lent array. The inner functions store what fits and count all: a run on one byte gives the length.
#![tactic(auto)]

ghost use Rattle.std.specs.Prelude.{◌≡◌, ◌∷◌, ◌+◌, ◌*◌, ◌<◌, ◌≤◌, length, drop};
ghost use Rattle.lists.specs.Lists.{sum_by, part, concat_map};
ghost use Rattle.lists.specs.Choice.{when◌then◌else◌, ◌or_else◌};
ghost use Rattle.rules.specs.Limits.{max_image};
ghost use Rattle.rules.specs.Record.{size_mems, size_trits, bits_of, head_sizes, decode_image};
ghost use Rattle.rules.specs.Refusal.{number};
ghost use Rattle.rules.specs.Refusals.{record_number, header_refusal};
ghost use Rattle.rules.specs.Lister.{decimal, space, blank_text, load_text, head_line, memory_line, refused_line, summary_of, summaries, listed, lister};
ghost use Rattle.rules.specs.Answers.{list_record_call};
ghost use Rattle.rules.specs.Beside.Stored.{lister_stored, list_input_call};
ghost use Rattle.record_sizes.specs.View.{view_sizes};
ghost use Rattle.record_listing.specs.Summary.{view_summary};
ghost use Rattle.record_listing.specs.Text.{listed_as};
ghost use Rattle.record_listing.specs.Put.{max_text, max_place, Put, Added};
ghost use Rattle.record_listing.specs.Starts.{Accepted, Starts};

use record_sizes::Sizes;
use rules::Refusal;
use summary::Summary;
use text::Text;

pub mod summary;
pub mod text;

// The bytes of the longest text: no line is longer than 50 bytes.
pub const MAX_TEXT: usize = 1638437;

// ---- parts of a line

// A space and a number. (`text.old.at` + k is no fact of Text: how many bytes are still to come differs from call to call.)
fn put_field(text: &mut Text<'_>, n: usize)
    requires { text.old.at + 11 ≤ max_place }
    ensures { Added text.old (space ∷ decimal n) text.new × (text.new.at ≤ text.old.at + 11) }
{
    text.put(b" ");
    text.put_number(n);
}

// A space, and blank or load.
fn put_kind(text: &mut Text<'_>, blank: bool)
    requires { text.old.at + 6 ≤ max_place }
    ensures { Added text.old (space ∷ (when blank then blank_text else load_text)) text.new × (text.new.at ≤ text.old.at + 6) }
{
    if blank {
        text.put(b" blank");
    } else {
        text.put(b" load");
    }
}

// ---- lines

fn put_head(text: &mut Text<'_>, s: Sizes, memories: usize, trits: usize)
    requires { (memories ≡ size_mems (view_sizes s)) × (trits ≡ size_trits (view_sizes s)) × (text.old.at + 37 ≤ max_place) }
    ensures { Added text.old (head_line (view_sizes s)) text.new × (text.new.at ≤ text.old.at + 37) }
{
    text.put(b"memories ");
    text.put_number(memories);
    text.put(b" trits ");
    text.put_number(trits);
    text.put(b"\n");
}

fn put_memory(text: &mut Text<'_>, y: Summary)
    requires { text.old.at + 50 ≤ max_place }
    ensures { Added text.old (memory_line (view_summary y)) text.new × (text.new.at ≤ text.old.at + 50) }
{
    text.put_number(y.index);
    put_field(text, y.depth);
    put_field(text, y.known);
    put_field(text, y.ones);
    put_kind(text, y.is_blank());
    text.put(b"\n");
}

fn put_refused(out: &mut [u8], refusal: Refusal) -> usize
    ensures { Put out.old 0 (refused_line (number refusal)) out.new result × (result ≤ 19) }
{
    let mut text = Text { out, at: 0 };
    text.put(b"refused ");
    text.put_number(refusal.number() as usize);
    text.put(b"\n");
    text.at
}

// ---- the memories

// How many ones stand among so many bits of an array.
fn ones_in(array: &[u8], from: usize, count: usize) -> usize
    requires { (from + count ≤ 8 * length array.now) × (from + count ≤ max_image) }
    ensures { result ≡ sum_by (λ b. b) (part from count (bits_of array.now)) }
{
    let mut sum: usize = 0;
    for j in from..from + count {
        sum += record_bits::bit_at(array[j / 8], j % 8) as usize;
    }
    sum
}

// What stands in memory `index` of a record that no number refuses; `from` trits stand before it.
fn summary_in(bytes: &[u8], s: Sizes, index: usize, from: usize) -> Summary
    requires { Starts bytes.now s index from }
    ensures { view_summary result ≡ summary_of (head_sizes bytes.now) (decode_image bytes.now) index }
{
    let depth = summary::depth_of(s, index);
    let size = depth * (s.unit as usize);
    Summary {
        index,
        depth,
        known: ones_in(record_codec::known_array(bytes), from, size),
        ones: ones_in(record_codec::value_array(bytes), from, size),
    }
}

// The lines of all memories of a record that no number refuses.
fn put_memories(text: &mut Text<'_>, bytes: &[u8], s: Sizes, count: usize)
    requires { Accepted bytes.now s × (count ≡ size_mems (view_sizes s)) × (text.old.at ≤ 37) }
    ensures { Added text.old (concat_map memory_line (summaries (head_sizes bytes.now) (decode_image bytes.now))) text.new × (text.new.at ≤ text.old.at + 50 * count) }
{
    let mut from: usize = 0;
    for i in 0..count {
        let y = summary_in(bytes, s, i, from);
        put_memory(text, y);
        from += y.depth * (s.unit as usize);
    }
}

// ---- the whole text

// Of a record that no number refuses.
fn put_listed(out: &mut [u8], bytes: &[u8]) -> usize
    requires { record_number bytes.now ≡ 0 }
    ensures { Put out.old 0 (listed bytes.now) out.new result × (result ≤ max_text) }
{
    let s = record_reader::head_sizes(bytes);
    let count = s.memories() as usize;
    let mut text = Text { out, at: 0 };
    put_head(
        &mut text,
        s,
        count,
        record_reader::head_trits(bytes) as usize,
    );
    put_memories(&mut text, bytes, s, count);
    text.at
}

// Stores the lister's output for a record on its standard input, as far as the room goes; its length.
fn put_record(out: &mut [u8], bytes: &[u8]) -> usize
    ensures { Put out.old 0 (lister bytes.now) out.new result × (result ≤ max_text) }
{
    match record_codec::record_number(bytes) {
        Ok(()) => put_listed(out, bytes),
        Err(refusal) => put_refused(out, refusal),
    }
}

// What refuses an input of which not all is stored.
#[tactic(auto, using(rules::proofs::Answers::else_err, lists::proofs::Choice::else_rest))]
fn stored_refusal(first: &[u8], total: usize) -> Refusal
    ensures { number result ≡ (header_refusal first.now total or_else 16) }
{
    let refused = record_codec::header_refusal(first, total).err();
    refused.unwrap_or(Refusal::BadHead)
}

// The same for an input of `total` bytes, of which the first are stored.
fn put_input(out: &mut [u8], first: &[u8], total: usize) -> usize
    ensures { Put out.old 0 (lister_stored first.now total) out.new result × (result ≤ max_text) }
{
    if first.len() == total {
        return put_record(out, first);
    }
    put_refused(out, stored_refusal(first, total))
}

// ---- in lent room

// The length of that output, by a run that keeps one byte of it.
fn input_size(first: &[u8], total: usize) -> usize
    ensures { result ≡ length (lister_stored first.now total) }
{
    let mut one = [0u8; 1];
    put_input(&mut one, first, total)
}

// Stores the lister's output for an input of `total` bytes, of which the first are given. 20 where the room is short: it is as it was then. The longest
// text needs no run for its length. The bytes of the text.
pub fn list_input(out: &mut [u8], first: &[u8], total: usize) -> Result<usize, Refusal>
    ensures { listed_as result out.new ≡ list_input_call out.old first.now total }
{
    if MAX_TEXT <= out.len() {
        return Ok(put_input(out, first, total));
    }
    if out.len() < input_size(first, total) {
        return Err(Refusal::NoRoom);
    }
    Ok(put_input(out, first, total))
}

// The same for a record that is given whole.
pub fn list_record(out: &mut [u8], bytes: &[u8]) -> Result<usize, Refusal>
    ensures { listed_as result out.new ≡ list_record_call out.old bytes.now }
{
    list_input(out, bytes, bytes.len())
}
