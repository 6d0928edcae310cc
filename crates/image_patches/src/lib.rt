// Lists of patch calls on one image buffer, refused ones among them, with each call's number, and demand 3 of a layout and the calls after it.
#![tactic(auto)]

ghost use Rattle.std.specs.Prelude.{◌≡◌, ◌+◌, ◌*◌, ◌/◌, ◌<◌, length};
ghost use Rattle.std.proofs.lemmas.List.Edits.{sets};
ghost use Rattle.rules.specs.Beside.Shape.{handed_on};
ghost use Rattle.rules.specs.Patch.{patched, Demanded};
ghost use Rattle.rules.specs.Refusal.{number_of};
ghost use Rattle.rules.specs.Refusals.{lent_refusal};
ghost use Rattle.rules.specs.Beside.Layouts.{fill_and_patch_call};
ghost use Rattle.rules.specs.Answers.{filled_with, call_on, patch_numbers, patches_call};
ghost use Rattle.image_geometry.specs.View.{layout_of};
ghost use Rattle.image_patches.specs.Calls.{call_at, list_of, patched_to};

use image_geometry::Layout;
use rules::Refusal;

// A list of calls: four numbers for each, its row, where its trits start, how many they are, and how many trits of the buffer it is lent; and the
// trits of all.
#[derive(Clone, Copy)]
pub struct Calls<'a> {
    // four numbers a call, as C hands the list
    pub words: &'a [u32],
    pub trits: &'a [u8],
}

// The numbers of a call.
const WORDS: usize = 4;

// One call, which is lent the first `room` trits of the buffer, or all.
pub fn call_one(
    buffer: &mut [u8],
    layout: Layout<'_>,
    row: u32,
    trits: &[u8],
    room: usize,
) -> Result<(), Refusal>
    ensures { filled_with (number_of result) buffer.new ≡ call_on (handed_on (layout_of layout.entry)) (record { row = row; trits = trits.now; room = room }) buffer.old }
{
    if buffer.len() <= room {
        return image_rows::patch_row(buffer, layout, row, trits);
    }
    image_rows::patch_row(&mut buffer[..room], layout, row, trits)
}

// Call number `i` of a list.
fn call_at(buffer: &mut [u8], layout: Layout<'_>, calls: Calls<'_>, i: usize) -> Result<(), Refusal>
    requires { 4 * i + 3 < length calls.words.now }
    ensures { filled_with (number_of result) buffer.new ≡ call_on (handed_on (layout_of layout.entry)) (call_at calls.entry.words.now calls.entry.trits.now i) buffer.old }
{
    let at = WORDS * i;
    let start = calls.words[at + 1] as usize;
    let count = calls.words[at + 2] as usize;
    let room = calls.words[at + 3] as usize;
    let trits = lists::part(calls.trits, start, count);
    call_one(buffer, layout, calls.words[at], trits, room)
}

// The calls of a list, in order, on an image with this layout; the number of each goes into `numbers`. (Buffer and numbers are lent apart, here and
// in the two below: a call without a list has no numbers.)
fn call_each(buffer: &mut [u8], numbers: &mut [u32], layout: Layout<'_>, calls: Calls<'_>)
    ensures numbers_after { numbers.new ≡ sets numbers.old 0 (patch_numbers (handed_on (layout_of layout.entry)) (length buffer.old) (list_of calls.entry)) }
    ensures buffer_after { buffer.new ≡ patched (handed_on (layout_of layout.entry)) (list_of calls.entry) buffer.old }
{
    // by number: what a call does is said by its number in the list, which is also the place of its answer
    for i in 0..calls.words.len() / WORDS {
        let number = rules::number_of(call_at(buffer, layout, calls, i));
        lists::put(numbers, i, number);
    }
}

// Whether the room for the numbers of the calls in so many words is long enough.
#[tactic(auto, unfolding(rules::specs::Conditions::no_room_of))]
fn check_numbers(room: usize, words: usize) -> Result<(), Refusal>
    ensures { number_of result ≡ lent_refusal room (words / 4) }
{
    if room < words / WORDS {
        return Err(Refusal::NoRoom);
    }
    Ok(())
}

// The calls of a list, in order, on an image with this layout: a number for each into `numbers`, or 20, with no call made, where its room is
// short.
pub fn patch_each(
    buffer: &mut [u8],
    numbers: &mut [u32],
    layout: Layout<'_>,
    calls: Calls<'_>,
) -> Result<(), Refusal>
    ensures { patched_to (number_of result) numbers.new buffer.new ≡ patches_call numbers.old (handed_on (layout_of layout.entry)) (list_of calls.entry) buffer.old }
{
    check_numbers(numbers.len(), calls.words.len())?;
    call_each(buffer, numbers, layout, calls);
    Ok(())
}

// Lays the rows out in an image with this layout and makes the calls: demand 3. Nothing is stored where a number refuses the rows or the room
// for the calls' numbers.
pub fn fill_then_patch(
    buffer: &mut [u8],
    numbers: &mut [u32],
    layout: Layout<'_>,
    rows: &[u8],
    calls: Calls<'_>,
) -> Result<(), Refusal>
    ensures buffer_after { patched_to (number_of result) numbers.new buffer.new ≡ fill_and_patch_call numbers.old (handed_on (layout_of layout.entry)) rows.now (list_of calls.entry) buffer.old }
    ensures demanded { number_of result ≡ 0 → Demanded (handed_on (layout_of layout.entry)) rows.now buffer.old (list_of calls.entry) buffer.new }
{
    if let Err(short) = check_numbers(numbers.len(), calls.words.len()) {
        image_rows::check_rows(buffer.len(), layout, rows)?;
        return Err(short);
    }
    image_rows::fill_rows(buffer, layout, rows)?;
    call_each(buffer, numbers, layout, calls);
    Ok(())
}
