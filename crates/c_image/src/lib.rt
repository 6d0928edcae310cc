// Layouts, images, patches and places for callers in C and Rust: by a layout's numbers and entries, and by the state that a swizzle hands on.
#![tactic(auto)]

ghost use Rattle.std.specs.Prelude.{◌≡◌, length};
ghost use Rattle.std.proofs.Math.Option.{none};
ghost use Rattle.rules.specs.Patch.{Demanded};
ghost use Rattle.rules.specs.Answers.{patch_call, patches_call, sizes_call, filled_with};
ghost use Rattle.rules.specs.Beside.Shape.{handed_on, shape_call, place_call};
ghost use Rattle.rules.specs.Beside.Layouts.{fill_call, fill_and_patch_call, read_row_call};
ghost use Rattle.image_geometry.specs.View.{layout_by, measured_of};
ghost use Rattle.image_rows.specs.View.{placed_of};
ghost use Rattle.image_state.specs.View.{laid_of, unset_laid, laid_by};
ghost use Rattle.image_patches.specs.Calls.{calls_of, patched_to};
ghost use Rattle.c_record.specs.View.{head_struct};
ghost use Rattle.c_image.specs.View.{measured_struct, placed_struct};

use c_record::Head;
use image_geometry::{Layout, Params, Shape};
use image_patches::Calls;
use image_rows::Place;
use image_state::Laid;
use rules::{Refusal, number_of};

// A refusal's number, or 0 and the shape of a layout.
#[repr(C)]
#[derive(Clone, Copy)]
pub struct MeasuredResult {
    pub number: u32,
    pub shape: Shape,
}

// A refusal's number, or 0 and the place of an entry.
#[repr(C)]
#[derive(Clone, Copy)]
pub struct PlacedResult {
    pub number: u32,
    pub place: Place,
}

fn measured_result(answer: Result<Shape, Refusal>) -> MeasuredResult
    ensures { result ≡ measured_struct (measured_of answer) }
{
    let (number, shape) = c_net::parts(answer, Shape::default());
    MeasuredResult { number, shape }
}

fn placed_result(answer: Result<Place, Refusal>) -> PlacedResult
    ensures { result ≡ placed_struct (placed_of answer) }
{
    let (number, place) = c_net::parts(answer, Place::default());
    PlacedResult { number, place }
}

// ---- by a layout's numbers and entries

// The shape of a layout: how many memories, their depths, columns and trits.
pub fn tablegoose_measure(p: Params, entries: &[u32]) -> MeasuredResult
    ensures { result ≡ measured_struct (shape_call (layout_by p entries.now)) }
{
    measured_result(Layout { params: p, entries }.measure())
}

// Where an entry of a row goes.
pub fn tablegoose_place_of(p: Params, entries: &[u32], row: u32, entry: usize) -> PlacedResult
    ensures { result ≡ placed_struct (place_call (layout_by p entries.now) row entry) }
{
    placed_result(image_rows::place_of(Layout { params: p, entries }, row, entry))
}

// Lays rows out in an image.
pub fn tablegoose_fill_rows(image: &mut [u8], p: Params, entries: &[u32], rows: &[u8]) -> u32
    ensures { filled_with result image.new ≡ fill_call (handed_on (layout_by p entries.now)) rows.now image.old }
{
    number_of(image_rows::fill_rows(image, Layout { params: p, entries }, rows))
}

// Exchanges one row of an image.
pub fn tablegoose_patch_row(
    image: &mut [u8],
    p: Params,
    entries: &[u32],
    row: u32,
    trits: &[u8],
) -> u32
    ensures { filled_with result image.new ≡ patch_call (handed_on (layout_by p entries.now)) (record { row = row; trits = trits.now; room = length image.old }) image.old }
{
    number_of(image_rows::patch_row(image, Layout { params: p, entries }, row, trits))
}

// Reads one row of an image back.
pub fn tablegoose_read_row(
    room: &mut [u8],
    p: Params,
    entries: &[u32],
    image: &[u8],
    row: u32,
) -> u32
    ensures { filled_with result room.new ≡ read_row_call (handed_on (layout_by p entries.now)) room.old image.now row }
{
    number_of(image_rows::read_row(room, Layout { params: p, entries }, image, row))
}

// The calls of a list, in order, each with its number.
pub fn tablegoose_patch_each(
    buffer: &mut [u8],
    numbers: &mut [u32],
    p: Params,
    entries: &[u32],
    calls: &[u32],
    trits: &[u8],
) -> u32
    ensures { patched_to result numbers.new buffer.new ≡ patches_call numbers.old (handed_on (layout_by p entries.now)) (calls_of calls.now trits.now) buffer.old }
{
    let list = Calls {
        words: calls,
        trits,
    };
    number_of(image_patches::patch_each(buffer, numbers, Layout { params: p, entries }, list))
}

// Lays rows out and makes the calls of a list: demand 3.
pub fn tablegoose_fill_then_patch(
    buffer: &mut [u8],
    numbers: &mut [u32],
    p: Params,
    entries: &[u32],
    rows: &[u8],
    calls: &[u32],
    trits: &[u8],
) -> u32
    ensures buffer_after { patched_to result numbers.new buffer.new ≡ fill_and_patch_call numbers.old (handed_on (layout_by p entries.now)) rows.now (calls_of calls.now trits.now) buffer.old }
    ensures demanded { result ≡ 0 → Demanded (handed_on (layout_by p entries.now)) rows.now buffer.old (calls_of calls.now trits.now) buffer.new }
{
    let list = Calls {
        words: calls,
        trits,
    };
    number_of(image_patches::fill_then_patch(
        buffer,
        numbers,
        Layout { params: p, entries },
        rows,
        list,
    ))
}

// ---- by the state that a swizzle hands on

// The state before any swizzle is accepted.
pub fn tablegoose_unset() -> Laid
    ensures { (result ≡ unset_laid) × (laid_of result ≡ none) }
{
    Laid::unset()
}

// The state of a layout.
pub fn tablegoose_laid_out(p: Params, entries: &[u32]) -> Laid
    ensures { (result ≡ laid_by p entries.now) × (laid_of result ≡ handed_on (layout_by p entries.now)) }
{
    Laid::laid_out(Layout { params: p, entries })
}

// Lays rows out in the image of a swizzle.
pub fn tablegoose_fill(image: &mut [u8], laid: Laid, rows: &[u8]) -> u32
    ensures { filled_with result image.new ≡ fill_call (laid_of laid) rows.now image.old }
{
    number_of(laid.fill(image, rows))
}

// Exchanges one row of the last accepted swizzle.
pub fn tablegoose_patch(image: &mut [u8], laid: Laid, row: u32, trits: &[u8]) -> u32
    ensures { filled_with result image.new ≡ patch_call (laid_of laid) (record { row = row; trits = trits.now; room = length image.old }) image.old }
{
    number_of(laid.patch(image, row, trits))
}

// Reads one row of the last accepted swizzle's image back.
pub fn tablegoose_read_laid_row(room: &mut [u8], laid: Laid, image: &[u8], row: u32) -> u32
    ensures { filled_with result room.new ≡ read_row_call (laid_of laid) room.old image.now row }
{
    number_of(laid.read_row(room, image, row))
}

// The calls of a list on the image of the last accepted swizzle, each with its number.
pub fn tablegoose_patch_all(
    buffer: &mut [u8],
    numbers: &mut [u32],
    laid: Laid,
    calls: &[u32],
    trits: &[u8],
) -> u32
    ensures { patched_to result numbers.new buffer.new ≡ patches_call numbers.old (laid_of laid) (calls_of calls.now trits.now) buffer.old }
{
    let list = Calls {
        words: calls,
        trits,
    };
    number_of(image_patches::patch_each(buffer, numbers, laid.layout(), list))
}

// Lays rows out in the image of a swizzle and makes the calls of a list: demand 3.
pub fn tablegoose_fill_and_patch(
    buffer: &mut [u8],
    numbers: &mut [u32],
    laid: Laid,
    rows: &[u8],
    calls: &[u32],
    trits: &[u8],
) -> u32
    ensures buffer_after { patched_to result numbers.new buffer.new ≡ fill_and_patch_call numbers.old (laid_of laid) rows.now (calls_of calls.now trits.now) buffer.old }
    ensures demanded { result ≡ 0 → Demanded (laid_of laid) rows.now buffer.old (calls_of calls.now trits.now) buffer.new }
{
    let list = Calls {
        words: calls,
        trits,
    };
    number_of(image_patches::fill_then_patch(buffer, numbers, laid.layout(), rows, list))
}

// The record's sizes for the images of the last accepted swizzle.
pub fn tablegoose_sizes_of(laid: Laid) -> Head
    ensures { result ≡ head_struct (sizes_call (laid_of laid)) }
{
    c_record::head_result(laid.sizes())
}
