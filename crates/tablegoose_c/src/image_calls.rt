// The exported functions of c_image. Made by scripts/exports.py.
ghost use Rattle.std.specs.Prelude.{◌≡◌, length};
ghost use Rattle.std.proofs.Math.Option.{none};
ghost use Rattle.rules.specs.Patch.{Demanded};
ghost use Rattle.rules.specs.Answers.{patch_call, patches_call, sizes_call, filled_with};
ghost use Rattle.rules.specs.Beside.Shape.{handed_on, shape_call, place_call};
ghost use Rattle.rules.specs.Beside.Layouts.{fill_call, fill_and_patch_call, read_row_call};
ghost use Rattle.image_geometry.specs.View.{layout_by};
ghost use Rattle.image_state.specs.View.{laid_of, unset_laid, laid_by};
ghost use Rattle.image_patches.specs.Calls.{calls_of, patched_to};
ghost use Rattle.c_record.specs.View.{head_struct};
ghost use Rattle.c_image.specs.View.{measured_struct, placed_struct};

use c_image::{MeasuredResult, PlacedResult};
use c_record::Head;
use image_geometry::Params;
use image_state::Laid;

#[unsafe(no_mangle)]
pub extern "C" fn tablegoose_measure(p: Params, entries: &[u32]) -> MeasuredResult
    ensures { result ≡ measured_struct (shape_call (layout_by p entries.now)) }
{
    c_image::tablegoose_measure(p, entries)
}

#[unsafe(no_mangle)]
pub extern "C" fn tablegoose_place_of(
    p: Params,
    entries: &[u32],
    row: u32,
    entry: usize,
) -> PlacedResult
    ensures { result ≡ placed_struct (place_call (layout_by p entries.now) row entry) }
{
    c_image::tablegoose_place_of(p, entries, row, entry)
}

#[unsafe(no_mangle)]
pub extern "C" fn tablegoose_fill_rows(
    image: &mut [u8],
    p: Params,
    entries: &[u32],
    rows: &[u8],
) -> u32
    ensures { filled_with result image.new ≡ fill_call (handed_on (layout_by p entries.now)) rows.now image.old }
{
    c_image::tablegoose_fill_rows(image, p, entries, rows)
}

#[unsafe(no_mangle)]
pub extern "C" fn tablegoose_patch_row(
    image: &mut [u8],
    p: Params,
    entries: &[u32],
    row: u32,
    trits: &[u8],
) -> u32
    ensures { filled_with result image.new ≡ patch_call (handed_on (layout_by p entries.now)) (record { row = row; trits = trits.now; room = length image.old }) image.old }
{
    c_image::tablegoose_patch_row(image, p, entries, row, trits)
}

#[unsafe(no_mangle)]
pub extern "C" fn tablegoose_read_row(
    room: &mut [u8],
    p: Params,
    entries: &[u32],
    image: &[u8],
    row: u32,
) -> u32
    ensures { filled_with result room.new ≡ read_row_call (handed_on (layout_by p entries.now)) room.old image.now row }
{
    c_image::tablegoose_read_row(room, p, entries, image, row)
}

#[unsafe(no_mangle)]
pub extern "C" fn tablegoose_patch_each(
    buffer: &mut [u8],
    numbers: &mut [u32],
    p: Params,
    entries: &[u32],
    calls: &[u32],
    trits: &[u8],
) -> u32
    ensures { patched_to result numbers.new buffer.new ≡ patches_call numbers.old (handed_on (layout_by p entries.now)) (calls_of calls.now trits.now) buffer.old }
{
    c_image::tablegoose_patch_each(buffer, numbers, p, entries, calls, trits)
}

#[unsafe(no_mangle)]
pub extern "C" fn tablegoose_fill_then_patch(
    buffer: &mut [u8],
    numbers: &mut [u32],
    p: Params,
    entries: &[u32],
    rows: &[u8],
    calls: &[u32],
    trits: &[u8],
) -> u32
    ensures buffer_after { patched_to result numbers.new buffer.new ≡ fill_and_patch_call numbers.old (handed_on (layout_by p entries.now)) rows.now (calls_of calls.now trits.now) buffer.old }
    ensures demanded { result ≡ 0 → Demanded (handed_on (layout_by p entries.now)) rows.now buffer.old (calls_of calls.now trits.now) buffer.new }
{
    c_image::tablegoose_fill_then_patch(buffer, numbers, p, entries, rows, calls, trits)
}

#[unsafe(no_mangle)]
pub extern "C" fn tablegoose_unset() -> Laid
    ensures { (result ≡ unset_laid) × (laid_of result ≡ none) }
{
    c_image::tablegoose_unset()
}

#[unsafe(no_mangle)]
pub extern "C" fn tablegoose_laid_out(p: Params, entries: &[u32]) -> Laid
    ensures { (result ≡ laid_by p entries.now) × (laid_of result ≡ handed_on (layout_by p entries.now)) }
{
    c_image::tablegoose_laid_out(p, entries)
}

#[unsafe(no_mangle)]
pub extern "C" fn tablegoose_fill(image: &mut [u8], laid: Laid, rows: &[u8]) -> u32
    ensures { filled_with result image.new ≡ fill_call (laid_of laid) rows.now image.old }
{
    c_image::tablegoose_fill(image, laid, rows)
}

#[unsafe(no_mangle)]
pub extern "C" fn tablegoose_patch(image: &mut [u8], laid: Laid, row: u32, trits: &[u8]) -> u32
    ensures { filled_with result image.new ≡ patch_call (laid_of laid) (record { row = row; trits = trits.now; room = length image.old }) image.old }
{
    c_image::tablegoose_patch(image, laid, row, trits)
}

#[unsafe(no_mangle)]
pub extern "C" fn tablegoose_read_laid_row(
    room: &mut [u8],
    laid: Laid,
    image: &[u8],
    row: u32,
) -> u32
    ensures { filled_with result room.new ≡ read_row_call (laid_of laid) room.old image.now row }
{
    c_image::tablegoose_read_laid_row(room, laid, image, row)
}

#[unsafe(no_mangle)]
pub extern "C" fn tablegoose_patch_all(
    buffer: &mut [u8],
    numbers: &mut [u32],
    laid: Laid,
    calls: &[u32],
    trits: &[u8],
) -> u32
    ensures { patched_to result numbers.new buffer.new ≡ patches_call numbers.old (laid_of laid) (calls_of calls.now trits.now) buffer.old }
{
    c_image::tablegoose_patch_all(buffer, numbers, laid, calls, trits)
}

#[unsafe(no_mangle)]
pub extern "C" fn tablegoose_fill_and_patch(
    buffer: &mut [u8],
    numbers: &mut [u32],
    laid: Laid,
    rows: &[u8],
    calls: &[u32],
    trits: &[u8],
) -> u32
    ensures buffer_after { patched_to result numbers.new buffer.new ≡ fill_and_patch_call numbers.old (laid_of laid) rows.now (calls_of calls.now trits.now) buffer.old }
    ensures demanded { result ≡ 0 → Demanded (laid_of laid) rows.now buffer.old (calls_of calls.now trits.now) buffer.new }
{
    c_image::tablegoose_fill_and_patch(buffer, numbers, laid, rows, calls, trits)
}

#[unsafe(no_mangle)]
pub extern "C" fn tablegoose_sizes_of(laid: Laid) -> Head
    ensures { result ≡ head_struct (sizes_call (laid_of laid)) }
{
    c_image::tablegoose_sizes_of(laid)
}
