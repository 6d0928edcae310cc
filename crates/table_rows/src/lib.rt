// The rows of an image, one after the other into lent room.
#![tactic(auto)]

ghost use Rattle.std.specs.Prelude.{◌≡◌, false, ◌≤◌, ◌<◌, length};
ghost use Rattle.std.proofs.lemmas.List.Edits.{sets};
ghost use Rattle.rules.specs.Conditions.{bad_layout};
ghost use Rattle.rules.specs.Image.{image_size};
ghost use Rattle.rules.specs.Beside.Shape.{handed_on};
ghost use Rattle.rules.specs.Beside.Layouts.{read_row};
ghost use Rattle.rules.specs.Refusal.{number_of};
ghost use Rattle.rules.specs.Answers.{filled_with};
ghost use Rattle.image_geometry.specs.View.{layout_of};
ghost use Rattle.table_rows.specs.Rows.{image_rows, read_rows_refusal_by, read_rows_call};

use image_geometry::{Layout, Params};
use rules::Refusal;

// Stores one row at a place.
fn put_row(room: &mut [u8], at: usize, layout: Layout<'_>, image: &[u8], row: u32)
    requires { (bad_layout (layout_of layout) ≡ false) × (image_size (layout_of layout) ≤ length image.now) × (row < layout.params.depth) }
    ensures { room.new ≡ sets room.old at (read_row (layout_of layout.entry) image.now row) }
{
    let mut bits = [0u8; rules::MAX_WIDTH as usize];
    let _ = image_rows::read_row(&mut bits, layout, image, row);
    lists::copy(
        room,
        at,
        lists::part(&bits, 0, layout.params.width as usize),
    );
}

// Stores all rows.
fn put_all(room: &mut [u8], layout: Layout<'_>, image: &[u8])
    requires { (bad_layout (layout_of layout) ≡ false) × (image_size (layout_of layout) ≤ length image.now) }
    ensures { room.new ≡ sets room.old 0 (image_rows (layout_of layout.entry) image.now) }
{
    let width = layout.params.width as usize;
    // by number: rows of width 0 have no chunks
    let mut at: usize = 0;
    for row in 0..layout.params.depth {
        put_row(room, at, layout, image, row);
        at += width;
    }
}

// Number 20, where the image has `size` trits. (It tests the sizes that its own call has, as the checks of image_rows do.)
#[tactic(auto, unfolding(crate::specs::Rows::read_rows_refusal_by, rules::specs::Conditions::no_room_of))]
fn check_room(room: usize, p: Params, size: u64, len: usize) -> Result<(), Refusal>
    ensures { number_of result ≡ read_rows_refusal_by p.depth p.width size room len }
{
    if (len as u64) < size || (room as u64) < u64::from(p.depth) * u64::from(p.width) {
        return Err(Refusal::NoRoom);
    }
    Ok(())
}

// The rows that an image with this layout holds, into `room`.
pub fn read_rows(room: &mut [u8], layout: Layout<'_>, image: &[u8]) -> Result<(), Refusal>
    ensures { filled_with (number_of result) room.new ≡ read_rows_call (handed_on (layout_of layout.entry)) room.old image.now }
{
    let s = image_check::check_layout(layout)?;
    check_room(room.len(), layout.params, s.image_size, image.len())?;
    put_all(room, layout, image);
    Ok(())
}
