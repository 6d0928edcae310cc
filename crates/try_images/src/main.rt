// Lays out document 01's examples and some others, patches rows and reads them back. Every buffer starts as a pattern and is printed or compared
// whole, after refused calls too.
#![tactic(auto)]

use image_geometry::{Layout, Params};
use image_patches::Calls;
use image_state::Laid;
use rules::number_of;
use std::{fmt, io};

// The rest of a line: each element after a space.
fn list_of<T: fmt::Display>(rt: &impl Print, s: &[T]) -> io::Result<()> {
    for x in s {
        print!(rt; " {x}")?;
    }
    println!(rt)
}

// How many bytes of `a` from `from` on differ from those of `b`.
fn differing(a: &[u8], b: &[u8], from: usize) -> u64 {
    let mut count: u64 = 0;
    for (i, byte) in a.iter().enumerate() {
        if from <= i && b.get(i).copied() != Some(*byte) {
            count += 1;
        }
    }
    count
}

// The sizes of a layout.
fn sizes(rt: &impl Print, layout: Layout<'_>) -> io::Result<()> {
    match layout.measure() {
        Err(refusal) => print!(rt; "sizes refused {}", refusal.number())?,
        Ok(s) => {
            print!(rt; "sizes {} {} {}", s.full_mems, s.all_mems, s.full_depth)?;
            print!(rt;
                " {} {} {} {}",
                s.part_depth, s.columns, s.trits, s.image_size
            )?;
        }
    }
    println!(rt; " mux {}", layout.params.chunk_mux_bits())
}

// The tests of numbers 7, 8 and 10.
fn tests(rt: &impl Print, layout: Layout<'_>) -> io::Result<()> {
    let p = layout.params;
    let entries = number_of(image_check::check_entries(p.width, layout.entries));
    let mask = number_of(image_geometry::check_soft_mask(p.depth, p.soft_mask));
    println!(rt;
        "tests {entries} {mask} {}",
        number_of(layout.check_result())
    )
}

// The depths, into six words that hold 77.
fn depths(rt: &impl Print, layout: Layout<'_>) -> io::Result<()> {
    let mut out = [77u32; 6];
    print!(rt; "depths {} |", number_of(layout.depths(&mut out)))?;
    list_of(rt, &out)
}

// The place of an entry.
fn place(rt: &impl Print, layout: Layout<'_>, row: u32, entry: usize) -> io::Result<()> {
    print!(rt; "place {row} {entry}")?;
    match image_rows::place_of(layout, row, entry) {
        Err(refusal) => println!(rt; " refused {}", refusal.number()),
        Ok(q) => println!(rt; " at {} {} {} {}", q.memory, q.row, q.bit, q.index),
    }
}

// A row read back, into six bytes that hold 9.
fn read(rt: &impl Print, laid: &Laid, image: &[u8], row: u32) -> io::Result<()> {
    let mut room = [9u8; 6];
    print!(rt;
        "read {row} {} |",
        number_of(laid.read_row(&mut room, image, row))
    )?;
    list_of(rt, &room)
}

// The record's sizes.
fn record_sizes(rt: &impl Print, laid: &Laid) -> io::Result<()> {
    match laid.sizes() {
        Err(refusal) => println!(rt; "record refused {}", refusal.number()),
        Ok(z) => {
            print!(rt; "record {} {} {}", z.unit, z.full, z.full_depth)?;
            println!(rt; " {} {}", z.partial, z.partial_depth)
        }
    }
}

// Every row below n.
fn read_rows(rt: &impl Print, laid: &Laid, image: &[u8], n: u32) -> io::Result<()> {
    for row in 0..n {
        read(rt, laid, image, row)?;
    }
    Ok(())
}

// A row of an image of five trits.
fn read_short(rt: &impl Print, laid: &Laid, row: u32) -> io::Result<()> {
    read(rt, laid, &[1u8, 0, 2, 1, 0], row)
}

// A patch of a copy of the image: its number, how many bytes it changed, and how many of them past the image's trits.
fn patch(
    rt: &impl Print,
    image: &mut [u8; 40],
    laid: &Laid,
    size: usize,
    row: u32,
    with: &[u8],
) -> io::Result<()> {
    let before = *image;
    let n = number_of(laid.patch(image, row, with));
    let all = differing(&before, image, 0);
    let past = differing(&before, image, size);
    println!(rt; "patch {row} {n} changed {all} {past}")
}

// The places of a row's entries.
fn row_places(rt: &impl Print, layout: Layout<'_>, row: u32) -> io::Result<()> {
    for i in 0..layout.entries.len() {
        place(rt, layout, row, i)?;
    }
    Ok(())
}

fn places(rt: &impl Print, layout: Layout<'_>) -> io::Result<()> {
    for row in 0..layout.params.depth {
        row_places(rt, layout, row)?;
    }
    Ok(())
}

// Sizes, tests, depths and places of a layout.
fn show(rt: &impl Print, layout: Layout<'_>) -> io::Result<()> {
    sizes(rt, layout)?;
    tests(rt, layout)?;
    depths(rt, layout)?;
    places(rt, layout)
}

// The rows laid out in 40 bytes that hold 7.
fn lay(rt: &impl Print, laid: &Laid, rows: &[u8]) -> io::Result<[u8; 40]> {
    let mut image = [7u8; 40];
    print!(rt; "fill {} |", number_of(laid.fill(&mut image, rows)))?;
    list_of(rt, &image)?;
    Ok(image)
}

// The rows laid out in five bytes that hold 7, which are too few.
fn lay_short(rt: &impl Print, laid: &Laid, rows: &[u8]) -> io::Result<()> {
    let mut image = [7u8; 5];
    print!(rt; "fill {} |", number_of(laid.fill(&mut image, rows)))?;
    list_of(rt, &image)
}

// Codes past X in rows of two bits: 4, but 2 where the length is wrong, and 4 where the room is short too.
fn bad_codes(rt: &impl Print, laid: &Laid) -> io::Result<()> {
    lay(rt, laid, &[1u8, 0, 2, 1, 0, 3])?;
    lay(rt, laid, &[3u8, 0, 2, 1, 0, 0])?;
    lay(rt, laid, &[1u8, 0, 255, 1, 0, 0])?;
    lay(rt, laid, &[3u8, 0, 2, 1, 0])?;
    lay_short(rt, laid, &[1u8, 0, 2, 3, 0, 0])?;
    lay_short(rt, laid, &[1u8, 0, 2, 1, 0, 0])
}

fn layout<'a>(
    rt: &impl Print,
    depth: u32,
    width: u32,
    soft_mask: u32,
    hard: u32,
    unit: u32,
    entries: &'a [u32],
) -> io::Result<Layout<'a>> {
    println!(rt; "layout {depth} {width} {soft_mask} {hard} {unit}")?;
    let params = Params {
        depth,
        width,
        soft_mask,
        hard,
        unit,
    };
    Ok(Layout { params, entries })
}

// The first starred example, its record's rows, and patches of each kind.
fn two_wide(rt: &impl Print) -> io::Result<()> {
    let entries = [0u32, 1];
    let layout = layout(rt, 3, 2, 0, 1, 2, &entries)?;
    show(rt, layout)?;
    let laid = Laid::laid_out(layout);
    record_sizes(rt, &laid)?;
    bad_codes(rt, &laid)?;
    let mut image = lay(rt, &laid, &[1u8, 0, 2, 1, 0, 0])?;
    patch(rt, &mut image, &laid, 6, 1, &[0u8, 2])?;
    patch(rt, &mut image, &laid, 6, 3, &[1u8, 1])?;
    patch(rt, &mut image, &laid, 6, 0, &[1u8, 3])?;
    patch(rt, &mut image, &laid, 6, 0, &[1u8])?;
    list_of(rt, &image)?;
    read_rows(rt, &laid, &image, 4)?;
    read_short(rt, &laid, 0)
}

// The second.
fn three_wide(rt: &impl Print) -> io::Result<()> {
    let entries = [0u32, 1, 2];
    let layout = layout(rt, 3, 3, 0, 1, 2, &entries)?;
    show(rt, layout)?;
    let laid = Laid::laid_out(layout);
    record_sizes(rt, &laid)?;
    let mut image = lay(rt, &laid, &[0u8, 1, 2, 1, 2, 0, 2, 0, 1])?;
    patch(rt, &mut image, &laid, 10, 2, &[1u8, 1, 1])?;
    patch(rt, &mut image, &laid, 10, 2, &[2u8, 0, 2])?;
    list_of(rt, &image)?;
    read_rows(rt, &laid, &image, 3)
}

// A soft bit above a chunk bit that is not soft.
fn soft_above(rt: &impl Print) -> io::Result<()> {
    let entries = [0u32];
    let layout = layout(rt, 8, 1, 4, 1, 1, &entries)?;
    show(rt, layout)?;
    let laid = Laid::laid_out(layout);
    record_sizes(rt, &laid)?;
    let image = lay(rt, &laid, &[0u8, 1, 2, 0, 1, 1, 0, 2])?;
    read_rows(rt, &laid, &image, 8)
}

// Entries out of order, with None among them, a soft bit, and partial columns inside the last full memory.
fn mixed(rt: &impl Print) -> io::Result<()> {
    let entries = [2u32, rules::NO_BIT, 0, 1];
    let layout = layout(rt, 6, 3, 1, 1, 3, &entries)?;
    show(rt, layout)?;
    let laid = Laid::laid_out(layout);
    record_sizes(rt, &laid)?;
    let mut image = lay(
        rt,
        &laid,
        &[0u8, 1, 2, 1, 0, 2, 2, 2, 0, 1, 1, 0, 0, 0, 1, 2, 1, 1],
    )?;
    patch(rt, &mut image, &laid, 27, 5, &[0u8, 0, 0])?;
    patch(rt, &mut image, &laid, 27, 4, &[2u8, 2, 2])?;
    list_of(rt, &image)?;
    read_rows(rt, &laid, &image, 6)
}

// Calls on rows 0, 5, 6 (refused 15), 1 (4), 2 with too little room (20), 2, and 0 again.
fn seven_calls() -> [u32; 28] {
    [
        0u32, 0, 3, 40, 5, 3, 3, 40, 6, 0, 3, 40, 1, 0, 2, 40, 2, 6, 3, 26, 2, 6, 3, 27, 0, 9, 3,
        100,
    ]
}

// The calls, after the rows are laid out where there are some: the answer, the numbers and the image.
fn calls(
    rt: &impl Print,
    image: &mut [u8; 40],
    numbers: &mut [u32],
    laid: &Laid,
    rows: Option<&[u8]>,
) -> io::Result<()> {
    let list = Calls {
        words: &seven_calls(),
        trits: &[1u8, 1, 1, 0, 2, 0, 2, 1, 0, 0, 0, 0],
    };
    let layout = laid.layout();
    let (name, answer) = match rows {
        Some(rows) => (
            "list",
            image_patches::fill_then_patch(image, numbers, layout, rows, list),
        ),
        None => (
            "calls",
            image_patches::patch_each(image, numbers, layout, list),
        ),
    };
    print!(rt; "{name} {} |", number_of(answer))?;
    list_of(rt, numbers)?;
    list_of(rt, image)
}

// Lists of calls with room for nine numbers and, refused, for six; and by a state that no swizzle handed on.
fn lists_of_calls(rt: &impl Print) -> io::Result<()> {
    let entries = [2u32, rules::NO_BIT, 0, 1];
    let laid = Laid::laid_out(layout(rt, 6, 3, 1, 1, 3, &entries)?);
    let mut image = [7u8; 40];
    calls(rt, &mut image, &mut [77u32; 6], &laid, Some(&[2u8; 18]))?;
    calls(rt, &mut image, &mut [77u32; 6], &laid, None)?;
    calls(rt, &mut image, &mut [77u32; 9], &laid, Some(&[2u8; 18]))?;
    read_rows(rt, &laid, &image, 6)?;
    calls(rt, &mut image, &mut [77u32; 9], &laid, Some(&[2u8; 17]))?;
    calls(rt, &mut image, &mut [77u32; 6], &laid, Some(&[3u8; 18]))?;
    calls(rt, &mut [7u8; 40], &mut [77u32; 7], &laid, None)?;
    calls(
        rt,
        &mut image,
        &mut [77u32; 6],
        &Laid::unset(),
        Some(&[2u8; 18]),
    )?;
    calls(rt, &mut image, &mut [77u32; 9], &Laid::unset(), None)
}

// A state that no swizzle handed on.
fn unset(rt: &impl Print) -> io::Result<()> {
    let laid = Laid::unset();
    record_sizes(rt, &laid)?;
    let mut image = lay(rt, &laid, &[0u8])?;
    patch(rt, &mut image, &laid, 0, 0, &[0u8])?;
    read(rt, &laid, &image, 0)
}

// The longest row, and a state that says one entry more.
fn long_row(rt: &impl Print) -> io::Result<()> {
    let entries = [rules::NO_BIT; rules::MAX_ROW];
    let mut laid = Laid::laid_out(layout(rt, 2, 0, 0, 1, 1, &entries)?);
    let mut image = lay(rt, &laid, &[])?;
    patch(rt, &mut image, &laid, 0, 1, &[])?;
    read(rt, &laid, &image, 1)?;
    record_sizes(rt, &laid)?;
    laid.len = 257;
    record_sizes(rt, &laid)?;
    let mut image = lay(rt, &laid, &[])?;
    patch(rt, &mut image, &laid, 0, 1, &[])?;
    read(rt, &laid, &image, 1)
}

// Numbers 7, 8 and 10, each with its neighbour that passes.
fn numbers(rt: &impl Print) -> io::Result<()> {
    tests(rt, layout(rt, 2, 2, 0, 1, 2, &[1u32, 0])?)?;
    tests(rt, layout(rt, 2, 2, 0, 1, 2, &[0u32, 0])?)?;
    tests(rt, layout(rt, 2, 2, 0, 1, 2, &[0u32])?)?;
    tests(rt, layout(rt, 2, 2, 0, 1, 2, &[0u32, 1, 2])?)?;
    tests(rt, layout(rt, 2, 0, 0, 1, 2, &[rules::NO_BIT])?)?;
    tests(rt, layout(rt, 6, 1, 1, 2, 1, &[0u32])?)?;
    tests(rt, layout(rt, 5, 1, 1, 2, 1, &[0u32])?)?;
    tests(
        rt,
        layout(
            rt,
            32768,
            1,
            0,
            15,
            1,
            &[0u32, rules::NO_BIT, rules::NO_BIT, rules::NO_BIT],
        )?,
    )?;
    tests(
        rt,
        layout(
            rt,
            32768,
            1,
            0,
            15,
            1,
            &[
                0u32,
                rules::NO_BIT,
                rules::NO_BIT,
                rules::NO_BIT,
                rules::NO_BIT,
            ],
        )?,
    )?;
    tests(rt, layout(rt, 32769, 1, 0, 15, 1, &[0u32])?)
}

// Chunks 1, 2 and 5, depths with a soft bit, and a memory of width 0.
fn others(rt: &impl Print) -> io::Result<()> {
    sizes(rt, layout(rt, 1, 1, 0, 0, 1, &[0u32])?)?;
    sizes(rt, layout(rt, 2, 1, 0, 0, 1, &[0u32])?)?;
    sizes(rt, layout(rt, 5, 1, 0, 0, 1, &[0u32])?)?;
    show(rt, layout(rt, 4, 1, 2, 1, 1, &[0u32])?)?;
    show(rt, layout(rt, 6, 1, 1, 2, 1, &[0u32])?)?;
    let laid = Laid::laid_out(layout(rt, 2, 0, 0, 1, 1, &[])?);
    record_sizes(rt, &laid)?;
    let mut image = lay(rt, &laid, &[])?;
    patch(rt, &mut image, &laid, 0, 1, &[])?;
    patch(rt, &mut image, &laid, 0, 2, &[])?;
    read(rt, &laid, &image, 1)
}

fn main(rt: HostRuntime) -> io::Result<()> {
    two_wide(&rt)?;
    three_wide(&rt)?;
    soft_above(&rt)?;
    mixed(&rt)?;
    lists_of_calls(&rt)?;
    unset(&rt)?;
    long_row(&rt)?;
    numbers(&rt)?;
    others(&rt)
}
