// Runs the calls on records over cases and prints each answer. Every lent array is painted before and compared after, also past the part that is used, and so
// is what the calls are given to read.
#![tactic(auto)]

use record_listing::summary::Summary;
use record_reader::FirstTrits;
use record_sizes::Sizes;
use rules::Refusal;
use std::io;
use try_kit::paint::{fill_trits, paint, painted};
use try_kit::sums::sum_of;

// ---- answers

// (As in try_listing, with `given`: a public function that prints would need a contract over the stream, longer than both.)
fn say_if(rt: &impl Print, test: bool, yes: &str, no: &str) -> io::Result<()> {
    if test { rt.print(yes) } else { rt.print(no) }
}

// What a call was given to read is as it was.
fn given(rt: &impl Print, before: u64, input: &[u8]) -> io::Result<()> {
    if sum_of(input) != before {
        rt.print("INPUT CHANGED\n")?;
    }
    Ok(())
}

fn refused(rt: &impl Print, refusal: Refusal, kept: bool) -> io::Result<()> {
    print!(rt; " refused {}", refusal.number())?;
    say_if(rt, kept, " kept\n", " CHANGED\n")
}

fn done(rt: &impl Print, n: usize, same: bool, kept: bool) -> io::Result<()> {
    print!(rt; " gives {n}")?;
    say_if(rt, same, " same", " DIFFERENT")?;
    say_if(rt, kept, " kept\n", " CHANGED\n")
}

// ---- the calls

fn write(
    rt: &impl Print,
    out: &mut [u8],
    name: &str,
    s: Sizes,
    image: &[u8],
    want: &[u8],
) -> io::Result<()> {
    let before = sum_of(image);
    rt.print(name)?;
    paint(out);
    match record_codec::write_record(out, s, image) {
        Err(refusal) => refused(rt, refusal, painted(out, 0))?,
        Ok(n) => done(rt, n, out.starts_with(want), painted(out, n))?,
    }
    given(rt, before, image)
}

fn read(
    rt: &impl Print,
    image: &mut [u8],
    name: &str,
    bytes: &[u8],
    s: Sizes,
    want: &[u8],
) -> io::Result<()> {
    let before = sum_of(bytes);
    rt.print(name)?;
    paint(image);
    match record_codec::read_record(image, bytes) {
        Err(refusal) => refused(rt, refusal, painted(image, 0))?,
        Ok(z) => read_done(rt, z == s, image, want)?,
    }
    given(rt, before, bytes)
}

fn read_done(rt: &impl Print, same: bool, image: &[u8], want: &[u8]) -> io::Result<()> {
    if same {
        done(
            rt,
            want.len(),
            image.starts_with(want),
            painted(image, want.len()),
        )
    } else {
        println!(rt; " OTHER SIZES")
    }
}

fn head(rt: &impl Print, name: &str, first: &[u8], total: usize, s: Sizes) -> io::Result<()> {
    let before = sum_of(first);
    rt.print(name)?;
    match record_codec::record_header(first, total) {
        Err(refusal) => refused(rt, refusal, true)?,
        Ok(z) => done(rt, total, z == s, true)?,
    }
    given(rt, before, first)
}

fn summarize(rt: &impl Print, name: &str, s: Sizes, image: &[u8], index: usize) -> io::Result<()> {
    let before = sum_of(image);
    rt.print(name)?;
    match record_listing::summary::memory_summary(s, image, index) {
        Err(refusal) => refused(rt, refusal, true)?,
        Ok(y) => show(rt, y)?,
    }
    given(rt, before, image)
}

fn show(rt: &impl Print, y: Summary) -> io::Result<()> {
    println!(rt; " {} {} {} {}", y.index, y.depth, y.known, y.ones)
}

fn show_trit(rt: &impl Print, trit: Option<u8>) -> io::Result<()> {
    match trit {
        Some(code) => print!(rt; " {code}"),
        None => print!(rt; " end"),
    }
}

fn take_two(rt: &impl Print, name: &str, bytes: &[u8]) -> io::Result<()> {
    let before = sum_of(bytes);
    rt.print(name)?;
    let taken = FirstTrits::of(bytes);
    show_trit(rt, taken.first)?;
    show_trit(rt, taken.second)?;
    println!(rt)?;
    given(rt, before, bytes)
}

// ---- small cases: document 01's record, and records that break one rule

const FIRST: Sizes = Sizes {
    unit: 2,
    full: 1,
    full_depth: 2,
    partial: 1,
    partial_depth: 1,
};

// A full depth that is no power of two.
const BAD: Sizes = Sizes {
    unit: 2,
    full: 1,
    full_depth: 3,
    partial: 1,
    partial_depth: 1,
};

const NONE: Sizes = Sizes {
    unit: 1,
    full: 0,
    full_depth: 0,
    partial: 0,
    partial_depth: 0,
};

const HUGE: Sizes = Sizes {
    unit: 4294967295,
    full: 4294967295,
    full_depth: 4294967295,
    partial: 4294967295,
    partial_depth: 4294967295,
};

fn write_cases(rt: &impl Print, out: &mut [u8]) -> io::Result<()> {
    let image = b"\x01\x00\x02\x01\x00\x00\x01\x00\x07";
    let record = b"\x05\x00\x02\x00\x01\x00\x02\x00\x01\x00\x01\x00\x3B\x09";
    write(rt, out, "write the first", FIRST, image, record)?;
    write(rt, out, "write sizes", BAD, image, record)
}

fn write_bad(rt: &impl Print, out: &mut [u8]) -> io::Result<()> {
    let bad = b"\x01\x00\x02\x01\x03\x00\x01\x00";
    write(rt, out, "write a bad trit", FIRST, bad, bad)?;
    write(rt, out, "write a bad trit, sizes", BAD, bad, bad)
}

fn write_more(rt: &impl Print, out: &mut [u8]) -> io::Result<()> {
    let image = b"\x01\x00\x02\x01\x00";
    write(rt, out, "write huge sizes", HUGE, image, image)?;
    write(rt, out, "write a short image", FIRST, image, image)
}

fn write_none(rt: &impl Print, out: &mut [u8]) -> io::Result<()> {
    write(
        rt,
        out,
        "write no memories",
        NONE,
        b"\x09",
        b"\x05\x00\x01\x00\x00\x00\x00\x00\x00\x00\x00\x00",
    )
}

fn write_short(rt: &impl Print, out: &mut [u8]) -> io::Result<()> {
    let image = b"\x01\x00\x02\x01\x00\x00";
    write(rt, out, "write a short room", FIRST, image, image)
}

fn read_first(rt: &impl Print, image: &mut [u8], name: &str, bytes: &[u8]) -> io::Result<()> {
    read(rt, image, name, bytes, FIRST, b"\x01\x00\x02\x01\x00\x00")
}

fn read_cases(rt: &impl Print, image: &mut [u8]) -> io::Result<()> {
    read_first(
        rt,
        image,
        "read the first",
        b"\x05\x00\x02\x00\x01\x00\x02\x00\x01\x00\x01\x00\x3B\x09",
    )?;
    read_first(rt, image, "read nothing", b"")
}

fn read_lengths(rt: &impl Print, image: &mut [u8]) -> io::Result<()> {
    read_first(
        rt,
        image,
        "read a short one",
        b"\x05\x00\x02\x00\x01\x00\x02\x00\x01\x00\x01\x00\x3B",
    )?;
    read_first(
        rt,
        image,
        "read a long one",
        b"\x05\x00\x02\x00\x01\x00\x02\x00\x01\x00\x01\x00\x3B\x09\x00",
    )
}

fn read_words(rt: &impl Print, image: &mut [u8]) -> io::Result<()> {
    read_first(
        rt,
        image,
        "read another first word",
        b"\x04\x00\x02\x00\x01\x00\x02\x00\x01\x00\x01\x00\x3B\x09",
    )?;
    read_first(
        rt,
        image,
        "read sizes",
        b"\x05\x00\x00\x00\x01\x00\x02\x00\x01\x00\x01\x00",
    )
}

fn read_bits(rt: &impl Print, image: &mut [u8]) -> io::Result<()> {
    read_first(
        rt,
        image,
        "read a value bit alone",
        b"\x05\x00\x02\x00\x01\x00\x02\x00\x01\x00\x01\x00\x3A\x09",
    )?;
    read_first(
        rt,
        image,
        "read a spare known bit",
        b"\x05\x00\x02\x00\x01\x00\x02\x00\x01\x00\x01\x00\x7B\x09",
    )
}

fn read_spare(rt: &impl Print, image: &mut [u8]) -> io::Result<()> {
    read_first(
        rt,
        image,
        "read a spare value bit",
        b"\x05\x00\x02\x00\x01\x00\x02\x00\x01\x00\x01\x00\x3B\x49",
    )?;
    read_first(
        rt,
        image,
        "read two spare bits",
        b"\x05\x00\x02\x00\x01\x00\x02\x00\x01\x00\x01\x00\xBB\x89",
    )
}

fn read_none(rt: &impl Print, image: &mut [u8]) -> io::Result<()> {
    read(
        rt,
        image,
        "read no memories",
        b"\x05\x00\x01\x00\x00\x00\x00\x00\x00\x00\x00\x00",
        NONE,
        b"",
    )
}

fn read_short(rt: &impl Print, image: &mut [u8]) -> io::Result<()> {
    read_first(
        rt,
        image,
        "read into a short room",
        b"\x05\x00\x02\x00\x01\x00\x02\x00\x01\x00\x01\x00\x3B\x09",
    )?;
    read_first(
        rt,
        image,
        "read a value bit alone, room",
        b"\x05\x00\x02\x00\x01\x00\x02\x00\x01\x00\x01\x00\x3A\x09",
    )
}

fn head_cases(rt: &impl Print) -> io::Result<()> {
    let first = b"\x05\x00\x02\x00\x01\x00\x02\x00\x01\x00\x01\x00";
    head(rt, "head of the first", first, 14, FIRST)?;
    head(rt, "head of another length", first, 15, FIRST)
}

fn head_more(rt: &impl Print) -> io::Result<()> {
    let largest = b"\x05\x00\xFF\xFF\xFF\xFF\xFF\xFF\xFF\xFF\xFF\xFF";
    head(
        rt,
        "head of the largest words",
        largest,
        140731046002700,
        NONE,
    )?;
    head(rt, "head of the largest words, length", largest, 2700, NONE)?;
    head(
        rt,
        "head of eleven bytes",
        b"\x05\x00\x02\x00\x01\x00\x02\x00\x01\x00\x01",
        14,
        FIRST,
    )
}

// Two trits, one, and none because the sizes give none or the bytes end in the arrays or in the head.
fn trit_cases(rt: &impl Print) -> io::Result<()> {
    take_two(
        rt,
        "trits of the first",
        b"\x05\x00\x02\x00\x01\x00\x02\x00\x01\x00\x01\x00\x3B\x09",
    )?;
    take_two(
        rt,
        "trits of two, the first unknown",
        b"\x05\x00\x02\x00\x01\x00\x01\x00\x00\x00\x00\x00\x02\x02",
    )?;
    take_two(
        rt,
        "trits of one",
        b"\x05\x00\x01\x00\x01\x00\x01\x00\x00\x00\x00\x00\x01\x01",
    )
}

fn trit_ends(rt: &impl Print) -> io::Result<()> {
    take_two(
        rt,
        "trits of no memories",
        b"\x05\x00\x01\x00\x00\x00\x00\x00\x00\x00\x00\x00",
    )?;
    take_two(
        rt,
        "trits of a short one",
        b"\x05\x00\x02\x00\x01\x00\x02\x00\x01\x00\x01\x00\x3B",
    )?;
    take_two(
        rt,
        "trits of eleven bytes",
        b"\x05\x00\x02\x00\x01\x00\x02\x00\x01\x00\x01",
    )?;
    take_two(rt, "trits of nothing", b"")
}

fn summary_cases(rt: &impl Print) -> io::Result<()> {
    let image = b"\x01\x00\x02\x01\x00\x00\x09";
    summarize(rt, "memory 0", FIRST, image, 0)?;
    summarize(rt, "memory 1", FIRST, image, 1)?;
    summarize(rt, "memory 2", FIRST, image, 2)
}

fn summary_more(rt: &impl Print) -> io::Result<()> {
    summarize(rt, "memory 2, trit", FIRST, b"\x03", 2)?;
    summarize(rt, "memory 0, room", FIRST, b"\x01\x00", 0)
}

fn summary_sizes(rt: &impl Print) -> io::Result<()> {
    summarize(rt, "memory 2, sizes", BAD, b"", 2)?;
    summarize(rt, "memory 0, sizes", BAD, b"", 0)
}

// ---- rooms for the small cases

fn writes(rt: &impl Print, room: &mut [u8]) -> io::Result<()> {
    write_cases(rt, room)?;
    write_bad(rt, room)?;
    write_more(rt, room)?;
    write_none(rt, room)
}

fn reads(rt: &impl Print, room: &mut [u8]) -> io::Result<()> {
    read_cases(rt, room)?;
    read_lengths(rt, room)?;
    read_words(rt, room)?;
    read_bits(rt, room)?;
    read_spare(rt, room)?;
    read_none(rt, room)
}

fn short_rooms(rt: &impl Print) -> io::Result<()> {
    let mut room = [0u8; 13];
    let mut trits = [0u8; 5];
    write_short(rt, &mut room)?;
    read_short(rt, &mut trits)
}

// ---- the largest image

// Its trits and its record's bytes, and some more that are kept.
const IMAGE_ROOM: usize = rules::MAX_IMAGE as usize + 8;

const RECORD_ROOM: usize = rules::MAX_RECORD + 10;

// The sum of its record's bytes, which another program gave.
const LARGEST_SUM: u64 = 3758585772;

// One memory of the largest depth.
const DEEP: Sizes = Sizes {
    unit: 4,
    full: 1,
    full_depth: 32768,
    partial: 0,
    partial_depth: 0,
};

// All its bytes are those that are wanted.
fn whole_record(rt: &impl Print, bytes: &[u8]) -> io::Result<()> {
    let sum = sum_of(lists::part(bytes, 0, rules::MAX_RECORD));
    rt.print("its bytes")?;
    say_if(rt, sum == LARGEST_SUM, " same\n", " DIFFERENT\n")
}

fn largest(
    rt: &impl Print,
    image: &mut [u8],
    bytes: &mut [u8],
    back: &mut [u8],
    s: Sizes,
) -> io::Result<()> {
    fill_trits(image);
    write(rt, bytes, "write the largest", s, image, b"\x05\x00")?;
    whole_record(rt, bytes)?;
    read(
        rt,
        back,
        "read the largest",
        lists::part(bytes, 0, rules::MAX_RECORD),
        s,
        lists::part(image, 0, rules::MAX_IMAGE as usize),
    )
}

// A function gives the rooms: a check with arrays of this size in it runs out of stack.
fn room<const N: usize>() -> [u8; N] {
    [0u8; N]
}

fn largest_case(rt: &impl Print) -> io::Result<()> {
    let mut image = room::<IMAGE_ROOM>();
    let mut back = room::<IMAGE_ROOM>();
    let mut bytes = room::<RECORD_ROOM>();
    largest(rt, &mut image, &mut bytes, &mut back, DEEP)
}

fn main(rt: HostRuntime) -> io::Result<()> {
    let mut room = [0u8; 40];
    writes(&rt, &mut room)?;
    reads(&rt, &mut room)?;
    short_rooms(&rt)?;
    head_cases(&rt)?;
    head_more(&rt)?;
    trit_cases(&rt)?;
    trit_ends(&rt)?;
    summary_cases(&rt)?;
    summary_more(&rt)?;
    summary_sizes(&rt)?;
    largest_case(&rt)
}
