// Lists records and prints each length, and whether the text is the one that is wanted. The lent array is painted before and compared after, also past the text.
#![tactic(auto)]

use record_sizes::Sizes;
use rules::Refusal;
use std::io;
use try_kit::paint::{fill_trits, paint, painted};
use try_kit::sums::sum_of;

// The text that is wanted, or the sum of one that is too long to be written out here.
#[derive(Clone, Copy)]
enum Want<'a> {
    Text(&'a [u8]),
    Sum(u64),
}

// (As in try_record, with `given`: a public function that prints would need a contract over the stream, longer than both.)
fn say_if(rt: &impl Print, test: bool, yes: &str, no: &str) -> io::Result<()> {
    if test { rt.print(yes) } else { rt.print(no) }
}

// What a call was given to read is as it was.
fn given(rt: &impl Print, before: u64, input: &[u8]) -> io::Result<()> {
    if sum_of(input) != before {
        rt.print("INPUT CHANGED\n")?;
    }
    Ok(())
}

// The text is the one that is wanted, to its end, and what lies past it is kept.
fn told(rt: &impl Print, out: &[u8], n: usize, want: Want<'_>) -> io::Result<()> {
    rt.print(n)?;
    let same = match want {
        Want::Text(text) => {
            say_if(rt, n == text.len(), "", " OTHER LENGTH")?;
            out.starts_with(text)
        }
        Want::Sum(sum) => sum_of(lists::part(out, 0, n)) == sum,
    };
    say_if(rt, same, " same", " DIFFERENT")?;
    say_if(rt, painted(out, n), " kept\n", " CHANGED\n")
}

// What a call on a painted room answered.
fn answered(
    rt: &impl Print,
    out: &[u8],
    answer: Result<usize, Refusal>,
    want: Want<'_>,
) -> io::Result<()> {
    match answer {
        Err(refusal) => {
            print!(rt; "refused {}", refusal.number())?;
            say_if(rt, painted(out, 0), " kept\n", " CHANGED\n")
        }
        Ok(n) => told(rt, out, n, want),
    }
}

// A record, or an input of so many bytes of which only the first are stored.
fn list_as(
    rt: &impl Print,
    out: &mut [u8],
    name: &str,
    bytes: &[u8],
    total: Option<usize>,
    want: Want<'_>,
) -> io::Result<()> {
    let before = sum_of(bytes);
    paint(out);
    rt.print(name)?;
    let answer = match total {
        None => record_listing::list_record(out, bytes),
        Some(total) => record_listing::list_input(out, bytes, total),
    };
    answered(rt, out, answer, want)?;
    given(rt, before, bytes)
}

fn list(rt: &impl Print, out: &mut [u8], name: &str, bytes: &[u8], want: &[u8]) -> io::Result<()> {
    list_as(rt, out, name, bytes, None, Want::Text(want))
}

fn list_long(
    rt: &impl Print,
    out: &mut [u8],
    name: &str,
    first: &[u8],
    total: usize,
    want: &[u8],
) -> io::Result<()> {
    list_as(rt, out, name, first, Some(total), Want::Text(want))
}

fn list_cases(rt: &impl Print, out: &mut [u8]) -> io::Result<()> {
    let text = b"memories 2 trits 6\n0 2 3 2 load\n1 1 2 0 blank\n";
    list(
        rt,
        out,
        "the first ",
        b"\x05\x00\x02\x00\x01\x00\x02\x00\x01\x00\x01\x00\x3B\x09",
        text,
    )?;
    list(rt, out, "nothing ", b"", b"refused 16\n")
}

fn list_refused(rt: &impl Print, out: &mut [u8]) -> io::Result<()> {
    list(
        rt,
        out,
        "sizes ",
        b"\x05\x00\x00\x00\x01\x00\x02\x00\x01\x00\x01\x00",
        b"refused 17\n",
    )?;
    list(
        rt,
        out,
        "a spare bit ",
        b"\x05\x00\x02\x00\x01\x00\x02\x00\x01\x00\x01\x00\x3B\x49",
        b"refused 18\n",
    )
}

fn list_none(rt: &impl Print, out: &mut [u8]) -> io::Result<()> {
    list(
        rt,
        out,
        "no memories ",
        b"\x05\x00\x01\x00\x00\x00\x00\x00\x00\x00\x00\x00",
        b"memories 0 trits 0\n",
    )
}

fn list_short(rt: &impl Print, out: &mut [u8]) -> io::Result<()> {
    list(rt, out, "into a short room ", b"", b"")?;
    list(
        rt,
        out,
        "a record into a short room ",
        b"\x05\x00\x02\x00\x01\x00\x02\x00\x01\x00\x01\x00\x3B\x09",
        b"",
    )?;
    list_long(
        rt,
        out,
        "a long input into a short room ",
        b"\x05",
        70000,
        b"",
    )
}

fn list_exact(rt: &impl Print, out: &mut [u8]) -> io::Result<()> {
    list(rt, out, "into exact room ", b"", b"refused 16\n")
}

fn list_inputs(rt: &impl Print, out: &mut [u8]) -> io::Result<()> {
    let first = b"\x05\x00\x00\x01\x80\x00\x08\x00\x00\x00\x00\x00";
    list_long(rt, out, "too many trits ", first, 65548, b"refused 17\n")?;
    list_long(rt, out, "another length ", first, 65549, b"refused 16\n")
}

fn small_cases(rt: &impl Print) -> io::Result<()> {
    let mut room = [0u8; 80];
    list_cases(rt, &mut room)?;
    list_refused(rt, &mut room)?;
    list_none(rt, &mut room)?;
    list_inputs(rt, &mut room)
}

fn short_case(rt: &impl Print) -> io::Result<()> {
    let mut room = [0u8; 10];
    list_short(rt, &mut room)?;
    let mut exact = [0u8; 11];
    list_exact(rt, &mut exact)
}

// ---- the largest image

const IMAGE_ROOM: usize = rules::MAX_IMAGE as usize;

// One memory of the largest depth, and the most memories.
const DEEP: Sizes = Sizes {
    unit: 4,
    full: 1,
    full_depth: 32768,
    partial: 0,
    partial_depth: 0,
};

const MANY: Sizes = Sizes {
    unit: 1,
    full: 32768,
    full_depth: 4,
    partial: 0,
    partial_depth: 0,
};

// Lists the record of an image of the largest size.
fn list_deep(rt: &impl Print, out: &mut [u8]) -> io::Result<()> {
    let mut image = room::<IMAGE_ROOM>();
    let mut bytes = room::<{ rules::MAX_RECORD }>();
    fill_trits(&mut image);
    let _ = record_codec::write_record(&mut bytes, DEEP, &image);
    list(
        rt,
        out,
        "the deepest ",
        &bytes,
        b"memories 1 trits 131072\n0 32768 87382 43691 load\n",
    )
}

// The sum of the longest of these texts and its bytes, which another program gave.
const MOST_SUM: u64 = 4196023880;

const MOST_BYTES: usize = 545974;

// A byte less.
const SHORT: usize = MOST_BYTES - 1;

// A function gives the rooms: a check with arrays of this size in it runs out of stack.
fn room<const N: usize>() -> [u8; N] {
    [0u8; N]
}

fn list_most(rt: &impl Print, out: &mut [u8], name: &str) -> io::Result<()> {
    let mut image = room::<IMAGE_ROOM>();
    let mut bytes = room::<{ rules::MAX_RECORD }>();
    fill_trits(&mut image);
    let _ = record_codec::write_record(&mut bytes, MANY, &image);
    list_as(rt, out, name, &bytes, None, Want::Sum(MOST_SUM))
}

// Room for the longest text, and some more that is kept.
const TEXT_ROOM: usize = record_listing::MAX_TEXT + 8;

fn large_room(rt: &impl Print) -> io::Result<()> {
    let mut text = room::<TEXT_ROOM>();
    list_deep(rt, &mut text)?;
    list_most(rt, &mut text, "the most ")
}

fn small_rooms(rt: &impl Print) -> io::Result<()> {
    let mut exact = room::<MOST_BYTES>();
    list_most(rt, &mut exact, "the most into exact room ")?;
    let mut short = room::<SHORT>();
    list_most(rt, &mut short, "the most into a short room ")
}

fn main(rt: HostRuntime) -> io::Result<()> {
    small_cases(&rt)?;
    short_case(&rt)?;
    large_room(&rt)?;
    small_rooms(&rt)
}
