// Writes the image record of the table whose text standard input holds; where the text is refused, nothing, and the line and the reason to standard error.
#![tactic(auto)]

use std::io;

// One byte more than the longest text, so that a longer one is seen.
const ROOM: usize = 1048577;

// A function gives the rooms: a check with arrays of this size in it runs out of stack.
fn room<const N: usize>() -> [u8; N] {
    [0u8; N]
}

fn main(rt: HostRuntime) -> io::Result<()> {
    let mut text = room::<ROOM>();
    let mut out = room::<{ rules::MAX_RECORD }>();
    let n = input_front::read_full(&mut rt.stdin(), &mut text)?;
    match table_record::split_text(&mut out, &text[..n]) {
        Ok(size) => rt.write_all(lists::part(&out, 0, size)),
        Err(refused) => rt.eprintln(refused),
    }
}
