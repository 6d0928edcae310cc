// Reads a header line, a record and, where there is more, a table from standard input. Writes the record's rows as a table, or the rows in which it differs
// from the table; where the text is refused, nothing, and the line and the reason to standard error.
#![tactic(auto)]

use std::io;
use table_read::Fault;
use table_text::reason::Reason;

// A header line of up to 4,096 bytes, the longest record and the longest table, and a byte more. An input that fills it may be longer, and is refused.
const ROOM: usize = 1085453;

// The longest answer: 13 bytes and two rows for each row that differs, and a last line. A header line of up to 4,096 bytes and the rows are shorter.
const TEXT: usize = 524288;

// A function gives the rooms: a check with arrays of this size in it runs out of stack.
fn room<const N: usize>() -> [u8; N] {
    [0u8; N]
}

fn main(rt: HostRuntime) -> io::Result<()> {
    let mut text = room::<ROOM>();
    let mut out = room::<TEXT>();
    let n = input_front::read_full(&mut rt.stdin(), &mut text)?;
    if n == ROOM {
        return rt.eprintln(Fault::in_header(Reason::TextTooLong));
    }
    match table_readback::read_back(&mut out, &text[..n]) {
        Ok(size) => rt.write_all(lists::part(&out, 0, size)),
        Err(refused) => rt.eprintln(refused),
    }
}
