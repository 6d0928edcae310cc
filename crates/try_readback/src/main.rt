// Tries texts of a header line, a record and a table: what refuses each, and what is written for those that are accepted.
#![tactic(auto)]

use std::io;
use table_readback::Refused;

fn write_answer(rt: &impl Print, out: &[u8], answer: Result<usize, Refused>) -> io::Result<()> {
    match answer {
        Ok(size) => rt.write_all(lists::part(out, 0, size)),
        Err(Refused::Text(f)) => println!(rt; "line {} reason {}", f.line, f.reason.number()),
        Err(Refused::Table(f)) => {
            println!(rt; "table line {} reason {}", f.line, f.reason.number())
        }
        Err(Refused::Call(refusal)) => println!(rt; "refused {}", refusal.number()),
    }
}

fn tried(rt: &impl Print, text: &[u8]) -> io::Result<()> {
    let mut out = [0u8; 256];
    let answer = table_readback::read_back(&mut out, text);
    write_answer(rt, &out, answer)
}

// In room for one byte less than the text.
fn try_room(rt: &impl Print, text: &[u8]) -> io::Result<()> {
    let mut out = [0u8; 24];
    let answer = table_readback::read_back(&mut out, text);
    write_answer(rt, &out, answer)
}

// Header lines.
fn try_headers(rt: &impl Print) -> io::Result<()> {
    tried(
        rt,
        b"3 2 plain 0\n\x05\x00\x02\x00\x01\x00\x02\x00\x01\x00\x01\x00;\x09",
    )?;
    tried(
        rt,
        b"3 2 plain 0 1 0\n\x05\x00\x02\x00\x01\x00\x02\x00\x01\x00\x01\x00;\x09",
    )?;
    tried(rt, b"")?;
    tried(rt, b"3 2 plain 0 1 2\n")
}

// Records.
fn try_records(rt: &impl Print) -> io::Result<()> {
    tried(
        rt,
        b"3 2 plain 0 1 2\n\x05\x00\x02\x00\x01\x00\x02\x00\x01\x00\x01\x00;\x09",
    )?;
    tried(
        rt,
        b"3 2 1,0 0 1 2 \x0d\n\x05\x00\x02\x00\x01\x00\x02\x00\x01\x00\x01\x00;\x09",
    )?;
    tried(
        rt,
        b"3 2 plain 0 1 2\n\x05\x00\x02\x00\x01\x00\x02\x00\x01\x00\x01\x00;",
    )?;
    tried(
        rt,
        b"3 2 plain 0 1 2\n\x06\x00\x02\x00\x01\x00\x02\x00\x01\x00\x01\x00;\x09",
    )?;
    tried(
        rt,
        b"3 2 plain 0 1 1\n\x05\x00\x02\x00\x01\x00\x02\x00\x01\x00\x01\x00;\x09",
    )?;
    tried(
        rt,
        b"3 1 plain 0 1 2\n\x05\x00\x02\x00\x01\x00\x02\x00\x01\x00\x01\x00;\x09",
    )?;
    tried(
        rt,
        b"3 2 plain 0 1 2\n\x05\x00\x02\x00\x01\x00\x02\x00\x01\x00\x01\x00\xbb\x09",
    )?;
    tried(
        rt,
        b"3 2 plain 0 1 2\n\x05\x00\x02\x00\x01\x00\x02\x00\x01\x00\x01\x00:\x09",
    )
}

// Tables behind the record.
fn try_tables(rt: &impl Print) -> io::Result<()> {
    tried(
        rt,
        b"3 2 plain 0 1 2\n\x05\x00\x02\x00\x01\x00\x02\x00\x01\x00\x01\x00;\x093 2 plain 0 1 2\n01 1x 00",
    )?;
    tried(
        rt,
        b"3 2 plain 0 1 2\n\x05\x00\x02\x00\x01\x00\x02\x00\x01\x00\x01\x00;\x093 2 1,0 0 0 4\n01\n@2 00 // row 1 is X",
    )?;
    tried(
        rt,
        b"3 2 plain 0 1 2\n\x05\x00\x02\x00\x01\x00\x02\x00\x01\x00\x01\x00;\x094 2 plain 0 1 2\n",
    )?;
    tried(
        rt,
        b"3 2 plain 0 1 2\n\x05\x00\x02\x00\x01\x00\x02\x00\x01\x00\x01\x00;\x093 1 plain 0 1 2\n",
    )?;
    tried(
        rt,
        b"3 2 plain 0 1 2\n\x05\x00\x02\x00\x01\x00\x02\x00\x01\x00\x01\x00;\x093 2 plain 0 1 2\n01\n1y\n",
    )?;
    tried(
        rt,
        b"3 2 plain 0 1 2\n\x05\x00\x02\x00\x01\x00\x02\x00\x01\x00\x01\x00;\x09\n",
    )?;
    tried(
        rt,
        b"3 2 plain 0 1 2\n\x05\x00\x02\x00\x01\x00\x02\x00\x01\x00\x01\x00;\x093 2 plain 0 1 2\n10 10 10",
    )
}

fn main(rt: HostRuntime) -> io::Result<()> {
    try_headers(&rt)?;
    try_records(&rt)?;
    try_tables(&rt)?;
    try_room(
        &rt,
        b"3 2 plain 0 1 2\n\x05\x00\x02\x00\x01\x00\x02\x00\x01\x00\x01\x00;\x09",
    )
}
