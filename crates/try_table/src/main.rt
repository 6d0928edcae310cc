// Tries texts of tables: what refuses each, and the length of the record of those that are accepted.
#![tactic(auto)]

use std::io;
use table_record::Refused;

fn write_answer(rt: &impl Print, answer: Result<usize, Refused>) -> io::Result<()> {
    match answer {
        Ok(size) => println!(rt; "bytes {size}"),
        Err(Refused::Text(f)) => println!(rt; "line {} reason {}", f.line, f.reason.number()),
        Err(Refused::Call(refusal)) => println!(rt; "refused {}", refusal.number()),
    }
}

fn tried(rt: &impl Print, text: &[u8]) -> io::Result<()> {
    let mut out = [0u8; rules::MAX_RECORD];
    write_answer(rt, table_record::split_text(&mut out, text))
}

// Headers.
fn try_headers(rt: &impl Print) -> io::Result<()> {
    tried(rt, b"3 2 0,1 0 1 2")?;
    tried(rt, b"3\t2 1,-,0 0 1 2 \r\n")?;
    tried(rt, b"0 0 plain 0 0 1\n")?;
    tried(rt, b"3 2 plain 0 1\n")?;
    tried(rt, b"3 2 plain,0 0 1 2\n")?;
    tried(rt, b"3 2 0,1 0 1 42949672960\n")?;
    tried(rt, b"3 2 0,0 0 1 2\n")?;
    tried(rt, b"5 1 plain 1 2 1\n")?;
    tried(rt, b"")
}

// Rows.
fn try_rows(rt: &impl Print) -> io::Result<()> {
    tried(rt, b"3 2 0,1 0 1 2\n01\n1_x // 2\n\n@2 10 @0 XX")?;
    tried(rt, b"3 2 0,1 0 1 2\n01\n1\n")?;
    tried(rt, b"3 2 0,1 0 1 2\n01\n\n011\n")?;
    tried(rt, b"3 2 0,1 0 1 2\n01 // 1\n/ 10\n")?;
    tried(rt, b"3 2 0,1 0 1 2\n_1\n")?;
    tried(rt, b"3 2 0,1 0 1 2\n01 10 11 00\n")?;
    tried(rt, b"3 2 0,1 0 1 2\n@3\n01\n")?;
    tried(rt, b"3 2 0,1 0 1 2\n@4\n")?;
    tried(rt, b"3 2 0,1 0 1 2\n@\n01\n")
}

fn main(rt: HostRuntime) -> io::Result<()> {
    try_headers(&rt)?;
    try_rows(&rt)
}
