// Lists the memories of the record that standard input holds, or the number that refuses it.
#![tactic(auto)]

ghost use Rattle.std.specs.Prelude.{◌≤◌, IfOk};
ghost use Rattle.rules.specs.Limits.{max_record};

use std::io;
use std::io::Read;

// Turns of the count of a longer input, more than any run takes.
const TURNS: usize = 1099511627776;

// Reads on, and answers how many bytes came.
fn more(input: &mut impl Read) -> io::Result<usize>
    ensures { IfOk result (λ n. n ≤ 65536) }
{
    let mut chunk = [0u8; 65536];
    input_front::read_full(input, &mut chunk)
}

// How many bytes are left of the input.
fn rest(input: &mut impl Read) -> io::Result<usize>
    ensures { IfOk result (λ n. n ≤ 72057594037927936) }
{
    let mut count: usize = 0;
    // bounded: an input need not end
    for _ in 0..TURNS {
        let got = more(input)?;
        if got == 0 {
            return Ok(count);
        }
        count += got;
    }
    Ok(count)
}

// The length of an input of which n bytes were read first.
fn total_of(input: &mut impl Read, n: usize) -> io::Result<usize>
    requires { n ≤ max_record }
{
    if n < rules::MAX_RECORD {
        return Ok(n);
    }
    let left = rest(input)?;
    Ok(n + left)
}

// A function gives the rooms: a check with arrays of this size in it runs out of stack.
fn room<const N: usize>() -> [u8; N] {
    [0u8; N]
}

fn main(rt: HostRuntime) -> io::Result<()> {
    let mut bytes = room::<{ rules::MAX_RECORD }>();
    let mut out = room::<{ record_listing::MAX_TEXT }>();
    let mut input = rt.stdin();
    let n = input_front::read_full(&mut input, &mut bytes)?;
    let total = total_of(&mut input, n)?;
    // The room is the longest text's, so that no listing is refused.
    match record_listing::list_input(&mut out, &bytes[..n], total) {
        Ok(size) => rt.write_all(lists::part(&out, 0, size)),
        Err(_) => Ok(()),
    }
}
