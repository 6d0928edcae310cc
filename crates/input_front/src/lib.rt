// Reads the front of an input into a room that is lent.
#![tactic(auto)]

ghost use Rattle.std.specs.Prelude.{◌≡◌, ◌≤◌, IfOk, IfSome, length, take};
ghost use Rattle.std.specs.Io.KnownBytes.{Consumes};

use std::io;
use std::io::Read;

// Reads until the room is full or the input ends, and answers how many bytes it put at the room's start: all that the input had left, or as many as the room has.
pub fn read_full<R: Read>(input: &mut R, room: &mut [u8]) -> io::Result<usize>
    ensures bound { IfOk result (λ n. n ≤ length room.new) }
    ensures rest { IfOk result (λ n. Consumes (R.remaining input.old) (R.remaining input.new) (take n room.new)) }
    ensures bytes { IfOk result (λ n. IfSome (R.remaining input.old) (λ xs. take n room.new ≡ take (length room.old) xs)) }
{
    let mut done = 0;
    // No `for`: a read puts as many bytes as it likes.
    while done < room.len() {
        let n = input.read(&mut room[done..])?;
        if n == 0 {
            return Ok(done);
        }
        done += n;
    }
    Ok(done)
}
