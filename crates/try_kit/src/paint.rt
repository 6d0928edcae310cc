// Patterns that tests fill lent arrays with, so that every element can be compared afterwards.
ghost use Rattle.std.specs.Prelude.{◌≡◌, ℕ, length};
ghost use Rattle.try_kit.specs.Paint.{paint_at, word_at, trit_at_of, pattern_of, pattern_from};

// Elements with a pattern that no case's own values have.
pub trait Pattern: Copy + PartialEq {
    ghost pattern: { ℕ → Self };

    fn paint_at(i: usize) -> Self
        ensures { result ≡ pattern i };
}

// No trit is a painted byte.
impl Pattern for u8 {
    ghost pattern = { paint_at };

    fn paint_at(i: usize) -> u8 {
        3 + (i % 251) as u8
    }
}

// No net and no size is a painted word.
impl Pattern for u32 {
    ghost pattern = { word_at };

    fn paint_at(i: usize) -> u32 {
        3000000000 + (i % 1009) as u32
    }
}

pub fn paint<T: Pattern>(room: &mut [T])
    ensures { room.new ≡ pattern_of T.pattern (length room.old) }
{
    for (i, x) in room.iter_mut().enumerate() {
        *x = T::paint_at(i);
    }
}

// Trits 0, 1, 2, 0 and so on.
pub fn fill_trits(room: &mut [u8])
    ensures { room.new ≡ pattern_of trit_at_of (length room.old) }
{
    for (i, x) in room.iter_mut().enumerate() {
        *x = (i % 3) as u8;
    }
}

// Every element from a place on is as it was painted.
pub fn painted<T: Pattern>(room: &[T], from: usize) -> bool
    ensures { result ≡ pattern_from T.eq T.pattern room.now from }
{
    // by number: `from` may lie past the end
    for i in from..room.len() {
        if room[i] != T::paint_at(i) {
            return false;
        }
    }
    true
}
