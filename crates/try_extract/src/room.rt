// The contents of what is lent, and the comparison of every word of a room after a call.
use try_kit::paint::{Pattern, painted};
use try_kit::words::plus;

// What is lent of one kind: its element at each place.
pub(crate) trait Lent<T: Pattern>: Copy {
    fn at(self, i: usize) -> T;
}

// Words that count up from the first.
#[derive(Clone, Copy)]
pub(crate) struct Words {
    first: u32,
}

pub(crate) const NET_WORDS: Words = Words { first: 2 };

pub(crate) const OUT_WORDS: Words = Words { first: 5000 };

impl Lent<u32> for Words {
    fn at(self, i: usize) -> u32 {
        std::num::wrapping_add_u32(self.first, (i % 1000000) as u32)
    }
}

// Trits 0, 1, 2, 0 ..
#[derive(Clone, Copy)]
pub(crate) struct Trits;

impl Lent<u8> for Trits {
    fn at(self, i: usize) -> u8 {
        (i % 3) as u8
    }
}

pub(crate) fn fill<T: Pattern, L: Lent<T>>(room: &mut [T], lent: L) {
    for (i, x) in room.iter_mut().enumerate() {
        *x = lent.at(i);
    }
}

// So many elements from a place on are what is lent from another place on.
fn is_run<T: Pattern, L: Lent<T>>(
    room: &[T],
    at: usize,
    lent: L,
    from: usize,
    count: usize,
) -> bool {
    let run = lists::part(room, at, count);
    let mut items = run.iter().enumerate();
    run.len() == count && items.all(|(i, x)| *x == lent.at(plus(from, i)))
}

// The room holds parts of what is lent, each given by where it starts there and its length, and is painted after them.
pub(crate) fn is_parts<T: Pattern, L: Lent<T>>(
    room: &[T],
    lent: L,
    parts: &[(usize, usize)],
) -> bool {
    let mut at: usize = 0;
    for (from, count) in parts {
        if !is_run(room, at, lent, *from, *count) {
            return false;
        }
        at = plus(at, *count);
    }
    painted(room, at)
}
