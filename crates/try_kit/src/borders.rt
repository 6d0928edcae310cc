// Lengths, rooms and next free nets at the borders of what a request takes, and the number that its state gives it.
ghost use Rattle.std.specs.Prelude.{◌≡◌};
ghost use Rattle.rules.specs.Refusal.{number_of};
ghost use Rattle.try_kit.specs.Borders.{length_at, room_at, next_at, state_number};

use crate::words::{plus, word};
use rules::{FIRST_CELL, MAX_MERGE, MAX_NETS, Refusal};

pub fn length_at(k: u32) -> usize
    ensures { result ≡ length_at k }
{
    let lengths = [0usize, 1, MAX_MERGE - 1, MAX_MERGE, MAX_MERGE + 1];
    lengths[k as usize % 5]
}

// The room: all words, one word short, seven more, and less than is used.
pub fn room_at(k: u32, used: usize, words: usize) -> usize
    ensures { result ≡ room_at k used words }
{
    let all = plus(used, words);
    let rooms = [
        all,
        all.saturating_sub(1),
        plus(all, 7),
        used.saturating_sub(1),
    ];
    rooms[k as usize % 4]
}

// The next free net: the third ends at the limit, and the fourth is one net short of it.
pub fn next_at(k: u32, nets: usize) -> u32
    ensures { result ≡ next_at k nets }
{
    let last = MAX_NETS - word(nets);
    let nexts = [2u32, 100, last, last + 1, 1, MAX_NETS];
    nexts[k as usize % 6]
}

// How a request is refused whose log would end at `end`, and whose nets from `next` on would end at `last`.
pub fn state_refusal(room: usize, end: usize, next: u32, last: u32) -> Result<(), Refusal>
    ensures { number_of result ≡ state_number room end next last }
{
    if room < end {
        return Err(Refusal::NoRoom);
    }
    if next < FIRST_CELL || MAX_NETS < last {
        return Err(Refusal::NetsFull);
    }
    Ok(())
}
