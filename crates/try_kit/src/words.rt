// Sums and a cast that ask nothing: a chain of `saturating_add` and `min` would nest worse where the sums of a case stand.
ghost use Rattle.std.specs.Prelude.{◌≡◌, ◌+◌, min};
ghost use Rattle.try_kit.specs.Tally.{most, most_net};

use crate::{MOST, MOST_NET};

// A length as a word, a million at the most.
pub fn word(n: usize) -> u32
    ensures { result ≡ min n most }
{
    n.min(MOST as usize) as u32
}

// A sum of two lengths, each a million at the most.
pub fn plus(a: usize, b: usize) -> usize
    ensures { result ≡ min a most + min b most }
{
    a.min(MOST as usize) + b.min(MOST as usize)
}

// The net that lies n above another.
pub fn net_above(net: u32, n: usize) -> u32
    ensures { result ≡ min net most_net + min n most }
{
    net.min(MOST_NET) + word(n)
}
