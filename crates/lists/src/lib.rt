// Copies, fills, stores and parts of slices, and powers of two, that ask nothing: what lies past the end of a lent array is not stored.
#![tactic(auto)]

ghost use Rattle.std.specs.Prelude.{◌≡◌, ◌+◌, ◌-◌, ◌^◌, ◌<◌, ◌≤◌, min, length, replicate, set, take};
ghost use Rattle.std.proofs.lemmas.List.Edits.{sets};
ghost use Rattle.lists.specs.Lists.{part, up_from};

// Copies so many elements.
fn copy_part<T: Copy>(to: &mut [T], at: usize, from: &[T], n: usize)
    requires { (at + n ≤ length to.old) × (n ≤ length from.now) }
    ensures { to.new ≡ sets to.old at (take n from.now) }
{
    // one by one: `copy_from_slice` calls a function of the C library for one element too
    for (i, x) in from[..n].iter().enumerate() {
        to[at + i] = *x;
    }
}

// Copies `from` into `to` from `at` on.
pub fn copy<T: Copy>(to: &mut [T], at: usize, from: &[T])
    ensures { to.new ≡ sets to.old at from.now }
{
    let start = at.min(to.len());
    let n = from.len().min(to.len() - start);
    copy_part(to, start, from, n);
}

// Stores `count` times `value` from `at` on.
pub fn fill<T: Copy>(to: &mut [T], at: usize, count: usize, value: T)
    ensures { to.new ≡ sets to.old at (replicate count value) }
{
    let start = at.min(to.len());
    let n = count.min(to.len() - start);
    for place in &mut to[start..start + n] {
        *place = value;
    }
}

// Stores the numbers from `first` to below `last` from `at` on.
pub fn store_run(to: &mut [u32], at: usize, first: u32, last: u32)
    ensures { to.new ≡ sets to.old at (up_from first (last - first)) }
{
    let start = at.min(to.len());
    let n = (last.saturating_sub(first) as usize).min(to.len() - start);
    for (i, place) in to[start..start + n].iter_mut().enumerate() {
        *place = first + i as u32;
    }
}

// Copies bytes into words. (Over a `zip` with the places themselves the proof did not close of what they hold after the loop.)
pub fn copy_u8_to_u32(to: &mut [u32], at: usize, from: &[u8])
    ensures { to.new ≡ sets to.old at from.now }
{
    let start = at.min(to.len());
    let n = from.len().min(to.len() - start);
    for (i, byte) in from[..n].iter().enumerate() {
        to[start + i] = u32::from(*byte);
    }
}

// Stores one element.
pub fn put<T: Copy>(to: &mut [T], at: usize, value: T)
    ensures { to.new ≡ set to.old at value }
{
    if at < to.len() {
        to[at] = value;
    }
}

// The part of `s` from `start` on, `count` elements or as many as there are.
pub fn part<T>(s: &[T], start: usize, count: usize) -> &[T]
    ensures part { result.now ≡ part start count s.now }
    ensures most { length result.now ≤ count }
{
    let rest = &s[start.min(s.len())..];
    &rest[..count.min(rest.len())]
}

// 2^k; 2^32 where k is above 32.
pub fn two_to(k: u32) -> u64
    ensures value { result ≡ 2 ^ min k 32 }
    ensures positive { 0 < result }
    ensures most { result ≤ 4294967296 }
{
    1 << k.min(32)
}
