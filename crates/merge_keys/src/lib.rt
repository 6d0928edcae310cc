// Equal keys are kept once, in order of first appearance. A key is two words, one of each column; `merge` keeps the keys of two columns and gives
// each its place among them. The columns stay apart, since the log's entry has the one after the other.
#![tactic(auto)]

ghost use Rattle.std.specs.Prelude.{◌≡◌, ◌+◌, ◌<◌, length, take, set, eqb};
ghost use Rattle.std.proofs.lemmas.List.Edits.{sets};
ghost use Rattle.lists.specs.Choice.{when◌then◌else◌};
ghost use Rattle.lists.specs.Distinct.{place_in, kept, places};
ghost use Rattle.rules.specs.Limits.{max_merge};
ghost use Rattle.rules.specs.Merge.{same2};
ghost use Rattle.merge_keys.specs.Columns.{key_of, keys_in};
ghost use Rattle.merge_keys.specs.Keys.{merging, Knows, Roomy, MergeOf, firsts, seconds, zero_keys};

use columns::{Columns, Key};

pub mod columns;

// The key that was merged last, its place, and the largest first word so far. Zeros say so of no keys at all: any key's place among none is 0.
#[derive(Clone, Copy, Default)]
struct Seen {
    key: Key,
    place: usize,
    most: u32,
}

impl Seen {
    // The place of the next key among those kept. As often as not it is the key before it. A key whose first word is larger than any that is kept
    // is new: nets that were made one after the other need no search.
    #[tactic(auto, using(crate::proofs::Search::past))]
    fn place_of(self, key: Key, kept: Columns<'_>) -> usize
        requires { Knows (keys_in kept) self }
        ensures { result ≡ place_in same2 (key_of key) (keys_in kept.entry) }
    {
        if self.key == key {
            return self.place;
        }
        if self.most < key.x {
            return kept.len();
        }
        kept.place(key)
    }
}

// Keeps a key after the first count where its place says that it is new, and returns how many are kept then.
fn keep(kx: &mut [u32], ky: &mut [u32], count: usize, place: usize, key: Key) -> usize
    requires { (count < length kx.old) × (count < length ky.old) }
    ensures value { result ≡ (when eqb place count then count + 1 else count) }
    ensures kx_after { kx.new ≡ (when eqb place count then set kx.old count key.x else kx.old) }
    ensures ky_after { ky.new ≡ (when eqb place count then set ky.old count key.y else ky.old) }
{
    if place != count {
        return count;
    }
    kx[count] = key.x;
    ky[count] = key.y;
    count + 1
}

// Keeps keys in kx and ky, stores each key's place among them in `at`, and returns how many are kept.
fn merge_all(kx: &mut [u32], ky: &mut [u32], at: &mut [u32], given: Columns<'_>) -> usize
    requires { Roomy (keys_in given) kx.old ky.old at.old }
    ensures value { result ≡ length (kept same2 (keys_in given.entry)) }
    ensures kx_after { kx.new ≡ sets kx.old 0 (firsts (kept same2 (keys_in given.entry))) }
    ensures ky_after { ky.new ≡ sets ky.old 0 (seconds (kept same2 (keys_in given.entry))) }
    ensures at_after { at.new ≡ sets at.old 0 (places same2 (keys_in given.entry)) }
{
    let mut count = 0;
    let mut seen = Seen::default();
    for (i, (x, y)) in given.x.iter().zip(given.y).enumerate() {
        let key = Key { x: *x, y: *y };
        let kept = Columns {
            x: &kx[..count],
            y: &ky[..count],
        };
        let place = seen.place_of(key, kept);
        count = keep(kx, ky, count, place, key);
        seen = Seen {
            key,
            place,
            most: seen.most.max(*x),
        };
        at[i] = place as u32;
    }
    count
}

// Keeps the keys of two columns in kx and ky, stores each key's place among them in `at`, and returns how many are kept. Keys past the limit of a
// merge, and past the end of kx, ky or `at`, are left out.
pub fn merge(kx: &mut [u32], ky: &mut [u32], at: &mut [u32], given: Columns<'_>) -> usize
    ensures value { result ≡ length (kept same2 (merging given.entry.x.now given.entry.y.now kx.old ky.old at.old)) }
    ensures kx_after { kx.new ≡ sets kx.old 0 (firsts (kept same2 (merging given.entry.x.now given.entry.y.now kx.old ky.old at.old))) }
    ensures ky_after { ky.new ≡ sets ky.old 0 (seconds (kept same2 (merging given.entry.x.now given.entry.y.now kx.old ky.old at.old))) }
    ensures at_after { at.new ≡ sets at.old 0 (places same2 (merging given.entry.x.now given.entry.y.now kx.old ky.old at.old)) }
{
    let room = kx.len().min(ky.len().min(at.len()));
    merge_all(kx, ky, at, given.first(rules::MAX_MERGE.min(room)))
}

// What a merge keeps: the two columns of the kept keys, and the place of each merged key among them.
#[derive(Clone, Copy)]
pub struct Kept<'a> {
    pub x: &'a [u32],
    pub y: &'a [u32],
    pub at: &'a [u32],
}

// Room for the kept keys and the places, which is lent, so that many merges clear it once.
#[derive(Drop)]
pub struct Keys {
    pub x: [u32; rules::MAX_MERGE],
    pub y: [u32; rules::MAX_MERGE],
    pub at: [u32; rules::MAX_MERGE],
}

impl Keys {
    // A room of zeros.
    #[tactic(auto, unfolding(crate::specs::Keys::zero_keys))]
    pub fn new() -> Keys
        ensures { result ≡ zero_keys }
    {
        Keys {
            x: [0; rules::MAX_MERGE],
            y: [0; rules::MAX_MERGE],
            at: [0; rules::MAX_MERGE],
        }
    }

    // Keeps the keys of two columns, as many as a merge takes.
    pub fn merge(&mut self, given: Columns<'_>) -> Kept<'_>
        ensures { MergeOf (take max_merge (keys_in given.entry)) result }
    {
        let k = merge(&mut self.x, &mut self.y, &mut self.at, given);
        let n = rules::MAX_MERGE.min(given.len());
        Kept {
            x: &self.x[..k],
            y: &self.y[..k],
            at: &self.at[..n],
        }
    }
}
