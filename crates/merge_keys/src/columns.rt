// Keys in two columns of words.
ghost use Rattle.std.specs.Prelude.{◌≡◌, ◌≤◌, length, take, position, zip};
ghost use Rattle.lists.specs.Distinct.{place_in};
ghost use Rattle.rules.specs.Merge.{same2};
ghost use Rattle.merge_keys.specs.Columns.{key_of, keys_in};

#[derive(Clone, Copy, PartialEq, Eq, Default)]
pub struct Key {
    pub x: u32,
    pub y: u32,
}

// As many keys as the shorter column has words.
#[derive(Clone, Copy)]
pub struct Columns<'a> {
    pub x: &'a [u32],
    pub y: &'a [u32],
}

impl<'a> Columns<'a> {
    // How many keys there are.
    #[tactic(auto, using(lists::proofs::Pairs::pairs_size))]
    pub(crate) fn len(self) -> usize
        ensures value { result ≡ length (keys_in self.entry) }
        ensures within { (result ≤ length self.entry.x.now) × (result ≤ length self.entry.y.now) }
    {
        self.x.len().min(self.y.len())
    }

    // The first of them, `most` at the most.
    #[tactic(auto, using(crate::proofs::Pairs::first_is))]
    pub(crate) fn first(self, most: usize) -> Columns<'a>
        ensures { keys_in result ≡ take most (keys_in self.entry) }
    {
        let n = most.min(self.len());
        Columns {
            x: &self.x[..n],
            y: &self.y[..n],
        }
    }

    // Where a key stands.
    fn find(self, key: Key) -> Option<usize>
        ensures { result ≡ position (λ k. same2 k (key_of key)) (zip self.entry.x.now self.entry.y.now) }
    {
        let mut keys = self.x.iter().zip(self.y);
        keys.position(|(x, y)| *x == key.x && *y == key.y)
    }

    // The place of a key among these, or their number where it is not among them.
    pub(crate) fn place(self, key: Key) -> usize
        ensures { result ≡ place_in same2 (key_of key) (keys_in self.entry) }
    {
        self.find(key).unwrap_or(self.len())
    }
}
