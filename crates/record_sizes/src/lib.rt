// The sizes of the memories that a swizzle gives and a record holds: the rules on them, and how many trits they take.
#![tactic(auto)]

ghost use Rattle.std.specs.Prelude.{◌≡◌, false, ◌&&◌, not, ◌+◌, ◌*◌, ◌≤◌, min, eqb, ltb, leb};
ghost use Rattle.rules.specs.Limits.{max_columns, max_image};
ghost use Rattle.rules.specs.Record.{size_mems, size_trits, record_image};
ghost use Rattle.rules.specs.Conditions.{is_power, bad_unit, unlike, bad_depths, bad_sizes};
ghost use Rattle.record_sizes.specs.View.{view_sizes};

// `full` memories of depth `full_depth`, then `partial` ones of depth `partial_depth`, each `unit` bits wide.
#[repr(C)]
#[derive(Clone, Copy, Debug, Default, PartialEq, Eq)]
pub struct Sizes {
    pub unit: u32,
    pub full: u32,
    pub full_depth: u32,
    pub partial: u32,
    pub partial_depth: u32,
}

// ---- number 17

// A power of two up to the deepest memory's.
fn is_power(n: u32) -> bool
    ensures { result ≡ is_power n }
{
    n.is_power_of_two() && n <= 1 << rules::MAX_HARD
}

// A depth is 0 exactly when its count is.
#[tactic(auto, unfolding(rules::specs::Conditions::unlike))]
fn is_unlike(count: u32, depth: u32) -> bool
    ensures { result ≡ unlike count depth }
{
    (count == 0) != (depth == 0)
}

impl Sizes {
    #[tactic(auto, unfolding(rules::specs::Conditions::bad_unit))]
    fn has_bad_unit(self) -> bool
        ensures { result ≡ bad_unit (view_sizes self) }
    {
        self.unit == 0 || rules::MAX_UNIT < self.unit
    }

    // There are memories of both depths, and the partial depth is not less.
    fn is_not_less(self) -> bool
        ensures { result ≡ (not (eqb self.full 0) && (not (eqb self.partial 0) && leb self.full_depth self.partial_depth)) }
    {
        self.full != 0 && self.partial != 0 && self.full_depth <= self.partial_depth
    }

    #[tactic(auto, unfolding(rules::specs::Conditions::bad_depths))]
    fn has_bad_depths(self) -> bool
        ensures { result ≡ bad_depths (view_sizes self) }
    {
        is_unlike(self.full, self.full_depth)
            || is_unlike(self.partial, self.partial_depth)
            || self.full != 0 && !is_power(self.full_depth)
            || rules::MAX_DEPTH < self.full_depth
            || rules::MAX_PARTIAL < self.partial_depth
            || self.is_not_less()
    }

    // The columns pass their limit.
    #[tactic(auto, using(crate::proofs::Counts::columns_fit))]
    fn has_too_many_columns(self) -> bool
        requires { bad_unit (view_sizes self) ≡ false }
        ensures { result ≡ ltb max_columns (size_mems (view_sizes self) * self.unit) }
    {
        rules::MAX_COLUMNS < self.memories() * u64::from(self.unit)
    }

    // The trits pass their limit.
    #[tactic(auto, using(crate::proofs::Counts::past_limit))]
    fn has_too_many_trits(self) -> bool
        ensures { result ≡ ltb max_image (size_trits (view_sizes self)) }
    {
        rules::MAX_IMAGE < self.trits_within(rules::MAX_IMAGE + 1)
    }

    // The rules on the sizes of a record are broken.
    #[tactic(auto, unfolding(rules::specs::Conditions::bad_sizes))]
    pub fn is_bad(self) -> bool
        ensures { result ≡ bad_sizes (view_sizes self) }
    {
        self.has_bad_unit()
            || self.has_bad_depths()
            || self.has_too_many_columns()
            || self.has_too_many_trits()
    }

    // ---- counts

    #[tactic(auto, unfolding(rules::specs::Record::size_mems))]
    pub fn memories(self) -> u64
        ensures { result ≡ size_mems (view_sizes self) }
    {
        u64::from(self.full) + u64::from(self.partial)
    }

    // The trits of the image, or a limit where they are more.
    #[tactic(auto, unfolding(rules::specs::Record::size_trits), using(crate::proofs::Counts::within))]
    pub fn trits_within(self, most: u64) -> u64
        ensures { result ≡ min (size_trits (view_sizes self)) most }
    {
        let full = product_within(u64::from(self.full), u64::from(self.full_depth), most);
        let partial = product_within(u64::from(self.partial), u64::from(self.partial_depth), most);
        product_within(u64::from(self.unit), full.saturating_add(partial), most)
    }

    // The image in a lent array: its first trits, as many as the sizes say.
    #[tactic(auto, unfolding(rules::specs::Record::record_image))]
    pub fn image_of(self, image: &[u8]) -> &[u8]
        ensures { result.now ≡ record_image (view_sizes self) image.now }
    {
        let count = self.trits_within(image.len() as u64) as usize;
        &image[..count]
    }
}

// A product, or a limit where it is past that.
fn product_within(a: u64, b: u64, most: u64) -> u64
    ensures { result ≡ min (a * b) most }
{
    a.saturating_mul(b).min(most)
}
