// Counts of comparisons.
ghost use Rattle.std.specs.Prelude.{◌≡◌};
ghost use Rattle.try_kit.specs.Tally.{more as more·of, none_made, one_more_of};

use crate::MOST;
use std::fmt;

// How many comparisons were made, and how many failed.
#[derive(Clone, Copy, Default)]
pub struct Tally {
    pub made: u32,
    pub failed: u32,
}

// The rest of a line, after what was tried.
impl fmt::Display for Tally {
    fn fmt<W: fmt::Write>(&self, f: &mut fmt::Formatter<W>) -> fmt::Result {
        write!(f, "{} compared, {} wrong", self.made, self.failed)
    }
}

// One more where a test holds.
pub(crate) fn more(n: u32, test: bool) -> u32
    ensures { result ≡ more·of n test }
{
    if test { n.min(MOST - 1) + 1 } else { n }
}

pub fn start() -> Tally
    ensures { result ≡ none_made }
{
    Tally::default()
}

// One comparison more.
pub fn add(t: Tally, ok: bool) -> Tally
    ensures { result ≡ one_more_of t ok }
{
    Tally {
        made: more(t.made, true),
        failed: more(t.failed, !ok),
    }
}
