// Counts of cases, by the refusal that a case expects.
ghost use Rattle.std.specs.Prelude.{◌≡◌};
ghost use Rattle.rules.specs.Refusal.{number_if};
ghost use Rattle.try_kit.specs.Numbered.{no_case, one_case};

use crate::tally::more;
use rules::Refusal;
use std::fmt;

// How many cases were made, how many were right, and how many expect 0, 1, 2, 4, 20 and 21.
#[derive(Clone, Copy, Default)]
pub struct Tally {
    pub made: u32,
    pub right: u32,
    pub accepted: u32,
    pub large: u32,
    pub unequal: u32,
    pub bad: u32,
    pub full: u32,
    pub netless: u32,
}

// The rest of a line, after what was tried.
impl fmt::Display for Tally {
    fn fmt<W: fmt::Write>(&self, f: &mut fmt::Formatter<W>) -> fmt::Result {
        write!(
            f,
            "{} of {}: accepted {}",
            self.right, self.made, self.accepted
        )?;
        write!(
            f,
            ", 1: {}, 2: {}, 4: {}",
            self.large, self.unequal, self.bad
        )?;
        write!(f, ", 20: {}, 21: {}", self.full, self.netless)
    }
}

pub fn start() -> Tally
    ensures { result ≡ no_case }
{
    Tally::default()
}

// The number of what a case expects: 0 where it is accepted.
fn number_if(refusal: Option<Refusal>) -> u32
    ensures { result ≡ number_if refusal }
{
    refusal.map_or(0, |refusal| refusal.number())
}

// One case more, which expects this refusal, or to be accepted.
pub fn add(t: Tally, refusal: Option<Refusal>, ok: bool) -> Tally
    ensures { result ≡ one_case t (number_if refusal) ok }
{
    let number = number_if(refusal);
    Tally {
        made: more(t.made, true),
        right: more(t.right, ok),
        accepted: more(t.accepted, number == 0),
        large: more(t.large, number == 1),
        unequal: more(t.unequal, number == 2),
        bad: more(t.bad, number == 4),
        full: more(t.full, number == 20),
        netless: more(t.netless, number == 21),
    }
}
