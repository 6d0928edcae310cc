// The requests that log entries, and the cases that each is tried in: 720, of five lengths, four rooms and six next free nets; with good values, with a
// bad net in the first or in the second value, with a bad select or control, with a bad trit code, and with one value a bit longer than the other.
ghost use Rattle.std.specs.Prelude.{◌≡◌, min, ◌+◌};
ghost use Rattle.rules.specs.Answers.{slice_call};
ghost use Rattle.net_logic.specs.View.{given_part};
ghost use Rattle.try_kit.specs.declared.numbered.Tally.{Tally};
ghost use Rattle.try_kit.specs.Numbered.{cases, no_case, turns, one_case_more, cases_more};
ghost use Rattle.try_kit.specs.Spoilt.{is_control, select_in, controls_in};
ghost use Rattle.try_kit.specs.Requests.{kind_of, words_of, results_of, bad_one_of, sum_of, clear_of, reset_of, init_of};

use crate::borders::{length_at, next_at, room_at};
use crate::nets::{fill_nets, spoil};
use crate::numbered;
use crate::numbered::Tally;
use crate::spoilt::{Bad, controls_in, select_in, set_trits};
use crate::words::plus;
use net_flip_flop::{Controls, FlipFlop};
use net_value::ControlNet;
use std::fmt;

#[derive(Clone, Copy, Debug, PartialEq, Eq)]
pub enum Request {
    Void,
    Not,
    And,
    Or,
    Mux,
    Eq,
    Shl,
    Ushr,
    Dff,
    Replace,
    IntoPos,
    Remap,
    DedupMux,
    DedupDff,
    BitwiseMux,
}

// Those that log one entry, in the order of the entries' kinds.
pub const OF_ONE_ENTRY: [Request; 10] = [
    Request::Void,
    Request::Not,
    Request::And,
    Request::Or,
    Request::Mux,
    Request::Eq,
    Request::Shl,
    Request::Ushr,
    Request::Dff,
    Request::Replace,
];

// Those that log none or more than one.
pub const OF_ANY: [Request; 5] = [
    Request::IntoPos,
    Request::Remap,
    Request::DedupMux,
    Request::DedupDff,
    Request::BitwiseMux,
];

impl Request {
    // The kind of the one entry that it logs, and 0 where it logs none or more.
    pub fn kind(self) -> u32
        ensures { result ≡ kind_of self }
    {
        match self {
            Request::Void => 1,
            Request::Not => 2,
            Request::And => 3,
            Request::Or => 4,
            Request::Mux => 5,
            Request::Eq => 6,
            Request::Shl => 7,
            Request::Ushr => 8,
            Request::Dff => 9,
            Request::Replace => 10,
            Request::IntoPos
            | Request::Remap
            | Request::DedupMux
            | Request::DedupDff
            | Request::BitwiseMux => 0,
        }
    }

    // The words that it logs; of a merge, those where no two bits are equal.
    pub fn words(self, n: usize, m: usize) -> usize
        ensures { result ≡ words_of self n m }
    {
        match self {
            Request::Void => 4,
            Request::Not => plus(4, n),
            Request::Mux | Request::DedupMux => plus(5, plus(n, m)),
            Request::Shl | Request::Ushr => plus(6, plus(n, m)),
            Request::Dff | Request::DedupDff => plus(plus(13, n), plus(n, plus(n, m))),
            Request::IntoPos => 5,
            Request::Remap => 11,
            Request::And | Request::Or | Request::Eq | Request::Replace | Request::BitwiseMux =>
                plus(4, plus(n, m)),
        }
    }

    // The nets that it makes, at the most.
    pub fn results(self, n: usize) -> usize
        ensures { result ≡ results_of self n }
    {
        match self {
            Request::Eq | Request::IntoPos => 1,
            Request::Replace => 0,
            Request::Remap => 2,
            _ => n,
        }
    }
}

impl fmt::Display for Request {
    fn fmt<W: fmt::Write>(&self, f: &mut fmt::Formatter<W>) -> fmt::Result {
        f.write_str(match self {
            Request::Void => "add_void",
            Request::Not => "add_not",
            Request::And => "add_and",
            Request::Or => "add_or",
            Request::Mux => "add_mux",
            Request::Eq => "add_eq",
            Request::Shl => "add_shl",
            Request::Ushr => "add_ushr",
            Request::Dff => "add_dff",
            Request::Replace => "replace_value",
            Request::IntoPos => "into_pos",
            Request::Remap => "remap_reset_over_enable",
            Request::DedupMux => "add_dedup_mux",
            Request::DedupDff => "add_dedup_dff",
            Request::BitwiseMux => "add_bitwise_mux",
        })
    }
}

// A case: the request, its values' lengths, whether its select is Neg, what is bad and which control or trit that is, the log's state and room, and the
// room for results, which is one net short at every other merge.
#[derive(Clone, Copy)]
pub struct Case {
    pub request: Request,
    pub n: usize,
    pub m: usize,
    pub neg: bool,
    pub bad: Bad,
    pub which: u32,
    pub used: usize,
    pub room: usize,
    pub next: u32,
    pub out: usize,
}

// As specs/Numbered.antt has it.
const CASES: u32 = 720;

// Where the last is, one value is longer.
const BADS: [Bad; 6] = [
    Bad::Nothing,
    Bad::First,
    Bad::Second,
    Bad::Control,
    Bad::Trit,
    Bad::Nothing,
];

impl Case {
    fn at(request: Request, k: u32) -> Case {
        let n = length_at(k % 5);
        let variant = k as usize / 120 % 6;
        let m = if variant == 5 { plus(n, 1) } else { n };
        let short = k / 20 % 2 == 1;
        Case {
            request,
            n,
            m,
            neg: k % 2 == 1,
            bad: BADS[variant],
            which: k,
            used: 3,
            room: room_at(k / 5 % 4, 3, request.words(n, m)),
            next: next_at(k / 20 % 6, request.results(n)),
            out: if short { n.saturating_sub(1) } else { n },
        }
    }

    pub fn select(self) -> ControlNet
        ensures { result ≡ select_in self.neg (is_control self.bad) }
    {
        select_in(self.neg, matches!(self.bad, Bad::Control))
    }

    // One of the four controls is none where a control is bad.
    pub fn controls(self) -> Controls
        ensures { result ≡ controls_in self.neg (bad_one_of self) }
    {
        let none = match self.bad {
            Bad::Control => self.which % 4,
            _ => 4,
        };
        controls_in(self.neg, none)
    }

    // Its values and trits. The bad trit is the first of clear, the last of reset, which is one of init too, or the last of init.
    fn set_inputs(self, a: &mut [u32], b: &mut [u32], trits: &mut [u8]) {
        let places = [0usize, self.n, plus(self.n, 1)];
        fill_nets(a, self.next, 0);
        fill_nets(b, self.next, 2);
        match self.bad {
            Bad::First => spoil(a, self.n, self.next),
            Bad::Second => spoil(b, self.m, self.next),
            _ => {}
        }
        set_trits(
            trits,
            self.bad == Bad::Trit,
            places[self.which as usize % 3],
        );
    }
}

// What a request is given.
#[derive(Clone, Copy)]
pub struct Inputs<'a> {
    pub a: &'a [u32],
    pub b: &'a [u32],
    pub trits: &'a [u8],
}

impl<'a> Inputs<'a> {
    // Those of a case, whose values and trits are set.
    fn of(c: Case, a: &'a [u32], b: &'a [u32], trits: &'a [u8]) -> Inputs<'a> {
        Inputs {
            a: net_value::value_slice(a, 0, c.n),
            b: net_value::value_slice(b, 0, c.m),
            trits,
        }
    }

    // The trits that a case's flip-flop clears to, resets to and starts from.
    pub fn clear(self, c: Case) -> &'a [u8]
        ensures { result.now ≡ clear_of self.entry.trits.now c }
    {
        net_logic::const_slice(self.trits, 0, c.n)
    }

    pub fn reset(self, c: Case) -> &'a [u8]
        ensures { result.now ≡ reset_of self.entry.trits.now c }
    {
        net_logic::const_slice(self.trits, 1, plus(c.n, 1))
    }

    pub fn init(self, c: Case) -> &'a [u8]
        ensures { result.now ≡ init_of self.entry.trits.now c }
    {
        net_logic::const_slice(self.trits, 2, plus(c.m, 2))
    }

    pub fn flip_flop(self, c: Case) -> FlipFlop<'a>
        ensures controls { result.controls ≡ controls_in c.neg (bad_one_of c) }
        ensures bits { result.bits.now ≡ self.entry.a.now }
        ensures trits { (result.clear.now ≡ clear_of self.entry.trits.now c) × ((result.reset.now ≡ reset_of self.entry.trits.now c) × (result.init.now ≡ init_of self.entry.trits.now c)) }
    {
        FlipFlop {
            controls: c.controls(),
            bits: self.a,
            clear: self.clear(c),
            reset: self.reset(c),
            init: self.init(c),
        }
    }
}

// ---- all the cases of a request

// The nets and the trits that a buffer has room for.
const NETS: usize = 4100;

// What is tried of each case, and then all the cases of a request. A trial may say by `turn` what a case does to the tally; else nothing is promised of it.
pub trait Trial {
    ghost turn: { Tally → Tally → Type 0 } = { λ t u. Unit {0} };

    fn tried(t: Tally, c: Case, x: Inputs<'_>) -> Tally
        ensures { turn t result };

    final fn try_case(t: Tally, c: Case) -> Tally
        ensures { turn t result }
    {
        let mut a = [0u32; NETS];
        let mut b = [0u32; NETS];
        let mut trits = [0u8; NETS];
        c.set_inputs(&mut a, &mut b, &mut trits);
        let x = Inputs::of(c, &a, &b, &trits);
        Self::tried(t, c, x)
    }

    final fn try_all(request: Request) -> Tally
        ensures { turns turn cases no_case result }
    {
        let mut t = numbered::start();
        for place in 0..CASES {
            t = Self::try_case(t, Case::at(request, place));
        }
        t
    }
}

// The same, where each case is one case more, whatever its number and its verdict.
pub trait CountedTrial {
    fn tried(t: Tally, c: Case, x: Inputs<'_>) -> Tally
        ensures { one_case_more t result };

    final fn try_case(t: Tally, c: Case) -> Tally
        ensures { one_case_more t result }
    {
        let mut a = [0u32; NETS];
        let mut b = [0u32; NETS];
        let mut trits = [0u8; NETS];
        c.set_inputs(&mut a, &mut b, &mut trits);
        let inputs = Inputs::of(c, &a, &b, &trits);
        Self::tried(t, c, inputs)
    }

    final fn try_all(request: Request) -> Tally
        ensures { cases_more cases no_case result }
    {
        let mut t = numbered::start();
        for k in 0..CASES {
            t = Self::try_case(t, Case::at(request, k));
        }
        t
    }
}

#[cfg(test)]
mod tests {
    use super::*;

    // It writes and proves no more than its method.
    struct EachTwice;

    impl Trial for EachTwice {
        fn tried(t: Tally, c: Case, x: Inputs<'_>) -> Tally {
            numbered::add(numbered::add(t, None, true), None, x.a.len() == c.n)
        }
    }

    #[test]
    fn a_trial_counts_as_it_likes(rt: HostRuntime) {
        let case = Case::at(Request::Not, 0);
        assert_eq!(rt; EachTwice::try_case(numbered::start(), case).made, 2);
        let tally = EachTwice::try_all(Request::Not);
        assert_eq!(rt; tally.made, 1440);
        assert_eq!(rt; tally.right, 1440);
    }
}
