// Tries the merging muxes: five lengths, three rooms and five next free nets; with good values, with a bad net in the first or in the second value, with a
// bad select, with a room for results that is one net short, and with one value a bit longer than the other. Every lent word holds a pattern before a call,
// and every word of log, state and result is compared after it with what a plain computation expects, which finds the distinct pairs by a plain search.
#![tactic(auto)]

use log_entries::LogState;
use rules::{FIRST_CELL, MAX_MERGE, MAX_NETS, Refusal};
use std::io;
use try_kit::borders::{length_at, room_at, state_refusal};
use try_kit::nets::{fill_nets, net_at, spoil};
use try_kit::numbered;
use try_kit::numbered::Tally;
use try_kit::paint::paint;
use try_kit::spoilt::{Bad, select_in};
use try_kit::words::{net_above, plus, word};

// The nets and the words that a buffer has room for.
const NETS: usize = 4100;

const LOG_WORDS: usize = 16640;

const CASES: u32 = 450;

// The distinct pairs of a merge: the first `count` of both arrays. (By hand: an entry has the firsts and then the seconds, and there is no heap.)
#[derive(Drop)]
struct Pairs {
    first: [u32; NETS],
    second: [u32; NETS],
    count: usize,
}

impl Pairs {
    fn none() -> Pairs {
        Pairs {
            first: [0u32; NETS],
            second: [0u32; NETS],
            count: 0,
        }
    }

    fn firsts(&self) -> &[u32] {
        lists::part(&self.first, 0, self.count)
    }

    fn seconds(&self) -> &[u32] {
        lists::part(&self.second, 0, self.count)
    }

    // The place of a pair among the kept ones, or their number.
    fn place_of(&self, x: u32, y: u32) -> usize {
        let mut pairs = self.firsts().iter().zip(self.seconds().iter());
        pairs
            .position(|(a, b)| *a == x && *b == y)
            .unwrap_or(self.count)
    }

    // The place of a pair, which is kept if it was not.
    fn keep(&mut self, x: u32, y: u32) -> usize {
        let place = self.place_of(x, y);
        if place == self.count {
            lists::put(&mut self.first, place, x);
            lists::put(&mut self.second, place, y);
            self.count = plus(place, 1);
        }
        place
    }

    // The distinct pairs of two values, and each bit's place among them.
    fn of(a: &[u32], b: &[u32], at: &mut [u32]) -> Pairs {
        let mut pairs = Pairs::none();
        for (i, (x, y)) in a.iter().zip(b.iter()).enumerate() {
            lists::put(at, i, word(pairs.keep(*x, *y)));
        }
        pairs
    }
}

// The entry of a mux of the kept pairs.
fn put_mux(want: &mut [u32], st: LogState, neg: bool, net: u32, pairs: &Pairs) {
    let n = pairs.count;
    let head = [5u32, word(n), st.next, word(plus(1, plus(n, n))), net];
    let first = plus(st.used, 5);
    let second = plus(first, n);
    lists::copy(want, st.used, &head);
    if neg {
        lists::copy(want, second, pairs.firsts());
        lists::copy(want, first, pairs.seconds());
    } else {
        lists::copy(want, first, pairs.firsts());
        lists::copy(want, second, pairs.seconds());
    }
}

// The net of each bit, from a place on.
fn put_nets(out: &mut [u32], to: usize, next: u32, at: &[u32]) {
    for (i, place) in at.iter().enumerate() {
        lists::put(out, plus(to, i), net_above(next, *place as usize));
    }
}

// What a mux of the bits from i to e leaves: its entry, the nets of these bits, and the state.
fn expect_run(
    want: &mut [u32],
    st: LogState,
    neg: bool,
    net: u32,
    a: &[u32],
    b: &[u32],
    i: usize,
    e: usize,
    nets: &mut [u32],
) -> LogState {
    let mut at = [0u32; NETS];
    let x = net_value::value_slice(a, i, e);
    let y = net_value::value_slice(b, i, e);
    let pairs = Pairs::of(x, y, &mut at);
    put_mux(want, st, neg, net, &pairs);
    put_nets(nets, i, st.next, lists::part(&at, 0, x.len()));
    LogState {
        used: plus(st.used, plus(5, plus(pairs.count, pairs.count))),
        next: net_above(st.next, pairs.count),
    }
}

// What a bitwise mux leaves: of each run of equal neighbours a mux.
fn expect_runs(
    want: &mut [u32],
    st: LogState,
    s: &[u32],
    a: &[u32],
    b: &[u32],
    nets: &mut [u32],
) -> LogState {
    let mut state = st;
    let mut i: usize = 0;
    for run in s.chunk_by(|x, y| x == y) {
        let net = run.first().copied().unwrap_or(0);
        let e = plus(i, run.len());
        state = expect_run(want, state, false, net, a, b, i, e, nets);
        i = e;
    }
    state
}

// A merge's case: its values' lengths, whether its select is Neg, what is bad, and the next free net. (try_kit's cases are others.)
#[derive(Clone, Copy)]
struct Case {
    n: usize,
    m: usize,
    neg: bool,
    bad: Bad,
    next: u32,
}

// Where the last is, one value is longer.
const BADS: [Bad; 6] = [
    Bad::Nothing,
    Bad::First,
    Bad::Second,
    Bad::Control,
    Bad::Room,
    Bad::Nothing,
];

fn next_at(k: u32) -> u32 {
    match k {
        0 => 1,
        1 => 2,
        2 => 100,
        3 => MAX_NETS - 1,
        _ => MAX_NETS,
    }
}

impl Case {
    fn at(k: u32) -> Case {
        let n = length_at(k % 5);
        let variant = k as usize / 75 % 6;
        Case {
            n,
            m: if variant == 5 { plus(n, 1) } else { n },
            neg: k % 2 == 1,
            bad: BADS[variant],
            next: next_at(k / 5 % 5),
        }
    }

    // The state that the log is lent in.
    fn state(self) -> LogState {
        LogState {
            used: 3,
            next: self.next,
        }
    }

    // The room for results: all nets that a buffer has, or one less than the merge makes.
    fn out_room(self) -> usize {
        if self.bad == Bad::Room {
            return self.n.saturating_sub(1);
        }
        NETS
    }

    // A value is spoilt; the select of a bitwise mux is one.
    fn spoilt(self) -> bool {
        0 < self.n && matches!(self.bad, Bad::First | Bad::Second | Bad::Control)
    }
}

// One of the two merges.
trait Merge {
    // The select is bad, apart from a value that is spoilt.
    fn select_bad(c: Case) -> bool;

    fn expect(
        c: Case,
        want: &mut [u32],
        s: &[u32],
        a: &[u32],
        b: &[u32],
        nets: &mut [u32],
    ) -> LogState;

    fn call(
        c: Case,
        log: &mut [u32],
        s: &[u32],
        a: &[u32],
        b: &[u32],
        out: &mut [u32],
    ) -> Result<LogState, Refusal>;
}

struct DedupMux;

impl Merge for DedupMux {
    // It is no control, or Neg of net 2, which is no net yet.
    fn select_bad(c: Case) -> bool {
        c.bad == Bad::Control || c.neg && c.next <= FIRST_CELL
    }

    fn expect(
        c: Case,
        want: &mut [u32],
        _: &[u32],
        a: &[u32],
        b: &[u32],
        nets: &mut [u32],
    ) -> LogState {
        let net = if c.neg { 2 } else { 1 };
        expect_run(want, c.state(), c.neg, net, a, b, 0, a.len(), nets)
    }

    fn call(
        c: Case,
        log: &mut [u32],
        _: &[u32],
        a: &[u32],
        b: &[u32],
        out: &mut [u32],
    ) -> Result<LogState, Refusal> {
        let select = select_in(c.neg, c.bad == Bad::Control);
        merge_mux::add_dedup_mux(log, c.state(), out, select, a, b)
    }
}

struct BitwiseMux;

impl Merge for BitwiseMux {
    fn select_bad(_: Case) -> bool {
        false
    }

    fn expect(
        c: Case,
        want: &mut [u32],
        s: &[u32],
        a: &[u32],
        b: &[u32],
        nets: &mut [u32],
    ) -> LogState {
        expect_runs(want, c.state(), s, a, b, nets)
    }

    fn call(
        c: Case,
        log: &mut [u32],
        s: &[u32],
        a: &[u32],
        b: &[u32],
        out: &mut [u32],
    ) -> Result<LogState, Refusal> {
        merge_mux::add_bitwise_mux(log, c.state(), out, s, a, b)
    }
}

// 1, 2 and 4 of a case.
fn check_input<M: Merge>(c: Case) -> Result<(), Refusal> {
    if MAX_MERGE < c.m {
        return Err(Refusal::TooLarge);
    }
    if c.n != c.m {
        return Err(Refusal::BadShape);
    }
    if M::select_bad(c) || c.spoilt() {
        return Err(Refusal::BadValue);
    }
    Ok(())
}

// The answer that a case expects, where an accepted call would end in the state given.
fn wanted<M: Merge>(c: Case, room: usize, end: LogState) -> Result<LogState, Refusal> {
    check_input::<M>(c)?;
    if c.out_room() < c.n {
        return Err(Refusal::NoRoom);
    }
    state_refusal(room, end.used, c.next, end.next)?;
    Ok(end)
}

// The call, in the rooms lent.
fn call_in<M: Merge>(
    c: Case,
    room: usize,
    log: &mut [u32],
    s: &[u32],
    a: &[u32],
    b: &[u32],
    out: &mut [u32],
) -> Result<LogState, Refusal> {
    let end = c.out_room();
    if log.len() < room || out.len() < end {
        // no case expects this one
        return Err(Refusal::OutOfRange);
    }
    M::call(c, &mut log[..room], s, a, b, &mut out[..end])
}

// The call and its comparison: every word of the log and of the result nets.
fn compare<M: Merge>(
    c: Case,
    wanted: Result<LogState, Refusal>,
    room: usize,
    s: &[u32],
    a: &[u32],
    b: &[u32],
    want: &[u32],
    nets: &[u32],
) -> bool {
    let mut log = [0u32; LOG_WORDS];
    let mut out = [0u32; NETS];
    paint(&mut log);
    paint(&mut out);
    let r = call_in::<M>(c, room, &mut log, s, a, b, &mut out);
    r == wanted && &log[..] == want && &out[..] == nets
}

// A case: the words and nets expected are set first. A refused call leaves all as it was.
fn try_case<M: Merge>(t: Tally, c: Case, mode: u32, s: &[u32], a: &[u32], b: &[u32]) -> Tally {
    let mut want = [0u32; LOG_WORDS];
    let mut nets = [0u32; NETS];
    paint(&mut want);
    paint(&mut nets);
    let end = M::expect(c, &mut want, s, a, b, &mut nets);
    let room = room_at(mode, 0, end.used);
    let answer = wanted::<M>(c, room, end);
    if answer.is_err() {
        paint(&mut want);
        paint(&mut nets);
    }
    let ok = compare::<M>(c, answer, room, s, a, b, &want, &nets);
    numbered::add(t, answer.err(), ok)
}

// Selects in runs of nine.
fn fill_selects(s: &mut [u32], next: u32) {
    for (i, select) in s.iter_mut().enumerate() {
        *select = net_at(next, i / 9, 1);
    }
}

// Nets for a case.
fn set_nets(c: Case, s: &mut [u32], a: &mut [u32], b: &mut [u32]) {
    fill_nets(b, c.next, 2);
    fill_selects(s, c.next);
    fill_nets(a, c.next, 0);
    match c.bad {
        Bad::Control => spoil(s, c.n, c.next),
        Bad::First => spoil(a, c.n, c.next),
        Bad::Second => spoil(b, c.m, c.next),
        _ => {}
    }
}

fn set_and_try<M: Merge>(t: Tally, k: u32) -> Tally {
    let mut s = [0u32; NETS];
    let mut a = [0u32; NETS];
    let mut b = [0u32; NETS];
    let c = Case::at(k);
    set_nets(c, &mut s, &mut a, &mut b);
    try_case::<M>(
        t,
        c,
        k / 25 % 3,
        net_value::value_slice(&s, 0, c.n),
        net_value::value_slice(&a, 0, c.n),
        net_value::value_slice(&b, 0, c.m),
    )
}

// All the cases of one of the two merges.
fn cases<M: Merge>() -> Tally {
    let mut t = numbered::start();
    for k in 0..CASES {
        t = set_and_try::<M>(t, k);
    }
    t
}

fn main(rt: HostRuntime) -> io::Result<()> {
    println!(rt; "add_dedup_mux: {}", cases::<DedupMux>())?;
    println!(rt; "add_bitwise_mux: {}", cases::<BitwiseMux>())
}
