// The ten requests that log one entry: the answer and the log expected of each case, the call, and the comparison.
use lists::copy_u8_to_u32;
use log_entries::LogState;
use rules::{FIRST_CELL, MAX_MERGE, Refusal};
use try_kit::borders::state_refusal;
use try_kit::numbered;
use try_kit::numbered::Tally;
use try_kit::paint::paint;
use try_kit::requests::{Case, CountedTrial, Inputs, Request};
use try_kit::spoilt::Bad;
use try_kit::words::{net_above, plus, word};

const LOG_WORDS: usize = 16640;

const STRIDE: u32 = 3;

// ---- the answer expected

// Whether a request compares its two lengths.
fn is_paired(request: Request) -> bool {
    !matches!(
        request,
        Request::Void | Request::Not | Request::Shl | Request::Ushr
    )
}

// A control is bad: the one that was spoilt, or one of net 2 where that is no net yet.
fn control_bad(c: Case) -> bool {
    match c.request {
        Request::Mux => c.bad == Bad::Control || c.neg && c.next <= FIRST_CELL,
        Request::Dff => c.bad == Bad::Control || c.next <= FIRST_CELL,
        _ => false,
    }
}

// A value or a trit array that this request has is spoilt.
fn spoilt(c: Case) -> bool {
    match c.request {
        Request::Void => false,
        Request::Not => c.bad == Bad::First,
        Request::Dff => matches!(c.bad, Bad::First | Bad::Trit),
        _ => matches!(c.bad, Bad::First | Bad::Second),
    }
}

// 1, 2 and 4 of a case.
fn check_input(c: Case) -> Result<(), Refusal> {
    if c.request == Request::Mux && MAX_MERGE < c.m {
        return Err(Refusal::TooLarge);
    }
    if is_paired(c.request) && c.n != c.m {
        return Err(Refusal::BadShape);
    }
    if control_bad(c) || 0 < c.n && spoilt(c) {
        return Err(Refusal::BadValue);
    }
    Ok(())
}

// The words of a case's entry, and the nets that it makes.
fn words(c: Case) -> usize {
    c.request.words(c.n, c.m)
}

fn results(c: Case) -> usize {
    c.request.results(c.n)
}

// The answer that a case expects.
fn wanted(c: Case) -> Result<LogState, Refusal> {
    check_input(c)?;
    let used = plus(c.used, words(c));
    let next = net_above(c.next, results(c));
    state_refusal(c.room, used, c.next, next)?;
    Ok(LogState { used, next })
}

// ---- the entry expected

// The head of an entry.
fn put_head(want: &mut [u32], c: Case) {
    let first = if c.request == Request::Replace {
        0
    } else {
        c.next
    };
    let count = words(c).saturating_sub(4);
    let head = [c.request.kind(), word(results(c)), first, word(count)];
    lists::copy(want, c.used, &head);
}

// Two values, from a place on.
fn put_two(want: &mut [u32], at: usize, a: &[u32], b: &[u32]) {
    lists::copy(want, at, a);
    lists::copy(want, plus(at, a.len()), b);
}

fn put_mux(want: &mut [u32], at: usize, c: Case, x: Inputs<'_>) {
    if c.neg {
        lists::put(want, at, FIRST_CELL);
        put_two(want, plus(at, 1), x.b, x.a);
    } else {
        lists::put(want, at, 1);
        put_two(want, plus(at, 1), x.a, x.b);
    }
}

fn put_shift(want: &mut [u32], at: usize, x: Inputs<'_>) {
    lists::put(want, at, STRIDE);
    lists::put(want, plus(at, 1), word(x.b.len()));
    put_two(want, plus(at, 2), x.b, x.a);
}

fn put_dff(want: &mut [u32], at: usize, c: Case, x: Inputs<'_>) {
    let nine = [0u32, 2, 0, 0, 1, 2, 0, 1, u32::from(c.neg)];
    let trits = plus(plus(at, c.n), 9);
    lists::copy(want, at, x.a);
    lists::copy(want, plus(at, c.n), &nine);
    copy_u8_to_u32(want, trits, x.clear(c));
    copy_u8_to_u32(want, plus(trits, c.n), x.reset(c));
    copy_u8_to_u32(want, plus(trits, plus(c.n, c.n)), x.init(c));
}

// The entry of an accepted case.
fn put_entry(want: &mut [u32], c: Case, x: Inputs<'_>) {
    let at = plus(c.used, 4);
    put_head(want, c);
    match c.request {
        Request::Void => {}
        Request::Not => lists::copy(want, at, x.a),
        Request::Mux => put_mux(want, at, c, x),
        Request::Shl | Request::Ushr => put_shift(want, at, x),
        Request::Dff => put_dff(want, at, c, x),
        _ => put_two(want, at, x.a, x.b),
    }
}

// The log expected.
fn want_entry(want: &mut [u32], accepted: bool, c: Case, x: Inputs<'_>) {
    paint(want);
    if accepted {
        put_entry(want, c, x);
    }
}

// ---- the call

fn call(log: &mut [u32], st: LogState, c: Case, x: Inputs<'_>) -> Result<LogState, Refusal> {
    match c.request {
        Request::Void => log_requests::add_void(log, st, word(c.n)),
        Request::Not => log_requests::add_not(log, st, x.a),
        Request::And => log_requests::add_and(log, st, x.a, x.b),
        Request::Or => log_requests::add_or(log, st, x.a, x.b),
        Request::Mux => log_requests::add_mux(log, st, c.select(), x.a, x.b),
        Request::Eq => log_requests::add_eq(log, st, x.a, x.b),
        Request::Shl => log_requests::add_shl(log, st, STRIDE, x.b, x.a),
        Request::Ushr => log_requests::add_ushr(log, st, STRIDE, x.b, x.a),
        Request::Dff => log_requests::add_dff(log, st, x.flip_flop(c)),
        Request::Replace => log_requests::replace_value(log, st, x.a, x.b),
        // no case has these, and none expects this one
        _ => Err(Refusal::OutOfRange),
    }
}

// The call, in the room that the case lends.
fn call_in(log: &mut [u32], c: Case, x: Inputs<'_>) -> Result<LogState, Refusal> {
    let room = c.room;
    if log.len() < room {
        // no case expects this one
        return Err(Refusal::OutOfRange);
    }
    let st = LogState {
        used: c.used,
        next: c.next,
    };
    call(&mut log[..room], st, c, x)
}

// The call on a painted log, of which every word is compared.
fn compared(c: Case, answer: Result<LogState, Refusal>, want: &[u32], x: Inputs<'_>) -> bool {
    let mut log = [0u32; LOG_WORDS];
    paint(&mut log);
    call_in(&mut log, c, x) == answer && &log[..] == want
}

pub(crate) struct OneEntry;

impl CountedTrial for OneEntry {
    fn tried(t: Tally, c: Case, x: Inputs<'_>) -> Tally {
        let mut want = [0u32; LOG_WORDS];
        let answer = wanted(c);
        want_entry(&mut want, answer.is_ok(), c, x);
        let ok = compared(c, answer, &want, x);
        numbered::add(t, answer.err(), ok)
    }
}
