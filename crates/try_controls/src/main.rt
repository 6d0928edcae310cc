// Tries into_pos and remap_reset_over_enable, over controls that are constants, cells, inverses and bad ones, four rooms and six next free nets.
// Every lent word holds a pattern before a call, and every word of log, state and result is compared after it with what a plain computation expects.
#![tactic(auto)]

use log_entries::LogState;
use net_flip_flop::Controls;
use net_value::{ControlNet, Net};
use rules::{FIRST_CELL, MAX_NETS, NET_X, Refusal};
use std::io;
use try_kit::borders::{next_at, room_at, state_refusal};
use try_kit::numbered;
use try_kit::numbered::Tally;
use try_kit::paint::paint;
use try_kit::words::{net_above, plus};

// Pos 0, Pos 1, Pos 2, Neg 2, Neg 0 and Pos X: the last two are bad.
const CONTROLS: [ControlNet; 6] = [
    ControlNet::Pos(Net(0)),
    ControlNet::Pos(Net(1)),
    ControlNet::Pos(Net(2)),
    ControlNet::Neg(Net(2)),
    ControlNet::Neg(Net(0)),
    ControlNet::Pos(Net(NET_X)),
];

fn is_neg(c: ControlNet) -> bool {
    matches!(c, ControlNet::Neg(_))
}

fn net_of(c: ControlNet) -> u32 {
    match c {
        ControlNet::Pos(n) | ControlNet::Neg(n) => n.0,
    }
}

fn good(c: ControlNet, next: u32) -> bool {
    let net = net_of(c);
    if net < FIRST_CELL {
        return !is_neg(c);
    }
    net < MAX_NETS && net < next
}

// The words and the nets of an emission.
#[derive(Clone, Copy)]
struct Size {
    words: usize,
    nets: usize,
}

fn not_size(c: ControlNet) -> Size {
    match c {
        ControlNet::Neg(_) => Size { words: 5, nets: 1 },
        ControlNet::Pos(_) => Size { words: 0, nets: 0 },
    }
}

// The state after an emission from word 3 on.
fn state_after(next: u32, z: Size) -> LogState {
    LogState {
        used: plus(3, z.words),
        next: net_above(next, z.nets),
    }
}

// The net of a control, after its not.
fn pos_net(c: ControlNet, next: u32) -> u32 {
    match c {
        ControlNet::Neg(_) => next,
        ControlNet::Pos(net) => net.0,
    }
}

// The not of a control, where it needs one.
fn put_not(want: &mut [u32], at: usize, c: ControlNet, next: u32) {
    if let ControlNet::Neg(net) = c {
        let entry = [2u32, 1, next, 1, net.0];
        lists::copy(want, at, &entry);
    }
}

// A control that becomes a plain net, the words of the log and the next free net.
#[derive(Clone, Copy)]
struct Pos {
    control: ControlNet,
    room: usize,
    next: u32,
}

fn pos_at(k: u32) -> Pos {
    let control = CONTROLS[k as usize % 6];
    let z = not_size(control);
    Pos {
        control,
        room: room_at(k / 6 % 4, 3, z.words),
        next: next_at(k / 24 % 6, z.nets),
    }
}

// The answer that a case expects: the net and the state.
fn wanted_pos(c: Pos) -> Result<(Net, LogState), Refusal> {
    if !good(c.control, c.next) {
        return Err(Refusal::BadValue);
    }
    let state = state_after(c.next, not_size(c.control));
    state_refusal(c.room, state.used, c.next, state.next)?;
    Ok((Net(pos_net(c.control, c.next)), state))
}

fn call_pos(log: &mut [u32], c: Pos) -> Result<(Net, LogState), Refusal> {
    let room = c.room;
    if log.len() < room {
        // no case expects this one
        return Err(Refusal::OutOfRange);
    }
    let st = LogState {
        used: 3,
        next: c.next,
    };
    let made = log_requests::into_pos(&mut log[..room], st, c.control)?;
    Ok((made.value, made.state))
}

// The log expected.
fn want_pos(want: &mut [u32], accepted: bool, c: Pos) {
    paint(want);
    if accepted {
        put_not(want, 3, c.control, c.next);
    }
}

fn try_pos(t: Tally, log: &mut [u32], want: &mut [u32], c: Pos) -> Tally {
    let answer = wanted_pos(c);
    want_pos(want, answer.is_ok(), c);
    paint(log);
    let r = call_pos(log, c);
    let ok = r == answer && &*log == &*want;
    numbered::add(t, answer.err(), ok)
}

fn pos_cases(log: &mut [u32], want: &mut [u32]) -> Tally {
    let mut t = numbered::start();
    for k in 0..144 {
        t = try_pos(t, log, want, pos_at(k));
    }
    t
}

// ---- remap_reset_over_enable

#[derive(Clone, Copy)]
struct Remap {
    reset: ControlNet,
    enable: ControlNet,
    over: bool,
    room: usize,
    next: u32,
}

// Whether the reset becomes its and with the enable.
fn gated(c: Remap) -> bool {
    !c.over && c.reset != ControlNet::Pos(Net(0)) && net_of(c.enable) != 1
}

fn remap_size(c: Remap) -> Size {
    if !gated(c) {
        return Size { words: 0, nets: 0 };
    }
    let k = plus(not_size(c.reset).nets, not_size(c.enable).nets);
    Size {
        words: plus(6, plus(plus(k, k), plus(k, plus(k, k)))),
        nets: plus(1, k),
    }
}

fn remap_at(k: u32) -> Remap {
    let mut c = Remap {
        reset: CONTROLS[k as usize % 6],
        enable: CONTROLS[k as usize / 6 % 6],
        over: k / 36 % 2 == 1,
        room: 0,
        next: 0,
    };
    let z = remap_size(c);
    c.room = room_at(k / 72 % 4, 3, z.words);
    c.next = next_at(k / 288 % 6, z.nets);
    c
}

// The answer that a case expects: the controls and the state.
fn wanted_remap(c: Remap) -> Result<(Controls, LogState), Refusal> {
    if !good(c.reset, c.next) || !good(c.enable, c.next) {
        return Err(Refusal::BadValue);
    }
    let state = state_after(c.next, remap_size(c));
    state_refusal(c.room, state.used, c.next, state.next)?;
    Ok((controls_of(new_reset(c), c.enable, true), state))
}

// Where the entry after a control's not stands.
fn after_not(at: usize, c: ControlNet) -> usize {
    plus(at, not_size(c).words)
}

// The nots of reset and enable, and their and.
fn put_gated(want: &mut [u32], c: Remap) {
    let Remap {
        reset,
        enable,
        next,
        ..
    } = c;
    let at = after_not(3, reset);
    let second = net_above(next, not_size(reset).nets);
    let third = net_above(second, not_size(enable).nets);
    let x = pos_net(reset, next);
    let y = pos_net(enable, second);
    let entry = [3u32, 1, third, 2, x, y];
    put_not(want, 3, reset, next);
    put_not(want, at, enable, second);
    lists::copy(want, after_not(at, enable), &entry);
}

// The reset that the call gives.
fn new_reset(c: Remap) -> ControlNet {
    if !gated(c) {
        return c.reset;
    }
    let z = remap_size(c);
    ControlNet::Pos(Net(net_above(c.next, z.nets.saturating_sub(1))))
}

fn controls_of(reset: ControlNet, enable: ControlNet, over: bool) -> Controls {
    Controls {
        clock: ControlNet::Neg(Net(7)),
        clear: ControlNet::Pos(Net(9)),
        reset,
        enable,
        reset_over_enable: over,
    }
}

fn call_remap(log: &mut [u32], c: Remap) -> Result<(Controls, LogState), Refusal> {
    let room = c.room;
    if log.len() < room {
        // no case expects this one
        return Err(Refusal::OutOfRange);
    }
    let st = LogState {
        used: 3,
        next: c.next,
    };
    let controls = controls_of(c.reset, c.enable, c.over);
    let made = log_requests::remap_reset_over_enable(&mut log[..room], st, controls)?;
    Ok((made.value, made.state))
}

// The log expected.
fn want_remap(want: &mut [u32], accepted: bool, c: Remap) {
    paint(want);
    if accepted && gated(c) {
        put_gated(want, c);
    }
}

fn try_remap(t: Tally, log: &mut [u32], want: &mut [u32], c: Remap) -> Tally {
    let answer = wanted_remap(c);
    want_remap(want, answer.is_ok(), c);
    paint(log);
    let r = call_remap(log, c);
    let ok = r == answer && &*log == &*want;
    numbered::add(t, answer.err(), ok)
}

fn remap_cases(log: &mut [u32], want: &mut [u32]) -> Tally {
    let mut t = numbered::start();
    for k in 0..1728 {
        t = try_remap(t, log, want, remap_at(k));
    }
    t
}

fn main(rt: HostRuntime) -> io::Result<()> {
    let mut log = [0u32; 48];
    let mut want = [0u32; 48];
    println!(rt; "into_pos: {}", pos_cases(&mut log, &mut want))?;
    println!(rt;
        "remap_reset_over_enable: {}",
        remap_cases(&mut log, &mut want)
    )
}
