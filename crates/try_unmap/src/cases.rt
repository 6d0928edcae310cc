// Calls with their answers: one that unmaps, one of a port without a flip-flop, and refused ones, which leave every lent word as it was.
use crate::sample;
use log_entries::LogState;
use net_memory::{Given, Memory};
use port_unmap::Driven;
use rules::Refusal;
use rules::Refusal::{BadValue, NetsFull, NoRoom, OutOfRange};
use try_kit::tally::Tally;
use try_kit::{paint, samples, tally};

const ROOM: usize = 80;

// The sizes are the sample's, and its read port has no flip-flop.
fn memory_is(m: Memory) -> bool {
    let p = m.read_ports[0];
    if m.depth != 2 || m.width != 1 || m.init_len != 2 || m.write_count != 1 || m.read_count != 1 {
        return false;
    }
    if p.addr_len != 1 || p.data_len != 1 || p.init_len != 1 || p.relations_len != 1 {
        return false;
    }
    p.flip_flop.is_none()
}

// The call is accepted, with this state, and the sample's memory without the flip-flop.
fn unmapped(r: Result<Driven, Refusal>, used: usize, next: u32) -> bool {
    r.is_ok_and(|d| d.state == LogState { used, next } && memory_is(d.memory))
}

// The read port's flip-flop becomes a cell behind it.
pub(crate) fn accepted(t: Tally) -> Tally {
    let mut log = [0u32; ROOM];
    paint::paint(&mut log);
    let mut output = [80u32];
    let nets = sample::nets();
    let trits = sample::trits();
    let st = LogState { used: 0, next: 200 };
    let given = Given {
        memory: sample::memory(),
        nets: &nets,
        trits: &trits,
    };
    let r = port_unmap::unmap_read_dff(&mut log, st, &mut output, given, 0);
    let t = tally::add(t, unmapped(r, sample::WORDS, 200 + sample::NETS));
    let words = sample::log();
    let t = tally::add(t, log.starts_with(&words));
    let t = tally::add(t, paint::painted(&log, sample::WORDS));
    tally::add(t, output[0] == 200)
}

// What is unmapped has no flip-flop: a second call is accepted and does nothing.
pub(crate) fn unclocked(t: Tally) -> Tally {
    let mut log = [0u32; ROOM];
    paint::paint(&mut log);
    let mut output = [80u32];
    let nets = sample::nets();
    let trits = sample::trits();
    let m = sample::memory();
    let plain = samples::read_by(1, 1, 1, 1, 1, 1, [2u8, 0, 0, 0, 0, 0, 0, 0], None);
    let st = LogState { used: 7, next: 200 };
    let given = Given {
        memory: samples::with_read(m, 0, plain),
        nets: &nets,
        trits: &trits,
    };
    let r = port_unmap::unmap_read_dff(&mut log, st, &mut output, given, 0);
    let t = tally::add(t, unmapped(r, 7, 200));
    let t = tally::add(t, paint::painted(&log, 0));
    tally::add(t, output[0] == 80)
}

// One refused call: the refusal, and every lent word as it was. So many words of the log are used, and the outputs are net `out`.
fn refused_by(t: Tally, refusal: Refusal, used: usize, next: u32, out: u32, port: usize) -> Tally {
    let mut log = [0u32; ROOM];
    paint::paint(&mut log);
    let mut output = [out];
    let nets = sample::nets();
    let trits = sample::trits();
    let st = LogState { used, next };
    let given = Given {
        memory: sample::memory(),
        nets: &nets,
        trits: &trits,
    };
    let r = port_unmap::unmap_read_dff(&mut log, st, &mut output, given, port);
    let t = tally::add(t, r.err() == Some(refusal));
    let t = tally::add(t, paint::painted(&log, 0));
    tally::add(t, output[0] == out)
}

// A bad output net, a port that is not there, a log one word short, and nets one short; two at once give the lower number.
pub(crate) fn refused(t: Tally) -> Tally {
    let short = ROOM - sample::WORDS + 1;
    let few = rules::MAX_NETS - sample::NETS + 1;
    let t = refused_by(t, BadValue, 0, 200, 200, 0);
    let t = refused_by(t, OutOfRange, 0, 200, 80, 1);
    let t = refused_by(t, NoRoom, short, 200, 80, 0);
    let t = refused_by(t, NetsFull, 0, few, 80, 0);
    let t = refused_by(t, BadValue, 0, 200, 200, 1);
    let t = refused_by(t, OutOfRange, short, 200, 80, 1);
    refused_by(t, NoRoom, short, few, 80, 0)
}
