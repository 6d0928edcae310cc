// The cases of a request, each called by value and then on a lent state, and compared.
use crate::calls::{ByValue, Lent, Way};
use crate::got::Got;
use log_entries::LogState;
use try_kit::numbered;
use try_kit::numbered::Tally;
use try_kit::paint::paint;
use try_kit::requests::{Case, CountedTrial, Inputs};

const LOG_WORDS: usize = 16640;

const NETS: usize = 4100;

// The call on painted buffers, in the rooms that the case lends; none where a room is larger than its buffer.
fn called<W: Way>(log: &mut [u32], out: &mut [u32], c: Case, x: Inputs<'_>) -> Option<Got> {
    paint(log);
    paint(out);
    let st = LogState {
        used: c.used,
        next: c.next,
    };
    if log.len() < c.room || out.len() < c.out {
        return None;
    }
    Some(W::call(&mut log[..c.room], st, &mut out[..c.out], c, x))
}

// The answer, the state and every word of log and room, against those of the request by value.
pub(crate) struct BothWays;

impl CountedTrial for BothWays {
    fn tried(t: Tally, c: Case, x: Inputs<'_>) -> Tally {
        let mut want = [0u32; LOG_WORDS];
        let mut room = [0u32; NETS];
        let wanted = called::<ByValue>(&mut want, &mut room, c, x);
        let mut log = [0u32; LOG_WORDS];
        let mut out = [0u32; NETS];
        let got = called::<Lent>(&mut log, &mut out, c, x);
        let same = wanted.is_some() && got == wanted && log == want && out == room;
        numbered::add(t, wanted.and_then(|wanted| wanted.answer.err()), same)
    }
}
