// Each request twice: on a lent state, and by value. What a request by value gives is compared by `try_log`, `try_controls` and `try_merges`, and by the
// stored calls.
use crate::got::{Got, Made};
use log_entries::LogState;
use try_kit::requests::{Case, Inputs, Request};
use try_kit::words::word;

const STRIDE: u32 = 3;

// A way to call a request.
pub(crate) trait Way {
    fn call(log: &mut [u32], st: LogState, out: &mut [u32], c: Case, x: Inputs<'_>) -> Got;
}

pub(crate) struct Lent;

impl Way for Lent {
    fn call(log: &mut [u32], st: LogState, out: &mut [u32], c: Case, x: Inputs<'_>) -> Got {
        let mut state = st;
        let s = &mut state;
        let answer = match c.request {
            Request::Void => log_lent::add_void(log, s, word(c.n)).map(Made::of_nets),
            Request::Not => log_lent::add_not(log, s, x.a).map(Made::of_nets),
            Request::And => log_lent::add_and(log, s, x.a, x.b).map(Made::of_nets),
            Request::Or => log_lent::add_or(log, s, x.a, x.b).map(Made::of_nets),
            Request::Mux => log_lent::add_mux(log, s, c.select(), x.a, x.b).map(Made::of_nets),
            Request::Eq => log_lent::add_eq(log, s, x.a, x.b).map(Made::of_net),
            Request::Shl => log_lent::add_shl(log, s, STRIDE, x.b, x.a).map(Made::of_nets),
            Request::Ushr => log_lent::add_ushr(log, s, STRIDE, x.b, x.a).map(Made::of_nets),
            Request::Dff => log_lent::add_dff(log, s, x.flip_flop(c)).map(Made::of_nets),
            Request::Replace => log_lent::replace_value(log, s, x.a, x.b).map(Made::nothing),
            Request::IntoPos => log_lent::into_pos(log, s, c.select()).map(Made::of_net),
            Request::Remap => {
                log_lent::remap_reset_over_enable(log, s, c.controls()).map(Made::of_controls)
            }
            Request::DedupMux => {
                log_lent::add_dedup_mux(log, s, out, c.select(), x.a, x.b).map(Made::nothing)
            }
            Request::DedupDff => {
                log_lent::add_dedup_dff(log, s, out, x.flip_flop(c)).map(Made::nothing)
            }
            Request::BitwiseMux => {
                log_lent::add_bitwise_mux(log, s, out, x.a, x.b, x.a).map(Made::nothing)
            }
        };
        Got { answer, state }
    }
}

pub(crate) struct ByValue;

fn plain_pos(log: &mut [u32], st: LogState, c: Case) -> Got {
    let r = log_requests::into_pos(log, st, c.select());
    Got {
        answer: r.map(|made| Made::of_net(made.value)),
        state: r.map_or(st, |made| made.state),
    }
}

fn plain_remap(log: &mut [u32], st: LogState, c: Case) -> Got {
    let r = log_requests::remap_reset_over_enable(log, st, c.controls());
    Got {
        answer: r.map(|made| Made::of_controls(made.value)),
        state: r.map_or(st, |made| made.state),
    }
}

impl Way for ByValue {
    fn call(log: &mut [u32], st: LogState, out: &mut [u32], c: Case, x: Inputs<'_>) -> Got {
        let r = match c.request {
            Request::Void => log_requests::add_void(log, st, word(c.n)),
            Request::Not => log_requests::add_not(log, st, x.a),
            Request::And => log_requests::add_and(log, st, x.a, x.b),
            Request::Or => log_requests::add_or(log, st, x.a, x.b),
            Request::Mux => log_requests::add_mux(log, st, c.select(), x.a, x.b),
            Request::Eq => log_requests::add_eq(log, st, x.a, x.b),
            Request::Shl => log_requests::add_shl(log, st, STRIDE, x.b, x.a),
            Request::Ushr => log_requests::add_ushr(log, st, STRIDE, x.b, x.a),
            Request::Dff => log_requests::add_dff(log, st, x.flip_flop(c)),
            Request::Replace => log_requests::replace_value(log, st, x.a, x.b),
            Request::IntoPos => return plain_pos(log, st, c),
            Request::Remap => return plain_remap(log, st, c),
            Request::DedupMux => merge_mux::add_dedup_mux(log, st, out, c.select(), x.a, x.b),
            Request::DedupDff => merge_dff::add_dedup_dff(log, st, out, x.flip_flop(c)),
            Request::BitwiseMux => merge_mux::add_bitwise_mux(log, st, out, x.a, x.b, x.a),
        };
        match c.request {
            Request::Eq => Got::plain(r, st, st.next, 1),
            // the nets of a merge stand in the room for results
            Request::Replace | Request::DedupMux | Request::DedupDff | Request::BitwiseMux => {
                Got::plain(r, st, 0, 0)
            }
            _ => Got::plain(r, st, st.next, c.n),
        }
    }
}
