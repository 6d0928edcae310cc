// What a request gave.
use log_entries::LogState;
use log_lent::NewNets;
use net_flip_flop::Controls;
use net_value::Net;
use rules::Refusal;

// What a request made: its first net and how many nets follow from it, and the words of its controls, 0 where it gives none.
#[derive(Clone, Copy, Debug, PartialEq, Eq)]
pub(crate) struct Made {
    first: u32,
    count: usize,
    controls: [u32; 9],
}

impl Made {
    pub(crate) fn some(first: u32, count: usize) -> Made {
        Made {
            first,
            count,
            controls: [0u32; 9],
        }
    }

    pub(crate) fn of_nets(new: NewNets) -> Made {
        Made::some(new.first, new.width)
    }

    pub(crate) fn of_net(net: Net) -> Made {
        Made::some(net.0, 1)
    }

    pub(crate) fn nothing(_: ()) -> Made {
        Made::some(0, 0)
    }

    pub(crate) fn of_controls(c: Controls) -> Made {
        Made {
            first: 0,
            count: 0,
            controls: c.words(),
        }
    }
}

// What a request made or what refuses it, and the state after it.
#[derive(Clone, Copy, Debug, PartialEq, Eq)]
pub(crate) struct Got {
    pub(crate) answer: Result<Made, Refusal>,
    pub(crate) state: LogState,
}

impl Got {
    // By value, from the state `st` on, so many nets from `first` on.
    pub(crate) fn plain(
        r: Result<LogState, Refusal>,
        st: LogState,
        first: u32,
        count: usize,
    ) -> Got {
        Got {
            answer: r.map(|_| Made::some(first, count)),
            state: r.unwrap_or(st),
        }
    }
}
