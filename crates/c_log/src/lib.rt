// Requests and merges on a lent log for callers in C and Rust. The log state goes in by value and comes back in the answer's struct; a refused call
// gives it back as it was. Here are the structs and what they are in the library's terms; the exported functions are in `requests` and `merges`.
#![tactic(auto)]

ghost use Rattle.std.specs.Prelude.{◌≡◌};
ghost use Rattle.net_flip_flop.specs.View.{controls_of};
ghost use Rattle.log_requests.specs.Answers.{net_answer_of, controls_answer_of};
ghost use Rattle.c_log.specs.View.{given_controls, controls_struct, logged_struct, net_struct, new_controls_struct};

use c_net::Control;
use log_entries::LogState;
use log_requests::After;
use net_value::Net;
use rules::Refusal;

pub mod merges;
pub mod requests;

// The controls of a flip-flop; reset_over_enable is 0 or 1.
#[repr(C)]
#[derive(Clone, Copy, Default)]
pub struct Controls {
    pub clock: Control,
    pub clear: Control,
    pub reset: Control,
    pub enable: Control,
    pub reset_over_enable: u32,
}

// A refusal's number, or 0, and the state after the call.
#[repr(C)]
#[derive(Clone, Copy)]
pub struct Logged {
    pub number: u32,
    pub state: LogState,
}

// With a net.
#[repr(C)]
#[derive(Clone, Copy)]
pub struct NetLogged {
    pub number: u32,
    pub net: u32,
    pub state: LogState,
}

// With controls.
#[repr(C)]
#[derive(Clone, Copy)]
pub struct ControlsLogged {
    pub number: u32,
    pub controls: Controls,
    pub state: LogState,
}

// The controls that a struct gives. A reset_over_enable above 1 makes the reset Neg(0), so that calls refuse it by 4.
#[tactic(auto, unfolding(crate::specs::View::given_controls))]
impl From<Controls> for net_flip_flop::Controls {
    ghost from_gives = { λ c r. controls_of r ≡ given_controls c };

    fn from(given: Controls) -> net_flip_flop::Controls {
        net_flip_flop::Controls {
            clock: given.clock.into(),
            clear: given.clear.into(),
            reset: c_net::flagged_control(given.reset, given.reset_over_enable),
            enable: given.enable.into(),
            reset_over_enable: given.reset_over_enable == 1,
        }
    }
}

impl From<net_flip_flop::Controls> for Controls {
    ghost from_gives = { λ c r. r ≡ controls_struct (controls_of c) };

    fn from(made: net_flip_flop::Controls) -> Controls {
        Controls {
            clock: made.clock.into(),
            clear: made.clear.into(),
            reset: made.reset.into(),
            enable: made.enable.into(),
            reset_over_enable: u32::from(made.reset_over_enable),
        }
    }
}

// The answer of a request on the state st: one function for all requests and merges that give no more than the state.
pub fn answer_struct(r: Result<LogState, Refusal>, st: LogState) -> Logged
    ensures { result ≡ logged_struct st r }
{
    let (number, state) = c_net::parts(r, st);
    Logged { number, state }
}

fn net_answer_struct(r: Result<After<Net>, Refusal>, st: LogState) -> NetLogged
    ensures { result ≡ net_struct st (net_answer_of r) }
{
    let made = r.map(|made| (made.value.0, made.state));
    let (number, (net, state)) = c_net::parts(made, (0, st));
    NetLogged { number, net, state }
}

fn controls_answer_struct(
    r: Result<After<net_flip_flop::Controls>, Refusal>,
    st: LogState,
) -> ControlsLogged
    ensures { result ≡ new_controls_struct st (controls_answer_of r) }
{
    let made = r.map(|made| (made.value.into(), made.state));
    let (number, (controls, state)) = c_net::parts(made, (Controls::default(), st));
    ControlsLogged {
        number,
        controls,
        state,
    }
}
