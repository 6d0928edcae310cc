// cell/flip_flop.rs: the controls that a flip-flop and a clocked read port share, a flip-flop's parts, and the tests and words of the controls.
#![tactic(auto)]

ghost use Rattle.std.specs.Prelude.{◌≡◌};
ghost use Rattle.rules.specs.Value.{control_words};
ghost use Rattle.rules.specs.Cell.{plain_controls};
ghost use Rattle.rules.specs.Conditions.{bad_controls};
ghost use Rattle.net_value.specs.View.{control_of};
ghost use Rattle.rules.specs.Beside.Decode.{controls_words};
ghost use Rattle.net_flip_flop.specs.View.{controls_of};

use net_value::{ControlNet, Net};

// What a flip-flop and a clocked read port share.
#[derive(Clone, Copy, Debug, PartialEq, Eq)]
pub struct Controls {
    pub clock: ControlNet,
    pub clear: ControlNet,
    pub reset: ControlNet,
    pub enable: ControlNet,
    pub reset_over_enable: bool,
}

// A flip-flop: its controls and data, and the trits that a clear, a reset and the start give.
#[derive(Clone, Copy)]
pub struct FlipFlop<'a> {
    pub controls: Controls,
    pub bits: &'a [u32],
    pub clear: &'a [u8],
    pub reset: &'a [u8],
    pub init: &'a [u8],
}

// A control's two words: 0 Pos or 1 Neg, and the net.
#[tactic(auto, unfolding(rules::specs::Value::control_words))]
pub fn control_words(c: ControlNet) -> [u32; 2]
    ensures { result ≡ control_words (control_of c) }
{
    match c {
        ControlNet::Pos(n) => [0, n.0],
        ControlNet::Neg(n) => [1, n.0],
    }
}

impl Controls {
    // Nothing but a clock.
    #[tactic(auto, unfolding(rules::specs::Cell::plain_controls))]
    pub fn plain(clock: ControlNet) -> Controls
        ensures { controls_of result ≡ plain_controls (control_of clock) }
    {
        Controls {
            clock,
            clear: ControlNet::Pos(Net(0)),
            reset: ControlNet::Pos(Net(0)),
            enable: ControlNet::Pos(Net(1)),
            reset_over_enable: false,
        }
    }

    // Whether some control is bad below the next free net.
    #[tactic(auto, unfolding(rules::specs::Conditions::bad_controls, rules::specs::Conditions::bad_control))]
    pub fn is_bad(self, next: u32) -> bool
        ensures { result ≡ bad_controls next (controls_of self) }
    {
        !net_value::control_good(next, self.clock)
            || !net_value::control_good(next, self.clear)
            || !net_value::control_good(next, self.reset)
            || !net_value::control_good(next, self.enable)
    }

    // The words of the controls in a flip-flop's entry.
    #[tactic(auto, using(crate::proofs::Words::nine, crate::proofs::Words::flag_byte))]
    pub fn words(self) -> [u32; 9]
        ensures { result ≡ controls_words (controls_of self) }
    {
        let [clock, clock_net] = control_words(self.clock);
        let [clear, clear_net] = control_words(self.clear);
        let [reset, reset_net] = control_words(self.reset);
        let [enable, enable_net] = control_words(self.enable);
        let over = u32::from(self.reset_over_enable);
        [
            clock, clock_net, clear, clear_net, reset, reset_net, enable, enable_net, over,
        ]
    }
}
