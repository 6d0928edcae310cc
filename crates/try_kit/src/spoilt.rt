// What is bad in a case of a request: a net of a value, the select or a control, a trit code, the room; and controls and trits of which one may be bad.
ghost use Rattle.std.specs.Prelude.{◌≡◌, length};
ghost use Rattle.lists.specs.Choice.{when◌then◌else◌};
ghost use Rattle.try_kit.specs.Paint.{pattern_of, trit_at_of};
ghost use Rattle.net_value.specs.declared.ControlNet.TheVariants.{Pos, Neg};
ghost use Rattle.try_kit.specs.Spoilt.{select_in, controls_in, trits_in};

use crate::nets::select_of;
use crate::paint::fill_trits;
use net_flip_flop::Controls;
use net_value::{ControlNet, Net};

#[derive(Clone, Copy, Debug, PartialEq, Eq)]
pub enum Bad {
    Nothing,
    First,
    Second,
    Control,
    Trit,
    // the room for results is one net short
    Room,
}

const BAD_CODE: u8 = 3;

// The select, or no control: Neg of a constant.
pub fn select_in(neg: bool, bad: bool) -> ControlNet
    ensures { result ≡ select_in neg bad }
{
    control_or(bad, select_of(neg))
}

fn control_or(bad: bool, good: ControlNet) -> ControlNet
    ensures { result ≡ (when bad then Neg (record { 0 = 0 }) else good) }
{
    if bad {
        return ControlNet::Neg(Net(0));
    }
    good
}

// Clock Pos 2, clear Pos 0, reset Neg 2, enable Pos 1, the reset over the enable where `over` says. The control of number `bad` below 4 is none.
pub fn controls_in(over: bool, bad: u32) -> Controls
    ensures { result ≡ controls_in over bad }
{
    Controls {
        clock: control_or(bad == 0, ControlNet::Pos(Net(2))),
        clear: control_or(bad == 1, ControlNet::Pos(Net(0))),
        reset: control_or(bad == 2, ControlNet::Neg(Net(2))),
        enable: control_or(bad == 3, ControlNet::Pos(Net(1))),
        reset_over_enable: over,
    }
}

// Trits 0, 1, 2, 0 and so on, with a bad code at a place where `bad` says.
pub fn set_trits(trits: &mut [u8], bad: bool, place: usize)
    ensures { trits.new ≡ trits_in (length trits.old) bad place }
{
    fill_trits(trits);
    if bad {
        lists::put(trits, place, BAD_CODE);
    }
}
