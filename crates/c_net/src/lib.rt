// Trits, constants, nets and controls for callers in C and Rust: numbers, slices and `repr(C)` structs, no enums.
// Here are the structs, what they are in the library's terms, and `parts`, which the answers' structs of all c_ crates are made of; the exported functions
// are in `logic` and `value`.
#![tactic(auto)]

ghost use Rattle.std.specs.Prelude.{◌≡◌};
ghost use Rattle.rules.specs.Refusal.{answer_by};
ghost use Rattle.net_logic.specs.View.{bool_answer};
ghost use Rattle.net_value.specs.View.{control_of, control_answer, net_answer};
ghost use Rattle.c_net.specs.Parts.{parts_of};
ghost use Rattle.c_net.specs.View.{flag_result, value_result, given_control, flagged_control, control_struct, control_result, count_struct};

use net_value::{ControlNet, Net};
use rules::Refusal;
use std::result;

pub mod logic;
pub mod value;

// A refusal's number, or 0 and a value.
#[repr(C)]
#[derive(Clone, Copy)]
pub struct Result {
    pub number: u32,
    pub value: u32,
}

// A net, or its inverse: polarity 0 is Pos, 1 is Neg.
#[repr(C)]
#[derive(Clone, Copy, Default)]
pub struct Control {
    pub polarity: u32,
    pub net: u32,
}

#[repr(C)]
#[derive(Clone, Copy)]
pub struct ControlResult {
    pub number: u32,
    pub control: Control,
}

// What drives a net: a cell of this number, or the constant of this trit code.
#[repr(C)]
#[derive(Clone, Copy)]
pub struct Driver {
    pub is_cell: u32,
    pub value: u32,
}

// The trit code of a net that is a constant.
#[repr(C)]
#[derive(Clone, Copy)]
pub struct Constant {
    pub known: u32,
    pub trit: u32,
}

// A refusal's number, or 0 and how many elements were stored.
#[repr(C)]
#[derive(Clone, Copy)]
pub struct Count {
    pub number: u32,
    pub count: usize,
}

// The control that a struct gives. A polarity above 1 gives Neg(0), which is no control: calls refuse it by 4.
#[tactic(auto, unfolding(crate::specs::View::given_control))]
impl From<Control> for ControlNet {
    ghost from_gives = { λ c r. control_of r ≡ given_control c };

    fn from(c: Control) -> ControlNet {
        match c.polarity {
            0 => ControlNet::Pos(Net(c.net)),
            1 => ControlNet::Neg(Net(c.net)),
            _ => ControlNet::Neg(Net(0)),
        }
    }
}

// The control beside a flag. A flag above 1 gives Neg(0), so that calls refuse it by 4 too.
#[tactic(auto, unfolding(crate::specs::View::flagged_control))]
pub fn flagged_control(c: Control, flag: u32) -> ControlNet
    ensures { control_of result ≡ flagged_control c flag }
{
    if 1 < flag {
        return ControlNet::Neg(Net(0));
    }
    c.into()
}

impl From<ControlNet> for Control {
    ghost from_gives = { λ c r. r ≡ control_struct (control_of c) };

    fn from(c: ControlNet) -> Control {
        match c {
            ControlNet::Pos(n) => Control {
                polarity: 0,
                net: n.0,
            },
            ControlNet::Neg(n) => Control {
                polarity: 1,
                net: n.0,
            },
        }
    }
}

// A refusal's number and a value that stands for none, or 0 and the answer's value: what the answers' structs are made of. Each `.._result` is two lines
// over it: it fills another struct of C.
pub fn parts<T: Copy>(answer: result::Result<T, Refusal>, none: T) -> (u32, T)
    ensures { result ≡ parts_of answer none }
{
    match answer {
        Ok(value) => (0, value),
        Err(refusal) => (refusal.number(), none),
    }
}

// A refusal's number, or 0 and a value.
pub fn number_result(a: result::Result<u32, Refusal>) -> Result
    ensures { result ≡ value_result (answer_by (λ n. n) a) }
{
    let (number, value) = parts(a, 0);
    Result { number, value }
}

pub fn count_result(a: result::Result<usize, Refusal>) -> Count
    ensures { result ≡ count_struct (answer_by (λ n. n) a) }
{
    let (number, count) = parts(a, 0);
    Count { number, count }
}

pub fn flag_result(a: result::Result<bool, Refusal>) -> Result
    ensures { result ≡ flag_result (bool_answer a) }
{
    number_result(a.map(u32::from))
}

fn net_result(a: result::Result<Net, Refusal>) -> Result
    ensures { result ≡ value_result (net_answer a) }
{
    number_result(a.map(|net| net.0))
}

fn control_result(a: result::Result<ControlNet, Refusal>) -> ControlResult
    ensures { result ≡ control_result (control_answer a) }
{
    let (number, control) = parts(a.map(Control::from), Control::default());
    ControlResult { number, control }
}
