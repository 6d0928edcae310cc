// value.rs: nets, cells, control nets and values. A value is a slice of net numbers.
#![tactic(auto)]

ghost use Rattle.std.specs.Prelude.{◌≡◌, ◌+◌, ◌-◌, ltb};
ghost use Rattle.std.proofs.lemmas.List.Edits.{sets};
ghost use Rattle.lists.specs.Choice.{when◌then◌else◌};
ghost use Rattle.lists.specs.Lists.{all};
ghost use Rattle.rules.specs.Value.{is_cell_net, good_net, good_value, good_control, good_select, driver_of, inverse, is_always, zext};
ghost use Rattle.rules.specs.Refusals.{zext_refusal, narrower_select_refusal};
ghost use Rattle.rules.specs.Answers.{net_of_cell_call, inverse_call, is_always_call, value_is_undef_call, slice_call, zext_call, narrower_select_call, filled_with};
ghost use Rattle.rules.specs.Refusal.{number_of};
ghost use Rattle.net_logic.specs.View.{bool_answer, given_part};
ghost use Rattle.net_value.specs.View.{control_of, net_answer, control_answer, driver_view, const_view, is_const, as_const, bool_net, is_x};

use net_logic::Trit;
use rules::Refusal;

// A net's number: 0, 1, X, or the first-cell offset and a cell's number.
#[derive(Clone, Copy, Debug, PartialEq, Eq)]
pub struct Net(pub u32);

// A cell's number.
#[derive(Clone, Copy, Debug, PartialEq, Eq)]
pub struct CellIndex(pub u32);

// A net, or its inverse.
#[derive(Clone, Copy, Debug, PartialEq, Eq)]
pub enum ControlNet {
    Pos(Net),
    Neg(Net),
}

// What drives a net: a constant, or a cell.
#[derive(Clone, Copy, Debug, PartialEq, Eq)]
pub enum Driver {
    Constant(Trit),
    Cell(CellIndex),
}

// The net of a cell, which adds the first-cell offset, or number 4.
#[tactic(auto, unfolding(rules::specs::Answers::net_of_cell_call, rules::specs::Answers::answer_of, rules::specs::Refusals::net_of_cell_refusal, rules::specs::Value::net_of_cell))]
pub fn net_of_cell(c: CellIndex) -> Result<Net, Refusal>
    ensures { net_answer result ≡ net_of_cell_call c.0 }
{
    if rules::MAX_NETS - rules::FIRST_CELL <= c.0 {
        return Err(Refusal::BadValue);
    }
    Ok(Net(rules::FIRST_CELL + c.0))
}

// The cell of a net, which takes the first-cell offset away, or the constant that the net is.
#[tactic(auto, unfolding(rules::specs::Value::driver_of, rules::specs::Logic::trit_of))]
pub fn cell_of_net(n: Net) -> Driver
    ensures { driver_view result ≡ driver_of n.0 }
{
    match n.0 {
        rules::NET_X => Driver::Constant(Trit::Undef),
        0 => Driver::Constant(Trit::Zero),
        1 => Driver::Constant(Trit::One),
        cell => Driver::Cell(CellIndex(cell - rules::FIRST_CELL)),
    }
}

// Whether the net is a constant.
pub fn net_is_const(n: Net) -> bool
    ensures { result ≡ is_const (driver_of n.0) }
{
    matches!(cell_of_net(n), Driver::Constant(_))
}

// The constant that a net is, where it is one.
pub fn net_as_const(n: Net) -> Option<Trit>
    ensures { const_view result ≡ as_const (driver_of n.0) }
{
    match cell_of_net(n) {
        Driver::Constant(t) => Some(t),
        Driver::Cell(_) => None,
    }
}

// A net that is no constant, below the next free net and its limit.
#[tactic(auto, unfolding(rules::specs::Value::is_cell_net))]
fn cell_net_good(next: u32, n: u32) -> bool
    ensures { result ≡ is_cell_net next n }
{
    rules::FIRST_CELL <= n && n < next && n < rules::MAX_NETS
}

// A constant, or a net below the next free net and its limit.
#[tactic(auto, unfolding(rules::specs::Value::good_net))]
pub fn net_good(next: u32, n: u32) -> bool
    ensures { result ≡ good_net next n }
{
    n < rules::FIRST_CELL || n == rules::NET_X || cell_net_good(next, n)
}

// Every net of a value is good.
#[tactic(auto, unfolding(rules::specs::Value::good_value))]
pub fn value_good(next: u32, v: &[u32]) -> bool
    ensures { result ≡ good_value next v.now }
{
    v.iter().all(|n| net_good(next, *n))
}

// A control: Pos of 0, 1 or a cell's net, Neg of a cell's net.
#[tactic(auto, unfolding(rules::specs::Value::good_control))]
pub fn control_good(next: u32, c: ControlNet) -> bool
    ensures { result ≡ good_control next (control_of c) }
{
    match c {
        ControlNet::Pos(n) => n.0 < rules::FIRST_CELL || cell_net_good(next, n.0),
        ControlNet::Neg(n) => cell_net_good(next, n.0),
    }
}

// A mux select, which may also be X.
#[tactic(auto, unfolding(rules::specs::Value::good_select))]
pub fn select_good(next: u32, c: ControlNet) -> bool
    ensures { result ≡ good_select next (control_of c) }
{
    match c {
        ControlNet::Pos(n) => net_good(next, n.0),
        ControlNet::Neg(n) => cell_net_good(next, n.0),
    }
}

// The inverse of a control. Of a constant it is the other constant.
#[tactic(auto, unfolding(rules::specs::Value::inverse))]
pub fn inverse(c: ControlNet) -> ControlNet
    ensures { control_of result ≡ inverse (control_of c) }
{
    match c {
        ControlNet::Pos(Net(0)) => ControlNet::Pos(Net(1)),
        ControlNet::Pos(Net(1)) => ControlNet::Pos(Net(0)),
        ControlNet::Pos(n) => ControlNet::Neg(n),
        ControlNet::Neg(n) => ControlNet::Pos(n),
    }
}

// The inverse of a control, or number 4.
#[tactic(auto, unfolding(rules::specs::Answers::inverse_call, rules::specs::Answers::answer_of, rules::specs::Refusals::control_refusal, rules::specs::Conditions::bad_control))]
pub fn control_not(c: ControlNet) -> Result<ControlNet, Refusal>
    ensures { control_answer result ≡ inverse_call (control_of c) }
{
    if !control_good(rules::MAX_NETS, c) {
        return Err(Refusal::BadValue);
    }
    Ok(inverse(c))
}

// The control is 0 or 1 for ever.
#[tactic(auto, unfolding(rules::specs::Value::is_always, rules::specs::Value::same_control))]
pub fn is_always(c: ControlNet, v: bool) -> bool
    ensures { result ≡ is_always (bool_net v) (control_of c) }
{
    match c {
        ControlNet::Pos(n) if v => n.0 == 1,
        ControlNet::Pos(n) => n.0 == 0,
        ControlNet::Neg(_) => false,
    }
}

// The control is 0 or 1 for ever, or number 4.
#[tactic(auto, unfolding(rules::specs::Answers::is_always_call, rules::specs::Answers::answer_of, rules::specs::Refusals::control_refusal, rules::specs::Conditions::bad_control))]
pub fn control_is_always(c: ControlNet, v: bool) -> Result<bool, Refusal>
    ensures { bool_answer result ≡ is_always_call (bool_net v) (control_of c) }
{
    if !control_good(rules::MAX_NETS, c) {
        return Err(Refusal::BadValue);
    }
    Ok(is_always(c, v))
}

// Every net is X. An empty value is undef.
pub fn is_undef(v: &[u32]) -> bool
    ensures { result ≡ all is_x v.now }
{
    v.iter().all(|n| *n == rules::NET_X)
}

// Every net is X, or number 4.
#[tactic(auto, unfolding(rules::specs::Answers::value_is_undef_call, rules::specs::Answers::answer_of, rules::specs::Refusals::value_refusal, rules::specs::Conditions::bad_value))]
pub fn value_is_undef(v: &[u32]) -> Result<bool, Refusal>
    ensures { bool_answer result ≡ value_is_undef_call v.now }
{
    if !value_good(rules::MAX_NETS, v) {
        return Err(Refusal::BadValue);
    }
    Ok(is_undef(v))
}

// The part itself, no copy; where `net_logic::slice_refusal` refuses it, the empty part.
#[tactic(auto, unfolding(rules::specs::Answers::slice_call, rules::specs::Answers::answer_of, rules::specs::Refusals::slice_refusal))]
pub fn value_slice(v: &[u32], start: usize, end: usize) -> &[u32]
    ensures { result.now ≡ given_part (slice_call start end v.now) }
{
    if net_logic::slice_refusal(start, end, v.len()).is_err() {
        return &v[..0];
    }
    &v[start..end]
}

// Stores the value and then net 0 up to n nets. What lies past the end of the lent array is not stored.
pub fn store_zext(out: &mut [u32], v: &[u32], n: usize)
    ensures { out.new ≡ sets out.old 0 (zext v.now n) }
{
    lists::copy(out, 0, v);
    if v.len() < n {
        lists::fill(out, v.len(), n - v.len(), 0);
    }
}

#[tactic(auto, unfolding(rules::specs::Refusals::zext_refusal, rules::specs::Conditions::bad_value, rules::specs::Conditions::no_room_of))]
fn zext_refusal(room: usize, v: &[u32], n: usize) -> Result<(), Refusal>
    ensures { number_of result ≡ zext_refusal room v.now n }
{
    if n < v.len() {
        return Err(Refusal::BadShape);
    }
    if !value_good(rules::MAX_NETS, v) {
        return Err(Refusal::BadValue);
    }
    if room < n {
        return Err(Refusal::NoRoom);
    }
    Ok(())
}

// The value filled up with net 0 to n nets, or number 2, 4 or 20.
#[tactic(auto, using(rules::proofs::Answers::filled_err, rules::proofs::Answers::filled_ok), unfolding(rules::specs::Answers::zext_call))]
pub fn zext(out: &mut [u32], v: &[u32], n: usize) -> Result<(), Refusal>
    ensures { filled_with (number_of result) out.new ≡ zext_call out.old v.now n }
{
    zext_refusal(out.len(), v, n)?;
    store_zext(out, v, n);
    Ok(())
}

// What refuses the select bits: 14 where the narrower port has too few address bits.
#[tactic(auto, unfolding(rules::specs::Refusals::narrower_select_refusal, rules::specs::Conditions::too_few_bits))]
pub fn narrower_select_refusal(
    waddr: &[u32],
    raddr: &[u32],
    kw: u32,
    kr: u32,
) -> Result<(), Refusal>
    ensures { number_of result ≡ narrower_select_refusal kw kr waddr.now raddr.now }
{
    let (narrower, bits) = narrower_of(waddr, raddr, kw, kr);
    if narrower.len() < bits {
        return Err(Refusal::ShortAddress);
    }
    Ok(())
}

// The narrower port's address, and how many bits select among its places in the wider port's row.
fn narrower_of<'a>(waddr: &'a [u32], raddr: &'a [u32], kw: u32, kr: u32) -> (&'a [u32], usize)
    ensures address { result.0.now ≡ (when ltb kw kr then waddr.now else raddr.now) }
    ensures bits { result.1 ≡ (kr - kw) + (kw - kr) }
{
    if kw < kr {
        (waddr, (kr - kw) as usize)
    } else {
        (raddr, (kw - kr) as usize)
    }
}

// The select bits: the low part of the narrower port's address, no copy; where they are refused, the empty part.
#[tactic(auto, unfolding(rules::specs::Answers::narrower_select_call, rules::specs::Answers::answer_of, rules::specs::Refusals::narrower_select_refusal, rules::specs::Conditions::too_few_bits, rules::specs::Ports::narrower_select))]
pub fn narrower_select<'a>(waddr: &'a [u32], raddr: &'a [u32], kw: u32, kr: u32) -> &'a [u32]
    ensures { result.now ≡ given_part (narrower_select_call kw kr waddr.now raddr.now) }
{
    if narrower_select_refusal(waddr, raddr, kw, kr).is_err() {
        return &raddr[..0];
    }
    let (narrower, bits) = narrower_of(waddr, raddr, kw, kr);
    &narrower[..bits]
}
