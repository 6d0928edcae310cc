// Nets, cells and controls at the borders of what is good.
use net_logic::Trit;
use net_value::{CellIndex, ControlNet, Driver, Net};
use rules::Refusal;
use try_kit::samples::{neg, pos};
use try_kit::tally::{Tally, add};

fn cell_case(t: Tally, index: u32, net: Result<Net, Refusal>) -> Tally {
    add(t, net_value::net_of_cell(CellIndex(index)) == net)
}

pub(crate) fn cells(t: Tally) -> Tally {
    let t = cell_case(t, 0, Ok(Net(2)));
    let t = cell_case(t, 1, Ok(Net(3)));
    let t = cell_case(t, 16777213, Ok(Net(16777215)));
    let t = cell_case(t, 16777214, Err(Refusal::BadValue));
    cell_case(t, 4294967295, Err(Refusal::BadValue))
}

fn constant_case(t: Tally, net: u32, trit: Trit) -> Tally {
    let t = add(
        t,
        net_value::cell_of_net(Net(net)) == Driver::Constant(trit),
    );
    let t = add(t, net_value::net_as_const(Net(net)) == Some(trit));
    add(t, net_value::net_is_const(Net(net)))
}

fn driver_case(t: Tally, net: u32, cell: u32) -> Tally {
    let t = add(
        t,
        net_value::cell_of_net(Net(net)) == Driver::Cell(CellIndex(cell)),
    );
    let t = add(t, net_value::net_as_const(Net(net)).is_none());
    add(t, !net_value::net_is_const(Net(net)))
}

pub(crate) fn drivers(t: Tally) -> Tally {
    let t = constant_case(t, 0, Trit::Zero);
    let t = constant_case(t, 1, Trit::One);
    let t = driver_case(t, 2, 0);
    let t = driver_case(t, 3, 1);
    let t = driver_case(t, 16777215, 16777213);
    let t = driver_case(t, 16777216, 16777214);
    let t = driver_case(t, 4294967294, 4294967292);
    constant_case(t, 4294967295, Trit::Undef)
}

// The four tests of one net: as a net, as Pos and Neg of a control, as Pos of a select.
fn good_case(t: Tally, next: u32, net: u32, plain: bool, as_pos: bool, as_neg: bool) -> Tally {
    let t = add(t, net_value::net_good(next, net) == plain);
    let t = add(t, net_value::control_good(next, pos(net)) == as_pos);
    let t = add(t, net_value::control_good(next, neg(net)) == as_neg);
    let t = add(t, net_value::select_good(next, pos(net)) == plain);
    add(t, net_value::select_good(next, neg(net)) == as_neg)
}

pub(crate) fn goods(t: Tally) -> Tally {
    let t = good_case(t, 5, 0, true, true, false);
    let t = good_case(t, 5, 1, true, true, false);
    let t = good_case(t, 5, 2, true, true, true);
    let t = good_case(t, 5, 4, true, true, true);
    let t = good_case(t, 5, 5, false, false, false);
    let t = good_case(t, 5, 16777215, false, false, false);
    let t = good_case(t, 5, 4294967295, true, false, false);
    let t = good_case(t, 0, 1, true, true, false);
    good_case(t, 0, 2, false, false, false)
}

// At the limit of nets, also where the next free net lies past it.
pub(crate) fn good_limits(t: Tally) -> Tally {
    let t = good_case(t, 16777216, 16777215, true, true, true);
    let t = good_case(t, 16777216, 16777216, false, false, false);
    let t = good_case(t, 4294967295, 16777215, true, true, true);
    let t = good_case(t, 4294967295, 16777216, false, false, false);
    let t = good_case(t, 4294967295, 4294967294, false, false, false);
    good_case(t, 4294967295, 4294967295, true, false, false)
}

// The inverse, and the tests for 0 and for 1.
fn control_case(t: Tally, c: ControlNet, inverse: ControlNet, zero: bool, one: bool) -> Tally {
    let t = add(t, net_value::control_not(c) == Ok(inverse));
    let t = add(t, net_value::control_is_always(c, false) == Ok(zero));
    add(t, net_value::control_is_always(c, true) == Ok(one))
}

fn bad_control(t: Tally, c: ControlNet) -> Tally {
    let bad = Err(Refusal::BadValue);
    let t = add(
        t,
        net_value::control_not(c).err() == Some(Refusal::BadValue),
    );
    let t = add(t, net_value::control_is_always(c, false) == bad);
    add(t, net_value::control_is_always(c, true) == bad)
}

pub(crate) fn pos_controls(t: Tally) -> Tally {
    let t = control_case(t, pos(0), pos(1), true, false);
    let t = control_case(t, pos(1), pos(0), false, true);
    let t = control_case(t, pos(2), neg(2), false, false);
    let t = control_case(t, pos(16777215), neg(16777215), false, false);
    let t = bad_control(t, pos(16777216));
    bad_control(t, pos(4294967295))
}

pub(crate) fn neg_controls(t: Tally) -> Tally {
    let t = bad_control(t, neg(0));
    let t = bad_control(t, neg(1));
    let t = control_case(t, neg(2), pos(2), false, false);
    let t = control_case(t, neg(16777215), pos(16777215), false, false);
    let t = bad_control(t, neg(16777216));
    bad_control(t, neg(4294967295))
}
