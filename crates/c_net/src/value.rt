// value.rs for callers in C and Rust: nets are numbers, values slices of them, controls structs.
ghost use Rattle.std.specs.Prelude.{◌≡◌, length};
ghost use Rattle.rules.specs.Value.{driver_of};
ghost use Rattle.rules.specs.Refusals.{lent_refusal};
ghost use Rattle.rules.specs.Refusal.{answer_by};
ghost use Rattle.rules.specs.Answers.{net_of_cell_call, inverse_call, is_always_call, value_is_undef_call, zext_call, filled_with, listed_in};
ghost use Rattle.net_value.specs.View.{is_const, as_const, bool_net};
ghost use Rattle.c_net.specs.View.{flag_code, is_set, flag_result, value_result, given_control, flagged_control, control_result, driver_struct, constant_struct, count_struct};
ghost use Rattle.c_net.specs.Calls.{narrower_select_in};

use crate::{Constant, Control, ControlResult, Count, Driver, Result};
use net_value::{CellIndex, Net};
use rules::Refusal;
use std::result;

pub fn tablegoose_net_of_cell(cell: u32) -> Result
    ensures { result ≡ value_result (net_of_cell_call cell) }
{
    crate::net_result(net_value::net_of_cell(CellIndex(cell)))
}

pub fn tablegoose_cell_of_net(net: u32) -> Driver
    ensures { result ≡ driver_struct (driver_of net) }
{
    match net_value::cell_of_net(Net(net)) {
        net_value::Driver::Constant(t) => Driver {
            is_cell: 0,
            value: u32::from(u8::from(t)),
        },
        net_value::Driver::Cell(c) => Driver {
            is_cell: 1,
            value: c.0,
        },
    }
}

pub fn tablegoose_net_is_const(net: u32) -> u32
    ensures { result ≡ flag_code (is_const (driver_of net)) }
{
    u32::from(net_value::net_is_const(Net(net)))
}

pub fn tablegoose_net_as_const(net: u32) -> Constant
    ensures { result ≡ constant_struct (as_const (driver_of net)) }
{
    match net_value::net_as_const(Net(net)) {
        None => Constant { known: 0, trit: 0 },
        Some(t) => Constant {
            known: 1,
            trit: u32::from(u8::from(t)),
        },
    }
}

pub fn tablegoose_control_not(c: Control) -> ControlResult
    ensures { result ≡ control_result (inverse_call (given_control c)) }
{
    crate::control_result(net_value::control_not(c.into()))
}

// The control is v for ever: v is 0 or 1, and refused by 4 above.
pub fn tablegoose_control_is_always(c: Control, v: u32) -> Result
    ensures { result ≡ flag_result (is_always_call (bool_net (is_set v)) (flagged_control c v)) }
{
    let given = crate::flagged_control(c, v);
    crate::flag_result(net_value::control_is_always(given, v == 1))
}

pub fn tablegoose_value_is_undef(v: &[u32]) -> Result
    ensures { result ≡ flag_result (value_is_undef_call v.now) }
{
    crate::flag_result(net_value::value_is_undef(v))
}

pub fn tablegoose_zext(out: &mut [u32], v: &[u32], n: usize) -> u32
    ensures { filled_with result out.new ≡ zext_call out.old v.now n }
{
    rules::number_of(net_value::zext(out, v, n))
}

// Stores a list in lent room and gives its length, or 20 where it does not fit.
#[tactic(auto, unfolding(rules::specs::Answers::answer_of, rules::specs::Conditions::no_room_of, lists::specs::Choice::leaves))]
fn store_list(out: &mut [u32], list: &[u32]) -> result::Result<usize, Refusal>
    ensures value { answer_by (λ n. n) result ≡ (listed_in (lent_refusal (length out.old) (length list.now)) out.old list.now).answer }
    ensures out_after { out.new ≡ (listed_in (lent_refusal (length out.old) (length list.now)) out.old list.now).out }
{
    if out.len() < list.len() {
        return Err(Refusal::NoRoom);
    }
    lists::copy(out, 0, list);
    Ok(list.len())
}

// The select bits in lent room: 14, and 20 where they do not fit it.
#[tactic(auto, using(rules::proofs::Answers::answer_err, rules::proofs::Answers::left_err, rules::proofs::Answers::else_err), unfolding(crate::specs::Calls::narrower_select_in))]
fn narrower_select_in<'a>(
    out: &mut [u32],
    waddr: &'a [u32],
    raddr: &'a [u32],
    kw: u32,
    kr: u32,
) -> result::Result<usize, Refusal>
    ensures value { answer_by (λ n. n) result ≡ (narrower_select_in out.old kw kr waddr.now raddr.now).answer }
    ensures out_after { out.new ≡ (narrower_select_in out.old kw kr waddr.now raddr.now).out }
{
    net_value::narrower_select_refusal(waddr, raddr, kw, kr)?;
    store_list(out, net_value::narrower_select(waddr, raddr, kw, kr))
}

pub fn tablegoose_narrower_select<'a>(
    out: &mut [u32],
    waddr: &'a [u32],
    raddr: &'a [u32],
    kw: u32,
    kr: u32,
) -> Count
    ensures value { result ≡ count_struct (narrower_select_in out.old kw kr waddr.now raddr.now).answer }
    ensures out_after { out.new ≡ (narrower_select_in out.old kw kr waddr.now raddr.now).out }
{
    crate::count_result(narrower_select_in(out, waddr, raddr, kw, kr))
}
