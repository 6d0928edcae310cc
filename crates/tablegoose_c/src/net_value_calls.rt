// The exported functions of `value` of c_net. Made by scripts/exports.py.
ghost use Rattle.std.specs.Prelude.{◌≡◌};
ghost use Rattle.rules.specs.Value.{driver_of};
ghost use Rattle.rules.specs.Answers.{net_of_cell_call, inverse_call, is_always_call, value_is_undef_call, zext_call, filled_with};
ghost use Rattle.net_value.specs.View.{is_const, as_const, bool_net};
ghost use Rattle.c_net.specs.View.{flag_code, is_set, flag_result, value_result, given_control, flagged_control, control_result, driver_struct, constant_struct, count_struct};
ghost use Rattle.c_net.specs.Calls.{narrower_select_in};

use c_net::{Constant, Control, ControlResult, Count, Driver, Result};

#[unsafe(no_mangle)]
pub extern "C" fn tablegoose_net_of_cell(cell: u32) -> Result
    ensures { result ≡ value_result (net_of_cell_call cell) }
{
    c_net::value::tablegoose_net_of_cell(cell)
}

#[unsafe(no_mangle)]
pub extern "C" fn tablegoose_cell_of_net(net: u32) -> Driver
    ensures { result ≡ driver_struct (driver_of net) }
{
    c_net::value::tablegoose_cell_of_net(net)
}

#[unsafe(no_mangle)]
pub extern "C" fn tablegoose_net_is_const(net: u32) -> u32
    ensures { result ≡ flag_code (is_const (driver_of net)) }
{
    c_net::value::tablegoose_net_is_const(net)
}

#[unsafe(no_mangle)]
pub extern "C" fn tablegoose_net_as_const(net: u32) -> Constant
    ensures { result ≡ constant_struct (as_const (driver_of net)) }
{
    c_net::value::tablegoose_net_as_const(net)
}

#[unsafe(no_mangle)]
pub extern "C" fn tablegoose_control_not(c: Control) -> ControlResult
    ensures { result ≡ control_result (inverse_call (given_control c)) }
{
    c_net::value::tablegoose_control_not(c)
}

#[unsafe(no_mangle)]
pub extern "C" fn tablegoose_control_is_always(c: Control, v: u32) -> Result
    ensures { result ≡ flag_result (is_always_call (bool_net (is_set v)) (flagged_control c v)) }
{
    c_net::value::tablegoose_control_is_always(c, v)
}

#[unsafe(no_mangle)]
pub extern "C" fn tablegoose_value_is_undef(v: &[u32]) -> Result
    ensures { result ≡ flag_result (value_is_undef_call v.now) }
{
    c_net::value::tablegoose_value_is_undef(v)
}

#[unsafe(no_mangle)]
pub extern "C" fn tablegoose_zext(out: &mut [u32], v: &[u32], n: usize) -> u32
    ensures { filled_with result out.new ≡ zext_call out.old v.now n }
{
    c_net::value::tablegoose_zext(out, v, n)
}

#[unsafe(no_mangle)]
pub extern "C" fn tablegoose_narrower_select<'a>(
    out: &mut [u32],
    waddr: &'a [u32],
    raddr: &'a [u32],
    kw: u32,
    kr: u32,
) -> Count
    ensures value { result ≡ count_struct (narrower_select_in out.old kw kr waddr.now raddr.now).answer }
    ensures out_after { out.new ≡ (narrower_select_in out.old kw kr waddr.now raddr.now).out }
{
    c_net::value::tablegoose_narrower_select(out, waddr, raddr, kw, kr)
}
