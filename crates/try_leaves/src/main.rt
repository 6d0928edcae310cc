// Tries the functions of logic and value at normal and border inputs. Each lent buffer is filled with a pattern before the call, and every
// word of it is compared after the call, whether the call is refused or accepted.
#![tactic(auto)]

mod consts;
mod nets;
mod values;

use std::io;
use try_kit::tally;

fn try_logic(rt: &impl Print) -> io::Result<()> {
    println!(rt; "trit codes: {}", consts::codes(tally::start()))?;
    println!(rt; "trit tables: {}", consts::tables(tally::start()))?;
    println!(rt;
        "undef tests of constants: {}",
        consts::undefs(tally::start())
    )?;
    println!(rt; "const_slice: {}", consts::slices(tally::start()))?;
    println!(rt; "const_not: {}", consts::nots(tally::start()))?;
    println!(rt; "const_and and const_or: {}", consts::pairs(tally::start()))?;
    println!(rt;
        "const_and and const_or refused: {}",
        consts::pairs_refused(tally::start())
    )?;
    println!(rt;
        "constants into no room: {}",
        consts::no_room(tally::start())
    )
}

fn try_nets(rt: &impl Print) -> io::Result<()> {
    println!(rt; "net_of_cell: {}", nets::cells(tally::start()))?;
    println!(rt; "cell_of_net: {}", nets::drivers(tally::start()))?;
    println!(rt; "good nets and controls: {}", nets::goods(tally::start()))?;
    println!(rt; "the limit of nets: {}", nets::good_limits(tally::start()))?;
    println!(rt; "Pos controls: {}", nets::pos_controls(tally::start()))?;
    println!(rt; "Neg controls: {}", nets::neg_controls(tally::start()))
}

fn try_values(rt: &impl Print) -> io::Result<()> {
    println!(rt; "undef tests of values: {}", values::undefs(tally::start()))?;
    println!(rt; "value_slice: {}", values::slices(tally::start()))?;
    println!(rt; "zext: {}", values::zexts(tally::start()))?;
    println!(rt; "zext refused: {}", values::zexts_refused(tally::start()))?;
    println!(rt; "store_zext: {}", values::stores(tally::start()))?;
    println!(rt; "zext into no room: {}", values::no_room(tally::start()))?;
    println!(rt; "narrower_select: {}", values::selects(tally::start()))
}

fn main(rt: HostRuntime) -> io::Result<()> {
    try_logic(&rt)?;
    try_nets(&rt)?;
    try_values(&rt)
}
