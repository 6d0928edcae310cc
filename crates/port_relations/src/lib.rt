// The numbers of emulate_read_before_write: 1 to 4, 12 and 13 by the clocks and relations of the read ports, and 22.
#![tactic(auto)]

ghost use Rattle.std.specs.Prelude.{◌≡◌, ◌&&◌, List, ℕ, get_or, not};
ghost use Rattle.std.specs.List.{range_with_len};
ghost use Rattle.lists.specs.Choice.{when◌then◌else◌, ◌or_else◌};
ghost use Rattle.lists.specs.Lists.{any, part};
ghost use Rattle.rules.specs.Conditions.{unclocked};
ghost use Rattle.rules.specs.Refusal.{number_of};
ghost use Rattle.rules.specs.Refusals.{emulate_number};
ghost use Rattle.net_value.specs.View.{control_of};
ghost use Rattle.net_memory.specs.declared.MemoryReadPort.{MemoryReadPort};
ghost use Rattle.net_memory.specs.Ports.{code_of};
ghost use Rattle.net_memory.specs.Given.{clocked, view_given, mem_of};
ghost use Rattle.port_relations.specs.Clocked.{port_differs, clocks_differ_of, has_relation, port_relates, mixed_ports, flip_flops_from};

use net_check::Breaks;
use net_memory::{Given, Memory, MemoryPortRelation, MemoryReadPort};
use net_value::ControlNet;
use rules::Refusal;

// The port is clocked, and not by this clock.
#[tactic(auto, unfolding(rules::specs::Value::same_control))]
fn port_differs(p: MemoryReadPort, clock: ControlNet) -> bool
    ensures { result ≡ port_differs (control_of clock) p }
{
    p.flip_flop.is_some_and(|c| c.clock != clock)
}

// One of these ports is clocked by another clock.
fn any_differs(ports: &[MemoryReadPort], clock: ControlNet) -> bool
    ensures { result ≡ any (port_differs (control_of clock)) ports.now }
{
    ports.iter().any(|port| port_differs(*port, clock))
}

// Two clocked ports of these have different clocks.
fn clocks_differ(ports: &[MemoryReadPort]) -> bool
    ensures { result ≡ clocks_differ_of ports.now }
{
    let Some((port, rest)) = ports.split_first() else {
        return false;
    };
    match port.flip_flop {
        Some(c) => any_differs(rest, c.clock),
        None => clocks_differ(rest),
    }
}

// The code of a port's relation to write port j; Undefined where it names none.
fn relation_to(p: MemoryReadPort, j: usize) -> u8
    ensures { result ≡ get_or (part 0 p.relations_len p.relations) j 0 }
{
    let undefined = u8::from(MemoryPortRelation::Undefined);
    p.relations().get(j).copied().unwrap_or(undefined)
}

// The port is clocked, and has the relation of this code to write port j.
fn port_relates(p: MemoryReadPort, j: usize, code: u8) -> bool
    ensures { result ≡ port_relates code j p }
{
    p.flip_flop.is_some() && relation_to(p, j) == code
}

// One of these ports is clocked, and has the relation of this code to write port j.
fn any_has(ports: &[MemoryReadPort], j: usize, code: u8) -> bool
    ensures { result ≡ any (port_relates code j) ports.now }
{
    ports.iter().any(|port| port_relates(*port, j, code))
}

// One of these ports is clocked, and has this relation to write port j.
pub fn any_relates(ports: &[MemoryReadPort], j: usize, relation: MemoryPortRelation) -> bool
    ensures { result ≡ any (port_relates (code_of relation) j) ports.now }
{
    any_has(ports, j, u8::from(relation))
}

// Some clocked read port has the relation of this code to write port j; any code.
pub fn relates_to(m: &Memory, j: usize, code: u8) -> bool
    ensures { (nets trits : List ℕ) → result ≡ any (has_relation code j) (flip_flops_from m.now nets trits 0) }
{
    let count = net_memory::ports_used(m.read_count);
    any_has(&m.read_ports[..count], j, code)
}

// Both ReadBeforeWrite and Transparent relate these ports to write port j.
fn ports_mixed(ports: &[MemoryReadPort], j: usize) -> bool
    ensures { result ≡ mixed_ports ports.now j }
{
    any_relates(ports, j, MemoryPortRelation::ReadBeforeWrite)
        && any_relates(ports, j, MemoryPortRelation::Transparent)
}

// Both relate them to one of so many write ports.
fn any_mixed(ports: &[MemoryReadPort], count: usize) -> bool
    ensures { result ≡ any (mixed_ports ports.now) (range_with_len 0 count) }
{
    (0..count).any(|j| ports_mixed(ports, j))
}

// One of these ports has no flip-flop.
fn any_unclocked(ports: &[MemoryReadPort]) -> bool
    ensures { result ≡ any (λ (p : MemoryReadPort). not (clocked p.flip_flop)) ports.now }
{
    ports.iter().any(|port| port.flip_flop.is_none())
}

// 1 to 4, 12, 13 and 22.
pub fn input_refusal(given: Given<'_>, next: u32) -> Result<(), Refusal>
    ensures { number_of result ≡ (emulate_number next (view_given given.entry) or_else (when any unclocked (mem_of given.entry).reads then 22 else 0)) }
{
    net_check::call_refusal(given, next, Breaks::NOTHING)?;
    let ports = &given.memory.read_ports[..net_memory::ports_used(given.memory.read_count)];
    if clocks_differ(ports) {
        return Err(Refusal::ReadClocksDiffer);
    }
    if any_mixed(ports, net_memory::ports_used(given.memory.write_count)) {
        return Err(Refusal::MixedRelations);
    }
    if any_unclocked(ports) {
        return Err(Refusal::Unclocked);
    }
    Ok(())
}
