// memory/src/lib.rs: all flip-flops of a memory's read ports unmapped. Each port is emitted from the memory and the outputs as given; the outputs
// after stand in a room that is lent.
#![tactic(auto)]

ghost use Rattle.std.specs.Prelude.{◌≡◌, List, ℕ, ◌<◌, min};
ghost use Rattle.std.proofs.Math.Option.{some};
ghost use Rattle.std.proofs.lemmas.List.Edits.{sets};
ghost use Rattle.rules.specs.Limits.{max_ports};
ghost use Rattle.rules.specs.Conditions.{short_ports};
ghost use Rattle.log_entries.specs.View.{lent_of};
ghost use Rattle.port_transparency.specs.Gave.{Gave};
ghost use Rattle.port_unmap.specs.Ready.{flip_flop_in};
ghost use Rattle.port_unmap_all.specs.All.{unmapped_of, unmapped_at, unmapped_all};
ghost use Rattle.net_memory.specs.Given.{mem_of};
ghost use Rattle.net_memory.specs.View.{memory_of};

use log_entries::Log;
use net_memory::Given;
use port_transparency::Overlay;
use port_unmap::Clocked;

// Some transparent pair of a clocked read port has too few address bits.
pub fn ports_short(given: Given<'_>) -> bool
    ensures { (trits : List ℕ) → result ≡ short_ports (memory_of given.entry.memory given.entry.nets.now trits) }
{
    (0..net_memory::ports_used(given.memory.read_count)).any(|i| port_unmap::port_short(given, i))
}

// A clocked port, and its void nets in its place among the outputs after. (The room for overlays and that for the outputs after are lent apart, here and
// below: callers have both among rooms of their own.)
fn emit_clocked(
    log: &mut Log,
    overlay: &mut Overlay,
    after: &mut [u32],
    port: Clocked<'_>,
    output: &[u32],
)
    requires { port.i < min max_ports port.given.memory.read_count }
    ensures { Gave (unmapped_of (some (flip_flop_in port.entry)) (mem_of port.entry.given) port.entry.i output.now after.old) (lent_of log.old) (lent_of log.new) after.new }
{
    if rules::MAX_MERGE < net_memory::read_data_len(&port.given.memory, port.i) {
        return;
    }
    let first = log.state.next;
    let last = port.emit(log, overlay, output);
    let start = net_memory::output_start(&port.given.memory, port.i);
    lists::store_run(after, start, first, last);
}

// Port i; without a flip-flop nothing is done.
fn emit_at(
    log: &mut Log,
    overlay: &mut Overlay,
    after: &mut [u32],
    given: Given<'_>,
    i: usize,
    output: &[u32],
)
    requires { i < min max_ports given.memory.read_count }
    ensures { Gave (unmapped_at (mem_of given.entry) i output.now after.old) (lent_of log.old) (lent_of log.new) after.new }
{
    if let Some(controls) = given.read_port(i).port.flip_flop {
        let port = Clocked { given, i, controls };
        emit_clocked(log, overlay, after, port, output);
    }
}

// One port after the other.
fn emit_ports(
    log: &mut Log,
    overlay: &mut Overlay,
    after: &mut [u32],
    given: Given<'_>,
    output: &[u32],
)
    ensures { Gave (unmapped_all (mem_of given.entry) output.now after.old) (lent_of log.old) (lent_of log.new) after.new }
{
    let count = net_memory::ports_used(given.memory.read_count);
    for i in 0..count {
        emit_at(log, overlay, after, given, i, output);
    }
}

// All read ports unmapped: the first words of `after` become the outputs, with the void nets in the places of the clocked ports.
pub fn emit_unmap_all(
    log: &mut Log,
    overlay: &mut Overlay,
    after: &mut [u32],
    given: Given<'_>,
    output: &[u32],
)
    ensures { Gave (unmapped_all (mem_of given.entry) output.now (sets after.old 0 output.now)) (lent_of log.old) (lent_of log.new) after.new }
{
    lists::copy(after, 0, output);
    emit_ports(log, overlay, after, given, output);
}
