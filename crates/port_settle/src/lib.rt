// memory/src/lib.rs, emulate_read_before_write: the struct after it. Write ports that are delayed stand at the other edge of their clock, and relations
// to them are Undefined.
#![tactic(auto)]

ghost use Rattle.std.specs.Prelude.{◌≡◌, ◌≤◌, List, ℕ, length, min};
ghost use Rattle.rules.specs.Limits.{max_ports};
ghost use Rattle.net_memory.specs.View.{memory_of};
ghost use Rattle.port_settle.specs.Settled.{is_read, reads_before, turned_mem, settled_mem, other_edge_of, turned_port, undefined_if, first_changed, settled_by, turning, settling};

use net_memory::{Memory, MemoryPortRelation, MemoryReadPort, MemoryWritePort};

// The first `count` elements changed, each as `change` says by its number.
fn change_first<T: Copy, F: Fn(usize, T) -> T>(list: &mut [T], count: usize, change: F)
    requires { F.IsAlwaysCallable change × (count ≤ length list.old) }
    ensures { (f : ℕ → T → T) → ((j : ℕ) (x r : T) → F.post change j x r → r ≡ f j x) → list.new ≡ first_changed f 0 count list.old }
{
    for (j, x) in list[..count].iter_mut().enumerate() {
        *x = change(j, *x);
    }
}

// A write port at the other edge of its clock.
fn other_edge(p: MemoryWritePort) -> MemoryWritePort
    ensures { result ≡ other_edge_of p }
{
    MemoryWritePort {
        clock: net_value::inverse(p.clock),
        ..p
    }
}

// Write port j, turned where one of these read ports reads before it writes.
fn turn_port(reads: &[MemoryReadPort], p: MemoryWritePort, j: usize) -> MemoryWritePort
    ensures { result ≡ turned_port (reads_before reads.now j) p }
{
    if port_relations::any_relates(reads, j, MemoryPortRelation::ReadBeforeWrite) {
        return other_edge(p);
    }
    p
}

// The memory whose write ports stand at the other edge of their clock where a read port reads before they write.
pub fn turn_clocks(m: &Memory) -> Memory
    ensures by_index { (nets nets' trits : List ℕ) → memory_of result nets' trits ≡ turned_mem (is_read m.now nets trits) (memory_of m.now nets' trits) }
    ensures by_index_2 { (x y : List ℕ) → result ≡ turning (is_read m.now x y) (min max_ports m.now.write_count) m.now }
{
    let reads = &m.read_ports[..net_memory::ports_used(m.read_count)];
    let count = net_memory::ports_used(m.write_count);
    let mut out = *m;
    change_first(&mut out.write_ports, count, |j, port| {
        turn_port(reads, port, j)
    });
    out
}

// A relation to write port j: Undefined where that one is delayed.
fn settle_relation(reads: &[MemoryReadPort], relation: u8, j: usize) -> u8
    ensures { result ≡ undefined_if (reads_before reads.now j) relation }
{
    if port_relations::any_relates(reads, j, MemoryPortRelation::ReadBeforeWrite) {
        return u8::from(MemoryPortRelation::Undefined);
    }
    relation
}

// All relations that the port names.
fn settle_port(reads: &[MemoryReadPort], p: MemoryReadPort) -> MemoryReadPort
    ensures { result ≡ settled_by (reads_before reads.now) p }
{
    let count = net_memory::ports_used(p.relations_len);
    let mut out = p;
    change_first(&mut out.relations, count, |j, relation| {
        settle_relation(reads, relation, j)
    });
    out
}

// The memory whose relations to a write port are Undefined where a read port of `m` reads before that one writes.
pub fn settle_relations(m: &Memory, from: Memory) -> Memory
    ensures by_index { (nets nets' trits : List ℕ) → memory_of result nets' trits ≡ settled_mem (memory_of m.now nets trits) (memory_of from nets' trits) }
    ensures by_index_2 { (x y : List ℕ) → result ≡ settling (is_read m.now x y) (min max_ports from.read_count) from }
{
    let reads = &m.read_ports[..net_memory::ports_used(m.read_count)];
    let count = net_memory::ports_used(from.read_count);
    let mut out = from;
    change_first(&mut out.read_ports, count, |_, port| {
        settle_port(reads, port)
    });
    out
}
