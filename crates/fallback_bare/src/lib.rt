// A memory whose read ports have no flip-flops: what all unmappings leave.
#![tactic(auto)]

ghost use Rattle.std.specs.Prelude.{◌≡◌, List, map, ℕ};
ghost use Rattle.net_memory.specs.View.{memory_of};
ghost use Rattle.port_unmap.specs.Call.{without};
ghost use Rattle.port_unmap_all.specs.All.{all_bare};
ghost use Rattle.fallback_bare.specs.Bare.{bare_of};

use net_memory::{Memory, MemoryReadPort};

// A port without its flip-flop.
fn bare_port(p: MemoryReadPort) -> MemoryReadPort
    ensures { result ≡ without p }
{
    MemoryReadPort {
        flip_flop: None,
        ..p
    }
}

fn bare_ports(ports: [MemoryReadPort; rules::MAX_PORTS]) -> [MemoryReadPort; rules::MAX_PORTS]
    ensures { result ≡ map without ports }
{
    ports.map(bare_port)
}

// The same memory, in the same arrays, with no flip-flop.
pub fn bare_memory(m: Memory) -> Memory
    ensures by_index { (nets trits : List ℕ) → memory_of result nets trits ≡ all_bare (memory_of m nets trits) }
    ensures value { result ≡ bare_of m }
{
    Memory {
        read_ports: bare_ports(m.read_ports),
        ..m
    }
}
