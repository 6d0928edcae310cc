// The write ports of a memory that has bits, for its entries.

ghost use Rattle.std.specs.Prelude.{◌<◌, ◌≤◌, length};
ghost use Rattle.rules.specs.Limits.{max_ports};

use net_memory::MemoryWritePort;

// The bits of a row, the ports with their nets, and a granularity for each.
#[derive(Clone, Copy)]
pub struct Writes<'a> {
    pub width: u32,
    pub ports: &'a [MemoryWritePort],
    pub nets: &'a [u32],
    pub granularities: &'a [u32],
    ghost some_bits: { 0 < width },
    ghost few_ports: { length ports.now ≤ max_ports },
}
