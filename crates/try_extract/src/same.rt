// Comparison of memories, field by field, with all eight places for ports. Read ports and memories derive no equality: past the number of relations, or of
// ports, anything may stand, and two that mean the same could differ there.
use net_memory::{Memory, MemoryReadPort};

fn same_lens(a: MemoryReadPort, b: MemoryReadPort) -> bool {
    a.addr_len == b.addr_len
        && a.data_len == b.data_len
        && a.clear_len == b.clear_len
        && a.reset_len == b.reset_len
        && a.init_len == b.init_len
        && a.relations_len == b.relations_len
}

fn same_read(a: MemoryReadPort, b: MemoryReadPort) -> bool {
    same_lens(a, b) && a.relations == b.relations && a.flip_flop == b.flip_flop
}

fn same_sizes(a: Memory, b: Memory) -> bool {
    a.depth == b.depth
        && a.width == b.width
        && a.init_len == b.init_len
        && a.write_count == b.write_count
        && a.read_count == b.read_count
}

pub(crate) fn same_memory(a: Memory, b: Memory) -> bool {
    let mut reads = a.read_ports.iter().zip(b.read_ports.iter());
    same_sizes(a, b) && a.write_ports == b.write_ports && reads.all(|(p, q)| same_read(*p, *q))
}
