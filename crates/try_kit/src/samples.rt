// Memories and ports for the programs that try the calls, built from their sizes.
ghost use Rattle.std.specs.Prelude.{◌≡◌, get_or, set, replicate};
ghost use Rattle.net_value.specs.declared.ControlNet.TheVariants.{Pos, Neg};
ghost use Rattle.try_kit.specs.Build.{write_of, read_of, some_of_of, memory_with, with_writes, with_reads, write_clocked, read_plain, usual_of, read_clocked, plain_of, base_of};

use net_flip_flop::Controls;
use net_memory::{Memory, MemoryReadPort, MemoryWritePort};
use net_value::{ControlNet, Net};

pub fn pos(n: u32) -> ControlNet
    ensures { result ≡ Pos (record { 0 = n }) }
{
    ControlNet::Pos(Net(n))
}

pub fn neg(n: u32) -> ControlNet
    ensures { result ≡ Neg (record { 0 = n }) }
{
    ControlNet::Neg(Net(n))
}

// A write port.
pub fn write_by(addr: u32, bits: u32, mask: u32, clock: ControlNet) -> MemoryWritePort
    ensures { result ≡ write_of addr bits mask clock }
{
    MemoryWritePort {
        addr_len: addr,
        data_len: bits,
        mask_len: mask,
        clock,
    }
}

// The controls of a flip-flop whose reset is over its enable.
pub fn controls(
    clock: ControlNet,
    clear: ControlNet,
    reset: ControlNet,
    enable: ControlNet,
) -> Option<Controls>
    ensures { result ≡ some_of_of clock clear reset enable }
{
    Some(Controls {
        clock,
        clear,
        reset,
        enable,
        reset_over_enable: true,
    })
}

// A read port with these numbers of clear, reset and init trits.
pub fn read_by(
    addr: u32,
    bits: u32,
    clear: u32,
    reset: u32,
    init: u32,
    count: u32,
    relations: [u8; 8],
    flip_flop: Option<Controls>,
) -> MemoryReadPort
    ensures { result ≡ read_of addr bits clear reset init count relations flip_flop }
{
    MemoryReadPort {
        addr_len: addr,
        data_len: bits,
        clear_len: clear,
        reset_len: reset,
        init_len: init,
        relations_len: count,
        relations,
        flip_flop,
    }
}

// A memory whose write ports are all alike, and its read ports.
pub fn memory(
    depth: u32,
    width: u32,
    init: u32,
    writes: u32,
    w: MemoryWritePort,
    reads: u32,
    r: MemoryReadPort,
) -> Memory
    ensures { result ≡ memory_with depth width init writes reads (replicate 8 w) (replicate 8 r) }
{
    Memory {
        depth,
        width,
        init_len: init,
        write_count: writes,
        read_count: reads,
        write_ports: [w; 8],
        read_ports: [r; 8],
    }
}

// With another write port i.
pub fn with_write(m: Memory, i: usize, p: MemoryWritePort) -> Memory
    ensures { result ≡ with_writes m (set m.write_ports i p) }
{
    let mut out = m;
    if i < 8 {
        out.write_ports[i] = p;
    }
    out
}

// With another read port i. One function for both lists of ports would be no plainer.
pub fn with_read(m: Memory, i: usize, p: MemoryReadPort) -> Memory
    ensures { result ≡ with_reads m (set m.read_ports i p) }
{
    let mut out = m;
    if i < 8 {
        out.read_ports[i] = p;
    }
    out
}

// With other sizes and numbers of ports.
pub fn with_sizes(m: Memory, depth: u32, width: u32, init: u32, writes: u32, reads: u32) -> Memory
    ensures { result ≡ memory_with depth width init writes reads m.write_ports m.read_ports }
{
    Memory {
        depth,
        width,
        init_len: init,
        write_count: writes,
        read_count: reads,
        ..m
    }
}

// ---- ports and memories that most cases start from

// A write port clocked by net 9.
pub fn write_port(addr: u32, bits: u32) -> MemoryWritePort
    ensures { result ≡ write_clocked addr bits }
{
    write_by(addr, bits, bits, ControlNet::Pos(Net(9)))
}

// A read port without a flip-flop, which has no trits and no relations.
pub fn read_port(addr: u32, bits: u32) -> MemoryReadPort
    ensures { result ≡ read_plain addr bits }
{
    read_by(addr, bits, 0, 0, 0, 0, [0u8; 8], None)
}

// The controls of most cases.
pub fn usual() -> Option<Controls>
    ensures { result ≡ usual_of }
{
    controls(
        ControlNet::Pos(Net(9)),
        ControlNet::Pos(Net(0)),
        ControlNet::Neg(Net(7)),
        ControlNet::Pos(Net(1)),
    )
}

// A clocked read port with the first relations of 2 0 1 2 0 1 2 0.
pub fn clocked_port(addr: u32, bits: u32, count: u32) -> MemoryReadPort
    ensures { result ≡ read_clocked addr bits count }
{
    let relations = [2u8, 0, 1, 2, 0, 1, 2, 0];
    read_by(addr, bits, bits, bits, bits, count, relations, usual())
}

// A memory without ports.
pub fn plain(depth: u32, width: u32, init: u32) -> Memory
    ensures { result ≡ plain_of depth width init }
{
    memory(depth, width, init, 0, write_port(0, 0), 0, read_port(0, 0))
}

// 8 rows of 2 bits. Write ports: addresses of 2 and 3 nets, data of 4 and 2. Read ports: addresses of 1, 3 and 3 nets, data of 8, 2 and 2; the second
// has no flip-flop, but three trits that nothing looks at.
// So nets 0 to 9 and 10 to 16 are the write ports', 17, 18 to 20 and 21 to 23 the read ports'; trits 0 to 15 are initial, 16 to 39, 40 to 42 and 43
// to 48 the read ports'; outputs 0 to 7, 8 and 9, 10 and 11.
pub fn base() -> Memory
    ensures { result ≡ base_of }
{
    let none = read_by(3, 2, 1, 0, 2, 1, [3u8; 8], None);
    let m = memory(8, 2, 16, 2, write_port(2, 4), 3, clocked_port(3, 2, 2));
    let m = with_write(m, 1, write_port(3, 2));
    let m = with_read(m, 0, clocked_port(1, 8, 2));
    with_read(m, 1, none)
}
