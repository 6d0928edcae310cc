// The memories that a swizzle gives, by value: they share ports, whose nets and trits stand in lent arrays, memory after memory.
#![tactic(auto)]

use net_flip_flop::Controls;
use net_value::{ControlNet, Net};

// A write port of all memories: the length of the address that they share, the new wide log, and the clock.
#[derive(Clone, Copy)]
pub struct WideWritePort {
    pub addr_len: u32,
    pub wide: u32,
    pub clock: ControlNet,
}

impl WideWritePort {
    pub const NONE: WideWritePort = WideWritePort {
        addr_len: 0,
        wide: 0,
        clock: ControlNet::Pos(Net(0)),
    };
}

// A read port of all memories, with the first of its output nets; these stand row after row, column after column. Without a heap the relations, and
// the ports of the memories, stand in arrays with their numbers beside them.
#[derive(Clone, Copy)]
pub struct WideReadPort {
    pub addr_len: u32,
    pub wide: u32,
    pub first: u32,
    pub relations_len: u32,
    pub relations: [u8; rules::MAX_PORTS],
    pub flip_flop: Option<Controls>,
}

// A constant, though each field has a default: `WideMemory::NONE` is built of it, and a constant calls no `default()`.
impl WideReadPort {
    pub const NONE: WideReadPort = WideReadPort {
        addr_len: 0,
        wide: 0,
        first: 0,
        relations_len: 0,
        relations: [0; rules::MAX_PORTS],
        flip_flop: None,
    };
}

// The memories: the full ones and all, the depth of a full one and of the others, and the columns of each.
#[derive(Clone, Copy)]
pub struct WideMemory {
    pub full: u32,
    pub mems: u32,
    pub full_depth: u32,
    pub part_depth: u32,
    pub unit: u32,
    pub write_count: u32,
    pub read_count: u32,
    pub write_ports: [WideWritePort; rules::MAX_PORTS],
    pub read_ports: [WideReadPort; rules::MAX_PORTS],
}

impl WideMemory {
    pub const NONE: WideMemory = WideMemory {
        full: 0,
        mems: 0,
        full_depth: 0,
        part_depth: 0,
        unit: 0,
        write_count: 0,
        read_count: 0,
        write_ports: [WideWritePort::NONE; rules::MAX_PORTS],
        read_ports: [WideReadPort::NONE; rules::MAX_PORTS],
    };
}
