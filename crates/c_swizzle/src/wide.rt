// A caller's struct of the memories as the library's, and back.
ghost use Rattle.std.specs.Prelude.{◌≡◌};
ghost use Rattle.c_swizzle.specs.View.{fields_of, given_write, given_read, given_wide, write_struct, read_with, read_struct, wide_struct};

use crate::{WideMemory, WideReadPort, WideWritePort};
use c_memory::FlipFlop;

// ---- from a caller's struct

impl From<WideWritePort> for swizzle_result::WideWritePort {
    ghost from_gives = { λ p r. r ≡ given_write p };

    fn from(p: WideWritePort) -> swizzle_result::WideWritePort {
        swizzle_result::WideWritePort {
            addr_len: p.addr_len,
            wide: p.wide,
            clock: p.clock.into(),
        }
    }
}

// (As c_memory's of another struct of C: a trait over six fields would be longer than both.)
impl From<WideReadPort> for FlipFlop {
    ghost from_gives = { λ p r. r ≡ fields_of p };

    fn from(p: WideReadPort) -> FlipFlop {
        FlipFlop {
            clocked: p.clocked,
            clock: p.clock,
            clear: p.clear,
            reset: p.reset,
            enable: p.enable,
            reset_over_enable: p.reset_over_enable,
        }
    }
}

impl From<WideReadPort> for swizzle_result::WideReadPort {
    ghost from_gives = { λ p r. r ≡ given_read p };

    fn from(p: WideReadPort) -> swizzle_result::WideReadPort {
        let relations = p.relations;
        swizzle_result::WideReadPort {
            addr_len: p.addr_len,
            wide: p.wide,
            first: p.first,
            relations_len: p.relations_len,
            relations,
            flip_flop: FlipFlop::from(p).into(),
        }
    }
}

// The library's struct. A flag or polarity above 1 is read as c_memory reads it.
impl From<WideMemory> for swizzle_result::WideMemory {
    ghost from_gives = { λ g r. r ≡ given_wide g };

    fn from(g: WideMemory) -> swizzle_result::WideMemory {
        swizzle_result::WideMemory {
            full: g.full,
            mems: g.mems,
            full_depth: g.full_depth,
            part_depth: g.part_depth,
            unit: g.unit,
            write_count: g.write_count,
            read_count: g.read_count,
            write_ports: g.write_ports.map(swizzle_result::WideWritePort::from),
            read_ports: g.read_ports.map(swizzle_result::WideReadPort::from),
        }
    }
}

// ---- to a caller's struct

impl From<swizzle_result::WideWritePort> for WideWritePort {
    ghost from_gives = { λ p r. r ≡ write_struct p };

    fn from(p: swizzle_result::WideWritePort) -> WideWritePort {
        WideWritePort {
            addr_len: p.addr_len,
            wide: p.wide,
            clock: p.clock.into(),
        }
    }
}

// A read port with the fields of a flip-flop.
fn read_with(p: swizzle_result::WideReadPort, f: FlipFlop) -> WideReadPort
    ensures { result ≡ read_with p f }
{
    let relations = p.relations;
    WideReadPort {
        addr_len: p.addr_len,
        wide: p.wide,
        first: p.first,
        relations_len: p.relations_len,
        relations,
        clocked: f.clocked,
        clock: f.clock,
        clear: f.clear,
        reset: f.reset,
        enable: f.enable,
        reset_over_enable: f.reset_over_enable,
    }
}

impl From<swizzle_result::WideReadPort> for WideReadPort {
    ghost from_gives = { λ p r. r ≡ read_struct p };

    fn from(p: swizzle_result::WideReadPort) -> WideReadPort {
        read_with(p, p.flip_flop.into())
    }
}

// The struct of the library's, which read again is that.
impl From<swizzle_result::WideMemory> for WideMemory {
    ghost from_gives = { λ g r. (r ≡ wide_struct g) × (given_wide r ≡ g) };

    fn from(g: swizzle_result::WideMemory) -> WideMemory {
        WideMemory {
            full: g.full,
            mems: g.mems,
            full_depth: g.full_depth,
            part_depth: g.part_depth,
            unit: g.unit,
            write_count: g.write_count,
            read_count: g.read_count,
            write_ports: g.write_ports.map(WideWritePort::from),
            read_ports: g.read_ports.map(WideReadPort::from),
        }
    }
}
