// A caller's ports as the library's, and back.
ghost use Rattle.std.specs.Prelude.{◌≡◌};
ghost use Rattle.c_memory.specs.View.{given_write, given_clock, given_reset, given_controls, given_flip_flop, fields_of, given_read, write_struct, flip_flop_struct, read_with, read_struct};

use crate::{FlipFlop, ReadPort, WritePort};
use net_flip_flop::Controls;
use net_memory::{MemoryReadPort, MemoryWritePort};
use net_value::{ControlNet, Net};

// ---- from a caller's struct

impl From<WritePort> for MemoryWritePort {
    ghost from_gives = { λ p r. r ≡ given_write p };

    fn from(p: WritePort) -> MemoryWritePort {
        MemoryWritePort {
            addr_len: p.addr_len,
            data_len: p.data_len,
            mask_len: p.mask_len,
            clock: p.clock.into(),
        }
    }
}

// The clock of a clocked port. A flag above 1 gives Neg(0), which is no control: calls refuse it by 4.
#[tactic(auto, unfolding(crate::specs::View::given_clock))]
fn clock_of(p: FlipFlop) -> ControlNet
    ensures { result ≡ given_clock p }
{
    if p.clocked == 1 {
        return p.clock.into();
    }
    ControlNet::Neg(Net(0))
}

// (c_log reads a request's controls, whose clock has no flag; this crate does without requests.)
#[tactic(auto, using(crate::proofs::Back::by_view), unfolding(crate::specs::View::given_reset))]
fn controls_of(p: FlipFlop) -> Controls
    ensures { result ≡ given_controls p }
{
    Controls {
        clock: clock_of(p),
        clear: p.clear.into(),
        reset: c_net::flagged_control(p.reset, p.reset_over_enable),
        enable: p.enable.into(),
        reset_over_enable: p.reset_over_enable == 1,
    }
}

#[tactic(auto, unfolding(crate::specs::View::given_flip_flop))]
impl From<FlipFlop> for Option<Controls> {
    ghost from_gives = { λ p r. r ≡ given_flip_flop p };

    fn from(p: FlipFlop) -> Option<Controls> {
        if p.clocked == 0 {
            return None;
        }
        Some(controls_of(p))
    }
}

impl From<ReadPort> for FlipFlop {
    ghost from_gives = { λ p r. r ≡ fields_of p };

    fn from(p: ReadPort) -> FlipFlop {
        FlipFlop {
            clocked: p.clocked,
            clock: p.clock,
            clear: p.clear,
            reset: p.reset,
            enable: p.enable,
            reset_over_enable: p.reset_over_enable,
        }
    }
}

impl From<ReadPort> for MemoryReadPort {
    ghost from_gives = { λ p r. r ≡ given_read p };

    fn from(p: ReadPort) -> MemoryReadPort {
        let relations = p.relations;
        MemoryReadPort {
            addr_len: p.addr_len,
            data_len: p.data_len,
            clear_len: p.clear_len,
            reset_len: p.reset_len,
            init_len: p.init_len,
            relations_len: p.relations_len,
            relations,
            flip_flop: FlipFlop::from(p).into(),
        }
    }
}

// ---- to a caller's struct

impl From<MemoryWritePort> for WritePort {
    ghost from_gives = { λ p r. r ≡ write_struct p };

    fn from(p: MemoryWritePort) -> WritePort {
        WritePort {
            addr_len: p.addr_len,
            data_len: p.data_len,
            mask_len: p.mask_len,
            clock: p.clock.into(),
        }
    }
}

impl From<Option<Controls>> for FlipFlop {
    ghost from_gives = { λ f r. r ≡ flip_flop_struct f };

    fn from(f: Option<Controls>) -> FlipFlop {
        match f {
            None => FlipFlop::default(),
            Some(c) => FlipFlop {
                clocked: 1,
                clock: c.clock.into(),
                clear: c.clear.into(),
                reset: c.reset.into(),
                enable: c.enable.into(),
                reset_over_enable: u32::from(c.reset_over_enable),
            },
        }
    }
}

// A read port with the fields of a flip-flop.
fn read_with(p: MemoryReadPort, f: FlipFlop) -> ReadPort
    ensures { result ≡ read_with p f }
{
    let relations = p.relations;
    ReadPort {
        addr_len: p.addr_len,
        data_len: p.data_len,
        clear_len: p.clear_len,
        reset_len: p.reset_len,
        init_len: p.init_len,
        relations_len: p.relations_len,
        relations,
        clocked: f.clocked,
        clock: f.clock,
        clear: f.clear,
        reset: f.reset,
        enable: f.enable,
        reset_over_enable: f.reset_over_enable,
    }
}

impl From<MemoryReadPort> for ReadPort {
    ghost from_gives = { λ p r. r ≡ read_struct p };

    fn from(p: MemoryReadPort) -> ReadPort {
        read_with(p, p.flip_flop.into())
    }
}
