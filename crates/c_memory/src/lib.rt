// A memory for callers in C and Rust, and the calls on its ports: numbers, slices and `repr(C)` structs, no enums.
#![tactic(auto)]

ghost use Rattle.std.specs.Prelude.{◌≡◌};
ghost use Rattle.rules.specs.Refusals.{mem_refusal};
ghost use Rattle.rules.specs.Answers.{wide_log2_call, output_len_call, output_slice_call, can_lower_fallback_call, extract_read_ports_call};
ghost use Rattle.net_memory.specs.Given.{given_of};
ghost use Rattle.rules.specs.Refusal.{answer_by};
ghost use Rattle.port_outputs.specs.View.{slice_of};
ghost use Rattle.c_net.specs.View.{flag_result, value_result, count_struct};
ghost use Rattle.c_memory.specs.View.{given_memory, memory_struct, zero_memory};
ghost use Rattle.c_memory.specs.Calls.{slice_result, extracted_struct, extracted_of, NewMemory};

use c_net::{Control, Count};
use net_memory::{Given, MemoryReadPort, MemoryWritePort};
use port_outputs::OutputSlice;
use rules::Refusal;

pub mod ports;

#[repr(C)]
#[derive(Clone, Copy, Default)]
pub struct WritePort {
    pub addr_len: u32,
    pub data_len: u32,
    pub mask_len: u32,
    pub clock: Control,
}

// Relations are codes: 0 Undefined, 1 ReadBeforeWrite, 2 Transparent. With `clocked` 0 there is no flip-flop, and the controls play no part.
#[repr(C)]
#[derive(Clone, Copy, Default)]
pub struct ReadPort {
    pub addr_len: u32,
    pub data_len: u32,
    pub clear_len: u32,
    pub reset_len: u32,
    pub init_len: u32,
    pub relations_len: u32,
    pub relations: [u8; rules::MAX_PORTS],
    pub clocked: u32,
    pub clock: Control,
    pub clear: Control,
    pub reset: Control,
    pub enable: Control,
    pub reset_over_enable: u32,
}

#[repr(C)]
#[derive(Clone, Copy, Default)]
pub struct Memory {
    pub depth: u32,
    pub width: u32,
    pub init_len: u32,
    pub write_count: u32,
    pub read_count: u32,
    pub write_ports: [WritePort; rules::MAX_PORTS],
    pub read_ports: [ReadPort; rules::MAX_PORTS],
}

// The fields of a read port that say its flip-flop.
#[derive(Clone, Copy, Default)]
pub struct FlipFlop {
    pub clocked: u32,
    pub clock: Control,
    pub clear: Control,
    pub reset: Control,
    pub enable: Control,
    pub reset_over_enable: u32,
}

// A refusal's number and zeros, or 0 and a part's start and size, or a memory.
#[repr(C)]
#[derive(Clone, Copy)]
pub struct Slice {
    pub number: u32,
    pub start: usize,
    pub size: usize,
}

#[repr(C)]
#[derive(Clone, Copy)]
pub struct Extracted {
    pub number: u32,
    pub memory: Memory,
}

// The library's memory. A flag of a port above 1 gives a control that is none: calls refuse it by 4.
impl From<Memory> for net_memory::Memory {
    ghost from_gives = { λ m r. r ≡ given_memory m };

    fn from(m: Memory) -> net_memory::Memory {
        net_memory::Memory {
            depth: m.depth,
            width: m.width,
            init_len: m.init_len,
            write_count: m.write_count,
            read_count: m.read_count,
            write_ports: m.write_ports.map(MemoryWritePort::from),
            read_ports: m.read_ports.map(MemoryReadPort::from),
        }
    }
}

// The library's memory with the arrays that it is lent in.
pub fn given_by<'a>(m: Memory, nets: &'a [u32], trits: &'a [u8]) -> Given<'a>
    ensures { (result.memory ≡ given_memory m) × (result.nets.now ≡ nets.now) × (result.trits.now ≡ trits.now) }
{
    Given {
        memory: m.into(),
        nets,
        trits,
    }
}

// The struct of a library's memory, which read again is that memory.
impl From<net_memory::Memory> for Memory {
    ghost from_gives = { λ m r. (r ≡ memory_struct m) × (given_memory r ≡ m) };

    fn from(m: net_memory::Memory) -> Memory {
        Memory {
            depth: m.depth,
            width: m.width,
            init_len: m.init_len,
            write_count: m.write_count,
            read_count: m.read_count,
            write_ports: m.write_ports.map(WritePort::from),
            read_ports: m.read_ports.map(ReadPort::from),
        }
    }
}

fn slice_result(a: Result<OutputSlice, Refusal>) -> Slice
    ensures { result ≡ slice_result (answer_by slice_of a) }
{
    let (number, OutputSlice { start, size }) = c_net::parts(a, OutputSlice { start: 0, size: 0 });
    Slice {
        number,
        start,
        size,
    }
}

// The memory is all 0 where the extraction is refused.
fn extracted_struct(a: Result<net_memory::Memory, Refusal>) -> Extracted
    ensures { result ≡ extracted_struct a }
{
    let (number, memory) = c_net::parts(a.map(Memory::from), Memory::default());
    Extracted { number, memory }
}

pub fn tablegoose_wide_log2(width: u32, size: usize) -> c_net::Result
    ensures { result ≡ value_result (wide_log2_call width size) }
{
    c_net::number_result(net_memory::wide::wide_log2(width, size))
}

pub fn tablegoose_memory_refusal(m: Memory, nets: &[u32], trits: &[u8]) -> u32
    ensures { result ≡ mem_refusal (given_of (given_memory m) nets.now trits.now) }
{
    rules::number_of(net_check::memory_refusal(given_by(m, nets, trits)))
}

pub fn tablegoose_output_len(m: Memory, nets: &[u32], trits: &[u8]) -> Count
    ensures { result ≡ count_struct (output_len_call (given_of (given_memory m) nets.now trits.now)) }
{
    c_net::count_result(port_outputs::output_len(given_by(m, nets, trits)))
}

pub fn tablegoose_read_port_output_slice(
    m: Memory,
    nets: &[u32],
    trits: &[u8],
    port: usize,
) -> Slice
    ensures { result ≡ slice_result (output_slice_call (given_of (given_memory m) nets.now trits.now) port) }
{
    slice_result(port_outputs::read_port_output_slice(given_by(m, nets, trits), port))
}

// The value is 1 where all write ports have one clock.
pub fn tablegoose_can_lower_fallback(m: Memory, nets: &[u32], trits: &[u8]) -> c_net::Result
    ensures { result ≡ flag_result (can_lower_fallback_call (given_of (given_memory m) nets.now trits.now)) }
{
    c_net::flag_result(port_outputs::can_lower_fallback(given_by(m, nets, trits)))
}

pub fn tablegoose_extract_read_ports(
    room_nets: &mut [u32],
    room_trits: &mut [u8],
    room_output: &mut [u32],
    m: Memory,
    nets: &[u32],
    trits: &[u8],
    list: &[u32],
    output: &[u32],
) -> Extracted
    ensures room_output_after { extracted_of result room_nets.new room_trits.new room_output.new ≡ extract_read_ports_call room_nets.old room_trits.old room_output.old (given_of (given_memory m) nets.now trits.now) list.now output.now }
    ensures new_memory { NewMemory m nets.now trits.now list.now output.now result }
{
    extracted_struct(port_extract::extract_read_ports(
        room_nets,
        room_trits,
        room_output,
        given_by(m, nets, trits),
        list,
        output,
    ))
}
