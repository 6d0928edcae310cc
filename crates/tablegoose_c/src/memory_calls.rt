// The exported functions of c_memory. Made by scripts/exports.py.
ghost use Rattle.std.specs.Prelude.{◌≡◌};
ghost use Rattle.rules.specs.Refusals.{mem_refusal};
ghost use Rattle.rules.specs.Answers.{wide_log2_call, output_len_call, output_slice_call, can_lower_fallback_call, extract_read_ports_call};
ghost use Rattle.net_memory.specs.Given.{given_of};
ghost use Rattle.c_net.specs.View.{flag_result, value_result, count_struct};
ghost use Rattle.c_memory.specs.View.{given_memory};
ghost use Rattle.c_memory.specs.Calls.{slice_result, extracted_of, NewMemory};

use c_memory::{Extracted, Memory, Slice};
use c_net::Count;

#[unsafe(no_mangle)]
pub extern "C" fn tablegoose_wide_log2(width: u32, size: usize) -> c_net::Result
    ensures { result ≡ value_result (wide_log2_call width size) }
{
    c_memory::tablegoose_wide_log2(width, size)
}

#[unsafe(no_mangle)]
pub extern "C" fn tablegoose_memory_refusal(m: Memory, nets: &[u32], trits: &[u8]) -> u32
    ensures { result ≡ mem_refusal (given_of (given_memory m) nets.now trits.now) }
{
    c_memory::tablegoose_memory_refusal(m, nets, trits)
}

#[unsafe(no_mangle)]
pub extern "C" fn tablegoose_output_len(m: Memory, nets: &[u32], trits: &[u8]) -> Count
    ensures { result ≡ count_struct (output_len_call (given_of (given_memory m) nets.now trits.now)) }
{
    c_memory::tablegoose_output_len(m, nets, trits)
}

#[unsafe(no_mangle)]
pub extern "C" fn tablegoose_read_port_output_slice(
    m: Memory,
    nets: &[u32],
    trits: &[u8],
    port: usize,
) -> Slice
    ensures { result ≡ slice_result (output_slice_call (given_of (given_memory m) nets.now trits.now) port) }
{
    c_memory::tablegoose_read_port_output_slice(m, nets, trits, port)
}

#[unsafe(no_mangle)]
pub extern "C" fn tablegoose_can_lower_fallback(
    m: Memory,
    nets: &[u32],
    trits: &[u8],
) -> c_net::Result
    ensures { result ≡ flag_result (can_lower_fallback_call (given_of (given_memory m) nets.now trits.now)) }
{
    c_memory::tablegoose_can_lower_fallback(m, nets, trits)
}

#[unsafe(no_mangle)]
pub extern "C" fn tablegoose_extract_read_ports(
    room_nets: &mut [u32],
    room_trits: &mut [u8],
    room_output: &mut [u32],
    m: Memory,
    nets: &[u32],
    trits: &[u8],
    list: &[u32],
    output: &[u32],
) -> Extracted
    ensures room_output_after { extracted_of result room_nets.new room_trits.new room_output.new ≡ extract_read_ports_call room_nets.old room_trits.old room_output.old (given_of (given_memory m) nets.now trits.now) list.now output.now }
    ensures new_memory { NewMemory m nets.now trits.now list.now output.now result }
{
    c_memory::tablegoose_extract_read_ports(
        room_nets,
        room_trits,
        room_output,
        m,
        nets,
        trits,
        list,
        output,
    )
}
