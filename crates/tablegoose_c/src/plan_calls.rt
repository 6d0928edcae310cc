// The exported functions of c_plan. Made by scripts/exports.py.
ghost use Rattle.std.specs.Prelude.{◌≡◌};
ghost use Rattle.rules.specs.Answers.{make_data_swizzle_call, swizzle_depths_call, swizzle_mux_bits_call, filled_with};
ghost use Rattle.net_memory.specs.Given.{given_of};
ghost use Rattle.swizzle_plan.specs.Calls.{plan_of};
ghost use Rattle.c_memory.specs.View.{given_memory};
ghost use Rattle.c_net.specs.View.{count_struct};
ghost use Rattle.c_plan.specs.View.{mux_bits_struct};

use c_memory::Memory;
use c_net::Count;
use c_plan::MuxBits;
use swizzle_plan::MemorySwizzle;

#[unsafe(no_mangle)]
pub extern "C" fn tablegoose_make_data_swizzle(
    out: &mut [u32],
    m: Memory,
    nets: &[u32],
    trits: &[u8],
    granularities: &[u32],
) -> Count
    ensures value { result ≡ count_struct (make_data_swizzle_call out.old (given_of (given_memory m) nets.now trits.now) granularities.now).answer }
    ensures out_after { out.new ≡ (make_data_swizzle_call out.old (given_of (given_memory m) nets.now trits.now) granularities.now).out }
{
    c_plan::tablegoose_make_data_swizzle(out, m, nets, trits, granularities)
}

#[unsafe(no_mangle)]
pub extern "C" fn tablegoose_swizzle_depths(
    out: &mut [u32],
    m: Memory,
    nets: &[u32],
    trits: &[u8],
    s: MemorySwizzle,
    entries: &[u32],
    writes: &[u32],
    reads: &[u32],
) -> u32
    ensures { filled_with result out.new ≡ swizzle_depths_call out.old (given_of (given_memory m) nets.now trits.now) (plan_of s entries.now writes.now reads.now) }
{
    c_plan::tablegoose_swizzle_depths(out, m, nets, trits, s, entries, writes, reads)
}

#[unsafe(no_mangle)]
pub extern "C" fn tablegoose_swizzle_mux_bits(
    m: Memory,
    nets: &[u32],
    trits: &[u8],
    ports: &[u32],
    s: MemorySwizzle,
    entries: &[u32],
    writes: &[u32],
    reads: &[u32],
) -> MuxBits
    ensures { result ≡ mux_bits_struct (swizzle_mux_bits_call (given_of (given_memory m) nets.now trits.now) ports.now (plan_of s entries.now writes.now reads.now)) }
{
    c_plan::tablegoose_swizzle_mux_bits(m, nets, trits, ports, s, entries, writes, reads)
}
