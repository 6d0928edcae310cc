// The calls on a memory and a plan for callers in C and Rust: numbers, slices and `repr(C)` structs, no enums.
#![tactic(auto)]

ghost use Rattle.std.specs.Prelude.{◌≡◌};
ghost use Rattle.rules.specs.Answers.{make_data_swizzle_call, swizzle_depths_call, swizzle_mux_bits_call, filled_with};
ghost use Rattle.rules.specs.Refusal.{answer_by};
ghost use Rattle.net_memory.specs.Given.{given_of};
ghost use Rattle.swizzle_plan.specs.Calls.{plan_of};
ghost use Rattle.swizzle_sizes.specs.Calls.{bits_of};
ghost use Rattle.c_memory.specs.View.{given_memory};
ghost use Rattle.c_net.specs.View.{count_struct};
ghost use Rattle.c_plan.specs.View.{bits_struct, mux_bits_struct};

use c_memory::Memory;
use c_net::Count;
use rules::Refusal;
use swizzle_plan::{MemorySwizzle, Plan};

// The number that refuses `swizzle_mux_bits`, or 0, and the mux bits of the write ports and of the listed read ports.
#[repr(C)]
#[derive(Clone, Copy)]
pub struct MuxBits {
    pub refusal: u32,
    pub writes: [u32; rules::MAX_PORTS],
    pub reads: [u32; rules::MAX_PORTS],
}

fn mux_bits_result(r: Result<swizzle_sizes::MuxBits, Refusal>) -> MuxBits
    ensures { result ≡ bits_struct (answer_by bits_of r) }
{
    let (refusal, made) = c_net::parts(r, swizzle_sizes::MuxBits::default());
    let writes = made.writes;
    let reads = made.reads;
    MuxBits {
        refusal,
        writes,
        reads,
    }
}

// How many entries, and the entries in the room.
pub fn tablegoose_make_data_swizzle(
    out: &mut [u32],
    m: Memory,
    nets: &[u32],
    trits: &[u8],
    granularities: &[u32],
) -> Count
    ensures value { result ≡ count_struct (make_data_swizzle_call out.old (given_of (given_memory m) nets.now trits.now) granularities.now).answer }
    ensures out_after { out.new ≡ (make_data_swizzle_call out.old (given_of (given_memory m) nets.now trits.now) granularities.now).out }
{
    let given = c_memory::given_by(m, nets, trits);
    c_net::count_result(swizzle_entries::make_data_swizzle(out, given, granularities))
}

pub fn tablegoose_swizzle_depths(
    out: &mut [u32],
    m: Memory,
    nets: &[u32],
    trits: &[u8],
    s: MemorySwizzle,
    entries: &[u32],
    writes: &[u32],
    reads: &[u32],
) -> u32
    ensures { filled_with result out.new ≡ swizzle_depths_call out.old (given_of (given_memory m) nets.now trits.now) (plan_of s entries.now writes.now reads.now) }
{
    let given = c_memory::given_by(m, nets, trits);
    let plan = Plan {
        swizzle: s,
        entries,
        writes,
        reads,
    };
    rules::number_of(swizzle_sizes::swizzle_depths(out, given, plan))
}

pub fn tablegoose_swizzle_mux_bits(
    m: Memory,
    nets: &[u32],
    trits: &[u8],
    ports: &[u32],
    s: MemorySwizzle,
    entries: &[u32],
    writes: &[u32],
    reads: &[u32],
) -> MuxBits
    ensures { result ≡ mux_bits_struct (swizzle_mux_bits_call (given_of (given_memory m) nets.now trits.now) ports.now (plan_of s entries.now writes.now reads.now)) }
{
    let given = c_memory::given_by(m, nets, trits);
    let plan = Plan {
        swizzle: s,
        entries,
        writes,
        reads,
    };
    mux_bits_result(swizzle_sizes::swizzle_mux_bits(given, ports, plan))
}
