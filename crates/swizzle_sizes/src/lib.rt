// memory/src/lib.rs, swizzle_depths and swizzle_mux_bits: the depths of the memories that a swizzle would give, and the address bits of each port that
// it would decode with muxes.
#![tactic(auto)]

ghost use Rattle.std.specs.Prelude.{◌≡◌, List, map, ℕ, ◌+◌, ◌-◌, ◌≤◌, length};
ghost use Rattle.lists.specs.Lists.{pairs};
ghost use Rattle.rules.specs.Geometry.{chunk_mux_bits, soft_bits};
ghost use Rattle.image_geometry.specs.View.{layout_by};
ghost use Rattle.net_memory.specs.View.{memory_of};
ghost use Rattle.swizzle_plan.specs.Calls.{params_by, view_plan};
ghost use Rattle.swizzle_plan.specs.Numbers.{in_eight, write_logs, read_logs};
ghost use Rattle.rules.specs.Answers.{swizzle_depths_call, swizzle_mux_bits_call, filled_with};
ghost use Rattle.rules.specs.Refusal.{number_of, answer_by};
ghost use Rattle.rules.specs.Refusals.{swizzle_mux_bits_refusal};
ghost use Rattle.net_memory.specs.Given.{view_given, mem_of};
ghost use Rattle.swizzle_sizes.specs.Calls.{bits_of, in_arrays, Countable, SmallLogs};

use net_memory::{Given, Memory};
use rules::Refusal;
use swizzle_plan::Plan;

// The mux bits of the write ports and of the listed read ports; 0 past the last.
#[derive(Clone, Copy, Debug, Default, PartialEq, Eq)]
pub struct MuxBits {
    pub writes: [u32; rules::MAX_PORTS],
    pub reads: [u32; rules::MAX_PORTS],
}

// By what `swizzle_mux_bits` is refused.
#[tactic(auto, using(crate::proofs::Refused::planned_err))]
fn mux_refusal(given: Given<'_>, ports: &[u32], plan: Plan<'_>) -> Result<(), Refusal>
    ensures { number_of result ≡ swizzle_mux_bits_refusal (view_given given.entry) ports.now (view_plan plan.entry) }
{
    let long = rules::MAX_PORTS < ports.len();
    swizzle_plan::planned_refusal(given, plan, long)?;
    if swizzle_plan::logs::logs_bad(given, ports, plan) {
        return Err(Refusal::BadWideLogs);
    }
    if port_outputs::port_missing(given.memory, ports) {
        return Err(Refusal::OutOfRange);
    }
    Ok(())
}

// The mux bits of these ports, whose old wide logs `old` gives, over the bits that all ports have.
fn bits_of<F: Fn(u32) -> u32>(
    base: u32,
    ports: &[u32],
    news: &[u32],
    old: F,
) -> [u32; rules::MAX_PORTS]
    requires called { F.IsAlwaysCallable old }
    requires counted { Countable base ports.now news.now }
    ensures { (g : ℕ → ℕ) → ((x r : ℕ) → F.post old x r → r ≡ g x) → result ≡ in_eight (map (λ x. base + x.1 - x.0) (pairs (map g ports.now) news.now)) }
{
    let mut bits = [0u32; rules::MAX_PORTS];
    for (i, (port, new)) in ports.iter().zip(news).enumerate() {
        bits[i] = (base + *new).saturating_sub(old(*port));
    }
    bits
}

// The mux bits of the write ports.
fn write_bits(given: Given<'_>, base: u32, news: &[u32]) -> [u32; rules::MAX_PORTS]
    requires { SmallLogs base news.now }
    ensures { result ≡ in_eight (map (λ x. base + x.1 - x.0) (pairs (write_logs (mem_of given.entry)) news.now)) }
{
    let ports = swizzle_plan::logs::ports_in_use(given.memory.write_count);
    bits_of(
        base,
        ports,
        news,
        |i| swizzle_plan::logs::write_log(&given, i),
    )
}

// The mux bits of the listed read ports.
fn read_bits(given: Given<'_>, ports: &[u32], base: u32, news: &[u32]) -> [u32; rules::MAX_PORTS]
    requires { Countable base ports.now news.now }
    ensures { result ≡ in_eight (map (λ x. base + x.1 - x.0) (pairs (read_logs (mem_of given.entry) ports.now) news.now)) }
{
    bits_of(
        base,
        ports,
        news,
        |i| swizzle_plan::logs::read_log(&given.memory, i),
    )
}

// The mux bits that every port has: those that select among chunks, and the soft bits.
fn shared_bits(m: Memory, plan: Plan<'_>) -> u32
    ensures by_index { (es : List ℕ) → result ≡ chunk_mux_bits (layout_by (params_by m plan.entry.swizzle) es) + soft_bits plan.entry.swizzle.soft_addr_bits_mask }
    ensures upper_bound { result ≤ 64 }
{
    plan.params(m).chunk_mux_bits() + image_geometry::soft_bits(plan.swizzle.soft_addr_bits_mask)
}

// The mux bits of the write ports and of the listed read ports.
#[tactic(auto, using(crate::proofs::Answered::bits_err))]
pub fn swizzle_mux_bits(given: Given<'_>, ports: &[u32], plan: Plan<'_>) -> Result<MuxBits, Refusal>
    ensures { answer_by bits_of result ≡ in_arrays (swizzle_mux_bits_call (view_given given.entry) ports.now (view_plan plan.entry)) }
{
    mux_refusal(given, ports, plan)?;
    let base = shared_bits(given.memory, plan);
    Ok(MuxBits {
        writes: write_bits(given, base, plan.writes),
        reads: read_bits(given, ports, base, plan.reads),
    })
}

// The depths of the memories that a swizzle would give, into lent room.
#[tactic(auto, using(swizzle_plan::proofs::Planned::depths_err, swizzle_plan::proofs::Planned::depths_ten))]
pub fn swizzle_depths(out: &mut [u32], given: Given<'_>, plan: Plan<'_>) -> Result<(), Refusal>
    ensures { filled_with (number_of result) out.new ≡ swizzle_depths_call out.old (view_given given.entry) (view_plan plan.entry) }
{
    swizzle_plan::planned_refusal(given, plan, false)?;
    let layout = plan.layout(given);
    layout.check_result()?;
    layout.depths(out)
}
