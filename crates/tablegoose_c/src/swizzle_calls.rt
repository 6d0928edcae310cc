// The exported functions of c_swizzle. Made by scripts/exports.py.
ghost use Rattle.std.specs.Prelude.{◌≡◌};
ghost use Rattle.rules.specs.Answers.{swizzle_call};
ghost use Rattle.rules.specs.Swizzle.{swizzle_scratch};
ghost use Rattle.log_entries.specs.View.{state_of};
ghost use Rattle.net_memory.specs.View.{memory_of};
ghost use Rattle.net_memory.specs.Given.{given_of};
ghost use Rattle.image_patches.specs.Calls.{calls_of};
ghost use Rattle.swizzle_plan.specs.Calls.{plan_of};
ghost use Rattle.swizzle_call.specs.Answer.{swizzled_of};
ghost use Rattle.swizzle_call.specs.Whole.{Swizzles};
ghost use Rattle.swizzle_patches.specs.Joined.{Joined, Kept};
ghost use Rattle.c_memory.specs.View.{given_memory};
ghost use Rattle.c_swizzle.specs.Calls.{swizzled_struct, given_swizzled, patches_struct, given_patches};

use c_memory::Memory;
use c_swizzle::{Swizzled, SwizzledPatches};
use log_entries::LogState;
use swizzle_plan::MemorySwizzle;

#[unsafe(no_mangle)]
pub extern "C" fn tablegoose_swizzle<'a>(
    log: &mut [u32],
    st: LogState,
    image: &mut [u8],
    nets_to: &mut [u32],
    trits_to: &mut [u8],
    scratch: &mut [u32],
    m: Memory,
    nets: &'a [u32],
    trits: &[u8],
    output: &[u32],
    s: MemorySwizzle,
    entries: &'a [u32],
    writes: &[u32],
    reads: &[u32],
) -> Swizzled
    ensures scratch_after { swizzled_of (given_swizzled result) (swizzle_scratch (memory_of (given_memory m) nets.now trits.now) (plan_of s entries.now writes.now reads.now)) log.new image.exit.now nets_to.new trits_to.new scratch.new ≡ swizzle_call (record { image = image.entry.now; nets = nets_to.old; trits = trits_to.old; scratch = scratch.old }) log.old (state_of st) (given_of (given_memory m) nets.now trits.now) output.now (plan_of s entries.now writes.now reads.now) }
    ensures swizzles { Swizzles (given_memory m) nets.now trits.now output.now s entries.now writes.now reads.now st log.old image.old nets_to.old trits_to.old scratch.old (given_swizzled result) log.new image.new nets_to.new trits_to.new scratch.new }
    ensures value { result ≡ swizzled_struct (given_swizzled result) }
{
    c_swizzle::tablegoose_swizzle(
        log, st, image, nets_to, trits_to, scratch, m, nets, trits, output, s, entries, writes,
        reads,
    )
}

#[unsafe(no_mangle)]
pub extern "C" fn tablegoose_swizzle_and_patch<'a>(
    log: &mut [u32],
    st: LogState,
    image: &mut [u8],
    nets_to: &mut [u32],
    trits_to: &mut [u8],
    scratch: &mut [u32],
    numbers: &mut [u32],
    m: Memory,
    nets: &'a [u32],
    trits: &[u8],
    output: &[u32],
    s: MemorySwizzle,
    entries: &'a [u32],
    writes: &[u32],
    reads: &[u32],
    calls: &[u32],
    rows: &[u8],
) -> SwizzledPatches
    ensures joined { Joined (record { image = image.entry.now; nets = nets_to.old; trits = trits_to.old; scratch = scratch.old }) log.old (state_of st) (given_of (given_memory m) nets.now trits.now) output.now (plan_of s entries.now writes.now reads.now) numbers.old (calls_of calls.now rows.now) (given_patches result) log.new image.exit.now nets_to.new trits_to.new scratch.new numbers.new }
    ensures kept { Kept st log.old image.old nets_to.old trits_to.old scratch.old (given_patches result) log.new image.new nets_to.new trits_to.new scratch.new }
    ensures value { result ≡ patches_struct (given_patches result) }
{
    c_swizzle::tablegoose_swizzle_and_patch(
        log, st, image, nets_to, trits_to, scratch, numbers, m, nets, trits, output, s, entries,
        writes, reads, calls, rows,
    )
}
