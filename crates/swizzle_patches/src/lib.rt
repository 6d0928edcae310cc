// Demand 3 of the calls themselves: a memory swizzled by a plan, then the patch calls of a list on its image, refused ones among them.
#![tactic(auto)]

ghost use Rattle.log_entries.specs.View.{state_of};
ghost use Rattle.net_memory.specs.Given.{view_given};
ghost use Rattle.swizzle_plan.specs.Calls.{view_plan};
ghost use Rattle.image_patches.specs.Calls.{calls_of};
ghost use Rattle.swizzle_patches.specs.Joined.{Joined, Kept, told_patches};

use image_patches::Calls;
use log_entries::LogState;
use rules::Refusal;
use swizzle_call::Swizzled;
use swizzle_counts::Swizzle;

// What an accepted swizzle gives, and by what the list of calls is refused: 20 where the room for their numbers is short.
#[derive(Clone, Copy)]
pub struct SwizzledPatches {
    pub swizzled: Swizzled,
    pub patches: Result<(), Refusal>,
}

// A swizzle and the calls of a list on its image; the number of each call goes into `numbers`. Where the swizzle is refused no call is made. A call takes
// its log and the log's state apart, as C hands them.
pub fn swizzle_and_patch(
    log: &mut [u32],
    st: LogState,
    image: &mut [u8],
    nets_to: &mut [u32],
    trits_to: &mut [u8],
    scratch: &mut [u32],
    numbers: &mut [u32],
    asked: Swizzle<'_>,
    calls: Calls<'_>,
) -> Result<SwizzledPatches, Refusal>
    ensures joined { Joined (record { image = image.entry.now; nets = nets_to.old; trits = trits_to.old; scratch = scratch.old }) log.old (state_of st) (view_given asked.entry.given) asked.entry.output.now (view_plan asked.entry.plan) numbers.old (calls_of calls.entry.words.now calls.entry.trits.now) (told_patches st result) log.new image.exit.now nets_to.new trits_to.new scratch.new numbers.new }
    ensures kept { Kept st log.old image.old nets_to.old trits_to.old scratch.old (told_patches st result) log.new image.new nets_to.new trits_to.new scratch.new }
{
    let swizzled = swizzle_call::swizzle(log, st, image, nets_to, trits_to, scratch, asked)?;
    let laid = swizzled.laid;
    let patches = image_patches::patch_each(image, numbers, laid.layout(), calls);
    Ok(SwizzledPatches { swizzled, patches })
}
