// The whole refusal of a swizzle, before anything is stored: that of its rows, or for depth 0 that of the unmapping of its flip-flops.
#![tactic(auto)]

ghost use Rattle.std.specs.Prelude.{◌≡◌};
ghost use Rattle.rules.specs.Refusal.{number_of};
ghost use Rattle.rules.specs.Refusals.{swizzle_refusal};
ghost use Rattle.log_entries.specs.View.{state_of};
ghost use Rattle.net_memory.specs.Given.{view_given};
ghost use Rattle.swizzle_plan.specs.Calls.{view_plan};
ghost use Rattle.swizzle_counts.specs.Refusal.{rooms_of};

use rules::Refusal;
use swizzle_counts::{Swizzle, SwizzleRooms};

// By what a swizzle is refused.
#[tactic(auto, using(crate::proofs::Joined::joined_err))]
pub fn swizzle_refusal(r: SwizzleRooms, asked: Swizzle<'_>) -> Result<(), Refusal>
    ensures { number_of result ≡ swizzle_refusal (rooms_of r) r.log (state_of r.state) (view_given asked.entry.given) asked.entry.output.now (view_plan asked.entry.plan) }
{
    swizzle_counts::refusal::rows_refusal(r, asked)?;
    let given = asked.given;
    if given.memory.width == 0 {
        return Ok(());
    }
    if given.memory.depth != 0 {
        return Ok(());
    }
    if port_unmap_all::ports_short(given) {
        return Err(Refusal::ShortAddress);
    }
    port_empty::empty_refusal(r.log, r.state, given, asked.output)
}
