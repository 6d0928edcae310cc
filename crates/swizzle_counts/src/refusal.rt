// The refusal of a swizzle: 1 to 4 and 7 to 10, then 20 and 21 by what it asks for.
ghost use Rattle.std.specs.Prelude.{◌≡◌};
ghost use Rattle.rules.specs.Refusal.{number_of};
ghost use Rattle.log_entries.specs.View.{state_of};
ghost use Rattle.net_memory.specs.Given.{view_given};
ghost use Rattle.swizzle_plan.specs.Calls.{view_plan};
ghost use Rattle.swizzle_counts.specs.Refusal.{rooms_of, needs_refusal, asked_needs, asked_image, rows_refusal, RowsFit};

use crate::{Needs, Sized, Swizzle, SwizzleRooms};
use rules::Refusal;

// 20 and 21 of a swizzle that asks for this, and has an image of so many trits.
fn needs_refusal(r: SwizzleRooms, n: Needs, image: usize) -> Result<(), Refusal>
    ensures { number_of result ≡ needs_refusal (rooms_of r) r.log (state_of r.state) n image }
{
    if r.image < image || r.nets < n.room || r.trits < n.trits || r.scratch < n.scratch {
        return Err(Refusal::NoRoom);
    }
    r.state.room_refusal(r.log, n.words, n.nets)
}

// The same from a plan that passes.
fn rows_by_needs(r: SwizzleRooms, asked: Swizzle<'_>) -> Result<(), Refusal>
    requires { RowsFit asked.given.memory asked.given.nets.now asked.plan.swizzle asked.plan.entries.now asked.plan.writes.now asked.plan.reads.now }
    ensures { number_of result ≡ needs_refusal (rooms_of r) r.log (state_of r.state) (asked_needs asked.entry.given asked.entry.plan) (asked_image asked.entry.given asked.entry.plan) }
{
    let given = asked.given;
    let plan = asked.plan;
    let layout = plan.layout(given);
    let z = layout.measure()?;
    let q = Sized {
        given,
        layout,
        columns: z.columns as usize,
    };
    let w = q.writes_needs(plan.writes);
    let d = q.reads_needs(plan.reads);
    needs_refusal(r, w.plus(d), z.image_size as usize)
}

// By what a swizzle is refused, all before anything is stored. Depth 0 of a memory that has a width unmaps its flip-flops: there it is the plan alone,
// and 14, 20 and 21 are left to the caller.
#[tactic(auto, using(crate::proofs::Refusing::plan_err))]
pub fn rows_refusal(r: SwizzleRooms, asked: Swizzle<'_>) -> Result<(), Refusal>
    ensures { number_of result ≡ rows_refusal (rooms_of r) r.log (state_of r.state) (view_given asked.entry.given) asked.entry.output.now (view_plan asked.entry.plan) }
{
    let given = asked.given;
    let next = r.state.next;
    swizzle_plan::plan_refusal(given, asked.output, next, asked.plan)?;
    if given.memory.width == 0 {
        return r.state.room_refusal(r.log, 0, 0);
    }
    if given.memory.depth == 0 {
        return Ok(());
    }
    rows_by_needs(r, asked)
}
