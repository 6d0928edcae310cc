// memory/src/lib.rs, MemorySwizzle: a plan and its numbers, alone and with those of the memory that it is for.
#![tactic(auto)]

ghost use Rattle.std.specs.Prelude.{◌≡◌, false, ltb, length};
ghost use Rattle.lists.specs.Lists.{any};
ghost use Rattle.rules.specs.Limits.{max_wide};
ghost use Rattle.rules.specs.Geometry.{layout_of};
ghost use Rattle.image_geometry.specs.View.{layout_by};
ghost use Rattle.rules.specs.Conditions.{plan_too_large, bad_layout_sizes};
ghost use Rattle.rules.specs.Refusals.{plan_number, whole_plan, planned_number, swizzle_plan_number};
ghost use Rattle.rules.specs.Refusal.{number_of};
ghost use Rattle.net_memory.specs.Given.{view_given, mem_of};
ghost use Rattle.swizzle_plan.specs.Calls.{params_by, view_plan};

use image_geometry::{Layout, Params};
use net_check::Breaks;
use net_memory::{Given, Memory};
use rules::Refusal;

pub mod logs;

// A plan without its lists: the entries of a row and the new wide logs stand in lent arrays.
#[repr(C)]
#[derive(Clone, Copy)]
pub struct MemorySwizzle {
    pub soft_addr_bits_mask: u32,
    pub hard_addr_bits: u32,
    pub data_width_unit: u32,
}

// A whole plan: its numbers, the entries of a row, and the new wide logs of the write ports and of the read ports.
#[derive(Clone, Copy)]
pub struct Plan<'a> {
    pub swizzle: MemorySwizzle,
    pub entries: &'a [u32],
    pub writes: &'a [u32],
    pub reads: &'a [u32],
}

// A new wide log is too large.
fn any_wide(logs: &[u32]) -> bool
    ensures { result ≡ any (ltb max_wide) logs.now }
{
    logs.iter().any(|log| rules::MAX_WIDE < *log)
}

// A memory and a plan are handed apart, as C's calls hand them: a struct of both would be built for the private functions alone, of few lines each.
impl<'a> Plan<'a> {
    // Its sizes with those of a memory.
    pub fn params(self, m: Memory) -> Params
        ensures { result ≡ params_by m self.entry.swizzle }
    {
        Params {
            depth: m.depth,
            width: m.width,
            soft_mask: self.swizzle.soft_addr_bits_mask,
            hard: self.swizzle.hard_addr_bits,
            unit: self.swizzle.data_width_unit,
        }
    }

    // The layout of a memory's rows.
    #[tactic(auto, unfolding(rules::specs::Geometry::layout_of, net_memory::specs::View::memory_of))]
    pub fn layout(self, given: Given<'_>) -> Layout<'a>
        ensures params { result.params ≡ params_by given.entry.memory self.entry.swizzle }
        ensures entries { result.entries.now ≡ self.entry.entries.now }
        ensures layout { layout_by result.params result.entries.now ≡ layout_of (mem_of given.entry) (view_plan self.entry) }
    {
        Layout {
            params: self.params(given.memory),
            entries: self.entries,
        }
    }

    // Number 1 of a plan.
    #[tactic(auto, unfolding(rules::specs::Conditions::plan_too_large))]
    pub fn is_too_large(self) -> bool
        ensures { result ≡ plan_too_large (view_plan self.entry) }
    {
        rules::MAX_ROW < self.entries.len()
            || self.swizzle.data_width_unit == 0
            || rules::MAX_UNIT < self.swizzle.data_width_unit
            || rules::MAX_HARD < self.swizzle.hard_addr_bits
            || any_wide(self.writes)
            || any_wide(self.reads)
    }
}

// 7 and 8 of a plan.
#[tactic(auto, using(crate::proofs::Whole::entries_err, crate::proofs::Whole::entries_ok))]
fn check_parts(given: Given<'_>, plan: Plan<'_>) -> Result<(), Refusal>
    ensures { number_of result ≡ plan_number (mem_of given.entry) (view_plan plan.entry) }
{
    image_check::check_entries(given.memory.width, plan.entries)?;
    image_geometry::check_soft_mask(given.memory.depth, plan.swizzle.soft_addr_bits_mask)
}

// 1 to 4, 7 and 8 of a memory and a plan; `long` says what else of the call breaks 1.
#[tactic(auto, using(rules::proofs::Answers::else_err, rules::proofs::Answers::else_ok), unfolding(rules::specs::Refusals::planned_number))]
pub fn planned_refusal(given: Given<'_>, plan: Plan<'_>, long: bool) -> Result<(), Refusal>
    ensures { number_of result ≡ planned_number long (view_given given.entry) (view_plan plan.entry) }
{
    let large = plan.is_too_large() || long;
    net_check::call_refusal(
        given,
        rules::MAX_NETS,
        Breaks {
            large,
            ..Breaks::NOTHING
        },
    )?;
    check_parts(given, plan)
}

// 7, 8, 9 and 10 of a plan whose sizes are within number 1's limits, over a memory whose sizes are.
#[tactic(auto, using(rules::proofs::Answers::else_err, rules::proofs::Answers::else_ok), unfolding(rules::specs::Refusals::whole_plan, rules::specs::Refusals::wide_number))]
fn whole_refusal(given: Given<'_>, plan: Plan<'_>) -> Result<(), Refusal>
    requires { bad_layout_sizes given.memory.depth given.memory.width (length plan.entries.now) plan.swizzle.data_width_unit plan.swizzle.hard_addr_bits ≡ false }
    ensures { number_of result ≡ whole_plan (mem_of given.entry) (view_plan plan.entry) }
{
    check_parts(given, plan)?;
    if logs::all_logs_bad(given, plan) {
        return Err(Refusal::BadWideLogs);
    }
    if given.memory.width == 0 {
        return Ok(());
    }
    plan.layout(given).check_result()
}

// By what a plan is refused for a memory and the nets that its outputs drive: 1 to 4, then 7, 8, 9 and 10.
#[tactic(auto, using(rules::proofs::Answers::else_err, rules::proofs::Answers::else_ok), unfolding(rules::specs::Refusals::swizzle_plan_number))]
pub fn plan_refusal(
    given: Given<'_>,
    output: &[u32],
    next: u32,
    plan: Plan<'_>,
) -> Result<(), Refusal>
    ensures { number_of result ≡ swizzle_plan_number next (view_given given.entry) output.now (view_plan plan.entry) }
{
    let one = plan.is_too_large();
    port_outputs::driving_refusal(given, output, next, one)?;
    whole_refusal(given, plan)
}
