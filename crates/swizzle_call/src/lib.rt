// The call `swizzle`: all numbers first; then width 0 does nothing, depth 0 unmaps the flip-flops, and rows have their ports made anew.
#![tactic(auto)]

ghost use Rattle.std.specs.Prelude.{◌≡◌, drop};
ghost use Rattle.rules.specs.Answers.{swizzle_call, filled_with};
ghost use Rattle.rules.specs.Refusal.{number_of};
ghost use Rattle.log_entries.specs.View.{state_of, lent, lent_of};
ghost use Rattle.net_memory.specs.Given.{view_given, mem_of};
ghost use Rattle.rules.specs.Geometry.{layout_of};
ghost use Rattle.rules.specs.Swizzle.{swizzle, swizzle_scratch};
ghost use Rattle.swizzle_plan.specs.Calls.{view_plan};
ghost use Rattle.swizzle_reads.specs.Going.{going_of};
ghost use Rattle.lists.specs.Lists.{part};
ghost use Rattle.rules.specs.Beside.Layouts.{fill_call};
ghost use Rattle.image_state.specs.View.{laid_of};
ghost use Rattle.swizzle_call.specs.Acted.{Passed, NoneYet, Acted, HoldsPorts};
ghost use Rattle.swizzle_call.specs.Made.{left_by, none_yet_of};
ghost use Rattle.swizzle_call.specs.Told.{told};
ghost use Rattle.swizzle_call.specs.Whole.{Swizzles};
ghost use Rattle.swizzle_call.specs.Answer.{swizzled_of};

use image_state::Laid;
use log_entries::{Log, LogState};
use net_memory::Given;
use record_sizes::Sizes;
use rules::Refusal;
use swizzle_counts::{Swizzle, SwizzleRooms};
use swizzle_reads::Reads;
use swizzle_result::WideMemory;

// What a swizzle makes: the log's state, the struct of the memories, and how many nets and trits of the lent rooms are theirs: the rooms stay the
// caller's, and C reads both numbers.
#[derive(Clone, Copy)]
pub struct Made {
    pub state: LogState,
    pub memory: WideMemory,
    pub nets_at: usize,
    pub trits_at: usize,
}

// The log, the rooms for nets and trits, and the struct of the memories, of a swizzle that no number refuses. Scratch is open where the pieces
// of a read port stood.
fn act(log: &mut Log, made: &mut Reads, scratch: &mut [u32], asked: Swizzle<'_>)
    requires passed { Passed asked.given.memory asked.given.nets.now asked.given.trits.now asked.output.now asked.plan.swizzle asked.plan.entries.now asked.plan.writes.now asked.plan.reads.now log.old.state log.old.words.now made.old.nets.now made.old.trits.now scratch.old }
    requires none_yet { NoneYet made.old }
    ensures acted { Acted (mem_of asked.entry.given) (layout_of (mem_of asked.entry.given) (view_plan asked.entry.plan)) (swizzle (mem_of asked.entry.given) asked.entry.output.now (view_plan asked.entry.plan)) (going_of log.old made.old) (going_of log.new made.new) }
    ensures scratch_unchanged { drop (swizzle_scratch (mem_of asked.entry.given) (view_plan asked.entry.plan)) scratch.new ≡ drop (swizzle_scratch (mem_of asked.entry.given) (view_plan asked.entry.plan)) scratch.old }
    ensures holds_ports { HoldsPorts (mem_of asked.entry.given) asked.entry.output.now (view_plan asked.entry.plan) log.old.state.next made.new.memory }
{
    let given = asked.given;
    let plan = asked.plan;
    if given.memory.width == 0 {
        return;
    }
    if given.memory.depth == 0 {
        port_empty::emit_empty(log, given, asked.output);
        return;
    }
    let q = plan.layout(given);
    swizzle_rows::emit_rows(
        log,
        made,
        scratch,
        q,
        given,
        plan.writes,
        plan.reads,
        asked.output,
    );
}

// The same with rooms of which no part is used yet.
fn make(
    log: &mut Log,
    nets_to: &mut [u32],
    trits_to: &mut [u8],
    scratch: &mut [u32],
    asked: Swizzle<'_>,
) -> Made
    requires { Passed asked.given.memory asked.given.nets.now asked.given.trits.now asked.output.now asked.plan.swizzle asked.plan.entries.now asked.plan.writes.now asked.plan.reads.now log.old.state log.old.words.now nets_to.old trits_to.old scratch.old }
    ensures acted { Acted (mem_of asked.entry.given) (layout_of (mem_of asked.entry.given) (view_plan asked.entry.plan)) (swizzle (mem_of asked.entry.given) asked.entry.output.now (view_plan asked.entry.plan)) (left_by (lent_of log.old) (none_yet_of log.old.state) nets_to.old trits_to.old) (left_by (lent_of log.new) result nets_to.new trits_to.new) }
    ensures state { result.state ≡ log.new.state }
    ensures scratch_unchanged { drop (swizzle_scratch (mem_of asked.entry.given) (view_plan asked.entry.plan)) scratch.new ≡ drop (swizzle_scratch (mem_of asked.entry.given) (view_plan asked.entry.plan)) scratch.old }
    ensures holds_ports { HoldsPorts (mem_of asked.entry.given) asked.entry.output.now (view_plan asked.entry.plan) log.old.state.next result.memory }
{
    let mut made = Reads {
        nets: nets_to,
        nets_at: 0,
        trits: trits_to,
        trits_at: 0,
        memory: WideMemory::NONE,
    };
    act(log, &mut made, scratch, asked);
    let memory = made.memory;
    Made {
        state: log.state,
        memory,
        nets_at: made.nets_at,
        trits_at: made.trits_at,
    }
}

// What a swizzle gives beside the log and the lent arrays: what it makes, the state that patches go by, and the record's sizes.
#[derive(Clone, Copy)]
pub struct Swizzled {
    pub made: Made,
    pub laid: Laid,
    pub sizes: Sizes,
}

// The initial trits of a memory laid out in the image.
fn fill_init(image: &mut [u8], laid: Laid, given: Given<'_>) -> Result<(), Refusal>
    ensures { filled_with (number_of result) image.new ≡ fill_call (laid_of laid) (part 0 given.entry.memory.init_len given.entry.trits.now) image.old }
{
    let n = net_memory::init_size(given.memory);
    laid.fill(image, lists::part(given.trits, 0, n))
}

// A memory swizzled by a plan. A call takes its log and the log's state apart, as C hands them. Refused: the log and the arrays are as they were.
// Accepted: the rest of the image, of the nets, of the trits and of the scratch past its need are as they were.
#[tactic(auto, using(crate::proofs::Answer::refused_answer))]
pub fn swizzle(
    log: &mut [u32],
    st: LogState,
    image: &mut [u8],
    nets_to: &mut [u32],
    trits_to: &mut [u8],
    scratch: &mut [u32],
    asked: Swizzle<'_>,
) -> Result<Swizzled, Refusal>
    ensures scratch_after { swizzled_of (told st result) (swizzle_scratch (mem_of asked.entry.given) (view_plan asked.entry.plan)) log.new image.exit.now nets_to.new trits_to.new scratch.new ≡ swizzle_call (record { image = image.entry.now; nets = nets_to.old; trits = trits_to.old; scratch = scratch.old }) log.old (state_of st) (view_given asked.entry.given) asked.entry.output.now (view_plan asked.entry.plan) }
    ensures swizzles { Swizzles asked.entry.given.memory asked.entry.given.nets.now asked.entry.given.trits.now asked.entry.output.now asked.entry.plan.swizzle asked.entry.plan.entries.now asked.entry.plan.writes.now asked.entry.plan.reads.now st log.old image.old nets_to.old trits_to.old scratch.old (told st result) log.new image.new nets_to.new trits_to.new scratch.new }
{
    let r = SwizzleRooms {
        log: log.len(),
        state: st,
        image: image.len(),
        nets: nets_to.len(),
        trits: trits_to.len(),
        scratch: scratch.len(),
    };
    swizzle_refusal::swizzle_refusal(r, asked)?;
    let mut log = Log {
        words: log,
        state: st,
    };
    let made = make(&mut log, nets_to, trits_to, scratch, asked);
    // What follows refuses no swizzle that passed.
    let laid = Laid::laid_out(asked.plan.layout(asked.given));
    let sizes = laid.sizes()?;
    fill_init(image, laid, asked.given)?;
    Ok(Swizzled { made, laid, sizes })
}
