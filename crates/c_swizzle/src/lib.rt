// The swizzle for callers in C and Rust: numbers, slices and `repr(C)` structs, no enums. A refused call gives state and lent arrays back as they were.
#![tactic(auto)]

ghost use Rattle.std.specs.Prelude.{◌≡◌};
ghost use Rattle.rules.specs.Answers.{swizzle_call};
ghost use Rattle.rules.specs.Refusal.{number};
ghost use Rattle.rules.specs.Swizzle.{swizzle_scratch};
ghost use Rattle.log_entries.specs.View.{state_of};
ghost use Rattle.net_memory.specs.View.{memory_of};
ghost use Rattle.net_memory.specs.Given.{given_of};
ghost use Rattle.image_patches.specs.Calls.{calls_of};
ghost use Rattle.swizzle_plan.specs.Calls.{plan_of};
ghost use Rattle.swizzle_call.specs.Answer.{swizzled_of};
ghost use Rattle.swizzle_call.specs.Told.{told, accepted_told, refused_told};
ghost use Rattle.swizzle_call.specs.Whole.{Swizzles};
ghost use Rattle.swizzle_patches.specs.Joined.{Joined, Kept, told_patches};
ghost use Rattle.c_memory.specs.View.{given_memory};
ghost use Rattle.c_swizzle.specs.Calls.{swizzled_struct, given_swizzled, patches_struct, given_patches};

use c_memory::Memory;
use c_net::Control;
use image_patches::Calls;
use image_state::Laid;
use log_entries::LogState;
use record_sizes::Sizes;
use rules::Refusal;
use swizzle_counts::Swizzle;
use swizzle_plan::{MemorySwizzle, Plan};

pub mod parts;
pub mod wide;

#[repr(C)]
#[derive(Clone, Copy)]
pub struct WideWritePort {
    pub addr_len: u32,
    pub wide: u32,
    pub clock: Control,
}

// `first` is the first of the output nets. With `clocked` 0 there is no flip-flop, and the controls play no part.
#[repr(C)]
#[derive(Clone, Copy)]
pub struct WideReadPort {
    pub addr_len: u32,
    pub wide: u32,
    pub first: u32,
    pub relations_len: u32,
    pub relations: [u8; rules::MAX_PORTS],
    pub clocked: u32,
    pub clock: Control,
    pub clear: Control,
    pub reset: Control,
    pub enable: Control,
    pub reset_over_enable: u32,
}

// The memories that a swizzle gives: full ones and all, their depths, the columns of each, and the ports that they share.
#[repr(C)]
#[derive(Clone, Copy)]
pub struct WideMemory {
    pub full: u32,
    pub mems: u32,
    pub full_depth: u32,
    pub part_depth: u32,
    pub unit: u32,
    pub write_count: u32,
    pub read_count: u32,
    pub write_ports: [WideWritePort; rules::MAX_PORTS],
    pub read_ports: [WideReadPort; rules::MAX_PORTS],
}

// A refusal's number, or 0; the log's state after the call; the memories, and how many nets and trits of the rooms are theirs; the state that patches go
// by, and the record's sizes.
#[repr(C)]
#[derive(Clone, Copy)]
pub struct Swizzled {
    pub number: u32,
    pub state: LogState,
    pub memory: WideMemory,
    pub nets_used: usize,
    pub trits_used: usize,
    pub laid: Laid,
    pub sizes: Sizes,
}

// A swizzle's answer, and the number of the list of calls on its image.
#[repr(C)]
#[derive(Clone, Copy)]
pub struct SwizzledPatches {
    pub swizzled: Swizzled,
    pub patches: u32,
}

// Of a call that is not refused.
fn accepted_struct(x: swizzle_call::Swizzled) -> Swizzled
    ensures { result ≡ swizzled_struct (accepted_told x) }
{
    let made = x.made;
    let state = made.state;
    let memory = made.memory;
    let laid = x.laid;
    let sizes = x.sizes;
    Swizzled {
        number: 0,
        state,
        memory: memory.into(),
        nets_used: made.nets_at,
        trits_used: made.trits_at,
        laid,
        sizes,
    }
}

// Refused: the log's state as it was, no memories, and no state for patches.
fn refused_struct(st: LogState, refusal: Refusal) -> Swizzled
    ensures { result ≡ swizzled_struct (refused_told st (number refusal)) }
{
    Swizzled {
        number: refusal.number(),
        state: st,
        memory: swizzle_result::WideMemory::NONE.into(),
        nets_used: 0,
        trits_used: 0,
        laid: Laid::unset(),
        sizes: Sizes::default(),
    }
}

fn swizzled_struct(st: LogState, answer: Result<swizzle_call::Swizzled, Refusal>) -> Swizzled
    ensures { result ≡ swizzled_struct (told st answer) }
{
    match answer {
        Err(refusal) => refused_struct(st, refusal),
        Ok(x) => accepted_struct(x),
    }
}

fn patches_struct(
    st: LogState,
    answer: Result<swizzle_patches::SwizzledPatches, Refusal>,
) -> SwizzledPatches
    ensures { result ≡ patches_struct (told_patches st answer) }
{
    match answer {
        Err(refusal) => SwizzledPatches {
            swizzled: refused_struct(st, refusal),
            patches: refusal.number(),
        },
        Ok(x) => SwizzledPatches {
            swizzled: accepted_struct(x.swizzled),
            patches: rules::number_of(x.patches),
        },
    }
}

// A memory swizzled by a plan.
pub fn tablegoose_swizzle<'a>(
    log: &mut [u32],
    st: LogState,
    image: &mut [u8],
    nets_to: &mut [u32],
    trits_to: &mut [u8],
    scratch: &mut [u32],
    m: Memory,
    nets: &'a [u32],
    trits: &[u8],
    output: &[u32],
    s: MemorySwizzle,
    entries: &'a [u32],
    writes: &[u32],
    reads: &[u32],
) -> Swizzled
    ensures scratch_after { swizzled_of (given_swizzled result) (swizzle_scratch (memory_of (given_memory m) nets.now trits.now) (plan_of s entries.now writes.now reads.now)) log.new image.exit.now nets_to.new trits_to.new scratch.new ≡ swizzle_call (record { image = image.entry.now; nets = nets_to.old; trits = trits_to.old; scratch = scratch.old }) log.old (state_of st) (given_of (given_memory m) nets.now trits.now) output.now (plan_of s entries.now writes.now reads.now) }
    ensures swizzles { Swizzles (given_memory m) nets.now trits.now output.now s entries.now writes.now reads.now st log.old image.old nets_to.old trits_to.old scratch.old (given_swizzled result) log.new image.new nets_to.new trits_to.new scratch.new }
    ensures value { result ≡ swizzled_struct (given_swizzled result) }
{
    let asked = Swizzle {
        given: c_memory::given_by(m, nets, trits),
        output,
        plan: Plan {
            swizzle: s,
            entries,
            writes,
            reads,
        },
    };
    let answer = swizzle_call::swizzle(log, st, image, nets_to, trits_to, scratch, asked);
    swizzled_struct(st, answer)
}

// A swizzle, and the calls of a list on its image; each call's number goes into `numbers`. Where the swizzle is refused no call is made.
pub fn tablegoose_swizzle_and_patch<'a>(
    log: &mut [u32],
    st: LogState,
    image: &mut [u8],
    nets_to: &mut [u32],
    trits_to: &mut [u8],
    scratch: &mut [u32],
    numbers: &mut [u32],
    m: Memory,
    nets: &'a [u32],
    trits: &[u8],
    output: &[u32],
    s: MemorySwizzle,
    entries: &'a [u32],
    writes: &[u32],
    reads: &[u32],
    calls: &[u32],
    rows: &[u8],
) -> SwizzledPatches
    ensures joined { Joined (record { image = image.entry.now; nets = nets_to.old; trits = trits_to.old; scratch = scratch.old }) log.old (state_of st) (given_of (given_memory m) nets.now trits.now) output.now (plan_of s entries.now writes.now reads.now) numbers.old (calls_of calls.now rows.now) (given_patches result) log.new image.exit.now nets_to.new trits_to.new scratch.new numbers.new }
    ensures kept { Kept st log.old image.old nets_to.old trits_to.old scratch.old (given_patches result) log.new image.new nets_to.new trits_to.new scratch.new }
    ensures value { result ≡ patches_struct (given_patches result) }
{
    let asked = Swizzle {
        given: c_memory::given_by(m, nets, trits),
        output,
        plan: Plan {
            swizzle: s,
            entries,
            writes,
            reads,
        },
    };
    let list = Calls {
        words: calls,
        trits: rows,
    };
    let answer = swizzle_patches::swizzle_and_patch(
        log, st, image, nets_to, trits_to, scratch, numbers, asked, list,
    );
    patches_struct(st, answer)
}
