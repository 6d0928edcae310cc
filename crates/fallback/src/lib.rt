// memory/src/lib.rs, lower_fallback: the flip-flops of all read ports are unmapped, the memory is split into rows, and each row becomes a register.
#![tactic(auto)]

ghost use Rattle.std.specs.Prelude.{◌≡◌, [], ◌+◌, ◌*◌, ◌≤◌, min, length, drop};
ghost use Rattle.rules.specs.Limits.{max_bits, max_ports, max_row};
ghost use Rattle.rules.specs.Fallback.{fallback_plan, lower_rows, lower_fallback, fallback_scratch};
ghost use Rattle.rules.specs.Refusals.{room_refusal, log_refusal, swizzle_refusal, lower_fallback_number, lower_fallback_refusal};
ghost use Rattle.rules.specs.Answers.{lower_fallback_call};
ghost use Rattle.rules.specs.Refusal.{number_of};
ghost use Rattle.log_entries.specs.Emission.{run};
ghost use Rattle.log_entries.specs.View.{state_of, lent_of};
ghost use Rattle.net_memory.specs.View.{memory_of};
ghost use Rattle.net_memory.specs.Given.{view_given, mem_of};
ghost use Rattle.swizzle_result.specs.View.{results_of};
ghost use Rattle.swizzle_counts.specs.Refusal.{rooms_of};
ghost use Rattle.swizzle_call.specs.Told.{told};
ghost use Rattle.fallback_bare.specs.Bare.{bare_of};
ghost use Rattle.fallback_pass.specs.Split.{split_words, split_nets};
ghost use Rattle.fallback.specs.Split.{Passes, SplitDone, Prepared, Ready, split_lowered};
ghost use Rattle.fallback.specs.Refusal.{Later, Asked, HasWidth, DryRun};
ghost use Rattle.fallback.specs.Answer.{left_by, lowered_of, Lowers};

use fallback_plan::Lists;
use log_entries::{Log, LogState};
use net_memory::{Given, Memory};
use port_transparency::Overlay;
use rules::Refusal;
use swizzle_call::Swizzled;
use swizzle_counts::{Swizzle, SwizzleRooms};
use swizzle_result::WideMemory;

// What the unmappings are lent: room for the outputs after them, and an overlay.
#[derive(Drop)]
struct Room {
    outputs: [u32; rules::MAX_OUTPUTS],
    overlay: Overlay,
}

// The split of a memory by the plan of a fallback, which no number refuses: its tables in `tables`, its trits in `image`.
// The log and its state go on apart to the call that takes them so.
fn split_rows<'a>(
    log: &mut [u32],
    st: LogState,
    image: &mut [u8; rules::BITS_ROOM],
    tables: &mut [u32],
    given: Given<'a>,
    outs: &'a [u32],
) -> Result<Swizzled, Refusal>
    requires { Passes given.memory given.nets.now given.trits.now outs.now st log.old tables.old × (given.memory.width ≤ max_row) }
    ensures { SplitDone (mem_of given.entry) outs.now (fallback_plan (mem_of given.entry)) st log.old tables.old (told st result) log.new tables.new image.new }
{
    let lists = Lists::of(given.memory.width);
    let asked = Swizzle {
        given,
        output: outs,
        plan: lists.plan(given),
    };
    let mut none = [0u8; 0];
    let mut pieces = [0u32; rules::BITS_ROOM];
    swizzle_call::swizzle(log, st, image, tables, &mut none, &mut pieces, asked)
}

// The registers of the memories that a struct holds.
fn lower_made(log: &mut Log, g: WideMemory, nets: &[u32], image: &[u8])
    requires { Prepared g nets.now image.now }
    ensures { lent_of log.new ≡ run (lower_rows (results_of g nets.now [] image.now)) (lent_of log.old) }
{
    fallback_rows::emit_lowered(log, g, nets, image);
}

// The split and the registers, of a memory that passes the numbers of a fallback; it may have flip-flops, which are taken for unmapped.
fn lower_rows(log: &mut Log, tables: &mut [u32], given: Given<'_>, outs: &[u32])
    requires { Ready given.memory given.nets.now given.trits.now outs.now log.old.state log.old.words.now tables.old }
    ensures log_after { lent_of log.new ≡ run (split_lowered (memory_of (bare_of given.entry.memory) given.entry.nets.now given.entry.trits.now) outs.now) (lent_of log.old) }
    ensures tables_unchanged { drop (fallback_scratch (mem_of given.entry)) tables.new ≡ drop (fallback_scratch (mem_of given.entry)) tables.old }
{
    let bare = Given {
        memory: fallback_bare::bare_memory(given.memory),
        ..given
    };
    let mut image = [0u8; rules::BITS_ROOM];
    let split = split_rows(log.words, log.state, &mut image, tables, bare, outs);
    // No number refuses it.
    let Ok(x) = split else {
        return;
    };
    let made = x.made;
    log.state = made.state;
    let n = net_memory::init_size(given.memory);
    lower_made(
        log,
        made.memory,
        lists::part(tables, 0, made.nets_at),
        lists::part(&image, 0, n),
    );
}

// 1 to 4, 11 and 14.
#[tactic(auto, using(rules::proofs::Answers::else_err, rules::proofs::Answers::else_ok), unfolding(rules::specs::Refusals::lower_fallback_number, rules::specs::Conditions::write_clocks_differ))]
fn lower_refusal(given: Given<'_>, output: &[u32], next: u32) -> Result<(), Refusal>
    ensures { number_of result ≡ lower_fallback_number next (view_given given.entry) output.now }
{
    port_outputs::driving_refusal(given, output, next, false)?;
    if !port_outputs::clocks_same(given.memory) {
        return Err(Refusal::WriteClocksDiffer);
    }
    if port_unmap_all::ports_short(given) {
        return Err(Refusal::ShortAddress);
    }
    Ok(())
}

// The nets of scratch: data and mask of each write port for all rows.
fn scratch_need(m: Memory) -> usize
    requires { m.depth * m.width ≤ max_bits }
    ensures { result ≡ 2 * min max_ports m.write_count * (m.depth * m.width) }
{
    let cells = (m.depth * m.width) as usize;
    2 * net_memory::ports_used(m.write_count) * cells
}

// The next free net after so many more. One outside the limits stays, and counts past the limit are all alike.
fn later_net(next: u32, made: usize) -> u32
    ensures { Later next made result }
{
    if next < rules::FIRST_CELL || rules::MAX_NETS < next {
        return next;
    }
    let more = made.min(rules::MAX_NETS as usize + 1);
    next + more as u32
}

// The refusal of the split of a memory by the plan of a fallback.
fn plan_refusal<'a>(r: SwizzleRooms, given: Given<'a>, outs: &'a [u32]) -> Result<(), Refusal>
    requires { given.memory.width ≤ max_row }
    ensures { number_of result ≡ swizzle_refusal (rooms_of r) r.log (state_of r.state) (view_given given.entry) outs.now (fallback_plan (mem_of given.entry)) }
{
    let lists = Lists::of(given.memory.width);
    let asked = Swizzle {
        given,
        output: outs,
        plan: lists.plan(given),
    };
    swizzle_refusal::swizzle_refusal(r, asked)
}

// The log of a fallback that no number refuses.
fn act(log: &mut Log, tables: &mut [u32], room: &mut Room, given: Given<'_>, output: &[u32])
    requires { lower_fallback_refusal (length tables.old) (length log.old.words.now) (state_of log.old.state) (view_given given) output.now ≡ 0 }
    ensures log_after { lent_of log.new ≡ run (lower_fallback (mem_of given.entry) output.now) (lent_of log.old) }
    ensures tables_unchanged { drop (fallback_scratch (mem_of given.entry)) tables.new ≡ drop (fallback_scratch (mem_of given.entry)) tables.old }
{
    port_unmap_all::emit_unmap_all(log, &mut room.overlay, &mut room.outputs, given, output);
    if given.memory.width == 0 {
        return;
    }
    let outs = lists::part(&room.outputs, 0, output.len());
    lower_rows(log, tables, given, outs);
}

// A fallback that no number of its input refuses: its memory and outputs, the log's state before it, and how many nets its tables are lent.
#[derive(Clone, Copy)]
struct Lowering<'a> {
    given: Given<'a>,
    output: &'a [u32],
    st: LogState,
    tables: usize,
    ghost asked: { Asked given.memory given.nets.now given.trits.now output.now st tables },
}

impl<'a> Lowering<'a> {
    // The state after a run of the unmappings without a log.
    fn dry_unmapped(&self, room: &mut Room) -> LogState
        ensures { DryRun (mem_of self.now.given) self.now.output.now (state_of self.now.st) (state_of result) }
    {
        let mut dry = Log {
            words: &mut [],
            state: self.st.dry_start(),
        };
        let Room { outputs, overlay } = room;
        port_unmap_all::emit_unmap_all(&mut dry, overlay, outputs, self.given, self.output);
        dry.state
    }

    // 20 and 21 of so many words and nets and the split's, which are counted by its refusal in what the others leave.
    fn split_refusal(&self, room: usize, words: usize, made: usize) -> Result<(), Refusal>
        requires { HasWidth self.now.given.memory }
        ensures { number_of result ≡ room_refusal room (state_of self.now.st) (words + split_words (mem_of self.now.given)) (made + split_nets (mem_of self.now.given)) }
    {
        let whole = room.min(rules::MAX_WORDS);
        if whole < words {
            return Err(Refusal::NoRoom);
        }
        let later = LogState {
            used: self.st.used,
            next: later_net(self.st.next, made),
        };
        let r = SwizzleRooms {
            log: whole - words,
            state: later,
            image: rules::BITS_ROOM,
            nets: self.tables,
            trits: 0,
            scratch: rules::BITS_ROOM,
        };
        let bare = Given {
            memory: fallback_bare::bare_memory(self.given.memory),
            ..self.given
        };
        plan_refusal(r, bare, self.output)
    }

    // 20 and 21 of the whole, by the state after the dry run.
    fn log_refusal(&self, room: usize, dry: LogState) -> Result<(), Refusal>
        requires { DryRun (mem_of self.now.given) self.now.output.now (state_of self.now.st) (state_of dry) }
        ensures { number_of result ≡ log_refusal room (state_of self.now.st) (lower_fallback (mem_of self.now.given) self.now.output.now) }
    {
        if dry.is_over() {
            return Err(Refusal::NoRoom);
        }
        let start = self.st.dry_start();
        let unmapped = dry.next.saturating_sub(start.next) as usize;
        let rows = fallback_masks::rows_size(self.given);
        let words = dry.used + rows.words;
        let made = unmapped + rows.nets;
        if self.given.memory.width == 0 {
            return self.st.room_refusal(room, words, made);
        }
        self.split_refusal(room, words, made)
    }

    // The call by a dry run and a run for good, with the room for the unmappings. It takes the log's words alone, since of a lent `Log` the proof that the
    // caller's words are those after the loan did not close.
    fn lower(
        &self,
        log: &mut [u32],
        tables: &mut [u32],
        room: &mut Room,
    ) -> Result<LogState, Refusal>
        requires { length tables.old ≡ self.now.tables }
        ensures { Lowers self.now.given.memory self.now.given.nets.now self.now.given.trits.now self.now.output.now self.now.st log.old tables.old (left_by self.now.st result) log.new tables.new }
    {
        let dry = self.dry_unmapped(room);
        self.log_refusal(log.len(), dry)?;
        let mut log = Log {
            words: log,
            state: self.st,
        };
        act(&mut log, tables, room, self.given, self.output);
        Ok(log.state)
    }
}

// A memory lowered to registers and muxes. Refused: the log, its state and the scratch are as they were. Accepted: the scratch past its need is.
pub fn lower_fallback<'a>(
    log: &mut [u32],
    st: LogState,
    scratch: &mut [u32],
    given: Given<'a>,
    output: &'a [u32],
) -> Result<LogState, Refusal>
    ensures scratch_after { lowered_of (left_by st result) (fallback_scratch (mem_of given.entry)) log.new scratch.new ≡ lower_fallback_call scratch.old log.old (state_of st) (view_given given.entry) output.now }
    ensures lowers { Lowers given.entry.memory given.entry.nets.now given.entry.trits.now output.now st log.old scratch.old (left_by st result) log.new scratch.new }
{
    lower_refusal(given, output, st.next)?;
    if scratch.len() < scratch_need(given.memory) {
        return Err(Refusal::NoRoom);
    }
    let mut room = Room {
        outputs: [0u32; rules::MAX_OUTPUTS],
        overlay: Overlay::new(),
    };
    let lowering = Lowering {
        given,
        output,
        st,
        tables: scratch.len(),
    };
    lowering.lower(log, scratch, &mut room)
}
