// memory/src/lib.rs, unmap_read_init_reset_transparency: a read port's clear, reset and init, and its Transparent relations where they are to go, become
// a mask and muxes behind it.
#![tactic(auto)]

ghost use Rattle.std.specs.Prelude.{◌≡◌, Bool, false, ◌&&◌, List, ℕ, ◌-◌, length};
ghost use Rattle.lists.specs.Choice.{◌or_else◌};
ghost use Rattle.lists.specs.Lists.{up_from};
ghost use Rattle.rules.specs.Cell.{read_at_of, with_output};
ghost use Rattle.rules.specs.Conditions.{short_port};
ghost use Rattle.rules.specs.Ports.{unmap_reset, unmap_read_init_reset_transparency};
ghost use Rattle.rules.specs.Refusal.{number_of};
ghost use Rattle.rules.specs.Refusals.{flip_flop_refusal, log_refusal, driven_refusal, unmap_reset_number};
ghost use Rattle.rules.specs.Answers.{driven, unmap_reset_call};
ghost use Rattle.log_entries.specs.Emission.{is_over, run};
ghost use Rattle.log_entries.specs.View.{state_of, lent_of};
ghost use Rattle.std.specs.Prelude.{Some};
ghost use Rattle.net_memory.specs.View.{memory_of, read_port};
ghost use Rattle.net_memory.specs.Given.{given_of, view_given, mem_of};
ghost use Rattle.port_unmap.specs.Ready.{own_flip_flop};
ghost use Rattle.port_unmap.specs.Call.{driving, rooms_of, driven_of};
ghost use Rattle.port_reset.specs.Ready.{ResetReady};
ghost use Rattle.port_reset.specs.Call.{Acted, ResetStruct};

use log_entries::{Log, LogState};
use net_flip_flop::Controls;
use net_memory::{Given, Memory};
use port_overlay::Parts;
use port_reset_emit::{ResetNets, Room};
use port_unmap::Driven;
use rules::Refusal;

// 14, where Transparent relations are to go.
fn wanted_short(given: Given<'_>, i: usize, incl: bool) -> bool
    ensures { result ≡ (incl && short_port (mem_of given.entry) (read_at_of (mem_of given.entry) i)) }
{
    incl && port_unmap::port_short(given, i)
}

// 1 to 4, 14 and 15.
#[tactic(auto, using(rules::proofs::Answers::else_err), unfolding(rules::specs::Refusals::unmap_reset_number))]
fn reset_refusal(
    given: Given<'_>,
    i: usize,
    incl: bool,
    output: &[u32],
    next: u32,
) -> Result<(), Refusal>
    ensures { number_of result ≡ unmap_reset_number next (view_given given.entry) i incl output.now }
{
    port_outputs::driving_refusal(given, output, next, false)?;
    if wanted_short(given, i, incl) {
        return Err(Refusal::ShortAddress);
    }
    if net_memory::ports_used(given.memory.read_count) <= i {
        return Err(Refusal::OutOfRange);
    }
    Ok(())
}

// Port i, whose controls are c, unmapped: the same function runs dry on an empty log.
fn emit_port(
    log: &mut Log,
    room: &mut Room,
    given: Given<'_>,
    i: usize,
    c: Controls,
    incl: bool,
    output: &[u32],
) -> ResetNets
    requires { ResetReady given.memory given.nets.now given.trits.now i c incl }
    ensures log_after { lent_of log.new ≡ run (unmap_reset (mem_of given.entry) i incl output.now (own_flip_flop given.entry.memory given.entry.trits.now i c)) (lent_of log.old) }
    ensures output_value { is_over (state_of log.new.state) ≡ false → with_output (mem_of given.entry) i (up_from result.first (result.last - result.first)) output.now ≡ (unmap_reset (mem_of given.entry) i incl output.now (own_flip_flop given.entry.memory given.entry.trits.now i c) log.old.state.next).value.output }
{
    let own = given.read_port(i);
    let parts = port_unmap::parts_of(given, i, &own, c, output);
    let port = Parts {
        relations: port_unreset::wanted_relations(parts.relations, incl),
        ..parts
    };
    port_reset_emit::emit_reset(log, room, given, port)
}

// 20 and 21 of it, by a run without a log.
fn dry_refusal(
    size: usize,
    st: LogState,
    room: &mut Room,
    given: Given<'_>,
    i: usize,
    c: Controls,
    incl: bool,
    output: &[u32],
) -> Result<(), Refusal>
    requires { ResetReady given.memory given.nets.now given.trits.now i c incl }
    ensures { number_of result ≡ log_refusal size (state_of st) (unmap_reset (mem_of given.entry) i incl output.now (own_flip_flop given.entry.memory given.entry.trits.now i c)) }
{
    let mut dry = Log {
        words: &mut [],
        state: st.dry_start(),
    };
    emit_port(&mut dry, room, given, i, c, incl, output);
    st.dry_refusal(size, dry.state)
}

// 20 and 21 by a dry run, then the same for good; the void nets become the port's outputs. (Log and state stay apart down to here: the dry run asks for the
// log's length and for the state alone, and the answer holds the state.)
fn unmap_clocked(
    log: &mut [u32],
    st: LogState,
    output: &mut [u32],
    trits: &mut [u8],
    m: Memory,
    nets: &[u32],
    i: usize,
    c: Controls,
    incl: bool,
) -> Result<Driven, Refusal>
    requires { ResetReady m nets.now trits.old i c incl }
    ensures log_after { driven_of m result nets.now trits.new output.new log.new ≡ driven (log_refusal (length log.old) (state_of st) (unmap_reset (memory_of m nets.now trits.old) i incl output.old (own_flip_flop m trits.old i c))) log.old (state_of st) (driving m nets.now trits.old output.old) (unmap_reset (memory_of m nets.now trits.old) i incl output.old (own_flip_flop m trits.old i c)) }
    ensures acted { Acted m i c incl result trits.old trits.new }
{
    let mut room = Room::new();
    let given = Given {
        memory: m,
        nets,
        trits,
    };
    dry_refusal(log.len(), st, &mut room, given, i, c, incl, output)?;
    let mut log = Log {
        words: log,
        state: st,
    };
    let done = emit_port(&mut log, &mut room, given, i, c, incl, output);
    let start = net_memory::output_start(&m, i);
    lists::store_run(output, start, done.first, done.last);
    port_unreset::blank(trits, m, i);
    Ok(Driven {
        memory: port_unreset::unreset(m, i, c, incl),
        state: log.state,
    })
}

// A clocked port that numbers 1 to 4, 14 and 15 pass: where there is nothing to unmap, nothing is done.
fn unmap_some(
    log: &mut [u32],
    st: LogState,
    output: &mut [u32],
    trits: &mut [u8],
    m: Memory,
    nets: &[u32],
    i: usize,
    c: Controls,
    incl: bool,
) -> Result<Driven, Refusal>
    requires { ((read_port m i).flip_flop ≡ Some c) × (unmap_reset_number st.next (given_of m nets.now trits.old) i incl output.old ≡ 0) }
    ensures log_after { driven_of m result nets.now trits.new output.new log.new ≡ driven (flip_flop_refusal (read_at_of (memory_of m nets.now trits.old) i) or_else driven_refusal (rooms_of nets.now trits.old output.old) (length log.old) (state_of st) (unmap_read_init_reset_transparency (memory_of m nets.now trits.old) i incl output.old)) log.old (state_of st) (driving m nets.now trits.old output.old) (unmap_read_init_reset_transparency (memory_of m nets.now trits.old) i incl output.old) }
    ensures reset_struct { ResetStruct m i incl result trits.old trits.new }
{
    let given = Given {
        memory: m,
        nets,
        trits,
    };
    if port_unreset::port_plain(given.read_port(i), c, incl) {
        st.room_refusal(log.len(), 0, 0)?;
        return Ok(Driven {
            memory: m,
            state: st,
        });
    }
    unmap_clocked(log, st, output, trits, m, nets, i, c, incl)
}

// A port that they pass: 22 where it has no flip-flop.
fn unmap_port(
    log: &mut [u32],
    st: LogState,
    output: &mut [u32],
    trits: &mut [u8],
    m: Memory,
    nets: &[u32],
    i: usize,
    incl: bool,
) -> Result<Driven, Refusal>
    requires { unmap_reset_number st.next (given_of m nets.now trits.old) i incl output.old ≡ 0 }
    ensures log_after { driven_of m result nets.now trits.new output.new log.new ≡ driven (flip_flop_refusal (read_at_of (memory_of m nets.now trits.old) i) or_else driven_refusal (rooms_of nets.now trits.old output.old) (length log.old) (state_of st) (unmap_read_init_reset_transparency (memory_of m nets.now trits.old) i incl output.old)) log.old (state_of st) (driving m nets.now trits.old output.old) (unmap_read_init_reset_transparency (memory_of m nets.now trits.old) i incl output.old) }
    ensures reset_struct { ResetStruct m i incl result trits.old trits.new }
{
    let given = Given {
        memory: m,
        nets,
        trits,
    };
    match given.read_port(i).port.flip_flop {
        None => Err(Refusal::Unclocked),
        Some(c) => unmap_some(log, st, output, trits, m, nets, i, c, incl),
    }
}

// unmap_read_init_reset_transparency: new void nets take the port's place among the outputs, and the flip-flops of data and mask stand behind with the
// muxes; the port keeps its clock and enable, and its clear, reset and init trits become X. The call takes its log and the log's state apart, as C hands
// them.
pub fn unmap_read_init_reset_transparency(
    log: &mut [u32],
    st: LogState,
    output: &mut [u32],
    trits: &mut [u8],
    m: Memory,
    nets: &[u32],
    port: usize,
    incl: bool,
) -> Result<Driven, Refusal>
    ensures log_after { driven_of m result nets.now trits.new output.new log.new ≡ unmap_reset_call (rooms_of nets.now trits.old output.old) log.old (state_of st) (given_of m nets.now trits.old) port incl output.old }
    ensures reset_struct { ResetStruct m port incl result trits.old trits.new }
{
    let given = Given {
        memory: m,
        nets,
        trits,
    };
    reset_refusal(given, port, incl, output, st.next)?;
    unmap_port(log, st, output, trits, m, nets, port, incl)
}
