// memory/src/lib.rs, emulate_read_before_write: the number that refuses it, by a run without a log, and the delayed write ports in log, nets and struct.
#![tactic(auto)]

ghost use Rattle.std.specs.Prelude.{◌≡◌, List, [], ◌++◌, ℕ, ◌≤◌, length, take};
ghost use Rattle.std.proofs.lemmas.List.Edits.{sets};
ghost use Rattle.rules.specs.Limits.{max_merge};
ghost use Rattle.rules.specs.Ports.{emulate_read_before_write};
ghost use Rattle.rules.specs.Refusal.{number_of};
ghost use Rattle.rules.specs.Refusals.{log_refusal};
ghost use Rattle.rules.specs.Logic.{is_undef};
ghost use Rattle.rules.specs.Answers.{emulate_call};
ghost use Rattle.log_entries.specs.Emission.{run};
ghost use Rattle.log_entries.specs.View.{state_of, lent_of};
ghost use Rattle.net_memory.specs.View.{memory_of, writes_of, reads_start};
ghost use Rattle.net_memory.specs.Ports.{write_of};
ghost use Rattle.net_memory.specs.Given.{given_of};
ghost use Rattle.port_transparency.specs.Gave.{Gave};
ghost use Rattle.port_delay.specs.Delay.{cut};
ghost use Rattle.port_settle.specs.Settled.{is_read};
ghost use Rattle.port_unmap.specs.Call.{driven_of};
ghost use Rattle.port_emulate.specs.Delays.{delayed_by, cut_by, delays, Fitting, PortReady, PortDone, PortsDone, rooms_of, input_number, Emulated};

use log_entries::{Log, LogState};
use net_memory::{Given, Memory, MemoryPortRelation, MemoryWritePort, WritePort};
use port_delay::Room;
use port_unmap::Driven;
use rules::Refusal;

// What write ports are delayed by: the memory as it was given, and whether its image is all X. (Of an array that is lent a proof knows the length by the
// ghost field alone.)
#[derive(Clone, Copy)]
struct Emulation<'a> {
    memory: &'a Memory,
    all_x: bool,
    ghost eight: { length memory.now.write_ports ≡ 8 },
}

// Stores the room's first nets, as many as a write port has, from `at` on.
fn store_port(nets: &mut [u32], at: usize, p: MemoryWritePort, room: &Room)
    requires { (at ≤ 0x1800000000) × (p.addr_len ≤ max_merge) × (p.data_len ≤ max_merge) × (p.mask_len ≤ max_merge) }
    ensures nets_after { nets.new ≡ sets nets.old at (take p.addr_len room.now.addr ++ (take p.data_len room.now.bits ++ take p.mask_len room.now.mask)) }
    ensures lens { (length room.now.addr ≡ max_merge) × (length room.now.bits ≡ max_merge) × (length room.now.mask ≡ max_merge) }
{
    let x = p.addr_len as usize;
    let y = p.data_len as usize;
    let z = p.mask_len as usize;
    lists::copy(nets, at, &room.addr[..x]);
    lists::copy(nets, at + x, &room.bits[..y]);
    lists::copy(nets, at + x + y, &room.mask[..z]);
}

impl<'a> Emulation<'a> {
    // Write port j, delayed where a read port reads before it writes; the results are the first nets of the room's `addr`, `bits` and `mask`.
    fn emit_port(self, log: &mut Log, room: &mut Room, j: usize, w: WritePort<'_>)
        ensures { (nets trits : List ℕ) → Gave (delayed_by (is_read self.entry.memory.now nets trits j) self.entry.all_x (write_of w.entry) (cut (write_of w.entry) room.old.addr room.old.bits room.old.mask)) (lent_of log.old) (lent_of log.new) (cut_by (is_read self.entry.memory.now nets trits j) (write_of w.entry) room.new.addr room.new.bits room.new.mask) }
    {
        let before = u8::from(MemoryPortRelation::ReadBeforeWrite);
        if !port_relations::relates_to(self.memory, j, before) {
            return;
        }
        room.emit_delayed(log, self.all_x, w);
    }

    // Write port j, delayed where a read port reads before it writes: its flip-flops' results take the place of its nets.
    fn delay_port(
        self,
        log: &mut Log,
        nets: &mut [u32],
        room: &mut Room,
        j: usize,
        p: MemoryWritePort,
        at: usize,
    )
        requires { PortReady self.memory.now nets.old j at p }
        ensures { PortDone self.entry.memory.now self.entry.all_x j nets.old nets.new (lent_of log.old) (lent_of log.new) }
    {
        let own = lists::part(nets, at, net_memory::write_size(p));
        self.emit_port(log, room, j, WritePort { port: p, nets: own });
        let before = u8::from(MemoryPortRelation::ReadBeforeWrite);
        if port_relations::relates_to(self.memory, j, before) {
            store_port(nets, at, p, room);
        }
    }

    // All write ports in turn, their nets in place. (That the ports fit stands in three contracts, here of nets that are written: a `Given` lends them to
    // be read, so one that knew it would serve two of the three.)
    fn delay_ports(self, log: &mut Log, nets: &mut [u32], room: &mut Room)
        requires { Fitting (writes_of self.memory.now nets.old) × (reads_start self.memory.now ≤ length nets.old) }
        ensures { PortsDone self.entry.memory.now self.entry.all_x nets.old nets.new (lent_of log.old) (lent_of log.new) }
    {
        let count = net_memory::ports_used(self.memory.write_count);
        let mut at: usize = 0;
        for (j, p) in self.memory.write_ports[..count].iter().enumerate() {
            self.delay_port(log, nets, room, j, *p, at);
            at += net_memory::write_size(*p);
        }
    }

    // All write ports, one after the other. No net of the memory is stored.
    fn emit_ports(self, log: &mut Log, room: &mut Room, nets: &[u32])
        requires { Fitting (writes_of self.memory.now nets.now) }
        ensures { (x y : List ℕ) → lent_of log.new ≡ run (delays (is_read self.entry.memory.now x y) self.entry.all_x 0 (writes_of self.entry.memory.now nets.now)) (lent_of log.old) }
    {
        let given = Given {
            memory: *self.memory,
            nets,
            trits: &[],
        };
        for j in 0..net_memory::ports_used(given.memory.write_count) {
            self.emit_port(log, room, j, given.write_port(j));
        }
    }

    // 20 and 21, by a run without a log.
    fn dry_refusal(
        self,
        size: usize,
        st: LogState,
        room: &mut Room,
        nets: &[u32],
    ) -> Result<(), Refusal>
        requires { Fitting (writes_of self.memory.now nets.now) }
        ensures { (trits : List ℕ) → input_number st.next self.entry.memory.now nets.now trits ≡ 0 → self.entry.all_x ≡ is_undef (memory_of self.entry.memory.now nets.now trits).init → number_of result ≡ log_refusal size (state_of st) (emulate_read_before_write (memory_of self.entry.memory.now nets.now trits)) }
    {
        let mut dry = Log {
            words: &mut [],
            state: st.dry_start(),
        };
        self.emit_ports(&mut dry, room, nets);
        st.dry_refusal(size, dry.state)
    }
}

// emulate_read_before_write: write ports that some read port reads before they write are delayed by half a cycle; relations to them are Undefined.
// A refused call changes nothing; 20 and 21 come by a dry run. The call takes its log and the log's state apart, as C hands them, and nets apart from the
// memory and its trits, since it writes them.
pub fn emulate_read_before_write(
    log: &mut [u32],
    st: LogState,
    nets: &mut [u32],
    m: Memory,
    trits: &[u8],
) -> Result<Driven, Refusal>
    ensures log_after { driven_of m result nets.new trits.now [] log.new ≡ emulate_call (rooms_of nets.old trits.now) log.old (state_of st) (given_of m nets.old trits.now) }
    ensures emulated { Emulated m nets.old nets.new result }
{
    let given = Given {
        memory: m,
        nets,
        trits,
    };
    port_relations::input_refusal(given, st.next)?;
    let all_x = net_logic::is_undef(lists::part(trits, 0, net_memory::init_size(m)));
    let turned = port_settle::turn_clocks(&m);
    // The flip-flops run by the clocks as they were: by `m`, not by `turned`.
    let emulation = Emulation { memory: &m, all_x };
    let mut room = Room::new();
    emulation.dry_refusal(log.len(), st, &mut room, nets)?;
    let mut log = Log {
        words: log,
        state: st,
    };
    emulation.delay_ports(&mut log, nets, &mut room);
    Ok(Driven {
        memory: port_settle::settle_relations(&m, turned),
        state: log.state,
    })
}
