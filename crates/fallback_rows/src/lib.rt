// The rows of a memory as registers: each memory of depth 1 that a struct and the lent arrays hold becomes one, and drives its outputs.
#![tactic(auto)]

ghost use Rattle.std.specs.Prelude.{◌≡◌, List, [], ℕ, ◌+◌, ◌*◌, ◌≤◌, min, length, take};
ghost use Rattle.lists.specs.Lists.{up_from};
ghost use Rattle.rules.specs.Limits.{max_ports, max_unit, max_columns};
ghost use Rattle.log_entries.specs.Emission.{run};
ghost use Rattle.log_entries.specs.View.{lent_of};
ghost use Rattle.port_transparency.specs.Gave.{Gave};
ghost use Rattle.swizzle_parts.specs.Parts.{memory_at};
ghost use Rattle.fallback_row.specs.Row.{driven_by};
ghost use Rattle.fallback_rows.specs.Rows.{writes_by, register_by, row_by, drives, row_trace, row_if, rows_of, lowered};

use fallback_row::Row;
use log_entries::Log;
use merge_keys::Keys;
use swizzle_result::WideMemory;

// Memories of depth 1 whose numbers are within the limits of a swizzle, with their nets and trits.
#[derive(Clone, Copy)]
struct Memories<'a> {
    g: WideMemory,
    nets: &'a [u32],
    image: &'a [u8],
    ghost narrow: { g.unit ≤ max_unit },
    ghost few: { g.mems ≤ max_columns },
}

// Room for a row: its register's nets, and what the write ports leave of them.
#[derive(Drop)]
struct Room {
    held: [u32; rules::MAX_MERGE],
    row: Row,
}

// The outputs of a read port, from `before` nets after its first on, are the row.
fn drive_at(
    log: &mut Log,
    spare: &mut [u32; rules::MAX_MERGE],
    first: u32,
    before: u32,
    w: u32,
    q: &[u32; rules::MAX_MERGE],
)
    requires { before ≤ 8388608 }
    ensures { lent_of log.new ≡ run (driven_by (first + before) w (take w q.now)) (lent_of log.old) }
{
    if rules::MAX_NETS < first {
        return;
    }
    fallback_row::emit_drive(log, spare, first + before, w, q);
}

impl<'a> Memories<'a> {
    // The write ports of memory n over the row, in order.
    fn over_all(&self, log: &mut Log, row: &mut Row, n: usize)
        ensures { (trits image : List ℕ) → Gave (writes_by self.now.g.unit (memory_at self.now.g self.now.nets.now trits image n).memory (up_from 0 (min max_ports self.now.g.write_count)) (take self.now.g.unit row.old.nets)) (lent_of log.old) (lent_of log.new) (take self.now.g.unit row.new.nets) }
    {
        let count = net_memory::ports_used(self.g.write_count);
        let w = self.g.unit as usize;
        for j in 0..count {
            let mask = swizzle_parts::write_mask(self.g, self.nets, n, j);
            let bits = swizzle_parts::write_data(self.g, self.nets, n, j);
            fallback_row::emit_over(log, row, w, mask, bits);
        }
    }

    // The register of memory n: its nets are the first that the room holds.
    fn register(&self, log: &mut Log, room: &mut Room, init: &[u8], n: usize)
        ensures { (trits image : List ℕ) → Gave (register_by self.now.g (memory_at self.now.g self.now.nets.now trits image n).memory init.now) (lent_of log.old) (lent_of log.new) (take self.now.g.unit room.new.held) }
    {
        let Room { held, row } = room;
        let w = self.g.unit as usize;
        fallback_row::emit_start(log, row, held, self.g.unit);
        self.over_all(log, row, n);
        fallback_row::emit_held(log, row, w, self.g.write_ports[0].clock, init, held);
    }

    // The nets of the row: its register's, or its trits where nothing writes.
    fn row_nets(&self, log: &mut Log, room: &mut Room, init: &[u8], n: usize)
        requires { length init.now ≡ self.now.g.unit }
        ensures { (trits image : List ℕ) → Gave (row_by self.now.g (memory_at self.now.g self.now.nets.now trits image n).memory init.now) (lent_of log.old) (lent_of log.new) (take self.now.g.unit room.new.held) }
    {
        if self.g.write_count == 0 {
            fallback_row::const_row(&mut room.held, init);
            return;
        }
        self.register(log, room, init, n);
    }

    // The outputs of every read port that memory n drives are the row.
    fn drive_all(&self, log: &mut Log, room: &mut Room, n: u32)
        requires { n ≤ max_columns }
        ensures { lent_of log.new ≡ run (drives self.now.g n (take self.now.g.unit room.old.held) (up_from 0 (min max_ports self.now.g.read_count))) (lent_of log.old) }
    {
        let Room { held, row } = room;
        let count = net_memory::ports_used(self.g.read_count);
        let before = n * self.g.unit;
        for port in &self.g.read_ports[..count] {
            drive_at(log, &mut row.spare, port.first, before, self.g.unit, held);
        }
    }

    // Memory n: its row, and the outputs that it drives. Trits that are not those of one row give nothing.
    fn emit_row(&self, log: &mut Log, room: &mut Room, n: u32)
        requires { n ≤ max_columns }
        ensures { lent_of log.new ≡ run (row_if self.now.g self.now.nets.now self.now.image.now n) (lent_of log.old) }
    {
        let init = swizzle_parts::image_of(self.g, self.image, n as usize);
        if init.len() != self.g.unit as usize {
            return;
        }
        self.row_nets(log, room, init, n as usize);
        self.drive_all(log, room, n);
    }

    // One memory after the other.
    fn emit_each(&self, log: &mut Log, room: &mut Room)
        ensures { lent_of log.new ≡ run (rows_of self.now.g self.now.nets.now self.now.image.now (up_from 0 self.now.g.mems)) (lent_of log.old) }
    {
        for n in 0..self.g.mems {
            self.emit_row(log, room, n);
        }
    }
}

// All memories of a struct, whose ports stand in `nets` and whose trits in `image`. A struct whose numbers pass the limits of a swizzle gives nothing.
pub fn emit_lowered(log: &mut Log, g: WideMemory, nets: &[u32], image: &[u8])
    ensures { lent_of log.new ≡ run (lowered g nets.now image.now) (lent_of log.old) }
{
    if rules::MAX_UNIT < g.unit {
        return;
    }
    if rules::MAX_COLUMNS < g.mems as u64 {
        return;
    }
    let mut room = Room {
        held: [0; rules::MAX_MERGE],
        row: Row {
            nets: [0; rules::MAX_MERGE],
            spare: [0; rules::MAX_MERGE],
            keys: Keys::new(),
        },
    };
    let memories = Memories { g, nets, image };
    memories.emit_each(log, &mut room);
}
