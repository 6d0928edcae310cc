// One read port of a swizzle: its voids, the flip-flop of its mux address, its pieces, their tree and the replace.
#![tactic(auto)]

ghost use Rattle.std.specs.Prelude.{◌≡◌, ◌+◌, ◌*◌, ◌<◌, ◌≤◌, [], length, drop};
ghost use Rattle.rules.specs.Logic.{undef};
ghost use Rattle.rules.specs.Log.{add_dff_of};
ghost use Rattle.rules.specs.Swizzle.{add_voids};
ghost use Rattle.rules.specs.Cell.{new_flip_flop, with_enable};
ghost use Rattle.net_value.specs.View.{control_of};
ghost use Rattle.net_flip_flop.specs.View.{controls_of};
ghost use Rattle.log_entries.specs.Emission.{run};
ghost use Rattle.log_entries.specs.View.{lent_of};
ghost use Rattle.swizzle_laws.specs.Rooms.{mux_room};
ghost use Rattle.swizzle_read.specs.Port.{addr_flip_flop, addr_by, Addressed, Ready, can_read, scratch_of};
ghost use Rattle.swizzle_read.specs.View.{trace_of, port_trace};
ghost use Rattle.swizzle_pieces.specs.Steps.{load_of};

use log_entries::Log;
use net_flip_flop::{Controls, FlipFlop};
use swizzle_laws::MUX_ROOM;
use swizzle_pieces::Pieces;

// So many voids of so many nets.
pub fn emit_voids(log: &mut Log, count: u32, width: u32)
    ensures { lent_of log.new ≡ run (add_voids count width) (lent_of log.old) }
{
    for _ in 0..count {
        log.emit_void(width);
    }
}

// The controls of a mux address's flip-flop: the clock and enable of the port's own.
#[tactic(auto, unfolding(rules::specs::Cell::new_flip_flop, rules::specs::Cell::with_enable, rules::specs::Cell::plain_controls))]
fn addr_controls(port: Controls) -> Controls
    ensures { controls_of result ≡ (with_enable (new_flip_flop [] (control_of port.clock)) (control_of port.enable)).controls }
{
    Controls {
        enable: port.enable,
        reset_over_enable: true,
        ..Controls::plain(port.clock)
    }
}

// The flip-flop of the mux address, with X as its trits.
fn addr_dff(log: &mut Log, port: Controls, mux: &[u32], xs: &[u8])
    requires { xs.now ≡ undef (length mux.now) }
    ensures { lent_of log.new ≡ run (add_dff_of (addr_flip_flop port mux.now)) (lent_of log.old) }
{
    log.emit_dff(FlipFlop {
        controls: addr_controls(port),
        bits: mux,
        clear: xs,
        reset: xs,
        init: xs,
    });
}

// The mux address, whose nets go to the front of `room`; it passes a flip-flop where the port has one, even when it is empty.
fn mux_addr(log: &mut Log, flip_flop: Option<Controls>, mux: &[u32], room: &mut [u32])
    requires { length mux.now ≤ mux_room }
    ensures { Addressed (addr_by flip_flop mux.now) room.old room.new (lent_of log.old) (lent_of log.new) }
{
    let Some(port) = flip_flop else {
        lists::copy(room, 0, mux);
        return;
    };
    let first = log.state.next;
    let xs = [rules::TRIT_X; MUX_ROOM];
    addr_dff(log, port, mux, &xs[..mux.len()]);
    if log.state.is_over() {
        return;
    }
    lists::store_run(room, 0, first, log.state.next);
}

// A read port: its pieces, of so many nets each, its voids, its own flip-flop, its mux address, and the entries and outputs of the call.
#[derive(Clone, Copy)]
pub struct ReadPort<'a> {
    pub pieces: Pieces,
    pub width: u32,
    pub voids: u32,
    pub flip_flop: Option<Controls>,
    pub mux: &'a [u32],
    pub entries: &'a [u32],
    pub output: &'a [u32],
}

impl ReadPort<'_> {
    // Whether there is room for the mux address, and the scratch holds the pieces.
    #[tactic(auto, unfolding(crate::specs::Port::can_read))]
    fn can_read(self, scratch: &[u32]) -> bool
        ensures { result ≡ can_read self.entry.pieces self.entry.mux.now self.entry.width scratch.now }
    {
        let n = self.pieces;
        self.mux.len() <= MUX_ROOM
            && n.count != 0
            && n.count as usize * self.width as usize <= scratch.len()
    }

    // The whole port, whose columns have their first net. The scratch is left open where its pieces stood.
    fn emit_from(self, log: &mut Log, scratch: &mut [u32])
        requires { Ready self.pieces self.mux.now self.width scratch.old }
        ensures log_after { lent_of log.new ≡ run (trace_of self.entry scratch.old) (lent_of log.old) }
        ensures scratch_after { drop (self.entry.pieces.count * self.entry.width) scratch.new ≡ drop (self.entry.pieces.count * self.entry.width) (load_of self.entry.pieces self.entry.entries.now scratch.old) }
    {
        let mut bits = [0u32; MUX_ROOM];
        emit_voids(log, self.voids, self.pieces.columns);
        mux_addr(log, self.flip_flop, self.mux, &mut bits);
        self.pieces.load(scratch, self.entries);
        let bits = &bits[..self.mux.len()];
        swizzle_tree::emit_tree(log, scratch, bits, self.pieces.count, self.width);
        log.emit_replace(self.output, &scratch[..self.width as usize]);
    }

    // The whole port, whose voids get the log's next free nets. Nothing is done where the mux address has more nets than there is room for, or the
    // scratch does not hold the pieces. What the pieces leave in the scratch is open; what lies past them is as loading left it.
    pub fn emit(self, log: &mut Log, scratch: &mut [u32])
        ensures log_after { lent_of log.new ≡ run (port_trace self.entry scratch.old) (lent_of log.old) }
        ensures scratch_after { drop (self.entry.pieces.count * self.entry.width) scratch.new ≡ drop (self.entry.pieces.count * self.entry.width) (scratch_of self.entry.pieces self.entry.mux.now self.entry.entries.now self.entry.width scratch.old log.old.state.next) }
    {
        if !self.can_read(scratch) {
            return;
        }
        let pieces = Pieces {
            first: log.state.next,
            ..self.pieces
        };
        let port = ReadPort { pieces, ..self };
        port.emit_from(log, scratch);
    }
}
