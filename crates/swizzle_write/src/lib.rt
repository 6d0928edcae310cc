// memory/src/lib.rs, a write port of swizzle: the row's mask, and for each piece its comparison, its merging mux and its stores. The columns stand
// memory after memory.
#![tactic(auto)]

ghost use Rattle.std.specs.Prelude.{◌≡◌, false, ◌<◌, ◌≤◌, length};
ghost use Rattle.std.proofs.lemmas.List.Edits.{sets};
ghost use Rattle.rules.specs.Value.{from_uint};
ghost use Rattle.log_entries.specs.Emission.{is_over, run};
ghost use Rattle.log_entries.specs.View.{state_of, lent_of};
ghost use Rattle.merge_keys.specs.Keys.{MergeOf};
ghost use Rattle.swizzle_laws.specs.Rooms.{mux_room};
ghost use Rattle.swizzle_laws.specs.Stores.{spill_at, piece_by};
ghost use Rattle.swizzle_columns.specs.Wide.{port_starts};
ghost use Rattle.swizzle_write.specs.Jobs.{with_zeros, Job};
ghost use Rattle.swizzle_write.specs.View.{masks_by};
ghost use Rattle.swizzle_write.specs.Wide.{can_write, Writes, port_masks, masks_of};

use log_entries::Log;
use merge_keys::columns::Columns;
use merge_keys::{Kept, Keys};
use merge_mux::emit;
use net_value::{ControlNet, Net};
use swizzle_columns::WidePort;
use swizzle_laws::MUX_ROOM;

// A port with the nets of its mux address, a row of its mask and what a merge of the row with zeros keeps, and so many entries to a row of the layout.
#[derive(Clone, Copy)]
struct Masked<'a, 'k> {
    port: WidePort,
    per_row: usize,
    mux: &'a [u32],
    row: &'a [u32],
    kept: Kept<'k>,
}

// The low bits of a number as constant nets.
fn number_bits(out: &mut [u32], x: usize)
    ensures { out.new ≡ from_uint (length out.old) x }
{
    let mut left = x;
    for bit in out.iter_mut() {
        *bit = (left % 2) as u32;
        left /= 2;
    }
}

impl Masked<'_, '_> {
    // Piece x: the comparison of the mux address with its number and, unless that is empty, the mux of the kept mask nets. Its mask goes to `piece`.
    fn emit_piece(self, log: &mut Log, piece: &mut [u32], x: usize)
        requires { MergeOf (with_zeros self.row.now) self.kept × (length self.mux.now ≤ mux_room) }
        ensures log_after { lent_of log.new ≡ run (piece_by self.entry.mux.now self.entry.row.now x) (lent_of log.old) }
        ensures piece_after { is_over (state_of log.new.state) ≡ false → piece.new ≡ sets piece.old 0 (piece_by self.entry.mux.now self.entry.row.now x log.old.state.next).value }
    {
        let mut bits = [0; MUX_ROOM];
        let number = &mut bits[..self.mux.len()];
        number_bits(number, x);
        let select = ControlNet::Pos(Net(log.state.next));
        log.emit_eq(self.mux, number);
        if self.mux.is_empty() {
            lists::copy(piece, 0, self.row);
            return;
        }
        emit::emit_kept_mux(log, piece, 0, select, self.kept);
    }

    // Piece x, emitted and stored.
    fn write_piece(self, log: &mut Log, piece: &mut [u32], to: &mut [u32], x: usize)
        requires job { Job self (length piece.old) (length to.old) }
        requires x_lt_pieces { x < self.port.pieces }
        ensures log_after { lent_of log.new ≡ run (piece_by self.entry.mux.now self.entry.row.now x) (lent_of log.old) }
        ensures piece_after { is_over (state_of log.new.state) ≡ false → piece.new ≡ (piece_by self.entry.mux.now self.entry.row.now x log.old.state.next).value }
        ensures to_after { to.new ≡ spill_at self.entry.port.mems self.entry.port.rows self.entry.port.unit self.entry.per_row (port_starts self.entry.port self.entry.per_row x) piece.new to.old }
    {
        self.emit_piece(log, piece, x);
        swizzle_columns::store_nets(to, self.port, self.per_row, piece, x);
    }

    // The pieces in turn.
    fn write_pieces(self, log: &mut Log, piece: &mut [u32], to: &mut [u32])
        requires { Job self (length piece.old) (length to.old) }
        ensures log_after { lent_of log.new ≡ run (masks_by self.entry to.old) (lent_of log.old) }
        ensures to_after { is_over (state_of log.new.state) ≡ false → to.new ≡ (masks_by self.entry to.old log.old.state.next).value }
    {
        for x in 0..self.port.pieces as usize {
            self.write_piece(log, piece, to, x);
        }
    }
}

// Whether a write port is within the limits, its mux address not long, and its room as large as all its columns.
#[tactic(auto, unfolding(crate::specs::Wide::can_write))]
fn can_write(p: WidePort, len: usize, short: usize, size: usize) -> bool
    ensures { result ≡ can_write p len short size }
{
    swizzle_columns::sizes_fit(p, size) && swizzle_columns::rows_fit(p, len) && short <= MUX_ROOM
}

// The masks of a port within the limits: its row, whose nets are merged once, a blank room, then the pieces.
fn masks_in(
    log: &mut Log,
    to: &mut [u32],
    port: WidePort,
    mux: &[u32],
    entries: &[u32],
    mask: &[u32],
)
    requires { Writes port (length entries.now) (length mux.now) (length to.old) }
    ensures log_after { lent_of log.new ≡ run (port_masks port mux.now entries.now mask.now (length to.old)) (lent_of log.old) }
    ensures to_after { is_over (state_of log.new.state) ≡ false → to.new ≡ (port_masks port mux.now entries.now mask.now (length to.old) log.old.state.next).value }
{
    let len = entries.len();
    let n = port.olds as usize * len;
    let mut row = [0; rules::MAX_MERGE];
    let zeros = [0; rules::MAX_MERGE];
    let mut keys = Keys::new();
    let mut piece = [0; rules::MAX_MERGE];
    swizzle_columns::mask_row(&mut row, port, entries, mask);
    lists::fill(to, 0, to.len(), 0);
    let row = &row[..n];
    let given = Columns {
        x: row,
        y: &zeros[..n],
    };
    let kept = keys.merge(given);
    let masked = Masked {
        port,
        per_row: len,
        mux,
        row,
        kept,
    };
    masked.write_pieces(log, &mut piece[..n], to);
}

// The masks of a write port: logs its comparisons and merging muxes, and stores its mask in the order of the memories. Nothing is done where the
// port passes the limits or the room is not as large as its columns. After an overflow the room is left open.
pub fn write_masks(
    log: &mut Log,
    to: &mut [u32],
    p: WidePort,
    mux: &[u32],
    entries: &[u32],
    mask: &[u32],
)
    ensures log_after { lent_of log.new ≡ run (masks_of p mux.now entries.now mask.now to.old) (lent_of log.old) }
    ensures to_after { is_over (state_of log.new.state) ≡ false → to.new ≡ (masks_of p mux.now entries.now mask.now to.old log.old.state.next).value }
{
    if can_write(p, entries.len(), mux.len(), to.len()) {
        masks_in(log, to, p, mux, entries, mask);
    }
}
