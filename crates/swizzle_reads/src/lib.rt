// The read ports of a swizzle: what they log, their addresses and trits in lent room, and the struct of the memories.
#![tactic(auto)]

ghost use Rattle.std.specs.Prelude.{◌≡◌, List, ℕ, ◌+◌, ◌<◌, ◌≤◌, min, ◌&&◌, length, drop, get_or, leb, ltb};
ghost use Rattle.rules.specs.Limits.{X, max_ports};
ghost use Rattle.net_memory.specs.View.{read_port};
ghost use Rattle.lists.specs.Lists.{part};
ghost use Rattle.log_entries.specs.View.{lent_of};
ghost use Rattle.image_geometry.specs.View.{layout_of};
ghost use Rattle.swizzle_reads.specs.Going.{going_of, in_port, pieces_fit, rooms_fit, port_if, ports_from, in_ports, reads_if, ScratchKept, AllKept};
ghost use Rattle.swizzle_reads.specs.Raw.{need_by, port_by};
ghost use Rattle.swizzle_reads.specs.Cuts.{piece_of, size_of, nets_of, logged, loaded, clocked, fits_in, all_of, Holding};

mod rows;

use image_geometry::Layout;
use log_entries::Log;
use net_flip_flop::Controls;
use net_memory::{Given, MemoryReadPort, ReadPort};
use rows::{Cut, Rows};
use swizzle_columns::WidePort;
use swizzle_pieces::Pieces;
use swizzle_read_trits::Trits;
use swizzle_result::{WideMemory, WideReadPort};
use swizzle_split::Split;

// Room for a part of an address, which has at most 32 nets.
const ROOM: usize = rules::ADDR_BITS as usize;

// What the read ports leave beside the log: their addresses and trits in lent rooms, with where the next go, and the struct of the memories.
// A slice of what is left of a room would lose the front, which the caller goes on with.
#[derive(Drop)]
pub struct Reads<'a> {
    pub nets: &'a mut [u32],
    pub nets_at: usize,
    pub trits: &'a mut [u8],
    pub trits_at: usize,
    pub memory: WideMemory,
}

// The memories of a layout, and its columns.
#[derive(Clone, Copy)]
pub(crate) struct Sizes {
    pub mems: u32,
    pub columns: u32,
}

// A read port of the memory, with its number, its new wide log, and its outputs.
#[derive(Clone, Copy)]
struct Port<'a> {
    number: usize,
    read: ReadPort<'a>,
    wide: u32,
    output: &'a [u32],
    ghost in_use: { number < max_ports },
}

impl Cut<'_> {
    // The nets of a piece.
    fn piece(self) -> u32
        ensures { (result ≡ piece_of self.entry) × (result ≤ 2048) }
    {
        swizzle_split::rows_of(self.split.old) * self.rows.layout.params.width
    }

    // The columns of all new rows.
    fn size(self) -> u32
        ensures { (result ≡ size_of self.entry) × (result ≤ 524288) }
    {
        swizzle_split::rows_of(self.split.new) * self.rows.sizes.columns
    }

    // What a port logs.
    fn emit_port(
        self,
        log: &mut Log,
        scratch: &mut [u32],
        flip_flop: Option<Controls>,
        mux: &[u32],
        output: &[u32],
    )
        ensures log_after { lent_of log.new ≡ logged self.entry flip_flop mux.now output.now scratch.old (lent_of log.old) }
        ensures scratch_after { drop (nets_of self.entry) scratch.new ≡ drop (nets_of self.entry) (loaded self.entry mux.now scratch.old log.old.state.next) }
    {
        let q = self.rows.layout;
        let s = self.split;
        let pieces = Pieces {
            first: 0,
            width: q.params.width,
            columns: self.rows.sizes.columns,
            mask: s.mask,
            rows: swizzle_split::rows_of(s.old),
            count: s.pieces,
        };
        let port = swizzle_read::ReadPort {
            pieces,
            width: self.piece(),
            voids: swizzle_split::rows_of(s.new),
            flip_flop,
            mux,
            entries: q.entries,
            output,
        };
        port.emit(log, scratch);
    }

    // The trits of a port, from `at` on, where it has a flip-flop.
    fn put_trits(self, to: &mut [u8], at: usize, r: ReadPort<'_>)
        ensures { to.new ≡ clocked self.entry r.entry.port r.entry.trits.now at to.old }
    {
        if r.port.flip_flop.is_none() {
            return;
        }
        let q = self.rows.layout;
        let w = WidePort::of(q.params, self.rows.sizes.mems, self.split);
        let kinds = Trits {
            clear: r.clear(),
            reset: r.reset(),
            init: r.init(),
        };
        kinds.put(to, at, self.size(), w, q.entries);
    }

    // How many trits a port with this flip-flop has.
    fn trit_count(self, f: Option<Controls>) -> usize
        ensures { result ≡ need_by f (size_of self.entry) }
    {
        if f.is_none() {
            return 0;
        }
        3 * self.size() as usize
    }

    // Whether there are pieces, which the scratch holds, and the port's nets are below X.
    #[tactic(auto, unfolding(crate::specs::Going::pieces_fit))]
    fn pieces_fit(self, room: usize, next: u32) -> bool
        ensures { result ≡ pieces_fit self.entry.split.pieces (piece_of self.entry) room next (size_of self.entry) }
    {
        let pieces = self.split.pieces;
        pieces != 0
            && pieces as usize * self.piece() as usize <= room
            && next as usize + self.size() as usize <= rules::NET_X as usize
    }
}

// The port of all memories.
fn port_of(s: Split, r: MemoryReadPort, next: u32) -> WideReadPort
    ensures { result ≡ port_by s r next }
{
    let relations = r.relations;
    WideReadPort {
        addr_len: s.hw_len,
        wide: s.new,
        first: next,
        relations_len: r.relations_len,
        relations,
        flip_flop: r.flip_flop,
    }
}

impl Reads<'_> {
    // Whether there are columns, and the rooms hold the port's nets and trits.
    #[tactic(auto, unfolding(crate::specs::Going::rooms_fit))]
    fn has_room(&self, size: usize, addr: usize, kinds: usize) -> bool
        ensures { result ≡ rooms_fit size (length self.now.nets.now) self.now.nets_at addr (length self.now.trits.now) self.now.trits_at kinds }
    {
        size != 0
            && swizzle_read_trits::holds(self.nets.len(), self.nets_at, addr)
            && swizzle_read_trits::holds(self.trits.len(), self.trits_at, kinds)
    }

    // Whether a port is within the limits.
    #[tactic(auto, unfolding(crate::specs::Raw::raw_fits))]
    fn fits(&self, x: Cut<'_>, f: Option<Controls>, room: usize, next: u32) -> bool
        ensures { result ≡ fits_in x.entry f room next self.now }
    {
        let size = x.size() as usize;
        x.pieces_fit(room, next) && self.has_room(size, x.split.hw_len as usize, x.trit_count(f))
    }

    // A port within the limits, with the two parts of its address.
    fn read_split(
        &mut self,
        log: &mut Log,
        scratch: &mut [u32],
        x: Cut<'_>,
        port: Port<'_>,
        hw: &[u32],
        mux: &[u32],
    )
        requires { Holding x port.read.port.flip_flop (length hw.now) self.old }
        ensures ports_after { going_of log.new self.new ≡ all_of x.entry port.entry.number port.entry.read.port port.entry.read.trits.now hw.now mux.now port.entry.output.now scratch.old (going_of log.old self.old) }
        ensures scratch_after { drop (nets_of x.entry) scratch.new ≡ drop (nets_of x.entry) (loaded x.entry mux.now scratch.old log.old.state.next) }
    {
        let r = port.read.port;
        let first = log.state.next;
        x.emit_port(log, scratch, r.flip_flop, mux, port.output);
        lists::copy(self.nets, self.nets_at, hw);
        x.put_trits(self.trits, self.trits_at, port.read);
        self.memory.read_ports[port.number] = port_of(x.split, r, first);
        self.nets_at += hw.len();
        self.trits_at += x.trit_count(r.flip_flop);
    }

    // One port. The rooms of its split live in this frame, without a heap: what reads and writes share is `split_addr`, which fills them.
    fn read_port(&mut self, log: &mut Log, scratch: &mut [u32], rows: Rows<'_>, port: Port<'_>)
        ensures ports_after { going_of log.new self.new ≡ port_if (layout_of rows.entry.layout) (length scratch.old) port.entry.number (in_port port.entry.read.port port.entry.read.nets.now port.entry.read.trits.now) port.entry.wide port.entry.output.now (going_of log.old self.old) }
        ensures scratch_kept { ScratchKept (layout_of rows.entry.layout) (in_port port.entry.read.port port.entry.read.nets.now port.entry.read.trits.now) port.entry.wide scratch.old scratch.new }
    {
        let mut hw = [0u32; ROOM];
        let mut mux = [0u32; ROOM];
        let r = port.read.port;
        let p = rows.layout.params;
        let addr = port.read.addr();
        let old = net_memory::wide::wide_log(p.width, r.data_len as usize);
        let split = swizzle_split::split_addr(&mut hw, &mut mux, p, old, port.wide, addr);
        let Some(s) = split else {
            return;
        };
        let x = Cut { rows, split: s };
        if !self.fits(x, r.flip_flop, scratch.len(), log.state.next) {
            return;
        }
        let hw = lists::part(&hw, 0, s.hw_len as usize);
        let mux = lists::part(&mux, 0, s.mux_len as usize);
        self.read_split(log, scratch, x, port, hw, mux);
    }

    // Every read port, one after the other.
    fn each_port(
        &mut self,
        log: &mut Log,
        scratch: &mut [u32],
        rows: Rows<'_>,
        given: Given<'_>,
        wide: &[u32],
        output: &[u32],
    )
        ensures ports_after { going_of log.new self.new ≡ ports_from (layout_of rows.entry.layout) (length scratch.old) 0 (in_ports given.entry.memory given.entry.nets.now given.entry.trits.now) wide.now output.now (going_of log.old self.old) }
        ensures all_kept { AllKept (layout_of rows.entry.layout) (in_ports given.entry.memory given.entry.nets.now given.entry.trits.now) wide.now scratch.old scratch.new }
    {
        let mut at = 0;
        for i in 0..net_memory::ports_used(given.memory.read_count) {
            let read = given.read_port(i);
            let len = read.port.data_len as usize;
            let port = Port {
                number: i,
                read,
                wide: wide.get(i).copied().unwrap_or(0),
                output: lists::part(output, at, len),
            };
            self.read_port(log, scratch, rows, port);
            at += len;
        }
    }

    // All read ports of a memory with a layout and new wide logs. A port that passes the limits leaves everything as it is, and so does a layout
    // that no accepted swizzle has. Scratch is open where the pieces of a port stood.
    pub fn emit(
        &mut self,
        log: &mut Log,
        scratch: &mut [u32],
        q: Layout,
        given: Given<'_>,
        wide: &[u32],
        output: &[u32],
    )
        ensures ports_after { going_of log.new self.new ≡ reads_if (layout_of q.entry) (length scratch.old) (in_ports given.entry.memory given.entry.nets.now given.entry.trits.now) wide.now output.now (going_of log.old self.old) }
        ensures all_kept { AllKept (layout_of q.entry) (in_ports given.entry.memory given.entry.nets.now given.entry.trits.now) wide.now scratch.old scratch.new }
    {
        let Ok(shape) = image_check::check_layout(q) else {
            return;
        };
        if q.params.width == 0 {
            return;
        }
        let sizes = Sizes {
            mems: shape.all_mems as u32,
            columns: shape.columns as u32,
        };
        let rows = Rows { layout: q, sizes };
        self.each_port(log, scratch, rows, given, wide, output);
    }
}
