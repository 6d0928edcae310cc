// memory/src/lib.rs, the write ports of swizzle: for each its address, then its data and its mask in the order of the memories go to the nets of
// the result, one port after the other.
#![tactic(auto)]

ghost use Rattle.std.specs.Prelude.{◌≡◌, List, ℕ, ◌+◌, ◌<◌, ◌≤◌, min, length, take, replicate};
ghost use Rattle.log_entries.specs.View.{lent_of};
ghost use Rattle.net_memory.specs.View.{memory_of};
ghost use Rattle.rules.specs.Cell.{wide_log2};
ghost use Rattle.net_memory.specs.Ports.{write_of};
ghost use Rattle.rules.specs.Limits.{max_ports};
ghost use Rattle.image_geometry.specs.View.{layout_of};
ghost use Rattle.port_transparency.specs.Gave.{Gave};
ghost use Rattle.swizzle_writes.specs.Placed.{nets_of, roomy, placed, placed_if, placed_from, none_filled};

use image_geometry::Layout;
use log_entries::Log;
use net_memory::{Given, WritePort};
use swizzle_columns::WidePort;
use swizzle_result::WideWritePort;

// How many nets all write ports take, and the ports of the result.
#[derive(Clone, Copy)]
pub struct Written {
    pub used: usize,
    pub ports: [WideWritePort; rules::MAX_PORTS],
}

// Where the next port starts after a port, and the length of its address.
#[derive(Clone, Copy)]
struct Placing {
    next: usize,
    addr_len: u32,
}

// The nets of an address that there is room for on the way.
const ADDR_ROOM: usize = 64;

// Whether so many nets hold a port from a place on, whose address has so many, with its data and its mask.
#[tactic(auto, unfolding(crate::specs::Placed::roomy))]
fn is_roomy(p: WidePort, len: usize, at: usize, room: usize) -> bool
    ensures { result ≡ roomy p len at room }
{
    let columns = p.columns();
    if ADDR_ROOM < len || (rules::MAX_COLUMNS as usize) < columns || room < at {
        return false;
    }
    let size = p.rows as usize * columns;
    len + (size + size) <= room - at
}

// A write port among the memories: the two parts of its address, the layout's entries, its data and its mask.
#[derive(Clone, Copy)]
struct Port<'a> {
    wide: WidePort,
    hw: &'a [u32],
    mux: &'a [u32],
    entries: &'a [u32],
    bits: &'a [u32],
    mask: &'a [u32],
}

impl Port<'_> {
    // Data and mask from a place on, each of so many nets.
    fn place_nets(self, log: &mut Log, to: &mut [u32], from: usize, size: usize)
        requires { from + (size + size) ≤ length to.old }
        ensures { Gave (nets_of self.entry.wide self.entry.mux.now self.entry.entries.now self.entry.bits.now self.entry.mask.now from size to.old) (lent_of log.old) (lent_of log.new) to.new }
    {
        let p = self.wide;
        let mid = from + size;
        let end = mid + size;
        swizzle_columns::data_columns(&mut to[from..mid], p, self.entries, self.bits);
        swizzle_write::write_masks(log, &mut to[mid..end], p, self.mux, self.entries, self.mask);
    }

    // The whole port from a place on: nothing where it has no room.
    #[tactic(auto, using(crate::proofs::Steps::roomy_says))]
    fn place(self, log: &mut Log, to: &mut [u32], at: usize) -> Placing
        ensures { Gave (placed self.entry.wide self.entry.hw.now self.entry.mux.now self.entry.entries.now self.entry.bits.now self.entry.mask.now at to.old) (lent_of log.old) (lent_of log.new) (record { room = to.new; next = result.next; addr_len_of = result.addr_len }) }
    {
        let p = self.wide;
        let len = self.hw.len();
        if !is_roomy(p, len, at, to.len()) {
            return Placing {
                next: at,
                addr_len: 0,
            };
        }
        let size = p.rows as usize * p.columns();
        let from = at + len;
        lists::copy(to, at, self.hw);
        self.place_nets(log, to, from, size);
        Placing {
            next: from + (size + size),
            addr_len: len as u32,
        }
    }
}

// A layout, with how many memories it has.
#[derive(Clone, Copy)]
pub struct Memories<'a> {
    pub layout: Layout<'a>,
    pub mems: u32,
}

impl Memories<'_> {
    // A port of a memory of this width, with its new wide log, from a place on: nothing where it cannot be split, or has no room. The rooms of its split
    // live in the frame, without a heap, so that a function for reads and writes could not hand the parts back.
    fn place_port(
        self,
        log: &mut Log,
        to: &mut [u32],
        at: usize,
        width: u32,
        new: u32,
        write: WritePort<'_>,
    ) -> Placing
        ensures { Gave (placed_if (layout_of self.entry.layout) self.entry.mems (wide_log2 width (length (write_of write.entry).bits)) new (write_of write.entry).addr (write_of write.entry).bits (write_of write.entry).mask at to.old) (lent_of log.old) (lent_of log.new) (record { room = to.new; next = result.next; addr_len_of = result.addr_len }) }
    {
        let mut hw = [0u32; ADDR_ROOM];
        let mut mux = [0u32; ADDR_ROOM];
        let p = self.layout.params;
        let addr = write.addr();
        let bits = write.bits();
        let old = net_memory::wide::wide_log(width, bits.len());
        let split = swizzle_split::split_addr(&mut hw, &mut mux, p, old, new, addr);
        let Some(s) = split else {
            return Placing {
                next: at,
                addr_len: 0,
            };
        };
        let port = Port {
            wide: WidePort::of(p, self.mems, s),
            hw: lists::part(&hw, 0, s.hw_len as usize),
            mux: lists::part(&mux, 0, s.mux_len as usize),
            entries: self.layout.entries,
            bits,
            mask: write.mask(),
        };
        port.place(log, to, at)
    }
}

// The write ports of a memory with these new wide logs, one after the other: the requests in the log, the nets from the front of `to` on, and the
// ports of the result. A port that cannot be split, or has no room, leaves nothing. After an overflow the nets are left open.
pub fn swizzle_writes(
    log: &mut Log,
    to: &mut [u32],
    given: Given<'_>,
    memories: Memories<'_>,
    wide: &[u32],
) -> Written
    ensures { (trits : List ℕ) → Gave (placed_from (memory_of given.entry.memory given.entry.nets.now trits) (layout_of memories.entry.layout) memories.entry.mems given.entry.memory.write_ports 0 (take (min max_ports given.entry.memory.write_count) wide.now) (none_filled to.old)) (lent_of log.old) (lent_of log.new) (record { room = to.new; at = result.used; ports = result.ports }) }
{
    let count = net_memory::ports_used(given.memory.write_count).min(wide.len());
    let width = given.memory.width;
    let mut used = 0;
    let mut ports = [WideWritePort::NONE; rules::MAX_PORTS];
    for (j, new) in wide[..count].iter().enumerate() {
        let write = given.write_port(j);
        let p = memories.place_port(log, to, used, width, *new, write);
        ports[j] = WideWritePort {
            addr_len: p.addr_len,
            wide: *new,
            clock: write.port.clock,
        };
        used = p.next;
    }
    Written { used, ports }
}
