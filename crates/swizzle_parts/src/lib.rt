// What a swizzle gives, memory by memory: small functions that find a memory's part of the ports, trits and image in the lent arrays, and its output nets.
//
// A struct whose numbers pass the limits of a swizzle, which no swizzle gives, holds no memory. `g, n, i` go apart: each call answers one question
// of C's, and a struct of them would be built for that one call.
#![tactic(auto)]

ghost use Rattle.std.specs.Prelude.{◌≡◌, List, ℕ, ◌+◌, ◌*◌, ◌<◌, ◌≤◌, min, get_or};
ghost use Rattle.lists.specs.Lists.{all, part};
ghost use Rattle.rules.specs.Limits.{max_ports, max_wide, max_columns, max_nets};
ghost use Rattle.rules.specs.Cell.{write_at, read_at_of, output_slice};
ghost use Rattle.swizzle_result.specs.View.{own, whole, write_ports_of, read_ports_of, write_size, trit_size, start_by, output_by};
ghost use Rattle.swizzle_parts.specs.Known.{WithPort};
ghost use Rattle.swizzle_parts.specs.Parts.{small_write, small_read, is_small, is_there, There, memory_at, read_port, write_start, read_start, trit_start, clear_at, reset_at, init_at, bits_before, bits_at, kind_before, kind_at};

mod memories;

use memories::Memories;
use swizzle_result::{WideMemory, WideReadPort, WideWritePort};

// A part of a lent array; 0, 0 where there is none. It is C's own; `port_outputs::OutputSlice`, which C has with a number, is not.
#[repr(C)]
#[derive(Clone, Copy, Default)]
pub struct Part {
    pub start: usize,
    pub size: usize,
}

// The two parts of a write port's nets after its address, and the three of a read port's trits, each in the order in which they stand.
#[derive(Clone, Copy)]
pub(crate) enum Bits {
    Data,
    Mask,
}

#[derive(Clone, Copy)]
pub(crate) enum Kind {
    Clear,
    Reset,
    Init,
}

// The numbers of the write ports in use are small.
fn writes_small(g: WideMemory) -> bool
    ensures { result ≡ all small_write (write_ports_of g) }
{
    let ports = &g.write_ports[..net_memory::ports_used(g.write_count)];
    ports.iter().all(|p| p.wide <= rules::MAX_WIDE)
}

// Those of the read ports in use.
fn reads_small(g: WideMemory) -> bool
    ensures { result ≡ all small_read (read_ports_of g) }
{
    let ports = &g.read_ports[..net_memory::ports_used(g.read_count)];
    ports.iter().all(|p| p.wide <= rules::MAX_WIDE && p.first <= rules::MAX_NETS)
}

// Those of the struct.
#[tactic(auto, unfolding(crate::specs::Parts::is_small))]
fn is_small(g: WideMemory) -> bool
    ensures { result ≡ is_small g }
{
    u64::from(g.mems) <= rules::MAX_COLUMNS
        && g.unit <= rules::MAX_UNIT
        && writes_small(g)
        && reads_small(g)
}

// Whether there is a memory n.
#[tactic(auto, unfolding(crate::specs::Parts::is_there))]
fn is_there(g: WideMemory, n: usize) -> bool
    ensures { result ≡ is_there g n }
{
    is_small(g) && n < g.mems as usize
}

impl Memories {
    // The struct, where there is a memory n with a port i, of so many.
    #[tactic(auto, using(crate::proofs::Found::there_is), unfolding(crate::specs::Parts::has_port))]
    fn with_port(g: WideMemory, n: usize, i: usize, count: u32) -> Option<Memories>
        ensures { WithPort g n i count result }
    {
        if !is_there(g, n) || net_memory::ports_used(count) <= i {
            return None;
        }
        Some(Memories { g })
    }

    // A memory's bits of a port with this wide log. No struct for a wide log that is low: it would hold one number.
    fn own(self, wide: u32) -> usize
        requires { wide ≤ max_wide }
        ensures { (result ≡ own self.g wide) × (result ≤ 4096) }
    {
        lists::two_to(wide) as usize * self.g.unit as usize
    }

    // Those of all memories.
    fn whole(self, wide: u32) -> usize
        requires { wide ≤ max_wide }
        ensures { (result ≡ whole self.g wide) × (result ≤ 134217728) }
    {
        self.g.mems as usize * self.own(wide)
    }

    // How many nets a write port has.
    fn write_size(self, p: WideWritePort) -> usize
        requires { p.wide ≤ max_wide }
        ensures { (result ≡ write_size self.g p) × (result ≤ 0x200000000) }
    {
        p.addr_len as usize + 2 * self.whole(p.wide)
    }

    // How many trits a read port has.
    fn trit_size(self, p: WideReadPort) -> usize
        requires { p.wide ≤ max_wide }
        ensures { (result ≡ trit_size self.g p) × (result ≤ 0x200000000) }
    {
        if p.flip_flop.is_none() {
            return 0;
        }
        3 * self.whole(p.wide)
    }

    // Where the nets of write port j start.
    fn write_start(self, j: usize) -> usize
        requires { j ≤ min max_ports self.g.write_count }
        ensures { (result ≡ write_start self.g j) × (result ≤ j * 0x200000000) }
    {
        let mut at = 0;
        for port in &self.g.write_ports[..j] {
            at += self.write_size(*port);
        }
        at
    }

    // Where those of read port i start.
    fn read_start(self, i: usize) -> usize
        requires { i ≤ min max_ports self.g.read_count }
        ensures { (result ≡ read_start self.g i) × (result ≤ 0x1000000000 + i * 0x100000000) }
    {
        let mut at = self.write_start(net_memory::ports_used(self.g.write_count));
        for port in &self.g.read_ports[..i] {
            at += port.addr_len as usize;
        }
        at
    }

    // Where the trits of read port i start. One loop for nets and trits is no plainer: the ports are of two types, and each call would hand a list, a
    // start and a closure for a port's size, which is all that the loop here says.
    fn trit_start(self, i: usize) -> usize
        requires { i ≤ min max_ports self.g.read_count }
        ensures { (result ≡ trit_start self.g i) × (result ≤ i * 0x200000000) }
    {
        let mut at = 0;
        for port in &self.g.read_ports[..i] {
            at += self.trit_size(*port);
        }
        at
    }

    // Where the trits of memory n start in the image.
    fn image_start(self, n: usize) -> usize
        requires { n ≤ max_columns }
        ensures { result ≡ start_by self.g n }
    {
        let g = self.g;
        let full = g.full as usize;
        let low = n.min(full);
        let high = n - low;
        let rows = low * g.full_depth as usize + high * g.part_depth as usize;
        rows * g.unit as usize
    }
}

impl Bits {
    // How many times the columns of all memories come before.
    fn before(self) -> usize
        ensures { (result ≡ bits_before self) × (result ≤ 1) }
    {
        self as usize
    }
}

impl Kind {
    fn before(self) -> usize
        ensures { (result ≡ kind_before self) × (result ≤ 2) }
    {
        self as usize
    }
}

// The depth of memory n; 0 where there is none.
pub fn depth_of(g: WideMemory, n: usize) -> u32
    ensures { (nets trits image : List ℕ) → result ≡ (memory_at g nets trits image n).memory.depth }
{
    if !is_there(g, n) {
        return 0;
    }
    if n < g.full as usize {
        return g.full_depth;
    }
    g.part_depth
}

// ---- where the parts stand

// The address of write port j in the nets, which all memories share.
#[tactic(auto, using(crate::proofs::Found::write_known))]
pub fn write_addr_part(g: WideMemory, n: usize, j: usize) -> Part
    ensures { (nets trits image : List ℕ) → part result.start result.size nets ≡ (write_at (memory_at g nets trits image n).memory j).addr }
{
    let Some(m) = Memories::with_port(g, n, j, g.write_count) else {
        return Part::default();
    };
    let p = g.write_ports[j];
    Part {
        start: m.write_start(j),
        size: p.addr_len as usize,
    }
}

// Memory n's data or mask of write port j.
#[tactic(auto, using(crate::proofs::Found::write_known))]
fn columns_part(g: WideMemory, n: usize, j: usize, bits: Bits) -> Part
    ensures { (nets trits image : List ℕ) → part result.start result.size nets ≡ bits_at bits (write_at (memory_at g nets trits image n).memory j) }
{
    let Some(m) = Memories::with_port(g, n, j, g.write_count) else {
        return Part::default();
    };
    let p = g.write_ports[j];
    let size = m.own(p.wide);
    let before = bits.before();
    let inside = p.addr_len as usize + before * m.whole(p.wide) + n * size;
    Part {
        start: m.write_start(j) + inside,
        size,
    }
}

// Memory n's data of write port j in the nets.
pub fn write_data_part(g: WideMemory, n: usize, j: usize) -> Part
    ensures { (nets trits image : List ℕ) → part result.start result.size nets ≡ (write_at (memory_at g nets trits image n).memory j).bits }
{
    columns_part(g, n, j, Bits::Data)
}

// Its mask.
pub fn write_mask_part(g: WideMemory, n: usize, j: usize) -> Part
    ensures { (nets trits image : List ℕ) → part result.start result.size nets ≡ (write_at (memory_at g nets trits image n).memory j).mask }
{
    columns_part(g, n, j, Bits::Mask)
}

// The address of read port i in the nets, which all memories share. One function for both kinds of port would be no shorter.
#[tactic(auto, using(crate::proofs::Found::read_known))]
pub fn read_addr_part(g: WideMemory, n: usize, i: usize) -> Part
    ensures { (nets trits image : List ℕ) → part result.start result.size nets ≡ (read_at_of (memory_at g nets trits image n).memory i).addr }
{
    let Some(m) = Memories::with_port(g, n, i, g.read_count) else {
        return Part::default();
    };
    let p = g.read_ports[i];
    Part {
        start: m.read_start(i),
        size: p.addr_len as usize,
    }
}

// Memory n's clear, reset or init trits of read port i; none where it has no flip-flop.
#[tactic(auto, using(crate::proofs::Found::read_known))]
fn trits_part(g: WideMemory, n: usize, i: usize, kind: Kind) -> Part
    ensures { (nets trits image : List ℕ) → part result.start result.size trits ≡ kind_at kind (memory_at g nets trits image n).memory i }
{
    let Some(m) = Memories::with_port(g, n, i, g.read_count) else {
        return Part::default();
    };
    let p = g.read_ports[i];
    if p.flip_flop.is_none() {
        return Part::default();
    }
    let size = m.own(p.wide);
    let before = kind.before();
    let inside = before * m.whole(p.wide) + n * size;
    Part {
        start: m.trit_start(i) + inside,
        size,
    }
}

// Memory n's clear trits of read port i in the trits.
pub fn clear_part(g: WideMemory, n: usize, i: usize) -> Part
    ensures { (nets trits image : List ℕ) → part result.start result.size trits ≡ clear_at (memory_at g nets trits image n).memory i }
{
    trits_part(g, n, i, Kind::Clear)
}

// Its reset trits.
pub fn reset_part(g: WideMemory, n: usize, i: usize) -> Part
    ensures { (nets trits image : List ℕ) → part result.start result.size trits ≡ reset_at (memory_at g nets trits image n).memory i }
{
    trits_part(g, n, i, Kind::Reset)
}

// Its init trits.
pub fn init_part(g: WideMemory, n: usize, i: usize) -> Part
    ensures { (nets trits image : List ℕ) → part result.start result.size trits ≡ init_at (memory_at g nets trits image n).memory i }
{
    trits_part(g, n, i, Kind::Init)
}

// Memory n's part of the image.
pub fn image_part(g: WideMemory, n: usize) -> Part
    ensures { (nets trits image : List ℕ) → part result.start result.size image ≡ (memory_at g nets trits image n).memory.init }
{
    if !is_there(g, n) {
        return Part::default();
    }
    let m = Memories { g };
    let start = m.image_start(n);
    let end = m.image_start(n + 1);
    Part {
        start,
        size: end - start,
    }
}

// ---- the parts themselves

pub fn write_data(g: WideMemory, nets: &[u32], n: usize, j: usize) -> &[u32]
    ensures { (trits image : List ℕ) → result.now ≡ (write_at (memory_at g nets.now trits image n).memory j).bits }
{
    let p = write_data_part(g, n, j);
    lists::part(nets, p.start, p.size)
}

pub fn write_mask(g: WideMemory, nets: &[u32], n: usize, j: usize) -> &[u32]
    ensures { (trits image : List ℕ) → result.now ≡ (write_at (memory_at g nets.now trits image n).memory j).mask }
{
    let p = write_mask_part(g, n, j);
    lists::part(nets, p.start, p.size)
}

pub fn image_of(g: WideMemory, image: &[u8], n: usize) -> &[u8]
    ensures { (nets trits : List ℕ) → result.now ≡ (memory_at g nets trits image.now n).memory.init }
{
    let p = image_part(g, n);
    lists::part(image, p.start, p.size)
}

// ---- the outputs

// The net of a bit of memory n's outputs of this port: they stand row after row, all memories' columns in each row.
#[tactic(auto, using(crate::proofs::Outs::net_room))]
fn net_of(g: WideMemory, p: WideReadPort, n: usize, bit: usize) -> u32
    requires { There g n × (p.wide ≤ max_wide) × (p.first ≤ max_nets) × (bit < own g p.wide) }
    ensures { result ≡ get_or (output_by g n p) bit 0 }
{
    let unit = g.unit as usize;
    let columns = g.mems as usize * unit;
    let row = bit / unit;
    let at = row * columns + n * unit;
    p.first + (at + bit % unit) as u32
}

// The output net of a bit of memory n's read port i; 0 where there is none.
#[tactic(auto, using(crate::proofs::Found::read_known))]
pub fn output_of(g: WideMemory, n: usize, i: usize, bit: usize) -> u32
    ensures { (nets trits image : List ℕ) → result ≡ get_or (output_slice (memory_at g nets trits image n).memory i (memory_at g nets trits image n).output) bit 0 }
{
    let Some(m) = Memories::with_port(g, n, i, g.read_count) else {
        return 0;
    };
    let p = g.read_ports[i];
    if m.own(p.wide) <= bit {
        return 0;
    }
    net_of(g, p, n, bit)
}
