// cell/memory.rs: a memory by value, with its nets and trits in two lent arrays, and the parts of them that belong to each port.
#![tactic(auto)]

ghost use Rattle.std.specs.Prelude.{◌≡◌, ℕ, ◌+◌, ◌*◌, ◌<◌, ◌≤◌, min, List, [], length};
ghost use Rattle.lists.specs.Lists.{part, sum_by};
ghost use Rattle.rules.specs.Limits.{max_ports};
ghost use Rattle.rules.specs.Cell.{write_at, read_at_of, output_start};
ghost use Rattle.net_memory.specs.Given.{mem_of};
ghost use Rattle.net_memory.specs.Ports.{code_of, write_of, read_of};
ghost use Rattle.net_memory.specs.View.{no_write_port, no_read_port, write_port, read_port, write_size, addr_size, trit_size, write_by, read_by, memory_of, reads_start, write_start, read_start, trit_start, nets_total, trits_total, write_nets, read_nets, read_trits};

use net_flip_flop::Controls;
use net_value::{ControlNet, Net};

pub mod wide;

#[derive(Clone, Copy, Debug, PartialEq, Eq)]
pub struct MemoryWritePort {
    pub addr_len: u32,
    pub data_len: u32,
    pub mask_len: u32,
    pub clock: ControlNet,
}

// What a read port gives of a row that a write port writes at the same time.
#[derive(Clone, Copy, Debug, PartialEq, Eq)]
pub enum MemoryPortRelation {
    Undefined,
    ReadBeforeWrite,
    Transparent,
}

// Its code in a struct of C.
impl From<MemoryPortRelation> for u8 {
    fn from(relation: MemoryPortRelation) -> u8
        ensures { result ≡ code_of relation }
    {
        relation as u8
    }
}

// The flip-flop is none where the port has no clock. The relations are codes, since C may hand any byte (4 refuses it); without a heap they stand
// in an array with their number beside it, as the ports of a memory do. Past that number anything may stand.
#[derive(Clone, Copy, Default)]
pub struct MemoryReadPort {
    pub addr_len: u32,
    pub data_len: u32,
    pub clear_len: u32,
    pub reset_len: u32,
    pub init_len: u32,
    pub relations_len: u32,
    pub relations: [u8; rules::MAX_PORTS],
    pub flip_flop: Option<Controls>,
}

impl MemoryReadPort {
    // The relations that it names.
    pub fn relations(&self) -> &[u8]
        ensures { result.now ≡ part 0 self.now.relations_len self.now.relations }
    {
        lists::part(&self.relations, 0, self.relations_len as usize)
    }
}

// What stands in for a port that is not there.
impl Default for MemoryWritePort {
    fn default() -> MemoryWritePort
        ensures { result ≡ no_write_port }
    {
        MemoryWritePort {
            addr_len: 0,
            data_len: 0,
            mask_len: 0,
            clock: ControlNet::Pos(Net(0)),
        }
    }
}

#[derive(Clone, Copy)]
pub struct Memory {
    pub depth: u32,
    pub width: u32,
    pub init_len: u32,
    pub write_count: u32,
    pub read_count: u32,
    pub write_ports: [MemoryWritePort; rules::MAX_PORTS],
    pub read_ports: [MemoryReadPort; rules::MAX_PORTS],
}

// A memory as a call is given it: the struct, and the two arrays that it lends.
#[derive(Clone, Copy)]
pub struct Given<'a> {
    pub memory: Memory,
    pub nets: &'a [u32],
    pub trits: &'a [u8],
}

// The ports in use: at most as many as there is place for.
pub fn ports_used(count: u32) -> usize
    ensures { (result ≡ min max_ports count) × (result ≤ max_ports) }
{
    rules::MAX_PORTS.min(count as usize)
}

// How many nets a write port has.
pub fn write_size(p: MemoryWritePort) -> usize
    ensures { (result ≡ write_size p) × (result < 0x300000000) }
{
    p.addr_len as usize + p.data_len as usize + p.mask_len as usize
}

// How many nets a read port has.
pub fn addr_size(p: MemoryReadPort) -> usize
    ensures { (result ≡ addr_size p) × (result < 0x100000000) }
{
    p.addr_len as usize
}

// How many outputs a read port has.
fn data_size(p: MemoryReadPort) -> usize
    ensures { (result ≡ p.data_len) × (result < 0x100000000) }
{
    p.data_len as usize
}

// How many initial trits a memory has.
pub fn init_size(m: Memory) -> usize
    ensures { (result ≡ m.init_len) × (result < 0x100000000) }
{
    m.init_len as usize
}

// How many trits a read port has.
pub fn trit_size(p: MemoryReadPort) -> usize
    ensures { (result ≡ trit_size p) × (result < 0x300000000) }
{
    p.clear_len as usize + p.reset_len as usize + p.init_len as usize
}

// A write port with its own nets.
#[derive(Clone, Copy)]
pub struct WritePort<'a> {
    pub port: MemoryWritePort,
    pub nets: &'a [u32],
}

impl<'a> WritePort<'a> {
    pub fn addr(self) -> &'a [u32]
        ensures { result.now ≡ (write_of self.entry).addr }
    {
        lists::part(self.nets, 0, self.port.addr_len as usize)
    }

    pub fn bits(self) -> &'a [u32]
        ensures { (result.now ≡ (write_of self.entry).bits) × (length result.now < 0x100000000) }
    {
        lists::part(
            self.nets,
            self.port.addr_len as usize,
            self.port.data_len as usize,
        )
    }

    pub fn mask(self) -> &'a [u32]
        ensures { result.now ≡ (write_of self.entry).mask }
    {
        lists::part(
            self.nets,
            self.port.addr_len as usize + self.port.data_len as usize,
            self.port.mask_len as usize,
        )
    }
}

// A read port with its own nets and trits.
#[derive(Clone, Copy)]
pub struct ReadPort<'a> {
    pub port: MemoryReadPort,
    pub nets: &'a [u32],
    pub trits: &'a [u8],
}

impl<'a> ReadPort<'a> {
    pub fn addr(self) -> &'a [u32]
        ensures { result.now ≡ (read_of self.entry).addr }
    {
        lists::part(self.nets, 0, self.port.addr_len as usize)
    }

    pub fn clear(self) -> &'a [u8]
        ensures { result.now ≡ part 0 self.entry.port.clear_len self.entry.trits.now }
    {
        lists::part(self.trits, 0, self.port.clear_len as usize)
    }

    pub fn reset(self) -> &'a [u8]
        ensures { result.now ≡ part self.entry.port.clear_len self.entry.port.reset_len self.entry.trits.now }
    {
        lists::part(
            self.trits,
            self.port.clear_len as usize,
            self.port.reset_len as usize,
        )
    }

    pub fn init(self) -> &'a [u8]
        ensures { result.now ≡ part (self.entry.port.clear_len + self.entry.port.reset_len) self.entry.port.init_len self.entry.trits.now }
    {
        lists::part(
            self.trits,
            self.port.clear_len as usize + self.port.reset_len as usize,
            self.port.init_len as usize,
        )
    }

    pub fn relations(&self) -> &[u8]
        ensures { result.now ≡ part 0 self.now.port.relations_len self.now.port.relations }
    {
        self.port.relations()
    }
}

// Where a part ends that starts at `start` and has the parts of these ports, of which `size` gives the sizes. (Of `map` and `sum` the proof that the sum
// fits did not close.)
fn end_of<T: Copy, F: Fn(T) -> usize>(start: usize, ports: &[T], size: F) -> usize
    requires callable { F.IsAlwaysCallable size }
    requires few { (start ≤ 0x1800000000) × (length ports.now ≤ max_ports) }
    requires small { (p : _) (n : _) → F.post size p n → n < 0x300000000 }
    ensures value { (f : T → ℕ) → ((p : _) (n : _) → F.post size p n → n ≡ f p) → result ≡ start + sum_by f ports.now }
    ensures bound { (most : ℕ) → ((p : _) (n : _) → F.post size p n → n ≤ most) → result ≤ start + length ports.now * most }
{
    let mut at = start;
    for port in ports {
        at += size(*port);
    }
    at
}

// Where the nets of write port i start.
fn write_start(m: &Memory, i: usize) -> usize
    requires { i ≤ max_ports }
    ensures { (result ≡ write_start m.now i) × (result ≤ 0x1800000000) }
{
    end_of(0, &m.write_ports[..i], write_size)
}

// Where the nets of the read ports start.
pub fn reads_start(m: &Memory) -> usize
    ensures { (result ≡ reads_start m.now) × (result ≤ 0x1800000000) }
{
    let count = ports_used(m.write_count);
    write_start(m, count)
}

// Where the nets of read port i start.
fn read_start(m: &Memory, i: usize) -> usize
    requires { i ≤ max_ports }
    ensures { (result ≡ read_start m.now i) × (result ≤ 0x2000000000) }
{
    end_of(reads_start(m), &m.read_ports[..i], addr_size)
}

// Where the trits of read port i start; those past the last port there is place for start where that ends.
pub fn trit_start(m: &Memory, i: usize) -> usize
    ensures { (result ≡ trit_start m.now (min i max_ports)) × (result ≤ 0x1900000000) }
{
    end_of(
        m.init_len as usize,
        &m.read_ports[..i.min(rules::MAX_PORTS)],
        trit_size,
    )
}

// How many nets the struct says in all, and how many trits.
pub fn nets_total(m: &Memory) -> usize
    ensures { (result ≡ nets_total m.now) × (result ≤ 0x2000000000) }
{
    let count = ports_used(m.read_count);
    read_start(m, count)
}

pub fn trits_total(m: &Memory) -> usize
    ensures { (result ≡ trits_total m.now) × (result ≤ 0x1900000000) }
{
    let count = ports_used(m.read_count);
    trit_start(m, count)
}

impl<'a> Given<'a> {
    // Write port i; one without nets where there is none.
    pub fn write_port(&self, i: usize) -> WritePort<'a>
        ensures port { write_of result ≡ write_at (mem_of self.now) i }
        ensures nets { result.nets.now ≡ write_nets self.now.memory self.now.nets.now i }
        ensures own { i < min max_ports self.now.memory.write_count → result.port ≡ write_port self.now.memory i }
    {
        if ports_used(self.memory.write_count) <= i {
            return WritePort {
                port: MemoryWritePort::default(),
                nets: &self.nets[..0],
            };
        }
        let port = self.memory.write_ports[i];
        WritePort {
            port,
            nets: lists::part(self.nets, write_start(&self.memory, i), write_size(port)),
        }
    }

    // Read port i, with its trits also where it has no flip-flop; one without both where there is none.
    pub fn read_port(&self, i: usize) -> ReadPort<'a>
        ensures port { read_of result ≡ read_at_of (mem_of self.now) i }
        ensures nets { (result.nets.now ≡ read_nets self.now.memory self.now.nets.now i) × (length result.nets.now < 0x100000000) }
        ensures trits { (result.trits.now ≡ read_trits self.now.memory self.now.trits.now i) × (length result.trits.now < 0x300000000) }
        ensures own { i < min max_ports self.now.memory.read_count → result.port ≡ read_port self.now.memory i }
    {
        if ports_used(self.memory.read_count) <= i {
            return ReadPort {
                port: MemoryReadPort::default(),
                nets: &self.nets[..0],
                trits: &self.trits[..0],
            };
        }
        let port = self.memory.read_ports[i];
        ReadPort {
            port,
            nets: lists::part(self.nets, read_start(&self.memory, i), addr_size(port)),
            trits: lists::part(self.trits, trit_start(&self.memory, i), trit_size(port)),
        }
    }
}

// How many data bits read port i has; none where there is no such port.
pub fn read_data_len(m: &Memory, i: usize) -> usize
    ensures by_index { (nets trits : List ℕ) → result ≡ (read_at_of (memory_of m.now nets trits) i).data_len }
    ensures upper_bound { result < 0x100000000 }
{
    if ports_used(m.read_count) <= i {
        return 0;
    }
    data_size(m.read_ports[i])
}

// Where the outputs of read port i start; their end where there is no such port.
pub fn output_start(m: &Memory, i: usize) -> usize
    ensures by_index { (nets trits : List ℕ) → result ≡ output_start (memory_of m.now nets trits) i }
    ensures upper_bound { result ≤ 0x800000000 }
{
    let end = i.min(ports_used(m.read_count));
    end_of(0, &m.read_ports[..end], data_size)
}
