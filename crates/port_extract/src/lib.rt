// memory/src/lib.rs, extract_read_ports: a memory with some of the read ports of another, in the order of a list.
#![tactic(auto)]

ghost use Rattle.std.specs.Prelude.{◌≡◌, List, ℕ, ◌+◌, ◌<◌, ◌≤◌, length};
ghost use Rattle.std.proofs.lemmas.List.Edits.{sets};
ghost use Rattle.lists.specs.Lists.{concat_map};
ghost use Rattle.rules.specs.Limits.{max_ports};
ghost use Rattle.rules.specs.Cell.{output_slice};
ghost use Rattle.rules.specs.Refusal.{number_of};
ghost use Rattle.rules.specs.Refusals.{no_rooms, extract_read_ports_refusal};
ghost use Rattle.rules.specs.Answers.{extract_read_ports_call};
ghost use Rattle.net_memory.specs.View.{memory_of, read_nets};
ghost use Rattle.net_memory.specs.Given.{view_given};
ghost use Rattle.port_extract.specs.Extract.{extracted_of, kept_port, kept_trits, with_ports, new_nets, new_trits, extraction_of, new_output, NewStruct, ListedPorts, Ready};

use net_memory::{Given, Memory, MemoryReadPort};
use rules::Refusal;

// Port i's part of the outputs.
#[tactic(auto, unfolding(rules::specs::Cell::output_slice))]
fn output_part<'a>(m: &Memory, output: &'a [u32], i: usize) -> &'a [u32]
    ensures by_index { (nets trits : List ℕ) → result.now ≡ output_slice (memory_of m.now nets trits) i output.now }
    ensures result_len_bound { length result.now < 0x100000000 }
{
    lists::part(
        output,
        net_memory::output_start(m, i),
        net_memory::read_data_len(m, i),
    )
}

// The trits of port i where it has a flip-flop; none otherwise.
#[tactic(auto, using(crate::proofs::View::kept_without))]
fn clocked_trits<'a>(given: &Given<'a>, i: usize) -> &'a [u8]
    ensures { (result.now ≡ kept_trits given.now.memory given.now.trits.now i) × (length result.now < 0x300000000) }
{
    let r = given.read_port(i);
    match r.port.flip_flop {
        None => &r.trits[..0],
        Some(_) => r.trits,
    }
}

// What an extraction takes: the memory, the ports of it that stay, in their order, and the outputs as they are.
#[derive(Clone, Copy)]
struct Extraction<'a> {
    given: &'a Given<'a>,
    list: &'a [u32],
    output: &'a [u32],
    ghost few: { length list.now ≤ max_ports },
}

impl<'a> Extraction<'a> {
    // Stores the listed ports' parts, as `part` gives them by a port's number, from `start` on, and says where they end.
    fn put_parts<'b, T: Copy + 'b, F: Fn(usize) -> &'b [T]>(
        self,
        room: &mut [T],
        start: usize,
        part: F,
    ) -> usize
        requires callable { F.IsAlwaysCallable part }
        requires low { start ≤ 0x1800000000 }
        requires small { (k : ℕ) (r : _) → F.post part k r → length r.now < 0x300000000 }
        ensures value { (f : ℕ → List T) → ((k : ℕ) (r : _) → F.post part k r → r.now ≡ f k) → result ≡ start + length (concat_map f self.entry.list.now) }
        ensures room_after { (f : ℕ → List T) → ((k : ℕ) (r : _) → F.post part k r → r.now ≡ f k) → room.new ≡ sets room.old start (concat_map f self.entry.list.now) }
    {
        let mut at = start;
        for k in self.list {
            let bits = part(*k as usize);
            lists::copy(room, at, bits);
            at += bits.len();
        }
        at
    }

    // Stores the outputs of the listed ports, and says where they end.
    #[tactic(auto, unfolding(rules::specs::Ports::extract_read_ports))]
    fn put_outputs(self, room: &mut [u32]) -> usize
        ensures by_index { (nets trits : List ℕ) → result ≡ length (new_output self.entry.given.now.memory nets trits self.entry.list.now self.entry.output.now) }
        ensures by_index_2 { (nets trits : List ℕ) → room.new ≡ sets room.old 0 (new_output self.entry.given.now.memory nets trits self.entry.list.now self.entry.output.now) }
    {
        self.put_parts(room, 0, |k| output_part(&self.given.memory, self.output, k))
    }

    // Stores the new nets, and says how many they are.
    #[tactic(auto, using(crate::proofs::Stored::joined, crate::proofs::Stored::joined_length))]
    fn put_nets(self, room: &mut [u32]) -> usize
        ensures value { result ≡ length (new_nets self.entry.given.now.memory self.entry.given.now.nets.now self.entry.list.now) }
        ensures room_after { room.new ≡ sets room.old 0 (new_nets self.entry.given.now.memory self.entry.given.now.nets.now self.entry.list.now) }
    {
        let given = self.given;
        let front = lists::part(given.nets, 0, net_memory::reads_start(&given.memory));
        lists::copy(room, 0, front);
        self.put_parts(room, front.len(), |k| given.read_port(k).nets)
    }

    // Stores the new trits, and says how many they are.
    #[tactic(auto, using(crate::proofs::Stored::joined, crate::proofs::Stored::joined_length))]
    fn put_trits(self, room: &mut [u8]) -> usize
        ensures value { result ≡ length (new_trits self.entry.given.now.memory self.entry.given.now.trits.now self.entry.list.now) }
        ensures room_after { room.new ≡ sets room.old 0 (new_trits self.entry.given.now.memory self.entry.given.now.trits.now self.entry.list.now) }
    {
        let given = self.given;
        let front = lists::part(given.trits, 0, given.memory.init_len as usize);
        lists::copy(room, 0, front);
        self.put_parts(room, front.len(), |k| clocked_trits(given, k))
    }

    // What is to be stored does not fit its room: a run without room stores nothing that is kept.
    fn rooms_bad(self, a: usize, b: usize, c: usize) -> bool
        requires { Ready self.given.now.memory self.given.now.nets.now self.given.now.trits.now self.list.now }
        ensures { result ≡ no_rooms (record { nets = a; trits = b; output = c }) (extraction_of self.entry.given.now.memory self.entry.given.now.nets.now self.entry.given.now.trits.now self.entry.list.now self.entry.output.now) }
    {
        let mut words = [0u32; 1];
        let mut codes = [0u8; 1];
        if a < self.put_nets(&mut words) {
            return true;
        }
        if b < self.put_trits(&mut codes) {
            return true;
        }
        c < self.put_outputs(&mut words)
    }
}

// A port as the new memory has it: without a flip-flop it keeps no trits.
fn kept_port(p: MemoryReadPort) -> MemoryReadPort
    ensures { result ≡ kept_port p }
{
    let mut q = p;
    if p.flip_flop.is_none() {
        q.clear_len = 0;
        q.reset_len = 0;
        q.init_len = 0;
    }
    q
}

// The struct with the listed ports.
#[tactic(auto, using(crate::proofs::View::ports_turn))]
fn pick_ports(m: &Memory, list: &[u32]) -> Memory
    requires { ListedPorts m.now list.now }
    ensures { result ≡ with_ports m.now list.now }
{
    let mut out = *m;
    out.read_count = list.len() as u32;
    for (j, k) in list.iter().enumerate() {
        out.read_ports[j] = kept_port(m.read_ports[*k as usize]);
    }
    out
}

// 1 to 4, 15 and 20 of an extraction with rooms of these lengths.
#[tactic(auto, using(rules::proofs::Answers::else_err), unfolding(rules::specs::Refusals::extract_read_ports_refusal, rules::specs::Conditions::long_list))]
fn extract_refusal(
    given: Given<'_>,
    list: &[u32],
    output: &[u32],
    a: usize,
    b: usize,
    c: usize,
) -> Result<(), Refusal>
    ensures { number_of result ≡ extract_read_ports_refusal (record { nets = a; trits = b; output = c }) (view_given given.entry) list.now output.now }
{
    let long = rules::MAX_PORTS < list.len();
    port_outputs::driving_refusal(given, output, rules::MAX_NETS, long)?;
    if port_outputs::port_missing(given.memory, list) {
        return Err(Refusal::OutOfRange);
    }
    let extraction = Extraction {
        given: &given,
        list,
        output,
    };
    if extraction.rooms_bad(a, b, c) {
        return Err(Refusal::NoRoom);
    }
    Ok(())
}

// The memory with the listed read ports only, its nets, trits and outputs in the rooms; a port may be named twice.
pub fn extract_read_ports(
    room_nets: &mut [u32],
    room_trits: &mut [u8],
    room_output: &mut [u32],
    given: Given<'_>,
    list: &[u32],
    output: &[u32],
) -> Result<Memory, Refusal>
    ensures room_output_after { extracted_of result room_nets.new room_trits.new room_output.new ≡ extract_read_ports_call room_nets.old room_trits.old room_output.old (view_given given.entry) list.now output.now }
    ensures new_struct { NewStruct given.entry.memory given.entry.nets.now given.entry.trits.now list.now output.now result }
{
    extract_refusal(
        given,
        list,
        output,
        room_nets.len(),
        room_trits.len(),
        room_output.len(),
    )?;
    let extraction = Extraction {
        given: &given,
        list,
        output,
    };
    extraction.put_nets(room_nets);
    extraction.put_trits(room_trits);
    extraction.put_outputs(room_output);
    Ok(pick_ports(&given.memory, list))
}
