// The test of a memory: by which of the numbers 1 to 4 it is refused.
#![tactic(auto)]

ghost use Rattle.std.specs.Prelude.{◌≡◌, false, not, ◌||◌, List, [], ℕ, ◌*◌, length, get_or, eqb};
ghost use Rattle.lists.specs.Choice.{least};
ghost use Rattle.lists.specs.Lists.{any, least_by, part};
ghost use Rattle.rules.specs.Cell.{Mem};
ghost use Rattle.net_flip_flop.specs.declared.Controls.{Controls};
ghost use Rattle.rules.specs.Conditions.{too_large, bad_trits, bad_write_shape, bad_write_nets, bad_flip_flop_shape, bad_flip_flop_nets, bad_relation, bad_read_shape, bad_read_nets, bad_shape, bad_depth, bad_nets};
ghost use Rattle.net_memory.specs.View.{clocked_by, writes_of, reads_of, read_ports_of, memory_of};
ghost use Rattle.net_memory.specs.Ports.{write_of, read_of};
ghost use Rattle.net_memory.specs.Given.{too_many_ports, long_relations, bad_lens, view_given, mem_of};
ghost use Rattle.rules.specs.Refusal.{number_of, number_if};
ghost use Rattle.rules.specs.Refusals.{mem_number, mem_refusal, number_by_of};
ghost use Rattle.net_check.specs.Number.{write_number, read_number, bounds_by};

use net_flip_flop::Controls;
use net_memory::{Given, Memory, MemoryReadPort, ReadPort, WritePort};
use rules::Refusal;

fn product(a: u32, b: u32) -> u64
    ensures { result ≡ a * b }
{
    u64::from(a) * u64::from(b)
}

// The lower of two refusals by their numbers. (`min` of Option would take none for the lowest.)
fn lower(a: Option<Refusal>, b: Option<Refusal>) -> Option<Refusal>
    ensures { number_if result ≡ least (number_if a) (number_if b) }
{
    match (a, b) {
        (Some(x), Some(y)) if y.number() < x.number() => b,
        (None, _) => b,
        _ => a,
    }
}

// The answer that a refusal makes.
fn answer(refusal: Option<Refusal>) -> Result<(), Refusal>
    ensures { number_of result ≡ number_if refusal }
{
    refusal.map_or(Ok(()), Err)
}

// 2, 3 or 4 by their tests.
fn refusal_by(shape: bool, depth: bool, nets: bool) -> Option<Refusal>
    ensures { number_if result ≡ number_by_of shape depth nets }
{
    if shape {
        return Some(Refusal::BadShape);
    }
    if depth {
        return Some(Refusal::BadDepth);
    }
    if nets {
        return Some(Refusal::BadValue);
    }
    None
}

// What the ports of a memory are tested against: its sizes, the number of its write ports, and the log's next net.
#[derive(Clone, Copy)]
struct Bounds {
    depth: u32,
    width: u32,
    writes: usize,
    next: u32,
}

impl Bounds {
    fn of(m: &Memory, next: u32) -> Bounds
        ensures { result ≡ bounds_by m.now next }
    {
        Bounds {
            depth: m.depth,
            width: m.width,
            writes: net_memory::ports_used(m.write_count),
            next,
        }
    }
}

// The shape of a write port is bad.
#[tactic(auto, unfolding(rules::specs::Conditions::bad_write_shape, rules::specs::Cell::write_wide_log2, rules::specs::Conditions::unequal, rules::specs::Conditions::bad_addr_len))]
fn write_shape_bad(width: u32, w: WritePort<'_>) -> bool
    ensures { (m : Mem) → m.width ≡ width → result ≡ bad_write_shape m (write_of w.entry) }
{
    let bits = w.bits();
    let k = net_memory::wide::wide_log(width, bits.len());
    net_memory::wide::data_len_bad(width, bits.len())
        || w.mask().len() != bits.len()
        || (rules::ADDR_BITS as usize) < w.addr().len() + (k as usize)
}

// A net or the clock of a write port is bad.
#[tactic(auto, unfolding(rules::specs::Conditions::bad_write_nets, rules::specs::Conditions::bad_value, rules::specs::Conditions::bad_control))]
fn write_nets_bad(next: u32, w: WritePort<'_>) -> bool
    ensures { result ≡ bad_write_nets next (write_of w.entry) }
{
    !net_value::value_good(next, w.addr())
        || !net_value::value_good(next, w.bits())
        || !net_value::value_good(next, w.mask())
        || !net_value::control_good(next, w.port.clock)
}

// By what a write port is refused.
#[tactic(auto, unfolding(crate::specs::Number::write_number, rules::specs::Cell::write_wide_log2))]
fn write_refusal(bounds: Bounds, w: WritePort<'_>) -> Option<Refusal>
    ensures { (m : Mem) → m.depth ≡ bounds.depth → m.width ≡ bounds.width → number_if result ≡ write_number bounds.next m (write_of w.entry) }
{
    let k = net_memory::wide::wide_log(bounds.width, w.bits().len());
    let shape = write_shape_bad(bounds.width, w);
    let rows = net_memory::wide::is_indivisible(bounds.depth, k);
    refusal_by(shape, rows, write_nets_bad(bounds.next, w))
}

// By what a write port is refused, the lowest of all.
fn writes_refusal(m: Memory, nets: &[u32], next: u32) -> Option<Refusal>
    ensures { (trits : List ℕ) → number_if result ≡ least_by (write_number next (memory_of m nets.now trits)) (writes_of m nets.now) }
{
    let bounds = Bounds::of(&m, next);
    let mut refusal = None;
    let mut at = 0;
    for port in &m.write_ports[..bounds.writes] {
        let size = net_memory::write_size(*port);
        let w = WritePort {
            port: *port,
            nets: lists::part(nets, at, size),
        };
        refusal = lower(refusal, write_refusal(bounds, w));
        at += size;
    }
    refusal
}

// A length of a clocked port's flip-flop is bad.
#[tactic(auto, unfolding(rules::specs::Conditions::bad_flip_flop_shape, rules::specs::Conditions::bad_trit_lens))]
fn flip_flop_shape_bad(writes: usize, r: ReadPort<'_>) -> bool
    ensures { (m : Mem) (f : Controls) → length m.writes ≡ writes → result ≡ bad_flip_flop_shape m r.entry.port.data_len (clocked_by f r.entry.port r.entry.trits.now) }
{
    let len = r.port.data_len as usize;
    r.clear().len() != len
        || r.reset().len() != len
        || r.init().len() != len
        || r.relations().len() != writes
}

// A control, a trit or a relation of a clocked port's flip-flop is bad.
#[tactic(auto, unfolding(rules::specs::Conditions::bad_flip_flop_nets, rules::specs::Conditions::bad_trits), using(crate::proofs::Tests::relations_trits))]
fn flip_flop_nets_bad(next: u32, f: Controls, r: ReadPort<'_>) -> bool
    ensures { result ≡ bad_flip_flop_nets next (clocked_by f r.entry.port r.entry.trits.now) }
{
    f.is_bad(next)
        || !net_logic::trits_good(r.clear())
        || !net_logic::trits_good(r.reset())
        || !net_logic::trits_good(r.init())
        || !net_logic::trits_good(r.relations())
}

// The shape of a read port is bad, `writes` being the number of write ports.
#[tactic(auto, unfolding(rules::specs::Conditions::bad_read_shape, rules::specs::Conditions::bad_addr_len, rules::specs::Cell::read_wide_log2, rules::specs::Cell::held))]
fn read_shape_bad(width: u32, writes: usize, r: ReadPort<'_>) -> bool
    ensures { (m : Mem) → m.width ≡ width → length m.writes ≡ writes → result ≡ bad_read_shape m (read_of r.entry) }
{
    let len = r.port.data_len as usize;
    let k = net_memory::wide::wide_log(width, len);
    net_memory::wide::data_len_bad(width, len)
        || (rules::ADDR_BITS as usize) < r.addr().len() + (k as usize)
        || r.port.flip_flop.is_some() && flip_flop_shape_bad(writes, r)
}

// A net, a control, a trit or a relation of a read port is bad. (Of `is_some_and` over a closure that calls a test the proof did not close.)
#[tactic(auto, unfolding(rules::specs::Conditions::bad_read_nets, rules::specs::Conditions::bad_value, rules::specs::Cell::held))]
fn read_nets_bad(next: u32, r: ReadPort<'_>) -> bool
    ensures { result ≡ bad_read_nets next (read_of r.entry) }
{
    if !net_value::value_good(next, r.addr()) {
        return true;
    }
    match r.port.flip_flop {
        None => false,
        Some(c) => flip_flop_nets_bad(next, c, r),
    }
}

// By what a read port is refused.
#[tactic(auto, unfolding(crate::specs::Number::read_number, rules::specs::Cell::read_wide_log2))]
fn read_refusal(bounds: Bounds, r: ReadPort<'_>) -> Option<Refusal>
    ensures { (m : Mem) → m.depth ≡ bounds.depth → m.width ≡ bounds.width → length m.writes ≡ bounds.writes → number_if result ≡ read_number bounds.next m (read_of r.entry) }
{
    let k = net_memory::wide::wide_log(bounds.width, r.port.data_len as usize);
    let shape = read_shape_bad(bounds.width, bounds.writes, r);
    let rows = net_memory::wide::is_indivisible(bounds.depth, k);
    refusal_by(shape, rows, read_nets_bad(bounds.next, r))
}

// By what a read port is refused, the lowest of all.
fn reads_refusal(given: Given<'_>, next: u32) -> Option<Refusal>
    ensures { number_if result ≡ least_by (read_number next (mem_of given.entry)) (reads_of given.entry.memory given.entry.nets.now given.entry.trits.now) }
{
    let m = given.memory;
    let bounds = Bounds::of(&m, next);
    let count = net_memory::ports_used(m.read_count);
    let mut at = net_memory::reads_start(&m);
    let mut from = net_memory::init_size(m);
    let mut refusal = None;
    for port in &m.read_ports[..count] {
        let r = ReadPort {
            port: *port,
            nets: lists::part(given.nets, at, net_memory::addr_size(*port)),
            trits: lists::part(given.trits, from, net_memory::trit_size(*port)),
        };
        refusal = lower(refusal, read_refusal(bounds, r));
        at += net_memory::addr_size(*port);
        from += net_memory::trit_size(*port);
    }
    refusal
}

// By what the initial trits are refused.
#[tactic(auto, unfolding(rules::specs::Conditions::bad_trits))]
fn init_refusal(m: Memory, trits: &[u8]) -> Option<Refusal>
    ensures { number_if result ≡ number_by_of (not (eqb (length (part 0 m.init_len trits.now)) (m.depth * m.width))) false (bad_trits (part 0 m.init_len trits.now)) }
{
    let init = lists::part(trits, 0, m.init_len as usize);
    let rows = init.len() as u64 != product(m.depth, m.width);
    refusal_by(rows, false, !net_logic::trits_good(init))
}

// A size is too large, or there are too many ports. (Test by test: of one chain the proof did not close.)
#[tactic(auto, unfolding(rules::specs::Conditions::too_large, net_memory::specs::View::memory_of, net_memory::specs::Given::too_many_ports))]
fn too_large(m: Memory) -> bool
    ensures { (nets trits : List ℕ) → result ≡ (too_large (memory_of m nets trits) || too_many_ports m) }
{
    if rules::MAX_DEPTH < m.depth {
        return true;
    }
    if rules::MAX_WIDTH < m.width {
        return true;
    }
    if rules::MAX_BITS < product(m.depth, m.width) {
        return true;
    }
    if rules::MAX_PORTS < m.write_count as usize {
        return true;
    }
    rules::MAX_PORTS < m.read_count as usize
}

// A clocked port says more relations than there is place for.
#[tactic(auto, unfolding(net_memory::specs::Given::long_relations))]
fn long_relations(p: MemoryReadPort) -> bool
    ensures { result ≡ long_relations p }
{
    p.flip_flop.is_some() && rules::MAX_PORTS < p.relations_len as usize
}

fn any_long_relations(m: Memory) -> bool
    ensures { result ≡ any long_relations (read_ports_of m) }
{
    let count = net_memory::ports_used(m.read_count);
    m.read_ports[..count]
        .iter()
        .any(|port| long_relations(*port))
}

// The arrays are not as long as the struct says.
#[tactic(auto, unfolding(net_memory::specs::Given::bad_lens))]
fn lens_bad(given: Given<'_>) -> bool
    ensures { result ≡ bad_lens given.entry.memory (length given.entry.nets.now) (length given.entry.trits.now) }
{
    given.nets.len() != net_memory::nets_total(&given.memory)
        || given.trits.len() != net_memory::trits_total(&given.memory)
        || any_long_relations(given.memory)
}

// By which of 2 to 4 what a memory holds is refused, the lowest of all.
fn parts_refusal(given: Given<'_>, next: u32) -> Option<Refusal>
    ensures { number_if result ≡ number_by_of (bad_shape (mem_of given.entry)) (bad_depth (mem_of given.entry)) (bad_nets next (mem_of given.entry)) }
{
    let a = init_refusal(given.memory, given.trits);
    let b = writes_refusal(given.memory, given.nets, next);
    lower(a, lower(b, reads_refusal(given, next)))
}

// What of a call beside its memory breaks 1, 2 and 4.
#[derive(Clone, Copy)]
pub struct Breaks {
    pub large: bool,
    pub shape: bool,
    pub value: bool,
}

impl Breaks {
    pub const NOTHING: Breaks = Breaks {
        large: false,
        shape: false,
        value: false,
    };
}

// 1 to 4 of a call over a memory.
#[tactic(auto, using(crate::proofs::Sizes::by_one, crate::proofs::Sizes::by_large, crate::proofs::Sizes::by_two, crate::proofs::Sizes::by_lens, crate::proofs::Sizes::by_four, crate::proofs::Sizes::by_parts))]
pub fn call_refusal(given: Given<'_>, next: u32, beside: Breaks) -> Result<(), Refusal>
    ensures { number_of result ≡ mem_number beside.large beside.shape beside.value next (view_given given.entry) }
{
    if beside.large {
        return Err(Refusal::TooLarge);
    }
    if too_large(given.memory) {
        return Err(Refusal::TooLarge);
    }
    if beside.shape {
        return Err(Refusal::BadShape);
    }
    if lens_bad(given) {
        return Err(Refusal::BadShape);
    }
    let refusal = parts_refusal(given, next);
    if beside.value {
        return answer(lower(refusal, Some(Refusal::BadValue)));
    }
    answer(refusal)
}

// 1 to 4 of a memory by itself, without the log state.
#[tactic(auto, unfolding(rules::specs::Refusals::mem_refusal))]
pub fn memory_refusal(given: Given<'_>) -> Result<(), Refusal>
    ensures { number_of result ≡ mem_refusal (view_given given.entry) }
{
    call_refusal(given, rules::MAX_NETS, Breaks::NOTHING)
}
