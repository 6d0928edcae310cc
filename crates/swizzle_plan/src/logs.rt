// Number 9: the new wide logs of a plan against a memory's ports.
ghost use Rattle.std.specs.Prelude.{◌≡◌, ◌||◌, List, ℕ, map, min};
ghost use Rattle.lists.specs.Lists.{up_from};
ghost use Rattle.rules.specs.Limits.{max_ports};
ghost use Rattle.rules.specs.Conditions.{bad_wide, bad_writes, bad_reads, all_reads};
ghost use Rattle.rules.specs.Cell.{write_wide_log2, read_wide_log2, write_at, read_at_of};
ghost use Rattle.net_memory.specs.View.{memory_of};
ghost use Rattle.swizzle_plan.specs.Calls.{plan_of, view_plan};
ghost use Rattle.swizzle_plan.specs.Numbers.{wides_bad};

use crate::Plan;
use net_memory::{Given, Memory};

// The numbers of all ports.
const PORTS: [u32; rules::MAX_PORTS] = [0, 1, 2, 3, 4, 5, 6, 7];

// Those of the ports in use.
pub fn ports_in_use(count: u32) -> &'static [u32]
    ensures { result.now ≡ up_from 0 (min max_ports count) }
{
    lists::part(&PORTS, 0, net_memory::ports_used(count))
}

// A new wide log is above the hard bits, or below the non-soft bits under the old one.
#[tactic(auto, unfolding(rules::specs::Conditions::bad_wide))]
fn wide_bad(plan: Plan<'_>, old: u32, new: u32) -> bool
    ensures { result ≡ bad_wide (view_plan plan.entry) old new }
{
    let s = plan.swizzle;
    s.hard_addr_bits < new
        || new < old.saturating_sub(image_geometry::low_softs(old, s.soft_addr_bits_mask))
}

// The new wide logs of these ports, whose old ones `old` gives, are too many, too few or bad.
fn wides_bad<F: Fn(u32) -> u32>(plan: Plan<'_>, ports: &[u32], news: &[u32], old: F) -> bool
    requires { F.IsAlwaysCallable old }
    ensures { (g : ℕ → ℕ) → ((x r : ℕ) → F.post old x r → r ≡ g x) → result ≡ wides_bad (view_plan plan.entry) (map g ports.now) news.now }
{
    if news.len() != ports.len() {
        return true;
    }
    ports
        .iter()
        .zip(news)
        .any(|(port, new)| wide_bad(plan, old(*port), *new))
}

// The old wide log of write port i.
#[tactic(auto, unfolding(rules::specs::Cell::write_wide_log2, rules::specs::Cell::write_at, net_memory::specs::View::memory_of))]
pub fn write_log(given: &Given<'_>, port: u32) -> u32
    ensures { (trits : List ℕ) → result ≡ write_wide_log2 (memory_of given.now.memory given.now.nets.now trits) (write_at (memory_of given.now.memory given.now.nets.now trits) port) }
{
    let bits = given.write_port(port as usize).bits();
    net_memory::wide::wide_log(given.memory.width, bits.len())
}

// The old wide log of a listed read port.
#[tactic(auto, using(crate::proofs::WideLogs::read_log_is))]
pub fn read_log(m: &Memory, port: u32) -> u32
    ensures { (nets trits : List ℕ) → result ≡ read_wide_log2 (memory_of m.now nets trits) (read_at_of (memory_of m.now nets trits) port) }
{
    let bits = net_memory::read_data_len(m, port as usize);
    net_memory::wide::wide_log(m.width, bits)
}

// Number 9 of the write ports.
fn writes_bad(given: Given<'_>, plan: Plan<'_>) -> bool
    ensures { (trits es : List ℕ) → result ≡ bad_writes (memory_of given.entry.memory given.entry.nets.now trits) (plan_of plan.entry.swizzle es plan.entry.writes.now plan.entry.reads.now) }
{
    let ports = ports_in_use(given.memory.write_count);
    wides_bad(plan, ports, plan.writes, |i| write_log(&given, i))
}

// Number 9 of the listed read ports.
fn reads_bad(given: Given<'_>, ports: &[u32], plan: Plan<'_>) -> bool
    ensures { (trits es : List ℕ) → result ≡ bad_reads (memory_of given.entry.memory given.entry.nets.now trits) ports.now (plan_of plan.entry.swizzle es plan.entry.writes.now plan.entry.reads.now) }
{
    wides_bad(plan, ports, plan.reads, |i| read_log(&given.memory, i))
}

// Number 9 of the write ports and the listed read ports.
pub fn logs_bad(given: Given<'_>, ports: &[u32], plan: Plan<'_>) -> bool
    ensures { (trits es : List ℕ) → result ≡ (bad_writes (memory_of given.entry.memory given.entry.nets.now trits) (plan_of plan.entry.swizzle es plan.entry.writes.now plan.entry.reads.now) || bad_reads (memory_of given.entry.memory given.entry.nets.now trits) ports.now (plan_of plan.entry.swizzle es plan.entry.writes.now plan.entry.reads.now)) }
{
    writes_bad(given, plan) || reads_bad(given, ports, plan)
}

// Number 9 of the write ports and every read port.
pub fn all_logs_bad(given: Given<'_>, plan: Plan<'_>) -> bool
    ensures { (trits es : List ℕ) → result ≡ (bad_writes (memory_of given.entry.memory given.entry.nets.now trits) (plan_of plan.entry.swizzle es plan.entry.writes.now plan.entry.reads.now) || bad_reads (memory_of given.entry.memory given.entry.nets.now trits) (all_reads (memory_of given.entry.memory given.entry.nets.now trits)) (plan_of plan.entry.swizzle es plan.entry.writes.now plan.entry.reads.now)) }
{
    logs_bad(given, ports_in_use(given.memory.read_count), plan)
}
