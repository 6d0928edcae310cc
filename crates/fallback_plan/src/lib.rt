// The plan of a fallback: the entries of a row in order, soft bits up to the largest wide log, no address bits, and a row as the unit, so that each
// row is a memory.
#![tactic(auto)]

ghost use Rattle.std.specs.Prelude.{◌≡◌, List, map, ℕ, ◌<◌, ◌≤◌, min, replicate, length, get_or};
ghost use Rattle.lists.specs.Lists.{up_from};
ghost use Rattle.rules.specs.Limits.{max_ports, max_row};
ghost use Rattle.rules.specs.Numbers.{largest};
ghost use Rattle.rules.specs.Cell.{read_wide_log2};
ghost use Rattle.rules.specs.Fallback.{fallback_plan};
ghost use Rattle.net_memory.specs.View.{memory_of};
ghost use Rattle.net_memory.specs.Given.{mem_of};
ghost use Rattle.swizzle_plan.specs.Calls.{plan_of, view_plan};
ghost use Rattle.swizzle_plan.specs.Numbers.{write_logs};
ghost use Rattle.fallback_plan.specs.Lists.{lists_for};

use net_memory::{Given, Memory};
use swizzle_plan::{MemorySwizzle, Plan};

// The lists of a fallback's plan: the bits of a row in order, and 0 for each new wide log.
#[derive(Clone, Copy)]
pub struct Lists {
    entries: [u32; rules::MAX_ROW],
    zeros: [u32; rules::MAX_PORTS],
}

// The largest of so many wide logs; 0 where there are none.
fn largest_by<F: Fn(u32) -> u32>(count: u32, log: F) -> u32
    requires { F.IsAlwaysCallable log }
    ensures { (logs : List ℕ) → length logs ≡ count → ((port found : ℕ) → port < count → F.post log port found → found ≡ get_or logs port 0) → result ≡ largest logs }
{
    let mut most: u32 = 0;
    for port in 0..count {
        most = most.max(log(port));
    }
    most
}

// The largest wide log of the write ports.
fn largest_write(given: Given<'_>) -> u32
    ensures { (trits : List ℕ) → result ≡ largest (write_logs (memory_of given.entry.memory given.entry.nets.now trits)) }
{
    let count = net_memory::ports_used(given.memory.write_count) as u32;
    largest_by(count, |port| swizzle_plan::logs::write_log(&given, port))
}

// The largest wide log of the read ports.
fn largest_read(m: Memory) -> u32
    ensures { (nets trits : List ℕ) → result ≡ largest (map (read_wide_log2 (memory_of m nets trits)) (memory_of m nets trits).reads) }
{
    let count = net_memory::ports_used(m.read_count) as u32;
    largest_by(count, |port| swizzle_plan::logs::read_log(&m, port))
}

// The plan; its entries are the bits in order, and every new wide log is 0.
pub fn fallback_swizzle(given: Given<'_>) -> MemorySwizzle
    ensures { (trits : List ℕ) → plan_of result (up_from 0 given.entry.memory.width) (replicate (min max_ports given.entry.memory.write_count) 0) (replicate (min max_ports given.entry.memory.read_count) 0) ≡ fallback_plan (memory_of given.entry.memory given.entry.nets.now trits) }
{
    let widest = largest_write(given).max(largest_read(given.memory));
    let rows = lists::two_to(widest);
    MemorySwizzle {
        soft_addr_bits_mask: (rows - 1) as u32,
        hard_addr_bits: 0,
        data_width_unit: given.memory.width,
    }
}

impl Lists {
    // For a row of so many bits.
    pub fn of(width: u32) -> Lists
        ensures { result ≡ lists_for width }
    {
        let mut entries = [0u32; rules::MAX_ROW];
        lists::store_run(&mut entries, 0, 0, width);
        Lists {
            entries,
            zeros: [0u32; rules::MAX_PORTS],
        }
    }

    // The plan of a memory of this width.
    pub fn plan(&self, given: Given<'_>) -> Plan<'_>
        ensures { self.now ≡ lists_for given.entry.memory.width → given.entry.memory.width ≤ max_row → view_plan result ≡ fallback_plan (mem_of given.entry) }
    {
        let m = given.memory;
        Plan {
            swizzle: fallback_swizzle(given),
            entries: lists::part(&self.entries, 0, m.width as usize),
            writes: lists::part(&self.zeros, 0, net_memory::ports_used(m.write_count)),
            reads: lists::part(&self.zeros, 0, net_memory::ports_used(m.read_count)),
        }
    }
}
