// memory/src/lib.rs, make_data_swizzle: the entries of a row, padded so that bits whose write masks differ lie in different granules.
#![tactic(auto)]

ghost use Rattle.std.specs.Prelude.{◌≡◌, ◌||◌, List, [], ◌∷◌, ◌++◌, ℕ, ◌+◌, ◌-◌, ◌%◌, ◌<◌, ◌≤◌, length, get_or, set, replicate, eqb, ltb};
ghost use Rattle.std.proofs.lemmas.List.Edits.{sets};
ghost use Rattle.lists.specs.Choice.{when◌then◌else◌};
ghost use Rattle.std.specs.List.{position, range_with_len};
ghost use Rattle.lists.specs.Lists.{all};
ghost use Rattle.rules.specs.Cell.{Mem};
ghost use Rattle.rules.specs.Limits.{X, None, max_granularity};
ghost use Rattle.rules.specs.Geometry.{changing, aligned, padded, make_data_swizzle};
ghost use Rattle.rules.specs.Conditions.{bad_granularities};
ghost use Rattle.net_memory.specs.Ports.{write_of};
ghost use Rattle.rules.specs.Refusal.{number_of};
ghost use Rattle.rules.specs.Refusals.{make_data_swizzle_refusal};
ghost use Rattle.rules.specs.Answers.{make_data_swizzle_call};
ghost use Rattle.net_memory.specs.Given.{view_given, mem_of};
ghost use Rattle.swizzle_entries.specs.Calls.{same_at, unchanged, writes_in, listed_of};

use net_memory::{Given, WritePort};
use rules::Refusal;
use writes::Writes;

mod writes;

// The net at a place, X past the end.
fn net_at(s: &[u32], i: usize) -> u32
    ensures { result ≡ get_or s.now i X }
{
    s.get(i).copied().unwrap_or(rules::NET_X)
}

// A bit has the same mask net as the bit before it, in subport j.
#[tactic(auto, using(crate::proofs::Slices::place_fits))]
fn subport_same(mask: &[u32], width: u32, bit: u32, j: u32) -> bool
    ensures { result ≡ same_at mask.now width bit j }
{
    let at = j as usize * width as usize;
    net_at(mask, at + bit as usize) == net_at(mask, at + bit.saturating_sub(1) as usize)
}

// In each of `count` subports.
fn masks_same(mask: &[u32], width: u32, bit: u32, count: u32) -> bool
    ensures { result ≡ all (same_at mask.now width bit) (range_with_len 0 count) }
{
    (0..count).all(|j| subport_same(mask, width, bit, j))
}

// Whether a number of entries is a multiple of each granularity.
#[tactic(auto, unfolding(rules::specs::Geometry::aligned))]
fn is_aligned(gs: &[u32], n: usize) -> bool
    ensures { result ≡ aligned gs.now n }
{
    gs.iter().all(|g| n.is_multiple_of(*g as usize))
}

// The first number of None that brings n entries to a multiple of each granularity.
fn first_padding(gs: &[u32], n: usize) -> Option<usize>
    requires { n ≤ 0x1000000000000 }
    ensures { result ≡ position (λ k. aligned gs.now (n + k)) (range_with_len 0 257) }
{
    (0..rules::MAX_ROW + 1).position(|count| is_aligned(gs, n + count))
}

// How many None bring n entries to a multiple of each granularity; one past the row's limit is enough to refuse.
// That n can be counted is a fact of its own here and where it is handed on: a struct for it would hold one number.
#[tactic(auto, using(crate::proofs::Padding::first_padded, crate::proofs::Padding::padded_most))]
fn padding_of(gs: &[u32], n: usize) -> usize
    requires { n ≤ 0x1000000000000 }
    ensures { (result ≡ padded gs.now n) × (result ≤ 257) }
{
    first_padding(gs, n).unwrap_or(rules::MAX_ROW + 1)
}

// A write port has the same mask nets at a bit as at the one before.
fn port_same(port: WritePort<'_>, width: u32, bit: u32) -> bool
    requires { 0 < width }
    ensures { (m : Mem) → m.width ≡ width → result ≡ unchanged m bit (write_of port.entry) }
{
    let count = port.bits().len() / width as usize;
    masks_same(port.mask(), width, bit, count as u32)
}

// Stores a granularity unless its port's mask is the same, and says how many there are then.
fn keep(out: &mut [u32], found: usize, same: bool, g: u32) -> usize
    requires { found ≤ 8 }
    ensures value { (result ≡ (when same then found else found + 1)) × (result ≤ found + 1) }
    ensures out_after { out.new ≡ (when same then out.old else set out.old found g) }
{
    if same {
        return found;
    }
    lists::put(out, found, g);
    found + 1
}

impl Writes<'_> {
    // Stores the granularities of the ports whose mask changes between a bit and the one before, and says how many they are.
    fn changing(self, out: &mut [u32], bit: u32) -> usize
        ensures value { (m : Mem) → m.width ≡ self.entry.width → result ≡ length (changing m bit (writes_in self.entry) self.entry.granularities.now) }
        ensures out_after { (m : Mem) → m.width ≡ self.entry.width → out.new ≡ sets out.old 0 (changing m bit (writes_in self.entry) self.entry.granularities.now) }
    {
        let mut found = 0;
        let mut at = 0;
        for (port, granularity) in self.ports.iter().zip(self.granularities) {
            let size = net_memory::write_size(*port);
            let nets = lists::part(self.nets, at, size);
            let write = WritePort { port: *port, nets };
            let same = port_same(write, self.width, bit);
            found = keep(out, found, same, *granularity);
            at += size;
        }
        found
    }

    // How many None come before a bit when n entries are there.
    fn bit_padding(self, bit: u32, n: usize) -> usize
        requires { n ≤ 0x1000000000000 }
        ensures value { (m : Mem) → m.width ≡ self.entry.width → result ≡ padded (changing m bit (writes_in self.entry) self.entry.granularities.now) n }
        ensures upper_bound { result ≤ 257 }
    {
        let mut kept = [0u32; rules::MAX_PORTS];
        let count = self.changing(&mut kept, bit);
        padding_of(lists::part(&kept, 0, count), n)
    }
}

// Stores the entries, and says how many they are.
fn put_entries(out: &mut [u32], given: &Given<'_>, gs: &[u32]) -> usize
    ensures value { result ≡ length (make_data_swizzle (mem_of given.now) gs.now) }
    ensures out_after { out.new ≡ sets out.old 0 (make_data_swizzle (mem_of given.now) gs.now) }
{
    let m = &given.memory;
    let ports = &m.write_ports[..net_memory::ports_used(m.write_count)];
    let mut n = 0;
    for bit in 0..m.width {
        let writes = Writes {
            width: m.width,
            ports,
            nets: given.nets,
            granularities: gs,
        };
        let count = writes.bit_padding(bit, n);
        lists::fill(out, n, count, rules::NO_BIT);
        lists::put(out, n + count, bit);
        n += count + 1;
    }
    let last = padding_of(gs, n);
    lists::fill(out, n, last, rules::NO_BIT);
    n + last
}

// A granularity is out of its limits.
fn granularity_bad(g: u32) -> bool
    ensures { result ≡ (eqb g 0 || ltb max_granularity g) }
{
    g == 0 || rules::MAX_GRANULARITY < g
}

// Number 5.
fn granularities_bad(given: Given<'_>, gs: &[u32]) -> bool
    ensures { result ≡ bad_granularities (mem_of given.entry) gs.now }
{
    gs.len() != net_memory::ports_used(given.memory.write_count)
        || gs.iter().any(|g| granularity_bad(*g))
}

// By what the call is refused with a room of this length.
#[tactic(auto, using(crate::proofs::Entries::memory_err))]
fn entries_refusal(given: Given<'_>, gs: &[u32], room: usize) -> Result<(), Refusal>
    ensures { number_of result ≡ make_data_swizzle_refusal room (view_given given.entry) gs.now }
{
    net_check::memory_refusal(given)?;
    if granularities_bad(given, gs) {
        return Err(Refusal::BadGranularity);
    }
    let count = put_entries(&mut [], &given, gs);
    if rules::MAX_ROW < count {
        return Err(Refusal::RowTooLong);
    }
    if room < count {
        return Err(Refusal::NoRoom);
    }
    Ok(())
}

// The entries of a row, padded with None so that masks with these granularities can be applied, one granularity to a write port; and how many they are.
#[tactic(auto, using(crate::proofs::Answered::entries_err))]
pub fn make_data_swizzle(
    out: &mut [u32],
    given: Given<'_>,
    granularities: &[u32],
) -> Result<usize, Refusal>
    ensures { listed_of result out.new ≡ make_data_swizzle_call out.old (view_given given.entry) granularities.now }
{
    entries_refusal(given, granularities, out.len())?;
    Ok(put_entries(out, &given, granularities))
}
