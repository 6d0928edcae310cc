// How many words and nets the rows of a fallback give, by the masks of its memory: known before anything is stored.
#![tactic(auto)]

ghost use Rattle.std.specs.Prelude.{◌≡◌, List, ℕ, ◌+◌, ◌*◌, ◌^◌, ◌<◌, ◌≤◌};
ghost use Rattle.lists.specs.Lists.{sum_by};
ghost use Rattle.rules.specs.Limits.{max_depth};
ghost use Rattle.rules.specs.Fallback.{max_wide_log2};
ghost use Rattle.net_memory.specs.View.{memory_of, writes_of};
ghost use Rattle.net_memory.specs.Ports.{write_of};
ghost use Rattle.fallback_masks.specs.Sizes.{max_mask_nets, mask_runs, size_words, size_nets};
ghost use Rattle.fallback_masks.specs.Steps.{starts_run, left_after_of, pieces_by, spread_runs, runs_by_of, port_most, words_by, nets_by, Inside};

use net_memory::{Given, WritePort};

// The words and nets of all rows.
#[derive(Clone, Copy)]
pub struct RowsSize {
    pub words: usize,
    pub nets: usize,
}

// The nets of the widest port's mask.
const MAX_MASK_NETS: usize = 2048;

// 1 where a run starts with this net.
#[tactic(auto, unfolding(crate::specs::Steps::starts_run, rules::specs::Log::flag))]
fn starts_run(left: u32, last: u32, net: u32) -> usize
    ensures { (result ≡ starts_run left last net) × (result ≤ 1) }
{
    usize::from(left == 0 || last != net)
}

// The nets of a row that are still to come after one.
fn left_after(width: u32, left: u32) -> u32
    ensures { result ≡ left_after_of width left }
{
    if left == 0 {
        return width.saturating_sub(1);
    }
    left - 1
}

// The runs of a mask whose rows have so many nets. (By `chunks` it would be a loop over the rows and one over the neighbours in a row, with a case for
// rows of no nets: no plainer than one pass.)
fn mask_runs(width: u32, mask: &[u32]) -> usize
    ensures { (result ≡ mask_runs width mask.now) × (result ≤ max_mask_nets) }
{
    if MAX_MASK_NETS < mask.len() {
        return 0;
    }
    let mut left: u32 = 0;
    let mut last: u32 = 0;
    let mut runs: usize = 0;
    for net in mask {
        runs += starts_run(left, last, *net);
        left = left_after(width, left);
        last = *net;
    }
    runs
}

// A memory's rows: how many, of how many bits each, and how many of them the widest write port reaches.
#[derive(Clone, Copy)]
struct Reach {
    depth: usize,
    width: u32,
    rows: usize,
    ghost shallow: { depth ≤ max_depth },
    ghost some_rows: { 0 < rows },
}

impl Reach {
    // The pieces of a port.
    fn pieces(self, addr: usize, wide: usize) -> usize
        requires { 0 < wide }
        ensures { ((k : ℕ) → wide ≡ 2 ^ k → result ≡ pieces_by self.depth self.rows addr k) × (result ≤ self.depth) }
    {
        let bits = addr.min(32) as u32;
        let most = (lists::two_to(bits) as usize).min(self.rows / wide);
        self.depth / self.rows * most
    }

    // The runs of all rows, of a mask with so many.
    fn spread_runs(self, pieces: usize, wide: usize, runs: usize) -> usize
        requires { (pieces ≤ self.depth) × (wide ≤ 4294967296) × (runs ≤ max_mask_nets) }
        ensures { ((k : ℕ) → wide ≡ 2 ^ k → result ≡ spread_runs self.depth pieces k runs) × (result ≤ port_most) }
    {
        let rows = pieces * wide;
        if self.depth < rows {
            return pieces * runs;
        }
        pieces * runs + (self.depth - rows)
    }

    // The runs of one write port.
    fn port_runs(self, p: WritePort<'_>) -> usize
        ensures { (result ≡ runs_by_of self.depth self.width self.rows (write_of p.entry)) × (result ≤ port_most) }
    {
        let k = net_memory::wide::wide_log(self.width, p.bits().len());
        let wide = lists::two_to(k) as usize;
        let runs = mask_runs(self.width, p.mask());
        self.spread_runs(self.pieces(p.addr().len(), wide), wide, runs)
    }

    // The runs of all write ports.
    fn ports_runs(self, given: Given<'_>) -> usize
        ensures { (result ≡ sum_by (runs_by_of self.depth self.width self.rows) (writes_of given.entry.memory given.entry.nets.now)) × (result ≤ 8 * port_most) }
    {
        let mut runs: usize = 0;
        for i in 0..net_memory::ports_used(given.memory.write_count) {
            runs += self.port_runs(given.write_port(i));
        }
        runs
    }
}

// So many ports with so many words or nets in a row.
fn in_row(ports: usize, each: usize) -> usize
    requires { (ports ≤ 10) × (each ≤ 260) }
    ensures { (result ≡ ports * each) × (result ≤ 2600) }
{
    ports * each
}

// So many rows with so many words or nets.
fn in_rows(depth: usize, each: usize) -> usize
    requires { (depth ≤ max_depth) × (each ≤ 4096) }
    ensures { (result ≡ depth * each) × (result ≤ 134217728) }
{
    depth * each
}

// The words of all rows.
fn words_by(depth: usize, width: usize, reads: usize, writes: usize, runs: usize) -> usize
    requires { Inside depth width reads writes runs }
    ensures { (result ≡ words_by depth width reads writes runs) × (result < 4294967296) }
{
    let driven = in_rows(depth, in_row(reads, 4 + 2 * width));
    if writes == 0 {
        return driven;
    }
    driven + (in_rows(depth, 21 + 6 * width + in_row(writes, 2 * width)) + 5 * runs)
}

// The nets of all rows.
fn nets_by(depth: usize, width: usize, writes: usize) -> usize
    requires { Inside depth width 0 writes 0 }
    ensures { (result ≡ nets_by depth width writes) × (result < 4294967296) }
{
    if writes == 0 {
        return 0;
    }
    in_rows(depth, in_row(2 + writes, width))
}

// The rows that the widest port reaches.
fn widest_rows(given: Given<'_>) -> usize
    ensures { ((trits : List ℕ) → result ≡ 2 ^ max_wide_log2 (memory_of given.entry.memory given.entry.nets.now trits)) × (0 < result) }
{
    let s = fallback_plan::fallback_swizzle(given);
    s.soft_addr_bits_mask as usize + 1
}

// The words and nets of all rows of a fallback; none where a size is past the limits.
pub fn rows_size(given: Given<'_>) -> RowsSize
    ensures size { (trits : List ℕ) → (result.words ≡ size_words (memory_of given.entry.memory given.entry.nets.now trits)) × (result.nets ≡ size_nets (memory_of given.entry.memory given.entry.nets.now trits)) }
    ensures words_bound { (result.words < 4294967296) × (result.nets < 4294967296) }
{
    let m = given.memory;
    if rules::MAX_DEPTH < m.depth || rules::MAX_WIDTH < m.width || m.width == 0 {
        return RowsSize { words: 0, nets: 0 };
    }
    let depth = m.depth as usize;
    let width = m.width as usize;
    let reads = net_memory::ports_used(m.read_count);
    let writes = net_memory::ports_used(m.write_count);
    let reach = Reach {
        depth,
        width: m.width,
        rows: widest_rows(given),
    };
    let runs = reach.ports_runs(given);
    RowsSize {
        words: words_by(depth, width, reads, writes, runs),
        nets: nets_by(depth, width, writes),
    }
}
