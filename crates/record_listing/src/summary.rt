// What stands in a memory of an image: its depth, its known trits and its ones.
ghost use Rattle.std.specs.Prelude.{◌≡◌, false, ◌<◌};
ghost use Rattle.lists.specs.Lists.{sum_by};
ghost use Rattle.rules.specs.Record.{size_mems, known_bit, value_bit};
ghost use Rattle.rules.specs.Conditions.{bad_sizes};
ghost use Rattle.rules.specs.Refusal.{number_of};
ghost use Rattle.rules.specs.Refusals.{summary_refusal};
ghost use Rattle.rules.specs.Answers.{summary_call};
ghost use Rattle.rules.specs.Lister.{size_depth, size_start, summary_of, is_blank};
ghost use Rattle.record_sizes.specs.View.{view_sizes};
ghost use Rattle.record_listing.specs.Summary.{view_summary, view_summarized};

use record_sizes::Sizes;
use rules::Refusal;

// Of memory `index`: its depth, its known trits and its ones.
#[repr(C)]
#[derive(Clone, Copy, Debug, Default, PartialEq, Eq)]
pub struct Summary {
    pub index: usize,
    pub depth: usize,
    pub known: usize,
    pub ones: usize,
}

impl Summary {
    // The memory is blank, else to be loaded.
    #[tactic(auto, unfolding(rules::specs::Lister::is_blank))]
    pub fn is_blank(self) -> bool
        ensures { result ≡ is_blank self.known self.ones }
    {
        self.ones == 0
    }
}

// The depth of memory `index`.
#[tactic(auto, unfolding(rules::specs::Lister::size_depth, rules::specs::Image::depth_at))]
pub fn depth_of(s: Sizes, index: usize) -> usize
    ensures { result ≡ size_depth (view_sizes s) index }
{
    if index < s.full as usize {
        s.full_depth as usize
    } else {
        s.partial_depth as usize
    }
}

// 4, 15, 17, 20.
fn check_summary(s: Sizes, image: &[u8], index: usize) -> Result<(), Refusal>
    ensures { number_of result ≡ summary_refusal (view_sizes s) image.now index }
{
    if !net_logic::trits_good(s.image_of(image)) {
        return Err(Refusal::BadValue);
    }
    if s.memories() <= index as u64 {
        return Err(Refusal::OutOfRange);
    }
    if s.is_bad() {
        return Err(Refusal::BadSizes);
    }
    if (image.len() as u64) < s.trits_within(rules::MAX_IMAGE) {
        return Err(Refusal::NoRoom);
    }
    Ok(())
}

// The trits of the memories before `index`.
fn start_of(s: Sizes, index: usize) -> usize
    requires { (bad_sizes (view_sizes s) ≡ false) × (index < size_mems (view_sizes s)) }
    ensures { result ≡ size_start (view_sizes s) index }
{
    let unit = s.unit as usize;
    let full = s.full as usize;
    let full_depth = s.full_depth as usize;
    if index < full {
        return index * full_depth * unit;
    }
    (full * full_depth + (index - full) * (s.partial_depth as usize)) * unit
}

// How many of the trits are known, and how many are ones.
#[derive(Clone, Copy, Debug, PartialEq, Eq)]
pub struct Counts {
    pub known: usize,
    pub ones: usize,
}

pub fn counts_of(ts: &[u8]) -> Counts
    ensures { (result.known ≡ sum_by known_bit ts.now) × (result.ones ≡ sum_by value_bit ts.now) }
{
    let mut known: usize = 0;
    let mut ones: usize = 0;
    for t in ts {
        known += record_bits::known_bit(*t) as usize;
        ones += record_bits::value_bit(*t) as usize;
    }
    Counts { known, ones }
}

// What stands in memory `index` of an image that no number refuses.
fn summary_at(s: Sizes, image: &[u8], index: usize) -> Summary
    requires { summary_refusal (view_sizes s) image.now index ≡ 0 }
    ensures { view_summary result ≡ summary_of (view_sizes s) image.now index }
{
    let depth = depth_of(s, index);
    let from = start_of(s, index);
    let end = from + depth * (s.unit as usize);
    let n = counts_of(&image[from..end]);
    Summary {
        index,
        depth,
        known: n.known,
        ones: n.ones,
    }
}

// What stands in memory `index` of an image.
pub fn memory_summary(s: Sizes, image: &[u8], index: usize) -> Result<Summary, Refusal>
    ensures { view_summarized result ≡ summary_call (view_sizes s) image.now index }
{
    check_summary(s, image, index)?;
    Ok(summary_at(s, image, index))
}
