// The wide log of a port: k, where its data is width × 2^k; and whether 2^k divides a depth.
ghost use Rattle.std.specs.Prelude.{◌≡◌, ◌≤◌};
ghost use Rattle.rules.specs.Limits.{addr_bits};
ghost use Rattle.rules.specs.Numbers.{top_bits};
ghost use Rattle.rules.specs.Cell.{wide_log2};
ghost use Rattle.rules.specs.Conditions.{bad_data_len, indivisible};
ghost use Rattle.rules.specs.Answers.{wide_log2_call};
ghost use Rattle.net_memory.specs.Wide.{wide_of};

use rules::Refusal;

// One more than the highest bit that is set among the lowest 32, or 0.
#[tactic(auto, using(crate::proofs::WideLaws::top_bits_leading))]
fn top_bits(word: usize) -> u32
    ensures { (result ≡ top_bits addr_bits word) × (result ≤ addr_bits) }
{
    rules::ADDR_BITS.min(usize::BITS - word.leading_zeros())
}

// k, where data of this size is width × 2^k; whatever it is where there is no such k.
#[tactic(auto, using(crate::proofs::WideLaws::log_no_width, crate::proofs::WideLaws::log_top))]
pub fn wide_log(width: u32, size: usize) -> u32
    ensures { (result ≡ wide_log2 width size) × (result ≤ 31) }
{
    if width == 0 {
        return 0;
    }
    top_bits(size / (width as usize)).saturating_sub(1)
}

// Data of this size is not width × 2^k with k to MAX_WIDE.
#[tactic(auto, unfolding(rules::specs::Conditions::bad_data_len))]
pub fn data_len_bad(width: u32, size: usize) -> bool
    ensures { result ≡ bad_data_len width size }
{
    let k = wide_log(width, size);
    rules::MAX_WIDE < k || size != (width as usize) * (lists::two_to(k) as usize)
}

// The depth is no multiple of 2^k.
#[tactic(auto, using(crate::proofs::WideLaws::above, crate::proofs::WideLaws::below))]
pub fn is_indivisible(depth: u32, k: u32) -> bool
    ensures { result ≡ indivisible depth k }
{
    if rules::ADDR_BITS < k {
        return depth != 0;
    }
    u64::from(depth) % lists::two_to(k) != 0
}

// k of a port with this many data bits.
#[tactic(auto, unfolding(rules::specs::Answers::wide_log2_call, rules::specs::Answers::answer_of, rules::specs::Refusals::wide_log2_refusal))]
pub fn wide_log2(width: u32, size: usize) -> Result<u32, Refusal>
    ensures { wide_of result ≡ wide_log2_call width size }
{
    if data_len_bad(width, size) {
        return Err(Refusal::BadShape);
    }
    Ok(wide_log(width, size))
}
