// logic.rs for callers in C and Rust: trits are codes, constants slices of them.
ghost use Rattle.std.specs.Prelude.{◌≡◌, IfOk};
ghost use Rattle.rules.specs.Logic as logic;
ghost use Rattle.rules.specs.Logic.{trit_of, trit_and, trit_or};
ghost use Rattle.rules.specs.Refusals.{trit_refusal, slice_refusal};
ghost use Rattle.rules.specs.Refusal.{answer_by, number_of};
ghost use Rattle.net_logic.specs.View.{trit_view};
ghost use Rattle.rules.specs.Answers.{const_is_undef_call, const_not_call, const_and_call, const_or_call, filled_with};
ghost use Rattle.c_net.specs.View.{flag_result, value_result};
ghost use Rattle.c_net.specs.Calls.{trit_not_call, trit_pair_call};

use crate::Result;
use net_logic::Trit;
use rules::Refusal;
use std::result;

// The trit of a code, or number 4.
#[tactic(auto, unfolding(rules::specs::Answers::trit_from_code, rules::specs::Answers::answer_of))]
fn known(code: u8) -> result::Result<Trit, Refusal>
    ensures refusal { number_of result ≡ trit_refusal code }
    ensures trit { IfOk result (λ t. trit_view t ≡ trit_of code) }
{
    net_logic::trit_from_code(code)
}

// The code of the inverse, or number 4.
#[tactic(auto, using(rules::proofs::Answers::answer_err, rules::proofs::Answers::answer_ok), unfolding(crate::specs::Calls::trit_not_call))]
fn code_not(a: u8) -> result::Result<u32, Refusal>
    ensures { answer_by (λ n. n) result ≡ trit_not_call a }
{
    let trit = known(a)?;
    Ok(u32::from(u8::from(net_logic::trit_not(trit))))
}

// The code of what a gate gives for two trits, or number 4.
#[tactic(auto, using(rules::proofs::Answers::answer_err, rules::proofs::Answers::answer_ok, rules::proofs::Answers::else_err, rules::proofs::Answers::else_ok), unfolding(crate::specs::Calls::trit_pair_call))]
fn code_by<F: Fn(Trit, Trit) -> Trit>(gate: F, a: u8, b: u8) -> result::Result<u32, Refusal>
    requires { F.IsAlwaysCallable gate }
    ensures { (op : logic.Trit → logic.Trit → logic.Trit) → ((x y r : Trit) → F.post gate x y r → trit_view r ≡ op (trit_view x) (trit_view y)) → answer_by (λ n. n) result ≡ trit_pair_call op a b }
{
    let x = known(a)?;
    let y = known(b)?;
    Ok(u32::from(u8::from(gate(x, y))))
}

pub fn tablegoose_trit_not(a: u8) -> Result
    ensures { result ≡ value_result (trit_not_call a) }
{
    crate::number_result(code_not(a))
}

pub fn tablegoose_trit_and(a: u8, b: u8) -> Result
    ensures { result ≡ value_result (trit_pair_call trit_and a b) }
{
    crate::number_result(code_by(net_logic::trit_and, a, b))
}

pub fn tablegoose_trit_or(a: u8, b: u8) -> Result
    ensures { result ≡ value_result (trit_pair_call trit_or a b) }
{
    crate::number_result(code_by(net_logic::trit_or, a, b))
}

pub fn tablegoose_const_is_undef(a: &[u8]) -> Result
    ensures { result ≡ flag_result (const_is_undef_call a.now) }
{
    crate::flag_result(net_logic::const_is_undef(a))
}

pub fn tablegoose_const_not(out: &mut [u8], a: &[u8]) -> u32
    ensures { filled_with result out.new ≡ const_not_call out.old a.now }
{
    rules::number_of(net_logic::const_not(out, a))
}

pub fn tablegoose_const_and(out: &mut [u8], a: &[u8], b: &[u8]) -> u32
    ensures { filled_with result out.new ≡ const_and_call out.old a.now b.now }
{
    rules::number_of(net_logic::const_and(out, a, b))
}

pub fn tablegoose_const_or(out: &mut [u8], a: &[u8], b: &[u8]) -> u32
    ensures { filled_with result out.new ≡ const_or_call out.old a.now b.now }
{
    rules::number_of(net_logic::const_or(out, a, b))
}

// const_slice and value_slice: a caller takes the part of its own array, from start to end, where this gives 0.
pub fn tablegoose_slice_refusal(start: usize, end: usize, size: usize) -> u32
    ensures { result ≡ slice_refusal start end size }
{
    rules::number_of(net_logic::slice_refusal(start, end, size))
}
