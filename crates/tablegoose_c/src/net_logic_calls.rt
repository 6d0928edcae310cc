// The exported functions of `logic` of c_net. Made by scripts/exports.py.
ghost use Rattle.std.specs.Prelude.{◌≡◌};
ghost use Rattle.rules.specs.Logic.{trit_and, trit_or};
ghost use Rattle.rules.specs.Refusals.{slice_refusal};
ghost use Rattle.rules.specs.Answers.{const_is_undef_call, const_not_call, const_and_call, const_or_call, filled_with};
ghost use Rattle.c_net.specs.View.{flag_result, value_result};
ghost use Rattle.c_net.specs.Calls.{trit_not_call, trit_pair_call};

use c_net::Result;

#[unsafe(no_mangle)]
pub extern "C" fn tablegoose_trit_not(a: u8) -> Result
    ensures { result ≡ value_result (trit_not_call a) }
{
    c_net::logic::tablegoose_trit_not(a)
}

#[unsafe(no_mangle)]
pub extern "C" fn tablegoose_trit_and(a: u8, b: u8) -> Result
    ensures { result ≡ value_result (trit_pair_call trit_and a b) }
{
    c_net::logic::tablegoose_trit_and(a, b)
}

#[unsafe(no_mangle)]
pub extern "C" fn tablegoose_trit_or(a: u8, b: u8) -> Result
    ensures { result ≡ value_result (trit_pair_call trit_or a b) }
{
    c_net::logic::tablegoose_trit_or(a, b)
}

#[unsafe(no_mangle)]
pub extern "C" fn tablegoose_const_is_undef(a: &[u8]) -> Result
    ensures { result ≡ flag_result (const_is_undef_call a.now) }
{
    c_net::logic::tablegoose_const_is_undef(a)
}

#[unsafe(no_mangle)]
pub extern "C" fn tablegoose_const_not(out: &mut [u8], a: &[u8]) -> u32
    ensures { filled_with result out.new ≡ const_not_call out.old a.now }
{
    c_net::logic::tablegoose_const_not(out, a)
}

#[unsafe(no_mangle)]
pub extern "C" fn tablegoose_const_and(out: &mut [u8], a: &[u8], b: &[u8]) -> u32
    ensures { filled_with result out.new ≡ const_and_call out.old a.now b.now }
{
    c_net::logic::tablegoose_const_and(out, a, b)
}

#[unsafe(no_mangle)]
pub extern "C" fn tablegoose_const_or(out: &mut [u8], a: &[u8], b: &[u8]) -> u32
    ensures { filled_with result out.new ≡ const_or_call out.old a.now b.now }
{
    c_net::logic::tablegoose_const_or(out, a, b)
}

#[unsafe(no_mangle)]
pub extern "C" fn tablegoose_slice_refusal(start: usize, end: usize, size: usize) -> u32
    ensures { result ≡ slice_refusal start end size }
{
    c_net::logic::tablegoose_slice_refusal(start, end, size)
}
