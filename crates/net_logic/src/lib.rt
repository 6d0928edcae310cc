// logic.rs: trits and constants. A constant is a slice of trit codes: 0, 1, and 2 for X.
#![tactic(auto)]

ghost use Rattle.std.specs.Prelude.{◌≡◌, ◌≤◌, length};
ghost use Rattle.std.proofs.lemmas.List.Edits.{sets};
ghost use Rattle.rules.specs.Logic as logic;
ghost use Rattle.rules.specs.Logic.{trit_of, code_of, trit_not, trit_and, trit_or, const_not, tritwise, are_trits, is_undef};
ghost use Rattle.rules.specs.Refusals.{const_not_refusal, const_pair_refusal, slice_refusal};
ghost use Rattle.rules.specs.Answers.{trit_from_code, const_is_undef_call, slice_call, const_not_call, const_and_call, const_or_call, filled, filled_with};
ghost use Rattle.rules.specs.Refusal.{number_of};
ghost use Rattle.net_logic.specs.View.{trit_view, trit_answer, bool_answer, given_part};

use rules::Refusal;

// An extended binary value; Undef is X.
#[derive(Clone, Copy, Debug, PartialEq, Eq)]
pub enum Trit {
    Zero,
    One,
    Undef,
}

// A trit's code.
impl From<Trit> for u8 {
    #[tactic(auto, unfolding(rules::specs::Logic::code_of))]
    fn from(t: Trit) -> u8
        ensures { result ≡ code_of (trit_view t) }
    {
        t as u8
    }
}

// The trit of a code. Any code above 1 reads as X: see `trit_from_code` for one that is not known to be good.
#[tactic(auto, unfolding(rules::specs::Logic::trit_of))]
pub fn trit_at(code: u8) -> Trit
    ensures { trit_view result ≡ trit_of code }
{
    if code == 0 {
        return Trit::Zero;
    }
    if code == 1 {
        return Trit::One;
    }
    Trit::Undef
}

// The trit of a code, or number 4.
#[tactic(auto, unfolding(rules::specs::Answers::trit_from_code, rules::specs::Answers::answer_of, rules::specs::Refusals::trit_refusal, rules::specs::Conditions::bad_trits, rules::specs::Logic::are_trits))]
pub fn trit_from_code(code: u8) -> Result<Trit, Refusal>
    ensures { trit_answer result ≡ trit_from_code code }
{
    if rules::TRIT_X < code {
        return Err(Refusal::BadValue);
    }
    Ok(trit_at(code))
}

// IEEE 1364, not: an arm for each line of the table.
#[tactic(auto, unfolding(rules::specs::Logic::trit_not))]
pub fn trit_not(a: Trit) -> Trit
    ensures { trit_view result ≡ trit_not (trit_view a) }
{
    match a {
        Trit::Zero => Trit::One, // not 0
        Trit::One => Trit::Zero, // not 1
        Trit::Undef => Trit::Undef, // not X
    }
}

// IEEE 1364, and.
#[tactic(auto, unfolding(rules::specs::Logic::trit_and))]
pub fn trit_and(a: Trit, b: Trit) -> Trit
    ensures { trit_view result ≡ trit_and (trit_view a) (trit_view b) }
{
    match (a, b) {
        (Trit::Zero, Trit::Zero) => Trit::Zero, // 0 and 0
        (Trit::Zero, Trit::One) => Trit::Zero, // 0 and 1
        (Trit::Zero, Trit::Undef) => Trit::Zero, // 0 and X
        (Trit::One, Trit::Zero) => Trit::Zero, // 1 and 0
        (Trit::One, Trit::One) => Trit::One, // 1 and 1
        (Trit::One, Trit::Undef) => Trit::Undef, // 1 and X
        (Trit::Undef, Trit::Zero) => Trit::Zero, // X and 0
        (Trit::Undef, Trit::One) => Trit::Undef, // X and 1
        (Trit::Undef, Trit::Undef) => Trit::Undef, // X and X
    }
}

// IEEE 1364, or.
#[tactic(auto, unfolding(rules::specs::Logic::trit_or))]
pub fn trit_or(a: Trit, b: Trit) -> Trit
    ensures { trit_view result ≡ trit_or (trit_view a) (trit_view b) }
{
    match (a, b) {
        (Trit::Zero, Trit::Zero) => Trit::Zero, // 0 or 0
        (Trit::Zero, Trit::One) => Trit::One, // 0 or 1
        (Trit::Zero, Trit::Undef) => Trit::Undef, // 0 or X
        (Trit::One, Trit::Zero) => Trit::One, // 1 or 0
        (Trit::One, Trit::One) => Trit::One, // 1 or 1
        (Trit::One, Trit::Undef) => Trit::One, // 1 or X
        (Trit::Undef, Trit::Zero) => Trit::Undef, // X or 0
        (Trit::Undef, Trit::One) => Trit::One, // X or 1
        (Trit::Undef, Trit::Undef) => Trit::Undef, // X or X
    }
}

// Every code is a trit's: the largest is. All codes are looked at, without a way out of the loop, so that many are compared at once.
#[tactic(auto, using(crate::proofs::Codes::most_turn, crate::proofs::Codes::most_end))]
pub fn trits_good(a: &[u8]) -> bool
    ensures { result ≡ are_trits a.now }
{
    let mut most = 0;
    for code in a {
        most = most.max(*code);
    }
    most <= rules::TRIT_X
}

// Every trit is X. An empty constant is undef.
#[tactic(auto, unfolding(rules::specs::Logic::is_undef))]
pub fn is_undef(a: &[u8]) -> bool
    ensures { result ≡ is_undef a.now }
{
    a.iter().all(|code| *code == rules::TRIT_X)
}

// Every trit is X, or number 4.
#[tactic(auto, unfolding(rules::specs::Answers::const_is_undef_call, rules::specs::Answers::answer_of, rules::specs::Refusals::is_undef_refusal, rules::specs::Conditions::bad_trits))]
pub fn const_is_undef(a: &[u8]) -> Result<bool, Refusal>
    ensures { bool_answer result ≡ const_is_undef_call a.now }
{
    if !trits_good(a) {
        return Err(Refusal::BadValue);
    }
    Ok(is_undef(a))
}

// What refuses a part of a constant or of a value: 15.
#[tactic(auto, unfolding(rules::specs::Refusals::slice_refusal))]
pub fn slice_refusal(start: usize, end: usize, size: usize) -> Result<(), Refusal>
    ensures { number_of result ≡ slice_refusal start end size }
{
    if end < start || size < end {
        return Err(Refusal::OutOfRange);
    }
    Ok(())
}

// The part itself, no copy; where `slice_refusal` refuses it, the empty part.
#[tactic(auto, unfolding(rules::specs::Answers::slice_call, rules::specs::Answers::answer_of, rules::specs::Refusals::slice_refusal))]
pub fn const_slice(a: &[u8], start: usize, end: usize) -> &[u8]
    ensures { result.now ≡ given_part (slice_call start end a.now) }
{
    if slice_refusal(start, end, a.len()).is_err() {
        return &a[..0];
    }
    &a[start..end]
}

// The tables on codes: each a few comparisons that the compiler makes for many trits at once.
#[tactic(auto, unfolding(rules::specs::Logic::trit_not, rules::specs::Logic::trit_of, rules::specs::Logic::code_of))]
fn code_not(x: u8) -> u8
    ensures { result ≡ code_of (trit_not (trit_of x)) }
{
    if x == 0 {
        return 1;
    }
    if x == 1 {
        return 0;
    }
    rules::TRIT_X
}

// A function of two trits.
trait Gate {
    ghost op: { logic.Trit → logic.Trit → logic.Trit };

    // The code of what it gives.
    fn code(x: u8, y: u8) -> u8
        ensures { result ≡ code_of (op (trit_of x) (trit_of y)) };
}

struct And;

impl Gate for And {
    ghost op = { trit_and };

    #[tactic(auto, unfolding(rules::specs::Logic::trit_and, rules::specs::Logic::trit_of, rules::specs::Logic::code_of))]
    fn code(x: u8, y: u8) -> u8 {
        if x == 0 || y == 0 {
            return 0;
        }
        if x != 1 || y != 1 {
            return rules::TRIT_X;
        }
        1
    }
}

struct Or;

impl Gate for Or {
    ghost op = { trit_or };

    #[tactic(auto, unfolding(rules::specs::Logic::trit_or, rules::specs::Logic::trit_of, rules::specs::Logic::code_of))]
    fn code(x: u8, y: u8) -> u8 {
        if x == 1 || y == 1 {
            return 1;
        }
        if x != 0 || y != 0 {
            return rules::TRIT_X;
        }
        0
    }
}

#[tactic(auto, unfolding(rules::specs::Refusals::const_not_refusal, rules::specs::Conditions::bad_trits, rules::specs::Conditions::no_room_of))]
fn const_not_refusal(room: usize, a: &[u8]) -> Result<(), Refusal>
    ensures { number_of result ≡ const_not_refusal room a.now }
{
    if !trits_good(a) {
        return Err(Refusal::BadValue);
    }
    if room < a.len() {
        return Err(Refusal::NoRoom);
    }
    Ok(())
}

fn write_not(out: &mut [u8], a: &[u8])
    requires { length a.now ≤ length out.old }
    ensures { out.new ≡ sets out.old 0 (const_not a.now) }
{
    for (i, code) in a.iter().enumerate() {
        out[i] = code_not(*code);
    }
}

// The constant trit by trit, or number 4 or 20.
#[tactic(auto, using(crate::proofs::Rooms::not_fits, rules::proofs::Answers::filled_err, rules::proofs::Answers::filled_ok), unfolding(rules::specs::Answers::const_not_call))]
pub fn const_not(out: &mut [u8], a: &[u8]) -> Result<(), Refusal>
    ensures { filled_with (number_of result) out.new ≡ const_not_call out.old a.now }
{
    const_not_refusal(out.len(), a)?;
    write_not(out, a);
    Ok(())
}

#[tactic(auto, unfolding(rules::specs::Refusals::const_pair_refusal, rules::specs::Conditions::unequal, rules::specs::Conditions::bad_trits, rules::specs::Conditions::no_room_of))]
fn const_pair_refusal(room: usize, a: &[u8], b: &[u8]) -> Result<(), Refusal>
    ensures { number_of result ≡ const_pair_refusal room a.now b.now }
{
    if a.len() != b.len() {
        return Err(Refusal::BadShape);
    }
    if !trits_good(a) || !trits_good(b) {
        return Err(Refusal::BadValue);
    }
    if room < a.len() {
        return Err(Refusal::NoRoom);
    }
    Ok(())
}

fn write_gate<G: Gate>(out: &mut [u8], a: &[u8], b: &[u8])
    requires { (length a.now ≡ length b.now) × (length a.now ≤ length out.old) }
    ensures { out.new ≡ sets out.old 0 (tritwise G.op a.now b.now) }
{
    for (i, (x, y)) in a.iter().zip(b).enumerate() {
        out[i] = G::code(*x, *y);
    }
}

#[tactic(auto, using(crate::proofs::Rooms::pair_fits, rules::proofs::Answers::filled_err, rules::proofs::Answers::filled_ok))]
fn const_gate<G: Gate>(out: &mut [u8], a: &[u8], b: &[u8]) -> Result<(), Refusal>
    ensures { filled_with (number_of result) out.new ≡ filled (const_pair_refusal (length out.old) a.now b.now) out.old (tritwise G.op a.now b.now) }
{
    const_pair_refusal(out.len(), a, b)?;
    write_gate::<G>(out, a, b);
    Ok(())
}

// Two constants trit by trit, or number 2, 4 or 20.
#[tactic(auto, unfolding(rules::specs::Answers::const_and_call, rules::specs::Logic::const_and))]
pub fn const_and(out: &mut [u8], a: &[u8], b: &[u8]) -> Result<(), Refusal>
    ensures { filled_with (number_of result) out.new ≡ const_and_call out.old a.now b.now }
{
    const_gate::<And>(out, a, b)
}

#[tactic(auto, unfolding(rules::specs::Answers::const_or_call, rules::specs::Logic::const_or))]
pub fn const_or(out: &mut [u8], a: &[u8], b: &[u8]) -> Result<(), Refusal>
    ensures { filled_with (number_of result) out.new ≡ const_or_call out.old a.now b.now }
{
    const_gate::<Or>(out, a, b)
}
