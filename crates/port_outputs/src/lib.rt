// The calls that only look at a memory: the length of its outputs, a port's part of them, and whether a fallback is possible.
#![tactic(auto)]

ghost use Rattle.std.specs.Prelude.{◌≡◌, List, ℕ, length, leb};
ghost use Rattle.lists.specs.Lists.{all, any};
ghost use Rattle.rules.specs.Value.{same_control};
ghost use Rattle.rules.specs.Cell.{output_len};
ghost use Rattle.rules.specs.Conditions.{bad_output_len, bad_port};
ghost use Rattle.rules.specs.Fallback.{can_lower_fallback};
ghost use Rattle.net_value.specs.View.{control_of};
ghost use Rattle.net_memory.specs.declared.MemoryWritePort.{MemoryWritePort};
ghost use Rattle.net_memory.specs.View.{memory_of};
ghost use Rattle.rules.specs.Refusal.{number_of, answer_by};
ghost use Rattle.rules.specs.Refusals.{driving_number, output_slice_refusal};
ghost use Rattle.rules.specs.Answers.{output_len_call, output_slice_call, can_lower_fallback_call};
ghost use Rattle.net_memory.specs.Given.{view_given};
ghost use Rattle.port_outputs.specs.View.{slice_of};

use net_check::Breaks;
use net_memory::{Given, Memory, MemoryWritePort};
use net_value::ControlNet;
use rules::Refusal;

// Where a port's part of the outputs starts, and how long it is.
#[derive(Clone, Copy, Debug, PartialEq, Eq)]
pub struct OutputSlice {
    pub start: usize,
    pub size: usize,
}

// The read ports' data bits in all.
fn outputs_of(m: Memory) -> usize
    ensures { (nets trits : List ℕ) → result ≡ output_len (memory_of m nets trits) }
{
    net_memory::output_start(&m, rules::MAX_PORTS)
}

// The outputs are not as many as the read ports' data bits.
#[tactic(auto, unfolding(rules::specs::Conditions::bad_output_len))]
fn output_len_bad(m: Memory, size: usize) -> bool
    ensures { (nets trits output : List ℕ) → length output ≡ size → result ≡ bad_output_len (memory_of m nets trits) output }
{
    size != outputs_of(m)
}

// 1 to 4 of a call over a memory and the nets that its outputs drive. `one` says what else of the call breaks 1.
#[tactic(auto, unfolding(rules::specs::Refusals::driving_number, rules::specs::Conditions::bad_value))]
pub fn driving_refusal(
    given: Given<'_>,
    output: &[u32],
    next: u32,
    one: bool,
) -> Result<(), Refusal>
    ensures { number_of result ≡ driving_number one next (view_given given.entry) output.now }
{
    let two = output_len_bad(given.memory, output.len());
    let good = net_value::value_good(next, output);
    net_check::call_refusal(
        given,
        next,
        Breaks {
            large: one,
            shape: two,
            value: !good,
        },
    )
}

// The read ports' data bits in all.
#[tactic(auto, using(rules::proofs::Answers::answer_err, rules::proofs::Answers::answer_ok), unfolding(rules::specs::Answers::output_len_call))]
pub fn output_len(given: Given<'_>) -> Result<usize, Refusal>
    ensures { answer_by (λ n. n) result ≡ output_len_call (view_given given.entry) }
{
    net_check::memory_refusal(given)?;
    Ok(outputs_of(given.memory))
}

// 1 to 4 and 15 of `read_port_output_slice`.
#[tactic(auto, using(rules::proofs::Answers::else_err), unfolding(rules::specs::Refusals::output_slice_refusal))]
fn slice_refusal(given: Given<'_>, port: usize) -> Result<(), Refusal>
    ensures { number_of result ≡ output_slice_refusal (view_given given.entry) port }
{
    net_check::memory_refusal(given)?;
    if net_memory::ports_used(given.memory.read_count) <= port {
        return Err(Refusal::OutOfRange);
    }
    Ok(())
}

// Where a port's part of the outputs starts, and how long it is.
#[tactic(auto, using(rules::proofs::Answers::answer_err, rules::proofs::Answers::answer_ok), unfolding(rules::specs::Answers::output_slice_call))]
pub fn read_port_output_slice(given: Given<'_>, port: usize) -> Result<OutputSlice, Refusal>
    ensures { answer_by slice_of result ≡ output_slice_call (view_given given.entry) port }
{
    slice_refusal(given, port)?;
    Ok(OutputSlice {
        start: net_memory::output_start(&given.memory, port),
        size: net_memory::read_data_len(&given.memory, port),
    })
}

// Every port of these has the clock.
#[tactic(auto, unfolding(rules::specs::Value::same_control))]
fn clocks_are(ports: &[MemoryWritePort], clock: ControlNet) -> bool
    ensures { result ≡ all (λ (p : MemoryWritePort). same_control (control_of p.clock) (control_of clock)) ports.now }
{
    ports.iter().all(|port| port.clock == clock)
}

// Every write port has the first one's clock.
pub fn clocks_same(m: Memory) -> bool
    ensures { (nets trits : List ℕ) → result ≡ can_lower_fallback (memory_of m nets trits) }
{
    let count = net_memory::ports_used(m.write_count);
    clocks_are(&m.write_ports[..count], m.write_ports[0].clock)
}

// A memory is legal for fallback lowering where all write ports have one clock.
#[tactic(auto, using(rules::proofs::Answers::answer_err, rules::proofs::Answers::answer_ok), unfolding(rules::specs::Answers::can_lower_fallback_call, rules::specs::Refusals::can_lower_fallback_refusal))]
pub fn can_lower_fallback(given: Given<'_>) -> Result<bool, Refusal>
    ensures { answer_by (λ b. b) result ≡ can_lower_fallback_call (view_given given.entry) }
{
    net_check::memory_refusal(given)?;
    Ok(clocks_same(given.memory))
}

// A number of the list is not below the count.
fn any_past(list: &[u32], count: usize) -> bool
    ensures { result ≡ any (λ k. leb count k) list.now }
{
    list.iter().any(|number| count <= (*number as usize))
}

// A listed port is not there.
pub fn port_missing(m: Memory, list: &[u32]) -> bool
    ensures { (nets trits : List ℕ) → result ≡ any (bad_port (memory_of m nets trits)) list.now }
{
    let count = net_memory::ports_used(m.read_count);
    any_past(list, count)
}
