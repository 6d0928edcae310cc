// The calls that only look at a memory, each over a case.
use crate::case::Case;
use net_check::Breaks;
use port_outputs::OutputSlice;
use rules::Refusal;

pub(crate) fn memory_refusal(c: Case) -> Result<(), Refusal> {
    let lent = c.lent();
    net_check::memory_refusal(c.given(&lent))
}

// The test of a memory with a next free net, and what else breaks 1, 2 or 4.
pub(crate) fn call_refusal(c: Case, next: u32, beside: Breaks) -> Result<(), Refusal> {
    let lent = c.lent();
    net_check::call_refusal(c.given(&lent), next, beside)
}

pub(crate) fn output_len(c: Case) -> Result<usize, Refusal> {
    let lent = c.lent();
    port_outputs::output_len(c.given(&lent))
}

pub(crate) fn can_lower_fallback(c: Case) -> Result<bool, Refusal> {
    let lent = c.lent();
    port_outputs::can_lower_fallback(c.given(&lent))
}

pub(crate) fn output_slice(c: Case, port: usize) -> Result<OutputSlice, Refusal> {
    let lent = c.lent();
    port_outputs::read_port_output_slice(c.given(&lent), port)
}
