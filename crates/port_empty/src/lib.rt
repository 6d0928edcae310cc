// memory/src/lib.rs, the swizzle of a memory of depth 0: its flip-flops are unmapped, and the outputs after are replaced by X.
#![tactic(auto)]

ghost use Rattle.std.specs.Prelude.{◌≡◌, ◌≤◌, length, take};
ghost use Rattle.rules.specs.Limits.{max_outputs};
ghost use Rattle.rules.specs.Value.{x_nets};
ghost use Rattle.rules.specs.Log.{replace_value_of};
ghost use Rattle.rules.specs.Refusal.{number_of};
ghost use Rattle.rules.specs.Refusals.{log_refusal};
ghost use Rattle.log_entries.specs.Emission.{run};
ghost use Rattle.log_entries.specs.View.{state_of, lent_of};
ghost use Rattle.port_empty.specs.Empty.{emptied_if};
ghost use Rattle.net_memory.specs.Given.{mem_of};

use log_entries::{Log, LogState};
use net_memory::Given;
use port_transparency::Overlay;
use rules::Refusal;

// The first n nets of `after` replaced by X.
fn emit_unknown(log: &mut Log, after: &[u32], n: usize)
    requires { (n ≤ length after.now) × (n ≤ max_outputs) }
    ensures { lent_of log.new ≡ run (replace_value_of (take n after.now) (x_nets n)) (lent_of log.old) }
{
    let unknown = [rules::NET_X; rules::MAX_OUTPUTS];
    log.emit_replace(&after[..n], &unknown[..n]);
}

// Depth 0 of a swizzle, without its numbers; the same function runs dry on an empty log.
pub fn emit_empty(log: &mut Log, given: Given<'_>, output: &[u32])
    ensures { lent_of log.new ≡ run (emptied_if (mem_of given.entry) output.now) (lent_of log.old) }
{
    let n = output.len();
    if rules::MAX_OUTPUTS < n {
        return;
    }
    let mut after = [0u32; rules::MAX_OUTPUTS];
    let mut overlay = Overlay::new();
    port_unmap_all::emit_unmap_all(log, &mut overlay, &mut after, given, output);
    emit_unknown(log, &after, n);
}

// 20 and 21 of it, by a run without a log.
pub fn empty_refusal(
    room: usize,
    st: LogState,
    given: Given<'_>,
    output: &[u32],
) -> Result<(), Refusal>
    ensures { number_of result ≡ log_refusal room (state_of st) (emptied_if (mem_of given.entry) output.now) }
{
    let mut dry = Log {
        words: &mut [],
        state: st.dry_start(),
    };
    emit_empty(&mut dry, given, output);
    st.dry_refusal(room, dry.state)
}
