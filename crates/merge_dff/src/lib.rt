// memory/src/lib.rs, add_dedup_dff: equal bits of a flip-flop are kept once. A bit's key is its data net and its three trits, packed into one word, so
// that the merge of two columns serves.
#![tactic(auto)]

ghost use Rattle.std.specs.Prelude.{◌≡◌, map, ◌<◌, ◌≤◌, min, length};
ghost use Rattle.std.proofs.lemmas.List.Edits.{sets};
ghost use Rattle.lists.specs.Choice.{◌or_else◌};
ghost use Rattle.rules.specs.Limits.{max_merge};
ghost use Rattle.rules.specs.Log.{add_dff_of};
ghost use Rattle.rules.specs.Merge.{spread, add_dedup_dff_of};
ghost use Rattle.rules.specs.Refusals.{log_refusal, result_refusal, merge_dff_number};
ghost use Rattle.rules.specs.Refusal.{number_of};
ghost use Rattle.rules.specs.Answers.{add_dedup_dff_call};
ghost use Rattle.log_requests.specs.Merged.{merged_of};
ghost use Rattle.net_flip_flop.specs.View.{controls_of, flip_flop_of};
ghost use Rattle.log_entries.specs.Emission.{is_over, run};
ghost use Rattle.log_entries.specs.View.{state_of, lent_of};
ghost use Rattle.merge_mux.specs.Results.{limited, results};
ghost use Rattle.merge_dff.specs.Packs.{pack_of, packed_byte, packs, unpacked, merge_packed, limited_dff, Bytes};
ghost use Rattle.merge_dff.specs.Room.{zero_trits};

use log_entries::{Log, LogState};
use merge_keys::columns::Columns;
use merge_keys::{Kept, Keys};
use net_flip_flop::{Controls, FlipFlop};
use rules::Refusal;

// A bit's reset, clear and init trits in one word.
fn pack(reset: u8, clear: u8, init: u8) -> u32
    ensures { result ≡ pack_of reset clear init }
{
    u32::from(reset) + (256 * u32::from(clear) + 65536 * u32::from(init))
}

// Packs the trits of each bit into `to`, as far as it reaches, and returns how many. Not of a whole FlipFlop: that a field's bytes are below 256, as
// `bytes` says, did not prove.
fn pack_trits(to: &mut [u32], reset: &[u8], clear: &[u8], init: &[u8]) -> usize
    ensures value { result ≡ min (length to.old) (length (packs reset.now clear.now init.now)) }
    ensures to_after { to.new ≡ sets to.old 0 (packs reset.now clear.now init.now) }
    ensures bytes { Bytes reset.now clear.now init.now }
{
    let n = to.len().min(reset.len().min(clear.len().min(init.len())));
    let trits = reset[..n].iter().zip(clear[..n].iter().zip(&init[..n]));
    for (i, (reset, (clear, init))) in trits.enumerate() {
        lists::put(to, i, pack(*reset, *clear, *init));
    }
    n
}

// Stores the byte of weight `by` of each word in `to`, as far as it reaches.
fn unpack_part(to: &mut [u8], ps: &[u32], by: u32)
    requires { 0 < by }
    ensures { to.new ≡ sets to.old 0 (map (packed_byte by) ps.now) }
{
    let n = ps.len().min(to.len());
    for (i, p) in ps[..n].iter().enumerate() {
        to[i] = (*p / by % 256) as u8;
    }
}

// Room for a flip-flop's trits: those of each bit in one word, and those of its kept bits.
#[derive(Drop)]
pub struct Trits {
    pub packed: [u32; rules::MAX_MERGE],
    pub clear: [u8; rules::MAX_MERGE],
    pub reset: [u8; rules::MAX_MERGE],
    pub init: [u8; rules::MAX_MERGE],
}

impl Trits {
    // A room of zeros.
    #[tactic(auto, unfolding(crate::specs::Room::zero_trits))]
    pub fn new() -> Trits
        ensures { result ≡ zero_trits }
    {
        Trits {
            packed: [0; rules::MAX_MERGE],
            clear: [0; rules::MAX_MERGE],
            reset: [0; rules::MAX_MERGE],
            init: [0; rules::MAX_MERGE],
        }
    }

    // A flip-flop of kept bits, whose result nets go to each bit by its place; their trits are unpacked.
    fn emit_kept(&mut self, log: &mut Log, out: &mut [u32], c: Controls, kept: Kept<'_>)
        requires { length kept.y.now ≤ max_merge }
        ensures log_after { lent_of log.new ≡ run (add_dff_of (unpacked (controls_of c) kept.entry.x.now kept.entry.y.now)) (lent_of log.old) }
        ensures out_after { out.new ≡ results (is_over (state_of log.new.state)) out.old 0 (spread kept.entry.at.now (add_dff_of (unpacked (controls_of c) kept.entry.x.now kept.entry.y.now) log.old.state.next).value) }
    {
        unpack_part(&mut self.clear, kept.y, 256);
        unpack_part(&mut self.reset, kept.y, 1);
        unpack_part(&mut self.init, kept.y, 65536);
        let n = kept.y.len();
        let st = log.state;
        log.emit_dff(FlipFlop {
            controls: c,
            bits: kept.x,
            clear: &self.clear[..n],
            reset: &self.reset[..n],
            init: &self.init[..n],
        });
        merge_mux::emit::spread_results(out, 0, st, log.state, kept.at);
    }
}

// add_dedup_dff without its numbers: a flip-flop in which equal bits are kept once.
pub fn emit_dedup_dff(
    log: &mut Log,
    keys: &mut Keys,
    trits: &mut Trits,
    out: &mut [u32],
    f: FlipFlop,
)
    ensures log_after { lent_of log.new ≡ run (add_dedup_dff_of (limited_dff f.entry)) (lent_of log.old) }
    ensures out_after { out.new ≡ results (is_over (state_of log.new.state)) out.old 0 (add_dedup_dff_of (limited_dff f.entry) log.old.state.next).value }
{
    let n = pack_trits(&mut trits.packed, f.reset, f.clear, f.init);
    let given = Columns {
        x: f.bits,
        y: &trits.packed[..n],
    };
    let kept = keys.merge(given);
    trits.emit_kept(log, out, f.controls, kept);
}

// 1, 2 and 4 of a merging flip-flop.
#[tactic(auto, unfolding(rules::specs::Refusals::merge_dff_number, rules::specs::Conditions::long_value))]
fn merge_input_refusal(next: u32, f: FlipFlop) -> Result<(), Refusal>
    ensures { number_of result ≡ merge_dff_number next (flip_flop_of f.entry) }
{
    if rules::MAX_MERGE < f.bits.len() {
        return Err(Refusal::TooLarge);
    }
    log_requests::dff_input_refusal(next, f)
}

// The same, and 20 where the result nets do not fit the room for them.
#[tactic(auto, using(rules::proofs::Answers::else_err, rules::proofs::Answers::else_ok))]
fn input_refusal(room: usize, next: u32, f: FlipFlop) -> Result<(), Refusal>
    ensures { number_of result ≡ (merge_dff_number next (flip_flop_of f.entry) or_else result_refusal room f.entry.bits.now) }
{
    merge_input_refusal(next, f)?;
    log_requests::result_refusal(room, f.bits)
}

// 20 and 21 of the log, by a dry run.
fn log_refusal(
    room: usize,
    st: LogState,
    keys: &mut Keys,
    trits: &mut Trits,
    f: FlipFlop,
) -> Result<(), Refusal>
    ensures { number_of result ≡ log_refusal room (state_of st) (add_dedup_dff_of (limited_dff f.entry)) }
{
    let mut dry = Log {
        words: &mut [],
        state: st.dry_start(),
    };
    emit_dedup_dff(&mut dry, keys, trits, &mut [], f);
    st.dry_refusal(room, dry.state)
}

// add_dedup_dff: a flip-flop in which equal bits are kept once; the result net of each bit goes to `out`. A refused call changes nothing. The call takes
// its log and the log's state apart, as C hands them.
pub fn add_dedup_dff(
    log: &mut [u32],
    st: LogState,
    out: &mut [u32],
    f: FlipFlop,
) -> Result<LogState, Refusal>
    ensures { merged_of (add_dedup_dff_of (flip_flop_of f.entry) st.next).value result log.new out.new ≡ add_dedup_dff_call out.old log.old (state_of st) (flip_flop_of f.entry) }
{
    input_refusal(out.len(), st.next, f)?;
    let mut keys = Keys::new();
    let mut trits = Trits::new();
    log_refusal(log.len(), st, &mut keys, &mut trits, f)?;
    let mut log = Log {
        words: log,
        state: st,
    };
    emit_dedup_dff(&mut log, &mut keys, &mut trits, out, f);
    Ok(log.state)
}
