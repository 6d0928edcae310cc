// memory/src/lib.rs, emulate_read_before_write of one write port: flip-flops before its address, data and mask.
#![tactic(auto)]

ghost use Rattle.std.specs.Prelude.{◌≡◌, ◌≤◌, length, take};
ghost use Rattle.rules.specs.Limits.{max_merge};
ghost use Rattle.rules.specs.Cell.{new_flip_flop};
ghost use Rattle.rules.specs.Log.{add_dff_of};
ghost use Rattle.rules.specs.Merge.{add_dedup_dff_of};
ghost use Rattle.rules.specs.Ports.{delayed};
ghost use Rattle.net_value.specs.View.{control_of};
ghost use Rattle.log_entries.specs.View.{lent_of};
ghost use Rattle.net_memory.specs.Ports.{write_of};
ghost use Rattle.port_transparency.specs.Gave.{Gave};
ghost use Rattle.port_delay.specs.Delay.{start_trit, mask_delay, cut, delayable, delayed_if, Delayable};
ghost use Rattle.port_delay.specs.Room.{zero_room};

use log_entries::Log;
use merge_dff::Trits;
use merge_keys::Keys;
use net_flip_flop::{Controls, FlipFlop};
use net_memory::WritePort;
use net_value::ControlNet;

// Room for the flip-flops before a write port: their results, the trits that they start with, and what the mask's merge is found in. It is lent, so that
// many ports clear it once.
#[derive(Drop)]
pub struct Room {
    pub addr: [u32; rules::MAX_MERGE],
    pub bits: [u32; rules::MAX_MERGE],
    pub mask: [u32; rules::MAX_MERGE],
    pub starts: [u8; rules::MAX_MERGE],
    pub keys: Keys,
    pub trits: Trits,
}

// The trit that a delayed mask starts with.
fn start_trit(all_x: bool) -> u8
    ensures { result ≡ start_trit all_x }
{
    if all_x { rules::TRIT_X } else { 0 }
}

// A new flip-flop of these nets, whose result nets are the first of `out`.
fn emit_plain(
    log: &mut Log,
    out: &mut [u32; rules::MAX_MERGE],
    starts: &mut [u8; rules::MAX_MERGE],
    clock: ControlNet,
    bits: &[u32],
)
    requires { length bits.now ≤ max_merge }
    ensures { Gave (add_dff_of (new_flip_flop bits.now (control_of clock))) (lent_of log.old) (lent_of log.new) (take (length bits.now) out.new) }
{
    let n = bits.len();
    lists::fill(starts, 0, n, rules::TRIT_X);
    let xs = &starts[..n];
    let f = FlipFlop {
        controls: Controls::plain(clock),
        bits,
        clear: xs,
        reset: xs,
        init: xs,
    };
    port_transparency::dff_into(log, out, f);
}

// Values of these lengths fit the room, and the mask is as long as the data.
#[tactic(auto, unfolding(crate::specs::Delay::delayable))]
fn can_delay(addr: usize, bits: usize, mask: usize) -> bool
    ensures { result ≡ delayable addr bits mask }
{
    if rules::MAX_MERGE < addr {
        return false;
    }
    if rules::MAX_MERGE < bits {
        return false;
    }
    mask == bits
}

impl Room {
    // A room of zeros.
    pub fn new() -> Room
        ensures { result ≡ zero_room }
    {
        Room {
            addr: [0; rules::MAX_MERGE],
            bits: [0; rules::MAX_MERGE],
            mask: [0; rules::MAX_MERGE],
            starts: [0; rules::MAX_MERGE],
            keys: Keys::new(),
            trits: Trits::new(),
        }
    }

    // The merging flip-flop of a mask.
    fn emit_mask(&mut self, log: &mut Log, all_x: bool, clock: ControlNet, mask: &[u32])
        requires { length mask.now ≤ max_merge }
        ensures mask_after { Gave (add_dedup_dff_of (mask_delay all_x (length mask.now) mask.now (control_of clock))) (lent_of log.old) (lent_of log.new) (take (length mask.now) self.new.mask) }
        ensures addr_stays { self.new.addr ≡ self.old.addr }
        ensures bits_stay { self.new.bits ≡ self.old.bits }
    {
        let n = mask.len();
        lists::fill(&mut self.starts, 0, n, start_trit(all_x));
        let own = &self.starts[..n];
        let f = FlipFlop {
            controls: Controls::plain(clock),
            bits: mask,
            clear: own,
            reset: own,
            init: own,
        };
        merge_dff::emit_dedup_dff(log, &mut self.keys, &mut self.trits, &mut self.mask, f);
    }

    // The three flip-flops of a port that fits.
    fn emit_three(&mut self, log: &mut Log, all_x: bool, w: WritePort<'_>)
        requires { Delayable (length (write_of w).addr) (length (write_of w).bits) (length (write_of w).mask) }
        ensures { Gave (delayed all_x (write_of w.entry)) (lent_of log.old) (lent_of log.new) (cut (write_of w.entry) self.new.addr self.new.bits self.new.mask) }
    {
        let clock = w.port.clock;
        let addr = w.addr();
        let bits = w.bits();
        emit_plain(log, &mut self.addr, &mut self.starts, clock, addr);
        emit_plain(log, &mut self.bits, &mut self.starts, clock, bits);
        self.emit_mask(log, all_x, clock, w.mask());
    }

    // The three flip-flops of a write port: the results are the first nets of `addr`, `bits` and `mask`.
    pub fn emit_delayed(&mut self, log: &mut Log, all_x: bool, w: WritePort<'_>)
        ensures { Gave (delayed_if all_x (write_of w.entry) (cut (write_of w.entry) self.old.addr self.old.bits self.old.mask)) (lent_of log.old) (lent_of log.new) (cut (write_of w.entry) self.new.addr self.new.bits self.new.mask) }
    {
        if !can_delay(w.addr().len(), w.bits().len(), w.mask().len()) {
            return;
        }
        self.emit_three(log, all_x, w);
    }
}
