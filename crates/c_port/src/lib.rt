// Calls on a memory's ports for callers in C and Rust. Memory and log state go in by value and come back in the answer's struct; a refused call gives
// both back as they were.
#![tactic(auto)]

ghost use Rattle.std.specs.Prelude.{◌≡◌, [], length, take};
ghost use Rattle.rules.specs.Answers.{unmap_read_dff_call, unmap_reset_call, emulate_call, transparency_mux_call};
ghost use Rattle.log_entries.specs.View.{state_of};
ghost use Rattle.net_memory.specs.Given.{given_of};
ghost use Rattle.port_mux.specs.Call.{overlay_of};
ghost use Rattle.port_unmap.specs.Call.{unclocking, rooms_of};
ghost use Rattle.c_memory.specs.View.{given_memory};
ghost use Rattle.c_port.specs.Overlays.{lent_overlay, overlay_left_by};
ghost use Rattle.c_port.specs.View.{driven_struct, driven_by, NewMemory, NewTrits, NewNets};

use c_log::Logged;
use c_memory::Memory;
use log_entries::LogState;
use port_mux::Asked;
use rules::Refusal;

// A refusal's number, or 0; the memory and the log's state after the call.
#[repr(C)]
#[derive(Clone, Copy)]
pub struct Driven {
    pub number: u32,
    pub memory: Memory,
    pub state: LogState,
}

// The struct of an answer to a call on the memory m and the state st, which a refused call gives back.
fn driven_struct(m: Memory, st: LogState, r: Result<port_unmap::Driven, Refusal>) -> Driven
    ensures { result ≡ driven_struct m st r }
{
    let left = r.map(|driven| (driven.memory.into(), driven.state));
    let (number, (memory, state)) = c_net::parts(left, (m, st));
    Driven {
        number,
        memory,
        state,
    }
}

pub fn tablegoose_unmap_read_dff(
    log: &mut [u32],
    st: LogState,
    output: &mut [u32],
    m: Memory,
    nets: &[u32],
    trits: &[u8],
    port: usize,
) -> Driven
    ensures log_after { driven_by result nets.now trits.now output.new log.new ≡ unmap_read_dff_call (rooms_of nets.now trits.now output.old) log.old (state_of st) (given_of (given_memory m) nets.now trits.now) port output.old }
    ensures new_memory { NewMemory m st (unclocking (given_memory m) port) result }
{
    let given = c_memory::given_by(m, nets, trits);
    driven_struct(
        m,
        st,
        port_unmap::unmap_read_dff(log, st, output, given, port),
    )
}

pub fn tablegoose_unmap_read_init_reset_transparency(
    log: &mut [u32],
    st: LogState,
    output: &mut [u32],
    trits: &mut [u8],
    m: Memory,
    nets: &[u32],
    port: usize,
    include_transparency: bool,
) -> Driven
    ensures log_after { driven_by result nets.now trits.new output.new log.new ≡ unmap_reset_call (rooms_of nets.now trits.old output.old) log.old (state_of st) (given_of (given_memory m) nets.now trits.old) port include_transparency output.old }
    ensures new_trits { NewTrits m st port include_transparency trits.old trits.new result }
{
    let given = net_memory::Memory::from(m);
    driven_struct(
        m,
        st,
        port_reset::unmap_read_init_reset_transparency(
            log,
            st,
            output,
            trits,
            given,
            nets,
            port,
            include_transparency,
        ),
    )
}

// The outputs play no part.
pub fn tablegoose_emulate_read_before_write(
    log: &mut [u32],
    st: LogState,
    nets: &mut [u32],
    m: Memory,
    trits: &[u8],
) -> Driven
    ensures log_after { driven_by result nets.new trits.now [] log.new ≡ emulate_call (rooms_of nets.old trits.now []) log.old (state_of st) (given_of (given_memory m) nets.old trits.now) }
    ensures new_nets { NewNets m st nets.old nets.new result }
{
    let given = net_memory::Memory::from(m);
    driven_struct(
        m,
        st,
        port_emulate::emulate_read_before_write(log, st, nets, given, trits),
    )
}

// Bits and mask after it go to the rooms; without a mask, `mask` and its room play no part.
pub fn tablegoose_transparency_mux(
    log: &mut [u32],
    st: LogState,
    bits_to: &mut [u32],
    mask_to: &mut [u32],
    m: Memory,
    nets: &[u32],
    trits: &[u8],
    read: usize,
    write: usize,
    bits: &[u32],
    mask: &[u32],
    masked: bool,
) -> Logged
    ensures { overlay_left_by (overlay_of masked (take (length bits.now) bits_to.new) (take (length bits.now) mask_to.new)) result log.new bits_to.new mask_to.new ≡ lent_overlay (state_of st) (transparency_mux_call bits_to.old mask_to.old log.old (state_of st) (given_of (given_memory m) nets.now trits.now) read write (overlay_of masked bits.now mask.now)) }
{
    let given = c_memory::given_by(m, nets, trits);
    let asked = Asked {
        bits,
        mask: masked.then_some(mask),
    };
    let r = port_mux::transparency_mux(log, st, bits_to, mask_to, given, read, write, asked);
    c_log::answer_struct(r, st)
}
