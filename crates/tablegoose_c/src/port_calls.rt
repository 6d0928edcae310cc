// The exported functions of c_port. Made by scripts/exports.py.
ghost use Rattle.std.specs.Prelude.{◌≡◌, [], length, take};
ghost use Rattle.rules.specs.Answers.{unmap_read_dff_call, unmap_reset_call, emulate_call, transparency_mux_call};
ghost use Rattle.log_entries.specs.View.{state_of};
ghost use Rattle.net_memory.specs.Given.{given_of};
ghost use Rattle.port_mux.specs.Call.{overlay_of};
ghost use Rattle.port_unmap.specs.Call.{unclocking, rooms_of};
ghost use Rattle.c_memory.specs.View.{given_memory};
ghost use Rattle.c_port.specs.Overlays.{lent_overlay, overlay_left_by};
ghost use Rattle.c_port.specs.View.{driven_by, NewMemory, NewTrits, NewNets};

use c_log::Logged;
use c_memory::Memory;
use c_port::Driven;
use log_entries::LogState;

#[unsafe(no_mangle)]
pub extern "C" fn tablegoose_unmap_read_dff(
    log: &mut [u32],
    st: LogState,
    output: &mut [u32],
    m: Memory,
    nets: &[u32],
    trits: &[u8],
    port: usize,
) -> Driven
    ensures log_after { driven_by result nets.now trits.now output.new log.new ≡ unmap_read_dff_call (rooms_of nets.now trits.now output.old) log.old (state_of st) (given_of (given_memory m) nets.now trits.now) port output.old }
    ensures new_memory { NewMemory m st (unclocking (given_memory m) port) result }
{
    c_port::tablegoose_unmap_read_dff(log, st, output, m, nets, trits, port)
}

#[unsafe(no_mangle)]
pub extern "C" fn tablegoose_unmap_read_init_reset_transparency(
    log: &mut [u32],
    st: LogState,
    output: &mut [u32],
    trits: &mut [u8],
    m: Memory,
    nets: &[u32],
    port: usize,
    include_transparency: bool,
) -> Driven
    ensures log_after { driven_by result nets.now trits.new output.new log.new ≡ unmap_reset_call (rooms_of nets.now trits.old output.old) log.old (state_of st) (given_of (given_memory m) nets.now trits.old) port include_transparency output.old }
    ensures new_trits { NewTrits m st port include_transparency trits.old trits.new result }
{
    c_port::tablegoose_unmap_read_init_reset_transparency(
        log,
        st,
        output,
        trits,
        m,
        nets,
        port,
        include_transparency,
    )
}

#[unsafe(no_mangle)]
pub extern "C" fn tablegoose_emulate_read_before_write(
    log: &mut [u32],
    st: LogState,
    nets: &mut [u32],
    m: Memory,
    trits: &[u8],
) -> Driven
    ensures log_after { driven_by result nets.new trits.now [] log.new ≡ emulate_call (rooms_of nets.old trits.now []) log.old (state_of st) (given_of (given_memory m) nets.old trits.now) }
    ensures new_nets { NewNets m st nets.old nets.new result }
{
    c_port::tablegoose_emulate_read_before_write(log, st, nets, m, trits)
}

#[unsafe(no_mangle)]
pub extern "C" fn tablegoose_transparency_mux(
    log: &mut [u32],
    st: LogState,
    bits_to: &mut [u32],
    mask_to: &mut [u32],
    m: Memory,
    nets: &[u32],
    trits: &[u8],
    read: usize,
    write: usize,
    bits: &[u32],
    mask: &[u32],
    masked: bool,
) -> Logged
    ensures { overlay_left_by (overlay_of masked (take (length bits.now) bits_to.new) (take (length bits.now) mask_to.new)) result log.new bits_to.new mask_to.new ≡ lent_overlay (state_of st) (transparency_mux_call bits_to.old mask_to.old log.old (state_of st) (given_of (given_memory m) nets.now trits.now) read write (overlay_of masked bits.now mask.now)) }
{
    c_port::tablegoose_transparency_mux(
        log, st, bits_to, mask_to, m, nets, trits, read, write, bits, mask, masked,
    )
}
