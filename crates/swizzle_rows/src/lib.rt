// The rows of a swizzle: the write ports, then the read ports, and the struct of the memories. What is not refused before is taken for granted
// by no call: a layout that no accepted swizzle has leaves everything as it is.
#![tactic(auto)]

ghost use Rattle.std.specs.Prelude.{◌≡◌, length};
ghost use Rattle.image_geometry.specs.View.{layout_of};
ghost use Rattle.image_state.specs.Counts.{Counted};
ghost use Rattle.swizzle_reads.specs.Going.{going_of, in_ports, AllKept};
ghost use Rattle.swizzle_rows.specs.Rows.{start_memory, Measured, RowsBy, RowsRan};

use image_geometry::{Layout, Shape};
use log_entries::Log;
use net_memory::Given;
use swizzle_reads::Reads;
use swizzle_result::{WideMemory, WideWritePort};
use swizzle_writes::Memories;

// The memories of these sizes with their write ports, before any read port.
fn start_memory(
    s: Shape,
    unit: u32,
    writes: u32,
    reads: u32,
    write_ports: [WideWritePort; rules::MAX_PORTS],
) -> WideMemory
    requires { Counted s }
    ensures { result ≡ start_memory s.full_mems s.all_mems s.full_depth s.part_depth unit writes reads write_ports }
{
    WideMemory {
        full: s.full_mems as u32,
        mems: s.all_mems as u32,
        full_depth: s.full_depth as u32,
        part_depth: s.part_depth as u32,
        unit,
        write_count: writes,
        read_count: reads,
        write_ports,
        ..WideMemory::NONE
    }
}

// The ports of a layout with these sizes.
fn rows_by<'a>(
    log: &mut Log,
    made: &mut Reads,
    scratch: &mut [u32],
    s: Shape,
    q: Layout<'a>,
    given: Given<'_>,
    writes: &[u32],
    reads: &[u32],
    output: &[u32],
)
    requires { Counted s × Measured (layout_of q) s }
    ensures rows_by { RowsBy (layout_of q.entry) given.entry.memory given.entry.nets.now given.entry.trits.now writes.now reads.now output.now (length scratch.old) (going_of log.old made.old) (going_of log.new made.new) }
    ensures all_kept { AllKept (layout_of q.entry) (in_ports given.entry.memory given.entry.nets.now given.entry.trits.now) reads.now scratch.old scratch.new }
{
    let memories = Memories {
        layout: q,
        mems: s.all_mems as u32,
    };
    let w = swizzle_writes::swizzle_writes(log, made.nets, given, memories, writes);
    let ports = w.ports;
    let unit = q.params.unit;
    made.memory = start_memory(
        s,
        unit,
        given.memory.write_count,
        given.memory.read_count,
        ports,
    );
    made.nets_at = w.used;
    made.trits_at = 0;
    made.emit(log, scratch, q, given, reads, output);
}

// The write ports and the read ports of a swizzle, with the struct of the memories; nothing where the layout is none of an accepted swizzle.
// Scratch is open where the pieces of a read port stood.
pub fn emit_rows<'a>(
    log: &mut Log,
    made: &mut Reads,
    scratch: &mut [u32],
    q: Layout<'a>,
    given: Given<'_>,
    writes: &[u32],
    reads: &[u32],
    output: &[u32],
)
    ensures rows_ran { RowsRan (layout_of q.entry) given.entry.memory given.entry.nets.now given.entry.trits.now writes.now reads.now output.now (length scratch.old) (going_of log.old made.old) (going_of log.new made.new) }
    ensures all_kept { AllKept (layout_of q.entry) (in_ports given.entry.memory given.entry.nets.now given.entry.trits.now) reads.now scratch.old scratch.new }
{
    let Ok(s) = image_check::check_layout(q) else {
        return;
    };
    if q.params.width != 0 {
        rows_by(log, made, scratch, s, q, given, writes, reads, output);
    }
}
