// The exported functions of c_record. Made by scripts/exports.py.
ghost use Rattle.std.specs.Prelude.{◌≡◌, length};
ghost use Rattle.rules.specs.Record.{record_bytes};
ghost use Rattle.rules.specs.Refusals.{write_record_refusal};
ghost use Rattle.rules.specs.Answers.{answer_of, write_record_call, read_record_call, header_call, summary_call, list_record_call};
ghost use Rattle.rules.specs.Beside.Stored.{list_input_call};
ghost use Rattle.record_sizes.specs.View.{view_sizes};
ghost use Rattle.c_net.specs.View.{count_struct};
ghost use Rattle.c_record.specs.View.{head_struct, summary_struct};

use c_net::Count;
use c_record::{Head, SummaryResult};
use record_sizes::Sizes;

#[unsafe(no_mangle)]
pub extern "C" fn tablegoose_write_record(out: &mut [u8], sizes: Sizes, image: &[u8]) -> Count
    ensures { (result ≡ count_struct (answer_of (write_record_refusal (length out.old) (view_sizes sizes) image.now) (record_bytes (view_sizes sizes)))) × (out.new ≡ (write_record_call out.old (view_sizes sizes) image.now).out) }
{
    c_record::tablegoose_write_record(out, sizes, image)
}

#[unsafe(no_mangle)]
pub extern "C" fn tablegoose_read_record(image: &mut [u8], bytes: &[u8]) -> Head
    ensures { (result ≡ head_struct (read_record_call image.old bytes.now).answer) × (image.new ≡ (read_record_call image.old bytes.now).image) }
{
    c_record::tablegoose_read_record(image, bytes)
}

#[unsafe(no_mangle)]
pub extern "C" fn tablegoose_record_header(first: &[u8], total: usize) -> Head
    ensures { result ≡ head_struct (header_call first.now total) }
{
    c_record::tablegoose_record_header(first, total)
}

#[unsafe(no_mangle)]
pub extern "C" fn tablegoose_memory_summary(
    sizes: Sizes,
    image: &[u8],
    index: usize,
) -> SummaryResult
    ensures { result ≡ summary_struct (summary_call (view_sizes sizes) image.now index) }
{
    c_record::tablegoose_memory_summary(sizes, image, index)
}

#[unsafe(no_mangle)]
pub extern "C" fn tablegoose_list_record(out: &mut [u8], bytes: &[u8]) -> Count
    ensures { (result ≡ count_struct (list_record_call out.old bytes.now).answer) × (out.new ≡ (list_record_call out.old bytes.now).out) }
{
    c_record::tablegoose_list_record(out, bytes)
}

#[unsafe(no_mangle)]
pub extern "C" fn tablegoose_list_input(out: &mut [u8], first: &[u8], total: usize) -> Count
    ensures { (result ≡ count_struct (list_input_call out.old first.now total).answer) × (out.new ≡ (list_input_call out.old first.now total).out) }
{
    c_record::tablegoose_list_input(out, first, total)
}
