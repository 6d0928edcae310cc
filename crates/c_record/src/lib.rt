// Image records for callers in C and Rust: writing and reading one, its head, its summaries and the lister's text.
#![tactic(auto)]

ghost use Rattle.std.specs.Prelude.{◌≡◌, length};
ghost use Rattle.rules.specs.Record.{record_bytes};
ghost use Rattle.rules.specs.Refusals.{write_record_refusal};
ghost use Rattle.rules.specs.Answers.{answer_of, write_record_call, read_record_call, header_call, summary_call, list_record_call};
ghost use Rattle.rules.specs.Beside.Stored.{list_input_call};
ghost use Rattle.record_sizes.specs.View.{view_sizes};
ghost use Rattle.record_codec.specs.View.{view_head};
ghost use Rattle.record_listing.specs.Summary.{view_summarized};
ghost use Rattle.c_net.specs.View.{count_struct};
ghost use Rattle.c_record.specs.View.{head_struct, summary_struct};

use c_net::Count;
use record_listing::summary::Summary;
use record_sizes::Sizes;
use rules::Refusal;

// A refusal's number, or 0 and a record's sizes.
#[repr(C)]
#[derive(Clone, Copy)]
pub struct Head {
    pub number: u32,
    pub sizes: Sizes,
}

// A refusal's number, or 0 and what stands in a memory.
#[repr(C)]
#[derive(Clone, Copy)]
pub struct SummaryResult {
    pub number: u32,
    pub summary: Summary,
}

pub fn head_result(answer: Result<Sizes, Refusal>) -> Head
    ensures { result ≡ head_struct (view_head answer) }
{
    let (number, sizes) = c_net::parts(answer, Sizes::default());
    Head { number, sizes }
}

fn summary_result(answer: Result<Summary, Refusal>) -> SummaryResult
    ensures { result ≡ summary_struct (view_summarized answer) }
{
    let (number, summary) = c_net::parts(answer, Summary::default());
    SummaryResult { number, summary }
}

// Writes the record of an image; how many bytes it has.
pub fn tablegoose_write_record(out: &mut [u8], sizes: Sizes, image: &[u8]) -> Count
    ensures { (result ≡ count_struct (answer_of (write_record_refusal (length out.old) (view_sizes sizes) image.now) (record_bytes (view_sizes sizes)))) × (out.new ≡ (write_record_call out.old (view_sizes sizes) image.now).out) }
{
    c_net::count_result(record_codec::write_record(out, sizes, image))
}

// Reads a record: its sizes, and its image into lent room.
pub fn tablegoose_read_record(image: &mut [u8], bytes: &[u8]) -> Head
    ensures { (result ≡ head_struct (read_record_call image.old bytes.now).answer) × (image.new ≡ (read_record_call image.old bytes.now).image) }
{
    head_result(record_codec::read_record(image, bytes))
}

// The sizes of a record of `total` bytes whose first are given.
pub fn tablegoose_record_header(first: &[u8], total: usize) -> Head
    ensures { result ≡ head_struct (header_call first.now total) }
{
    head_result(record_codec::record_header(first, total))
}

// What stands in a memory of an image.
pub fn tablegoose_memory_summary(sizes: Sizes, image: &[u8], index: usize) -> SummaryResult
    ensures { result ≡ summary_struct (summary_call (view_sizes sizes) image.now index) }
{
    summary_result(record_listing::summary::memory_summary(sizes, image, index))
}

// The lister's text for a record; how many bytes it has.
pub fn tablegoose_list_record(out: &mut [u8], bytes: &[u8]) -> Count
    ensures { (result ≡ count_struct (list_record_call out.old bytes.now).answer) × (out.new ≡ (list_record_call out.old bytes.now).out) }
{
    c_net::count_result(record_listing::list_record(out, bytes))
}

// The same for an input of `total` bytes, of which the first are given.
pub fn tablegoose_list_input(out: &mut [u8], first: &[u8], total: usize) -> Count
    ensures { (result ≡ count_struct (list_input_call out.old first.now total).answer) × (out.new ≡ (list_input_call out.old first.now total).out) }
{
    c_net::count_result(record_listing::list_input(out, first, total))
}
