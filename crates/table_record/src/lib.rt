// The record of rows in a layout, and of a table's text.
#![tactic(auto)]

ghost use Rattle.std.specs.Prelude.{◌≡◌, Ok};
ghost use Rattle.image_geometry.specs.View.{layout_of};
ghost use Rattle.table_read.specs.View.{parsed_of};
ghost use Rattle.table_record.specs.Split.{rows_record, split_by, split_call};
ghost use Rattle.table_record.specs.View.{listed_of, split_as};

use image_geometry::Layout;
use image_state::Laid;
use rules::Refusal;
use std::fmt;
use table_read::{Fault, Table};

// The record of the image that the rows give in a layout: its bytes.
pub fn record_of(out: &mut [u8], layout: Layout<'_>, rows: &[u8]) -> Result<usize, Refusal>
    ensures { listed_of result out.new ≡ rows_record out.old (layout_of layout.entry) rows.now }
{
    let laid = Laid::laid_out(layout);
    let mut image = [0u8; rules::MAX_IMAGE as usize];
    laid.fill(&mut image, rows)?;
    let sizes = laid.sizes()?;
    record_codec::write_record(out, sizes, &image)
}

// What refuses the record of a table's text: the text's fault, or a call. (Not table_readback's enum: a split has no table behind a record, so it
// would have a variant that it never gives.)
#[derive(Clone, Copy, Debug, PartialEq, Eq)]
pub enum Refused {
    Text(Fault),
    Call(Refusal),
}

impl fmt::Display for Refused {
    fn fmt<W: fmt::Write>(&self, f: &mut fmt::Formatter<W>) -> fmt::Result {
        match self {
            Refused::Text(fault) => write!(f, "{}", fault),
            Refused::Call(refusal) => write!(f, "refused {}", refusal.number()),
        }
    }
}

// The record of a table.
fn split_table(out: &mut [u8], table: &Table) -> Result<usize, Refused>
    ensures { split_as result out.new ≡ split_by out.old (parsed_of (Ok table.now)) }
{
    record_of(out, table.layout(), table.trits()).map_err(Refused::Call)
}

// The record of a table's text: its bytes.
pub fn split_text(out: &mut [u8], text: &[u8]) -> Result<usize, Refused>
    ensures { split_as result out.new ≡ split_call out.old text.now }
{
    let table = table_read::read_table(text).map_err(Refused::Text)?;
    split_table(out, &table)
}
