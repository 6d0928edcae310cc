// A table's text, read byte by byte: a header line, and rows as in `$readmemb` files.
#![tactic(auto)]

pub mod bytes;
pub mod head;
pub mod reason;
pub mod scan;
