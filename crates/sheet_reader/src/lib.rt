//! Reads a grammar sheet, says what it says to a scan and to a reader, and prints it in its normal layout.
#![tactic(auto)]

mod copies;
mod parts;
mod print;
mod printer;
mod read;
mod scan_order;
mod sheet;
mod token_text;

pub use outline_data::{LimitKind, SheetFault};
pub use print::print_sheet;
pub use read::read_sheet;
pub use scan_order::ScanOrder;
pub use sheet::Sheet;
