// Sheets: a table is filled from the bytes of a sheet, or the sheet is refused.
#![tactic(auto)]

mod chains;
mod fault;
mod layout;
mod marks;
mod read;

pub use fault::{ReadFault, SheetFault};
pub use read::read_sheet;
