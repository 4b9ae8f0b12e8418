// Whether bytes are a sheet, whether they are the records of a set that can be offered, and whether a kind may have a value: every rule of
// document 01's form, tested.
#![tactic(auto)]

mod contents;
mod head;
mod records;
mod sheet;

pub use contents::{ENTRY, count_set};
pub use head::{NOTICES, SHEET_HEAD};
pub use records::{RECORD, are_records, kind_and_value_ok, offered_count};
pub use sheet::is_sheet;
