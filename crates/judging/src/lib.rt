// What a closing decides: whether the sheet is complete, which sets are fit, who wins a key, and what the committed sets apply.
#![tactic(auto)]

mod committed;
mod completeness;
mod fit;
mod judge;
mod recorded;
mod table;

pub use committed::{Committed, Write};
pub use completeness::complete;
pub use judge::Judged;
pub use table::Table;
