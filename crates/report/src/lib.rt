// The closing program's text, written into lent bytes: document 01's report of a closed epoch, and a refusal.
#![tactic(auto)]

mod line;
mod report;
mod text;

pub use report::{REPORT_ROOM, put_refused, write_report};
