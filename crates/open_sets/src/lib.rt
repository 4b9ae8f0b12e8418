// The desk's open set as a form: examined, searched, with a record more, and empty. The only place that knows how it is laid out.
#![tactic(auto)]

mod examining;
mod reading;
mod writing;

pub use examining::{is_full, is_open_set, offered_length};
pub use reading::has_key;
pub use writing::{empty_set, with_record};
