// An examined sheet, read and written, and how long one is in a stream.
#![tactic(auto)]

mod next;
mod set;
mod sheet;
mod stream;
mod writing;

pub use examine::SHEET_HEAD;
pub use next::{Next, next_body, next_set};
pub use set::WriteSet;
pub use sheet::{MASTERS, Sheet};
pub use stream::{contents_length, sheet_length};
pub use writing::{
    ONE_ROOM, length_with, put_body, put_entry, put_no_notices, put_notice, put_notices,
    put_sheet_start,
};
