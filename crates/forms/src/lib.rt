// The forms of document 01 under one name: registers and sheets are handed on, and the verdicts of a closing stand here.
#![tactic(auto)]

mod verdict;

pub use examine::{are_records, count_set, is_sheet, offered_count};
pub use registers::{Draft, REGISTER_HEAD, Register, Writing, is_register, register_length};
pub use sheets::{
    MASTERS, Next, ONE_ROOM, SHEET_HEAD, Sheet, WriteSet, contents_length, length_with, next_body,
    next_set, put_body, put_entry, put_no_notices, put_notice, put_notices, put_sheet_start,
    sheet_length,
};
pub use verdict::{put_verdict, set_verdict, verdicts_length};
