// The limits of the documents: what a form holds at most, and the room that its buffer must have.

pub const MAX_ROWS: usize = 1024;

pub const REGISTER_ROOM: usize = 28680;

pub const MAX_SETS: usize = 64;

// Records of a set, an open one too.
pub const MAX_RECORDS: u32 = 8;

pub const SHEET_ROOM: usize = 9240;

// The most sets that a notice may say, and the notice byte of a master that has none.
pub const MAX_NOTICE: u8 = 64;

pub const NO_NOTICE: u8 = 255;

pub const VERDICT_ROOM: usize = 320;

// Entries of a read check.
pub const MAX_READS: usize = 32;

// A tag's eleven digits.
pub const TAG_ROOM: usize = 11;
