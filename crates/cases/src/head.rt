// The head of a case, as rust/vectors lays it out: where the operation, its numbers, the inputs' lengths and the buffers' rooms stand.
pub const HEAD_LENGTH: usize = 64;

// The label comes first.
pub const LABEL_LENGTH: usize = 24;

pub const OPERATION: usize = 24;

// Up to three numbers of the operation: epoch, mode, kind or key; roster, sen, master or lsn; csn, count or value.
pub const FIRST_NUMBER: usize = 28;

pub const SECOND_NUMBER: usize = 32;

pub const THIRD_NUMBER: usize = 36;

pub const FIRST_INPUT: usize = 44;

pub const SECOND_INPUT: usize = 48;

pub const THIRD_INPUT: usize = 52;

pub const OUT_ROOM: usize = 56;

pub const SECOND_ROOM: usize = 60;
