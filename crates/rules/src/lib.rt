// The vocabulary of the documents: marks, rows, records, reads and the desk's open set as values, and the answers of the operations.
// The rules themselves are the definitions in specs/.
#![tactic(auto)]

mod answer;
mod desk;
mod limit;
mod mark;
mod row;

pub use answer::{Closed, Failure, Reason, Refusal, Verdict};
pub use desk::OpenSet;
pub use limit::{
    MAX_NOTICE, MAX_READS, MAX_RECORDS, MAX_ROWS, MAX_SETS, NO_NOTICE, REGISTER_ROOM, SHEET_ROOM,
    TAG_ROOM, VERDICT_ROOM,
};
pub use mark::Mark;
pub use row::{Kind, Read, Record, Row, UnknownKind};
