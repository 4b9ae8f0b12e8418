// Gathering and closing, each operation run on the numbers and the inputs of a case, and what is shown of what it answered and left.
#![tactic(auto)]

mod head;
mod operation;

pub use head::{
    FIRST_INPUT, FIRST_NUMBER, HEAD_LENGTH, LABEL_LENGTH, OPERATION, OUT_ROOM, SECOND_INPUT,
    SECOND_NUMBER, SECOND_ROOM, THIRD_INPUT, THIRD_NUMBER,
};
pub use operation::{ClosedShown, run_close, run_join, run_notice, run_open, run_put};
pub use printing::FILLED;
