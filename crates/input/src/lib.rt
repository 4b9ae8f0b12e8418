// The closing program's input: a register, and the sheet of all sheets joined.
#![tactic(auto, using(crate::specs::Reading::sheet))]

mod join;
mod reading;

pub use join::read_sheets;
pub use reading::read_register;
