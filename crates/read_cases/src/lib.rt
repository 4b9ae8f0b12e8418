// The read check, run on the numbers and the inputs of a case.
#![tactic(auto)]

mod checking;

pub use checking::{Checked, run_check, run_list};
