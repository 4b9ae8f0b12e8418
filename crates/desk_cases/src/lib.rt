// The desk's operations, run on the numbers and the inputs of a case.
#![tactic(auto)]

mod sets;
mod visits;

pub use visits::{Entered, Offered, run_enter, run_offer, run_tag};
