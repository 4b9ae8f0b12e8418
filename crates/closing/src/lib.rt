// Closing an epoch, over the forms' promises alone.
#![tactic(auto)]

mod epoch;
mod verdicts;

pub use epoch::close;
