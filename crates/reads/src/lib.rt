// A depot's own read check: whether what it read still stands in its register.
#![tactic(auto)]

mod checking;
mod find;
mod lists;
mod mode;

pub use lists::{check, check_reads};
