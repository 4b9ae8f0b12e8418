// Joining two sheets: the sheet of both sheets' offers, written straight into the lent bytes, over the forms' promises alone.
#![tactic(auto)]

mod held;
mod joined;

pub use joined::{join, join_into};
