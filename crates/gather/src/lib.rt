// Gathering: open, put and notice, over the forms' promises alone.
#![tactic(auto)]

mod adding;
mod offer;
mod one;
mod opening;

pub use adding::{notice, put};
pub use opening::open;
