// The rows of the next register: what a row becomes, which is put next, and all of them put, over the forms' promises alone.
#![tactic(auto)]

mod becoming;
mod rows;

pub use rows::Committing;
