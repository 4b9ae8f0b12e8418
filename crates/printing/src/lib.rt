// What is printed of an operation's answer and of the bytes that it left.
#![tactic(auto)]

mod shown;

pub use shown::{Answered, FILLED, Left, Refused, Shown};
