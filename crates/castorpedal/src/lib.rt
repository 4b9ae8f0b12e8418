// The operations for C and Rust, under the names of include/castorpedal.h: each is a thin call, with the same promise in numbers.
// Kinds and modes are bytes here, and answers structs of numbers, which C knows too.
#![tactic(auto)]

mod answer;
mod check;
mod epoch;
mod gathering;
mod visits;
