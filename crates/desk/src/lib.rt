// The visit desk: a record entered into the open set, and the open set offered to the depot's sheet. The work is done by value; the functions
// that are lent the open set stand on it.
#![tactic(auto)]

mod entering;
mod lent;
mod offering;

pub use entering::{Entering, entered};
pub use lent::{enter, offer};
pub use offering::{Offering, offered};
