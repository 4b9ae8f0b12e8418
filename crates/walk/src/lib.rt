// Two sheets walked together in csn order: which set is next, how many distinct ones there are, and what spoils the sheet that they are joined to.
#![tactic(auto)]

mod clash;
mod notices;
mod place;
mod spoil;
mod tally;
mod walk;

pub use notices::notice_together;
pub use place::{Place, advance};
pub use spoil::joined_to;
pub use walk::Walk;
