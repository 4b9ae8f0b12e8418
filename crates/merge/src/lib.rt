// The public operations, gathering, closing, the read check and the desk, in one place; what is proved of them, demand by demand, is told in
// specs/Demands.antt. Each stands in a crate of its own, so that a change rechecks little.
#![tactic(auto)]

pub use closing::close;
pub use desk::{enter, offer};
pub use gather::{notice, open, put};
pub use joining::join;
pub use reads::{check, check_reads};
pub use tags::tag;
