// Station tags: read, and written. What they are is said in `rules` specs/Tag.antt.
#![tactic(auto)]

mod reading;
mod table;
mod writing;

pub use reading::read_tag;
pub use writing::tag;
