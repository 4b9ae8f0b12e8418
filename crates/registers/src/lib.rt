// The register's form: examined, read and written here, and nowhere else is a row's place known.
#![tactic(auto)]

mod register;
mod writing;

pub use register::{REGISTER_HEAD, Register, is_register, register_length};
pub use writing::{Draft, Writing};
