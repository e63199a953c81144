//! The named-files machine: what the drive is to its host, with no word about sectors; its codes and its status.
#![tactic(auto)]

mod code;
mod status;
mod telling;

pub use code::Code;
pub use status::{Status, StatusLine};
pub use telling::{Telling, tells_as_the_machine};
