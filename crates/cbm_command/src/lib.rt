//! The texts of OPEN and of commands, names and patterns.
#![tactic(auto)]

mod command;
mod command_text;
mod head;
mod name;
mod names;
mod open_text;
mod opening;
mod pattern;
mod refusal;
mod text;

pub use command::Command;
pub use command_text::parse_command;
pub use name::Name;
pub use names::Names;
pub use open_text::parse_open;
pub use opening::{Mode, Opening, Wanted};
pub use pattern::matches;
pub use refusal::Refusal;
