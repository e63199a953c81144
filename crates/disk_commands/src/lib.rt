//! The command line of `disk1541`: its commands, the words that they take, and what help says of them.
#![tactic(auto)]

mod arguments;
mod asked;
mod commands;
mod examples;
mod help;
mod topics;
mod word;
mod words;

pub use arguments::{flag, given, option, parse};
pub use asked::other_name;
pub use commands::{Verb, verb_of};
pub use help::help_for;
pub use topics::topic_of;
