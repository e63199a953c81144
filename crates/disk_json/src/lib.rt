//! What the JSON of several commands has: its line, sectors, files.
#![tactic(auto)]

mod lines;
mod named;
mod sector;

pub use lines::line;
pub use named::Named;
pub use sector::{Sector, sectors_of};
