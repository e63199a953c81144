//! BASIC programs of a C64, as LIST shows them.
#![tactic(auto)]

mod following;
mod laws;
mod lines;
mod links;
mod sign;
mod words;

pub use following::after_program;
pub use laws::programs_are_listed;
pub use lines::listing;
pub use links::is_program;
pub use sign::Sign;
