//! The words that the commands take.

pub mod changing;
pub mod looking;
