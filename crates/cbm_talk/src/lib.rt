//! Bytes to a channel of the drive and from it, as calls of its DOS, without the wires.
#![tactic(auto)]

mod hearing;
mod saying;

pub use hearing::hear;
pub use saying::said;
