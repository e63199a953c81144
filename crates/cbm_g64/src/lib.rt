//! A disk as a G64 image: its tracks as circles of bits.
#![tactic(auto)]

mod checks;
mod circles;
mod copying;
mod disk;
mod fault;
mod image;
mod numbers;

pub use disk::G64Disk;
pub use fault::G64Fault;
