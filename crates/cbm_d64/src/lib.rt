//! A disk as a D64 image.
#![tactic(auto)]

mod disk;
mod fault;
mod image;

pub use disk::D64Disk;
pub use fault::D64Fault;
pub use image::{OF_35_TRACKS, OF_40_TRACKS, WITH_ERRORS};
