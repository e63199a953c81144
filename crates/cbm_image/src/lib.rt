//! The disk of an image: its format, what it is refused for, opening and saving it.
#![tactic(auto)]

mod any_disk;
mod fault;
mod kind;

pub use any_disk::AnyDisk;
pub use cbm_d64::{OF_35_TRACKS, OF_40_TRACKS, WITH_ERRORS};
pub use fault::ImageFault;
pub use kind::{Kind, kind_of};
