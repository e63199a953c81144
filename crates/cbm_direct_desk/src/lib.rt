//! A drive with direct access on the serial bus.
#![tactic(auto)]

mod desk;
mod played;

pub use cbm_direct::{Access, DirectDos};
pub use desk::DirectDesk;
pub use played::{disk_of, drive_with, into_disk, play, play_alone, play_out};
