//! One to four drives with direct access, each with its disk, on one bus.
#![tactic(auto)]

mod direct_bus;
mod two;

pub use cbm_direct_desk::{Access, DirectDesk, drive_with, into_disk};
pub use direct_bus::DirectBus;
pub use two::{disks_of, play_two};
