//! One to four drives with their disks on one bus, and what is promised of them as a whole.
#![tactic(auto)]

mod disk_bus;
mod powered;

pub use cbm_drive::{
    Bus, Change, Channels, Desk, Drive, Event, Line, Lines, Pace, Party, PlayFault, Way, Who,
};
pub use disk_bus::DiskBus;
pub use powered::{drive_with, into_disk};
