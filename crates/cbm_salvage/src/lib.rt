//! What can be read of damaged disks: chains of sectors up to where they break off, or come back to a sector of their own.
#![tactic(auto)]

mod listing;
mod salvaging;
mod trail;

pub use listing::{Listed, listed_of};
pub use salvaging::{Salvaged, salvage};
