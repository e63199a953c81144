//! The sectors of a disk, their faults, and the medium that holds them.
#![tactic(auto)]

mod address;
pub mod codes;
mod failing;
mod fault;
mod geometry;
mod link;
mod medium;
mod steady;

pub use address::{Address, sectors_of};
pub use failing::Failing;
pub use fault::{Fault, Trouble, is_of_header};
pub use geometry::Geometry;
pub use link::{Link, chains_are_followed, read_linked, writes_elsewhere_change_no_chain};
pub use medium::Medium;
pub use steady::Steady;
