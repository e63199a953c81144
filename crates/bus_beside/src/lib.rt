//! A host as it is and a tidy one, side by side: whether the first one's lines are the other's wherever a drive heeds them.
#![tactic(auto)]

mod amiss;
mod answer;
mod beside;
mod court;
mod drives;
mod heeding;
mod loosely;
mod moves;
mod others;
mod plays;
mod seat;
mod wired;

pub use amiss::Amiss;
pub use beside::Beside;
pub use loosely::{Loosely, Unkept};
pub use seat::Seat;
