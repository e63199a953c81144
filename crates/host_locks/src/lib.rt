//! Programs that change one file come one after the other, and a file isn't taken for another one.
#![tactic(auto)]

mod lock;
mod place;

pub use lock::lock_beside;
pub use place::{is_same, place_of};
