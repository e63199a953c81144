//! Files by the slot of the directory in which their entry stands, for those whose names no command of the drive can say, or that share one with another file.
#![tactic(auto)]

mod copying;
mod deleting;
mod dressing;
mod meant;
mod retyping;
mod spares;

pub use copying::copy;
pub use deleting::delete;
pub use dressing::{lock, rename};
pub use retyping::retype;
