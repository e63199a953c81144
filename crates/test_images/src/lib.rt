//! For tests: disk images made byte by byte from the format's description, and how many blocks of one are lost.
#![tactic(auto)]

mod bytes;
mod empty;
mod lost;

pub use bytes::{place, put, stands};
pub use empty::{empty_image, formatted, wide_image};
pub use lost::lost_blocks;
