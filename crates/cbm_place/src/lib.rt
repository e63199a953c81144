//! Where a file's blocks lie: a file is moved to blocks that are named.
#![tactic(auto)]

mod bam;
mod blocks;
mod carving;
mod chain;
mod laying;
mod moving;
mod placing;
mod room;

pub use blocks::blocks_of;
pub use carving::carve;
pub use placing::place;
pub use room::{Room, room_of};
