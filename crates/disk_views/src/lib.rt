//! Pictures of disks for people: which file each sector is of, and what stands on a track.
#![tactic(auto)]

mod block;
mod circle;
mod colour;
mod grid;
mod owner;
mod svg;
mod track;

pub use block::{Block, Header};
pub use colour::state_of;
pub use grid::{Row, lettered, row_of};
pub use owner::{Owner, slots_at};
pub use svg::svg_of;
pub use track::{Circle, Counts, Part, circle_of, track_lines};
