//! The sectors on a track: headers and data blocks in group code, each after a sync mark.
#![tactic(auto)]

mod block;
mod fresh;
mod group;
mod header;
mod indexed;
mod layout;
mod sector;

pub use fresh::{fresh_track, track_bytes};
pub use group::decoding_undoes_code;
pub use indexed::IndexedTrack;
pub use sector::{fill_sector, id_of, read_sector, write_sector};
