//! What the calls on images are made of, for the crates that make other calls of them.
pub use crate::broken::{held_around, remapped, sound_image};
pub use crate::changing::locking::{entry_of, write_head};
pub use crate::changing::require_sound;
pub use crate::images::saved;
pub use crate::looking::{entries_or_none, is_free_at, use_chain, use_geos, used_sectors};
