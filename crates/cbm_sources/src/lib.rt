//! Files on images and in archives that are only read: D64 of all sizes, D71, D81, T64 and Lynx.
#![tactic(auto)]

mod disk;
mod fault;
mod files;
mod form;
mod held;
mod lines;
mod listing;
mod lynx;
mod record;
mod source;
mod tape;
mod trail;

pub use disk::Disk;
pub use fault::Fault;
pub use files::disk_file;
pub use form::{Form, sectors_lie_apart};
pub use held::{Held, held_from};
pub use listing::{Listed, listed_of};
pub use lynx::Lynx;
pub use source::{Contents, Source, SourceKind};
pub use tape::Tape;
pub use trail::chains_are_followed;
