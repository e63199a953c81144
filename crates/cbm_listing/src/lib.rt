//! The bytes of a listing, line by line.
#![tactic(auto)]

mod entry;
mod line;
mod listing;

pub use cbm_file::FileType;
pub use entry::Entry;
pub use listing::Listing;
