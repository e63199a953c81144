//! What a file is to the host: its type, and the definitions of files and disks.
#![tactic(auto)]

mod file_type;
mod padding;

pub use file_type::FileType;
pub use padding::{before_filler, padded};
