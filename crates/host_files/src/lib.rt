//! Files of the host.
#![tactic(auto)]

mod beside;
mod folders;
mod left;
mod names;
mod whole;

pub use beside::{Sync, replace, save, save_among, save_by};
pub use folders::{Kind, has_other_names, kind_of, names_in, open, own_kind_of, path_of};
pub use left::Leftovers;
pub use names::{name_of, text_of};
pub use whole::{GREATEST_IMAGE, read_file, read_whole};
