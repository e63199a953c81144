//! The commands of `disk1541` that make images, put files on them and convert them.
#![tactic(auto)]

mod blanks;
mod building;
mod converting;
mod cvt;
mod putting;
mod stored;

pub use blanks::{Blank, make};
pub use building::{Build, build_image};
pub use converting::{Conversion, convert_from};
pub use cvt::with_geos;
pub use putting::{HostFiles, require_files, tell_empty, with_files};
pub use stored::{Stored, with_stored};
