//! Files that gzip or ZIP packed, unpacked into memory: RFC 1951 (deflate), RFC 1952 (gzip), and ZIP's stored and deflated members.
#![tactic(auto)]

mod bits;
mod checksum;
mod code;
mod fault;
mod gzip;
mod inflate;
mod zip;

pub use fault::PackFault;
pub use gzip::{is_gzip, unpacked};
pub use zip::{Member, is_zip, members};
