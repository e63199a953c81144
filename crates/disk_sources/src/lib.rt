//! Commands of `disk1541` over disks and archives that are only read: D64 of all sizes, D71, D81, T64, Lynx.
#![tactic(auto)]

mod converting;
mod end;
mod moving;
mod origin;
mod other;
mod showing;
mod taking;
mod transferring;

pub use converting::convert_image;
pub use showing::{Sight, is_for_all, seen};
pub use taking::{get, get_all};
pub use transferring::{Transfer, transfer_files};
