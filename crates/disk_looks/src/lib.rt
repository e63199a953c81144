//! The commands of `disk1541` that look at one image, and those that take files out of it.
#![tactic(auto)]

mod cvt;
mod describing;
mod geos;
mod getting;
mod map;
mod naming;
mod progress;
mod relative;
mod salvage;
mod sector;
mod selection;
mod strays;
mod taking;
mod taking_all;
mod track;

pub use cvt::cvt_of;
pub use describing::{Description, describe};
pub use getting::{OneFile, get_from, write_taken};
pub use map::{Mapping, show_map};
pub use progress::Progress;
pub use relative::{packed, packed_as};
pub use sector::show_sector;
pub use selection::Selection;
pub use taking::{Destination, Names, Saves, is_blank_art, save_as};
pub use taking_all::{get_all_from, make_folder};
pub use track::show_track;
