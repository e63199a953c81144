//! What people do with disk images: look, take files out, put them in, and convert.
#![tactic(auto)]

mod broken;
mod changing;
mod fault;
mod images;
mod looking;
pub mod parts;
pub mod texts;

pub use broken::{
    DiskFlaw, Whose, error_at, flaws_of, forget, lost_of, map_around_geos, undelete, users_of,
};
pub use cbm_salvage::{Listed, Salvaged};
pub use changing::{
    DiskChange, Looks, Records, Swap, add_art, changed, changes, dress, lock, put_records, remark,
    retitle, swap_entries,
};
pub use fault::ShellFault;
pub use images::{
    Converted, Foreign, Form, Losses, Order, Wrapped, change, check, convert, directory, file,
    foreign_of, new_image, raw_directory, unwrapped, validate,
};
pub use looking::{
    Freed, Geos, Info, Mark, Named, entries, entries_of, file_blocks, file_of, geos_blocks,
    geos_of, get, info, info_of, list, listed_of, open_disk, picture, picture_of, raw_list,
    read_file, salvage, sector,
};
