//! What the bytes of an image and of an entry say by themselves, with no disk opened.
#![tactic(auto)]

mod circles;
mod digits;
mod entries;
mod foreign;
mod formats;
mod geos;
mod maps;

pub use circles::{more_tracks, track_at, track_name};
pub use digits::hex;
pub use entries::{
    block_noun, count_files, first_meant, is_deleted, is_meant, number_meant, type_of, unfilled,
};
pub use foreign::{NotImage, NotUnpacked, marked_as, not_image};
pub use formats::{
    format_name, is_image_name, is_other_name, kind_of_name, kind_of_word, without_errors,
};
pub use geos::kind_name;
pub use maps::{DOLPHIN, SPEED, WideMap, wide_map};
