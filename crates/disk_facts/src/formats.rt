//! Formats of images.
use cbm_image::{Kind, OF_35_TRACKS, WITH_ERRORS, kind_of};
use std::path::Path;

/// The words that say a format.
const FORMATS: [(&str, Kind); 4] = [
    ("d64", Kind::D64),
    ("D64", Kind::D64),
    ("g64", Kind::G64),
    ("G64", Kind::G64),
];

/// The format that a word says; None where it says none.
pub fn kind_of_word(word: &str) -> Option<Kind> {
    for (name, kind) in &FORMATS {
        if *name == word {
            return Some(*kind);
        }
    }
    None
}

/// The format that an image's name says by its ending; None where it says none.
pub fn kind_of_name(image: &str) -> Option<Kind> {
    match Path::new(image).extension() {
        Some(ending) => kind_of_word(ending),
        None => None,
    }
}

/// A name without the ending that gzip adds.
fn unpacked_name(path: &str) -> &str {
    match path.strip_suffix(".gz") {
        Some(name) => name,
        None => path.strip_suffix(".GZ").unwrap_or(path),
    }
}

/// Whether a file is named as images are, packed ones too, or as ZIP archives, which may have one.
pub fn is_image_name(path: &str) -> bool {
    let ending = Path::new(path).extension().unwrap_or("");
    kind_of_name(unpacked_name(path)).is_some() || ending.eq_ignore_ascii_case("zip")
}

/// The endings of the names of disks and archives of other kinds.
const OTHERS: [&str; 4] = ["d71", "d81", "t64", "lnx"];

/// Whether a file is named as disks and archives of other kinds are, packed ones too.
pub fn is_other_name(path: &str) -> bool {
    let ending = Path::new(unpacked_name(path)).extension().unwrap_or("");
    for other in &OTHERS {
        if other.eq_ignore_ascii_case(ending) {
            return true;
        }
    }
    false
}

/// An image; a D64 with error bytes without them.
pub fn without_errors(image: &[u8]) -> &[u8] {
    if image.len() == WITH_ERRORS {
        image.get(..OF_35_TRACKS).unwrap_or(image)
    } else {
        image
    }
}

/// How an image's format is called.
pub fn format_name(image: &[u8]) -> &'static str {
    match kind_of(image) {
        Kind::G64 => "G64",
        Kind::D64 if image.len() == WITH_ERRORS => "D64 with error bytes",
        Kind::D64 => "D64",
    }
}
