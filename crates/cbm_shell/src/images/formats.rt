//! Files that are no image of a 1541's disk, known by their first bytes and their size.
ghost use Rattle.std.specs.Prelude.{◌≡◌, Some, IfSome};
ghost use Rattle.cbm_image.specs.Images.{kind_of, image_fault};
ghost use Rattle.cbm_shell.specs.Foreign.{is_ours, begun_as, sized_as, or_else, foreign_of};

use cbm_image::{Kind, OF_35_TRACKS, OF_40_TRACKS, WITH_ERRORS, kind_of};

/// What a file is that is no image of a 1541's disk.
#[derive(Clone, Copy, Debug, PartialEq, Eq)]
pub enum Foreign {
    /// A T64: files of a tape.
    T64,
    /// A P64: the pulses of a disk.
    P64,
    /// A NIB: the bytes of a disk's tracks as they were read.
    Nib,
    /// A file that gzip packed.
    Gzip,
    /// A ZIP archive.
    Zip,
    /// A D71: the disk of a 1571.
    D71,
    /// A D81: the disk of a 1581.
    D81,
    /// A D64 of 42 tracks.
    Longest,
    /// A D64 of 40 tracks with error bytes.
    LongWithErrors,
    /// It has fewer bytes than any image.
    Short,
    /// None of these.
    Unknown,
}

/// Whether a file of this format and size may be an image of a 1541's disk.
fn is_ours(kind: Kind, size: usize) -> bool
    ensures { result ≡ is_ours kind size }
{
    match kind {
        Kind::G64 => true,
        Kind::D64 => size == OF_35_TRACKS || size == WITH_ERRORS || size == OF_40_TRACKS,
    }
}

/// What a file is by its first bytes.
fn begun_as(image: &[u8]) -> Option<Foreign>
    ensures { result ≡ begun_as image.now }
{
    if image.starts_with(b"C64") {
        Some(Foreign::T64)
    } else if image.starts_with(b"P64-1541") {
        Some(Foreign::P64)
    } else if image.starts_with(b"MNIB-1541") {
        Some(Foreign::Nib)
    } else if image.starts_with(b"\x1f\x8b") {
        Some(Foreign::Gzip)
    } else if image.starts_with(b"PK\x03\x04") {
        Some(Foreign::Zip)
    } else {
        None
    }
}

/// What a file is by its size.
fn sized_as(size: usize) -> Foreign
    ensures { result ≡ sized_as size }
{
    if size == 349_696 || size == 351_062 {
        Foreign::D71
    } else if size == 819_200 || size == 822_400 {
        Foreign::D81
    } else if size == 205_312 || size == 206_114 {
        Foreign::Longest
    } else if size == 197_376 {
        Foreign::LongWithErrors
    } else if size < OF_35_TRACKS {
        Foreign::Short
    } else {
        Foreign::Unknown
    }
}

/// The first answer, or else the second.
fn or_else(first: Option<Foreign>, second: Foreign) -> Foreign
    ensures { result ≡ or_else first second }
{
    match first {
        Some(foreign) => foreign,
        None => second,
    }
}

/// What a file is that is no image of a 1541's disk: by its first bytes, or else by its size. None of one that begins as a G64
/// or has the size of a D64.
pub fn foreign_of(image: &[u8]) -> Option<Foreign>
    ensures told { result ≡ foreign_of image.now }
    // What is known so is refused as an image.
    ensures refused { IfSome result (λ _. image_fault (kind_of image.now) image.now ≡ Some 1) }
{
    if is_ours(kind_of(image), image.len()) {
        return None;
    }
    Some(or_else(begun_as(image), sized_as(image.len())))
}
