//! Why a file is not an image of a 1541's disk, and the words for it.
use cbm_shell::{Foreign, foreign_of};

/// Why the image in a compressed file can't be read.
#[derive(Clone, Copy, Debug, PartialEq, Eq)]
pub enum NotUnpacked {
    /// The file ends too early, or breaks the rules of its format.
    Broken,
    /// It is compressed by a method that isn't supported, or encrypted.
    Unknown,
    /// Its checksum differs from that of its content.
    Checksum,
    /// It holds more bytes than any image.
    TooLong,
    /// It is an archive with several disk images.
    Several,
    /// It is an archive without a disk image.
    Without,
}

/// Why a file is not an image of a 1541's disk.
#[derive(Clone, Copy, Debug, PartialEq, Eq)]
pub enum NotImage {
    /// A TAP: the recording of a tape.
    Tape,
    /// A CRT: the image of a cartridge.
    Cartridge,
    /// A P00: a single file.
    SingleFile,
    /// A disk or an archive of another kind, or an unknown file.
    Other(Foreign),
    /// A compressed file.
    Packed(NotUnpacked),
}

/// How files begin that are neither disks nor archives.
const MARKS: [(&str, NotImage); 8] = [
    ("C64-TAPE-RAW", NotImage::Tape),
    ("C16-TAPE-RAW", NotImage::Tape),
    ("C64 CARTRIDGE", NotImage::Cartridge),
    ("C128 CARTRIDGE", NotImage::Cartridge),
    ("CBM2 CARTRIDGE", NotImage::Cartridge),
    ("VIC20 CARTRIDGE", NotImage::Cartridge),
    ("PLUS4 CARTRIDGE", NotImage::Cartridge),
    ("C64File\0", NotImage::SingleFile),
];

/// The kind of a file that is neither a disk nor an archive, by its first bytes; None of any other.
pub fn marked_as(bytes: &[u8]) -> Option<NotImage> {
    for (mark, kind) in &MARKS {
        if bytes.starts_with(mark.as_bytes()) {
            return Some(*kind);
        }
    }
    None
}

/// Why a file is not an image of a 1541's disk, by its first bytes and its size; None if it may be one.
pub fn not_image(bytes: &[u8]) -> Option<NotImage> {
    let foreign = foreign_of(bytes)?;
    Some(marked_as(bytes).unwrap_or(NotImage::Other(foreign)))
}

/// The words for a disk or an archive of another kind, with the way out.
fn foreign_words(foreign: Foreign) -> &'static str {
    match foreign {
        Foreign::T64 => "a T64, a tape archive",
        Foreign::P64 => "a P64, which holds flux pulses: convert it to a G64 first",
        Foreign::Nib => "a NIB, which holds raw tracks: convert it to a G64 first",
        Foreign::Gzip => "compressed with gzip: unpack it first",
        Foreign::Zip => "a ZIP archive: unpack it first",
        Foreign::D71 => "a D71, the disk of a 1571",
        Foreign::D81 => "a D81, the disk of a 1581",
        Foreign::Longest => "a D64 of 42 tracks: only 35 and 40 are supported",
        Foreign::LongWithErrors =>
            "a 40-track D64 with error bytes: only 35-track images can have error bytes",
        Foreign::Short => "shorter than any disk image: truncated, or not an image",
        Foreign::Unknown => "not a disk image: neither a G64 nor the size of a D64",
    }
}

/// The words for a compressed file.
fn packed_words(fault: NotUnpacked) -> &'static str {
    match fault {
        NotUnpacked::Broken => "compressed, but truncated or damaged",
        NotUnpacked::Unknown => "compressed in a way that is not supported",
        NotUnpacked::Checksum => "compressed, but its checksum is wrong",
        NotUnpacked::TooLong => "compressed, and larger than any image",
        NotUnpacked::Several => "a ZIP archive with several disk images: unpack it first",
        NotUnpacked::Without => "a ZIP archive without a disk image",
    }
}

impl NotImage {
    /// The words that complete "It is ..", with the way out.
    pub fn words(self) -> &'static str {
        match self {
            NotImage::Tape => "a TAP, the recording of a tape",
            NotImage::Cartridge => "a CRT, a cartridge image",
            NotImage::SingleFile => "a P00, a single file: `disk1541 put` adds it to a disk",
            NotImage::Other(foreign) => foreign_words(foreign),
            NotImage::Packed(fault) => packed_words(fault),
        }
    }
}
