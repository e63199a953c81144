//! The calls of cbm_shell that look into images. What they promise stands there, and isn't said again, so that no caller's
//! proof carries it.
use cbm_bam::SectorSet;
use cbm_medium::Address;
use cbm_shell::texts::Charset;
use cbm_shell::{Converted, Info, Listed, ShellFault, listed_of, open_disk};
use cbm_volume::{Entry, Unsound};
use std::alloc::{AllocError, Global};

/// Whether the disk of an image is sound, or what is wrong with it first. Errors: `Image`, `Memory`.
pub fn check(alloc: Global, image: &[u8]) -> Result<Result<(), Unsound>, ShellFault> {
    cbm_shell::check(alloc, image)
}

/// What `check` answers, as a line. The one error is want of memory.
pub fn check_text(alloc: Global, answer: &Result<(), Unsound>) -> Result<Vec<u8>, AllocError> {
    cbm_shell::texts::check_text(alloc, answer)
}

/// What is wrong, as a line. The one error is want of memory.
pub fn unsound_text(alloc: Global, unsound: Unsound) -> Result<Vec<u8>, AllocError> {
    cbm_shell::texts::unsound_text(alloc, unsound)
}

/// The image in the other format, and what it lacks. Errors: those of `cbm_shell::convert`.
pub fn convert(alloc: Global, image: &[u8]) -> Result<Converted, ShellFault> {
    cbm_shell::convert(alloc, image)
}

/// The directory of an image, as lines. Errors: `Image`, `Refused`, `Memory`.
pub fn directory(
    alloc: Global,
    image: &[u8],
    charset: Charset,
    pattern: &[u8],
) -> Result<Vec<u8>, ShellFault> {
    cbm_shell::directory(alloc, image, charset, pattern)
}

/// The directory of an image as the drive sends it. Errors: `Image`, `Refused`, `Memory`.
pub fn raw_directory(alloc: Global, image: &[u8], pattern: &[u8]) -> Result<Vec<u8>, ShellFault> {
    cbm_shell::raw_directory(alloc, image, pattern)
}

/// The entries of an image's directory, empty slots too. Errors: `Image`, `Trouble`, `Memory`.
pub fn entries(alloc: Global, image: &[u8]) -> Result<Vec<Entry>, ShellFault> {
    cbm_shell::entries(alloc, image)
}

/// The entries of an image's directory up to where it breaks off or comes back to a sector of its own, and why it does.
/// Errors: `Image`, `Memory`.
pub fn listed(alloc: Global, image: &[u8]) -> Result<Listed, ShellFault> {
    let disk = open_disk(alloc, image)?;
    Ok(listed_of(alloc, &disk)?)
}

/// The bytes of the first file that a pattern means. Errors: `Image`, `NotFound`, `NotClosed`, `Trouble`, `Memory`.
pub fn file(alloc: Global, image: &[u8], pattern: &[u8]) -> Result<Vec<u8>, ShellFault> {
    cbm_shell::file(alloc, image, pattern)
}

/// The blocks of an entry's chain. Errors: `Image`, `Memory`.
pub fn file_blocks(alloc: Global, image: &[u8], entry: &Entry) -> Result<SectorSet, ShellFault> {
    cbm_shell::file_blocks(alloc, image, entry)
}

/// The blocks that GEOS keeps for an entry's file. Errors: `Image`, `Memory`.
pub fn geos_blocks(alloc: Global, image: &[u8], entry: &Entry) -> Result<SectorSet, ShellFault> {
    cbm_shell::geos_blocks(alloc, image, entry)
}

/// What the disk of an image is. Errors: `Image`, `Memory`.
pub fn info(alloc: Global, image: &[u8]) -> Result<Info, ShellFault> {
    cbm_shell::info(alloc, image)
}

/// A picture of the sectors of an image. Errors: `Image`, `Memory`.
pub fn picture(alloc: Global, image: &[u8]) -> Result<Vec<u8>, ShellFault> {
    cbm_shell::picture(alloc, image)
}

/// The bytes of a sector, or the code of what stands in their place; None where the image has no such track. Errors: `Image`,
/// `Memory`.
pub fn sector(
    alloc: Global,
    image: &[u8],
    at: Address,
) -> Result<Option<Result<[u8; 256], u8>>, ShellFault> {
    cbm_shell::sector(alloc, image, at)
}

/// A name as it is shown in a character set. The one error is want of memory.
pub fn name_text(alloc: Global, charset: Charset, name: &[u8]) -> Result<String, AllocError> {
    cbm_shell::texts::name_text(alloc, charset, name)
}

/// A name as PETSCII; None where a character of it is none that is typed. The one error is want of memory.
pub fn read_name(
    alloc: Global,
    charset: Charset,
    text: &str,
) -> Result<Option<Vec<u8>>, AllocError> {
    cbm_shell::texts::read_name(alloc, charset, text)
}
