//! An image that is looked at, with its disk and its directory.
use cbm_shell::Listed;
use disk_basics::Disk;

/// An image with its disk, which is opened once: to decode a G64 takes longer than most looks.
#[derive(Clone, Copy)]
pub struct Seen<'s> {
    /// The image's name.
    pub name: &'s str,
    /// Its bytes.
    pub image: &'s [u8],
    /// Its disk.
    pub disk: &'s Disk,
    /// Its directory, up to where that breaks off.
    pub listed: &'s Listed,
}
