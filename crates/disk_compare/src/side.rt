//! One of two disks that are compared.
use cbm_image::{Kind, kind_of};
use cbm_medium::{Address, sectors_of};
use cbm_shell::{Info, Listed, ShellFault};
use disk_basics::Disk;
use disk_basics::calls::{convert, info};
use disk_facts::without_errors;
use std::alloc::Global;

/// How many bytes a sector has.
const SECTOR: usize = 256;

/// A disk, opened once, and what is known of it.
#[derive(Drop)]
pub struct Side {
    /// Its files.
    pub disk: Disk,
    /// Its title, its tracks, and which sectors don't read.
    pub info: Info,
    /// Its directory, up to where that breaks off.
    pub listed: Listed,
    // The bytes of its sectors one after another, with zeros for those that don't read.
    sectors: Vec<u8>,
}

/// The bytes of an image's sectors one after another.
fn sectors_in(alloc: Global, image: &[u8]) -> Result<Vec<u8>, ShellFault> {
    match kind_of(image) {
        Kind::D64 => Ok(Vec::from_slice(alloc, without_errors(image))?),
        Kind::G64 => Ok(convert(alloc, image)?.image),
    }
}

/// How many sectors come before those of a track.
fn count_before(track: u8) -> usize {
    let mut count: usize = 0;
    for earlier in 1..track {
        count = count.saturating_add(usize::from(sectors_of(earlier)));
    }
    count
}

impl Side {
    /// The disk of an image. Errors: `Image`, `Mistaken`, `Memory`.
    pub fn open(alloc: Global, image: &[u8]) -> Result<Side, ShellFault> {
        let disk = Disk::open(alloc, image)?;
        let listed = disk.listed(alloc)?;
        Ok(Side {
            disk,
            info: info(alloc, image)?,
            listed,
            sectors: sectors_in(alloc, image)?,
        })
    }

    /// The bytes of a sector; none where the image has no such track.
    pub fn bytes_at(&self, at: Address) -> &[u8] {
        let number = count_before(at.track()).saturating_add(usize::from(at.sector()));
        let from = number.saturating_mul(SECTOR);
        self.sectors
            .as_slice()
            .get(from..from.saturating_add(SECTOR))
            .unwrap_or(&[])
    }

    /// The code of what stands in place of a sector's bytes; None where it reads.
    pub fn error_at(&self, at: Address) -> Option<u8> {
        self.disk.error_at(at)
    }
}
