//! Disks made of images, without what these calls promise: a promise is a fact in every goal after it, and a time needs none.
use crate::disks::failed;
use cbm_d64::D64Disk;
use cbm_g64::G64Disk;
use cbm_medium::Medium;
use std::alloc::Global;
use std::io;
use test_images::empty_image;

/// The disk of a D64 image.
pub fn d64(alloc: Global, image: &[u8]) -> io::Result<D64Disk> {
    match D64Disk::from_bytes(alloc, image, false) {
        Ok(disk) => Ok(disk),
        Err(_) => Err(failed()),
    }
}

/// An empty disk of 35 tracks.
pub fn empty(alloc: Global) -> io::Result<D64Disk> {
    let image = empty_image(alloc)?;
    d64(alloc, image.as_slice())
}

/// The disk of a G64 image.
pub fn g64(alloc: Global, image: &[u8]) -> io::Result<G64Disk> {
    match G64Disk::from_bytes(alloc, image, false) {
        Ok(disk) => Ok(disk),
        Err(_) => Err(failed()),
    }
}

/// The G64 image of a disk of 35 tracks.
pub fn circles(alloc: Global, disk: &D64Disk) -> io::Result<Vec<u8>> {
    if disk.tracks() != 35 {
        return Err(failed());
    }
    match G64Disk::from_sectors(alloc, disk, [65, 66]) {
        Ok(image) => Ok(image),
        Err(_) => Err(failed()),
    }
}
