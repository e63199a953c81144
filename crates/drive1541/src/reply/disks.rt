//! The disks of a talk, from their images and to them.

use super::failure::{FailedAt, ReplyFailure};
use super::words::Words;
use crate::saving::{Saving, save_alone};
use cbm_image::{AnyDisk, ImageFault};
use disk_facts::not_image;
use host_files::{GREATEST_IMAGE, read_file};
use std::fs;

/// The disks of a talk, and the images that they are of.
#[derive(Drop)]
pub struct Opened {
    /// The disks, in the order of the command line.
    pub disks: Vec<AnyDisk>,
    /// Their images as they were read.
    pub images: Vec<Vec<u8>>,
}

/// Reads the image of the drive at a place, if it isn't longer than any is.
fn read_image(rt: &HostRuntime, place: usize, name: &str) -> Result<Vec<u8>, ReplyFailure> {
    let of_file = |error| ReplyFailure::of_file(error, FailedAt::Image(place));
    let file = fs::open(rt, name).map_err(of_file)?;
    match read_file(rt.alloc(), file, GREATEST_IMAGE) {
        Ok(Some(image)) => Ok(image),
        Ok(None) => Err(ReplyFailure::TooLong(place)),
        Err(error) => Err(of_file(error)),
    }
}

/// The disk of an image of the drive at a place.
fn disk_of(
    rt: &HostRuntime,
    place: usize,
    image: &[u8],
    is_protected: bool,
) -> Result<AnyDisk, ReplyFailure> {
    if let Some(why) = not_image(image) {
        return Err(ReplyFailure::Foreign(place, why));
    }
    match AnyDisk::open(rt.alloc(), image, is_protected) {
        Ok(disk) => Ok(disk),
        Err(ImageFault::Format(number)) => Err(ReplyFailure::Image(place, number)),
        Err(ImageFault::Memory) => Err(ReplyFailure::NoMemory),
    }
}

impl Opened {
    /// Adds the disk of the drive at a place.
    fn add(
        &mut self,
        rt: &HostRuntime,
        place: usize,
        name: &str,
        is_protected: bool,
    ) -> Result<(), ReplyFailure> {
        let image = read_image(rt, place, name)?;
        let disk = disk_of(rt, place, image.as_slice(), is_protected)?;
        self.keep(disk, image)
    }

    /// Keeps a disk and its image.
    fn keep(&mut self, disk: AnyDisk, image: Vec<u8>) -> Result<(), ReplyFailure> {
        self.disks.push(disk).map_err(|_| ReplyFailure::NoMemory)?;
        self.images.push(image).map_err(|_| ReplyFailure::NoMemory)
    }
}

/// The disks of the command line, in its order.
pub fn open_disks(rt: &HostRuntime, words: &Words<'_>) -> Result<Opened, ReplyFailure> {
    let mut opened = Opened {
        disks: Vec::new(rt.alloc()),
        images: Vec::new(rt.alloc()),
    };
    for (place, seat) in words.seats().iter().enumerate() {
        opened.add(rt, place, seat.image, words.is_read_only())?;
    }
    Ok(opened)
}

/// Saves the disk of the drive at a place.
fn save_disk(
    rt: &HostRuntime,
    place: usize,
    disk: &AnyDisk,
    image: &str,
    old: &[u8],
    out: &str,
) -> Result<(), ReplyFailure> {
    let new = disk
        .save(rt.alloc(), disk.kind())
        .map_err(|_| ReplyFailure::NoMemory)?;
    let saving = Saving {
        image,
        old,
        out,
        new: new.as_slice(),
    };
    match save_alone(rt, saving) {
        Ok(true) => Ok(()),
        Ok(false) => Err(ReplyFailure::Changed(place)),
        Err(error) => Err(ReplyFailure::of_file(error, FailedAt::Out(place))),
    }
}

/// Saves each disk that is to be saved, in the order of the command line. Where one can't be, the others are saved all the same, and
/// the answer is the first failure.
pub fn save_disks(
    rt: &HostRuntime,
    disks: &[AnyDisk],
    images: &[Vec<u8>],
    words: &Words<'_>,
) -> Result<(), ReplyFailure> {
    let mut answer = Ok(());
    let seats = words.seats();
    for (place, (seat, (disk, old))) in seats.iter().zip(disks.iter().zip(images)).enumerate() {
        if let Some(out) = seat.out {
            let saved = save_disk(rt, place, disk, seat.image, old.as_slice(), out);
            if answer.is_ok() {
                answer = saved;
            }
        }
    }
    answer
}
