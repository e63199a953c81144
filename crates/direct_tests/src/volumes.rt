// Calls of volumes, which promise nothing here: what a call ensures would stay in each goal after it.

ghost use Rattle.std.specs.Prelude.{◌≤◌, ◌<◌, length};

use cbm_d64::D64Disk;
use cbm_file::FileType;
use cbm_volume::Volume;
use std::alloc::Global;
use std::test::Fail;
use test_images::empty_image;

/// The volume of a D64 image.
pub fn volume_of(alloc: Global, image: &[u8]) -> Result<Volume<D64Disk>, Fail> {
    Ok(Volume::open(D64Disk::from_bytes(alloc, image, false)?))
}

/// An empty volume of 35 tracks.
pub fn empty_volume(alloc: Global) -> Result<Volume<D64Disk>, Fail> {
    let image = empty_image(alloc)?;
    volume_of(alloc, image.as_slice())
}

/// The image of a volume.
pub fn image_of(alloc: Global, volume: Volume<D64Disk>) -> Result<Vec<u8>, Fail> {
    Ok(volume.into_medium().to_bytes(alloc)?)
}

/// Whether a volume has the image of another one.
pub fn is_image(alloc: Global, volume: Volume<D64Disk>, other: &[u8]) -> Result<bool, Fail> {
    let image = image_of(alloc, volume)?;
    Ok(image.as_slice() == other)
}

/// Whether the disk is sound, with so many free blocks.
pub fn is_sound(volume: &Volume<D64Disk>, free: u16) -> Result<bool, Fail> {
    Ok(volume.check().is_ok() && volume.free()? == free)
}

/// Whether the directory has this slot; None if it breaks off before.
pub fn has_slot(volume: &Volume<D64Disk>, slot: u8) -> Option<bool> {
    match volume.slot(slot) {
        Ok(entry) => Some(entry.is_some()),
        Err(_) => None,
    }
}

/// How many blocks are free, and whether there is room for a name.
pub fn room(volume: &Volume<D64Disk>) -> Result<(u16, bool), Fail> {
    let room = volume.room()?;
    Ok((room.blocks, room.slot))
}

/// Opens a new file that is never closed, if there is room for it.
pub fn leave_open(volume: &mut Volume<D64Disk>) -> Result<bool, Fail> {
    Ok(volume.begin_write(FileType::Seq, b"A")?.is_some())
}

/// Names the file in a slot.
pub fn rename(volume: &mut Volume<D64Disk>, slot: u8, name: &[u8]) -> Result<(), Fail>
    requires { length name.now ≤ 16 }
{
    Ok(volume.rename(slot, name)?)
}

/// Scratches the file in a slot.
pub fn scratch(volume: &mut Volume<D64Disk>, slot: u8) -> Result<(), Fail> {
    Ok(volume.scratch(slot)?)
}

/// Copies no file.
pub fn copy_nothing(volume: &mut Volume<D64Disk>) -> Result<bool, Fail> {
    Ok(volume.copy(FileType::Prg, b"C", &[])?)
}

/// Makes the relative file R with records of this length.
pub fn make_records(volume: &mut Volume<D64Disk>, record_length: u8) -> Result<Option<u8>, Fail>
    requires { (1 ≤ record_length) × (record_length ≤ 254) }
{
    Ok(volume.make_records(b"R", record_length)?)
}

/// Lets the file in slot 0 grow until it has record 65,536, which is too much.
pub fn grow_too_far(volume: &mut Volume<D64Disk>) -> Result<bool, Fail> {
    Ok(volume.grow_records(0, 65_536)?)
}

/// Writes a letter into record 3 of the file in slot 0, if that is there.
pub fn put_third(volume: &mut Volume<D64Disk>) -> Result<bool, Fail> {
    Ok(volume.write_record(0, 3, 1, b"X")?.is_some())
}

/// NEW with a title of no byte.
pub fn make_untitled(volume: &mut Volume<D64Disk>) -> Result<(), Fail> {
    Ok(volume.new_disk(b"", Some(*b"01"))?)
}
