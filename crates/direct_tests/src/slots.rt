// Slots that a directory has or hasn't, and calls on them that a drive never makes.

ghost use Rattle.std.specs.Prelude.{◌≤◌, ◌<◌};

use crate::volumes::{
    copy_nothing, empty_volume, grow_too_far, has_slot, image_of, is_image, is_sound, leave_open,
    make_records, make_untitled, put_third, rename, room, scratch, volume_of,
};
use cbm_d64::D64Disk;
use cbm_volume::{Trouble, Volume};
use std::alloc::Global;
use std::test::Fail;
use test_images::{empty_image, place, put, stands};

/// An empty image with these bytes from a place on.
fn changed(alloc: Global, at: usize, bytes: &[u8]) -> Result<Vec<u8>, Fail> {
    let mut image = empty_image(alloc)?;
    put(&mut image, at, bytes);
    Ok(image)
}

/// The volume of a directory that comes back to its first sector.
fn looped(alloc: Global) -> Result<Volume<D64Disk>, Fail> {
    let image = changed(alloc, place(18, 1), &[18, 1])?;
    volume_of(alloc, image.as_slice())
}

#[test]
fn a_sector_of_the_directory_has_eight_slots(rt: HostRuntime) -> Result<(), Fail> {
    let empty = empty_volume(rt.alloc())?;
    assert!(rt; has_slot(&empty, 7) == Some(true));
    assert!(rt; has_slot(&empty, 8) == Some(false));
    let looped = looped(rt.alloc())?;
    assert!(rt; has_slot(&looped, 143) == Some(true));
    assert!(rt; has_slot(&looped, 144).is_none());
    Ok(())
}

/// The volume of a disk with eight names, and with no block free but on track 18.
fn no_block(alloc: Global) -> Result<Volume<D64Disk>, Fail> {
    let mut image = empty_image(alloc)?;
    put(&mut image, place(18, 0).wrapping_add(4), &[0; 68]);
    put(&mut image, place(18, 0).wrapping_add(76), &[0; 68]);
    for slot in 0..8usize {
        put(&mut image, place(18, 1).wrapping_add(32 * slot + 2), &[2]);
    }
    volume_of(alloc, image.as_slice())
}

/// Leaves a file open in each slot; whether each found room, and the directory grew by each ninth.
fn fill_directory(volume: &mut Volume<D64Disk>) -> Result<bool, Fail> {
    let mut is_right = true;
    for slot in 0..144u8 {
        let sectors = slot / 8 + 1;
        is_right = is_right
            && leave_open(volume)?
            && has_slot(volume, slot) == Some(true)
            && has_slot(volume, sectors.saturating_mul(8)) == Some(false);
    }
    Ok(is_right)
}

#[test]
fn room_for_a_file(rt: HostRuntime) -> Result<(), Fail> {
    let mut volume = empty_volume(rt.alloc())?;
    assert!(rt; room(&volume)? == (664, true));
    assert!(rt; fill_directory(&mut volume)?);
    // All slots have a name, and the directory has each sector of track 18.
    assert!(rt; room(&volume)? == (520, false));
    assert!(rt; !leave_open(&mut volume)?);
    assert!(rt; room(&volume)? == (520, false));
    assert!(rt; is_sound(&volume, 520)?);
    assert!(rt; room(&no_block(rt.alloc())?)? == (0, true));
    Ok(())
}

/// Whether calls on the ninth slot, which isn't there, and on the eighth, which is empty, change nothing.
fn stays_as_it_is(alloc: Global) -> Result<bool, Fail> {
    let mut volume = empty_volume(alloc)?;
    leave_open(&mut volume)?;
    let image = image_of(alloc, volume)?;
    let mut volume = volume_of(alloc, image.as_slice())?;
    rename(&mut volume, 8, b"NINTH")?;
    scratch(&mut volume, 8)?;
    scratch(&mut volume, 7)?;
    is_image(alloc, volume, image.as_slice())
}

#[test]
fn slots_without_a_file(rt: HostRuntime) -> Result<(), Fail> {
    assert!(rt; stays_as_it_is(rt.alloc())?);
    Ok(())
}

/// Whether the file in slot 0 is shown under this name.
fn is_named(volume: &Volume<D64Disk>, name: &[u8]) -> Result<bool, Fail> {
    Ok(volume.slot(0)?.is_some_and(|entry| entry.name() == name))
}

/// Whether a name with $A0 in it stands whole in the entry, and is shown as what stands before that.
fn is_cut_where_shown(alloc: Global) -> Result<bool, Fail> {
    let mut volume = empty_volume(alloc)?;
    leave_open(&mut volume)?;
    rename(&mut volume, 0, b"AB\xa0C")?;
    let is_named = is_named(&volume, b"AB")?;
    let image = image_of(alloc, volume)?;
    let field = place(18, 1).wrapping_add(5);
    Ok(is_named && stands(image.as_slice(), field, b"AB\xa0C\xa0"))
}

#[test]
fn a_name_ends_before_its_first_a0(rt: HostRuntime) -> Result<(), Fail> {
    assert!(rt; is_cut_where_shown(rt.alloc())?);
    Ok(())
}

/// Whether a copy of no file is a closed file of one block without a byte.
fn is_copied(alloc: Global) -> Result<bool, Fail> {
    let mut volume = empty_volume(alloc)?;
    let is_right = copy_nothing(&mut volume)? && is_sound(&volume, 663)?;
    let image = image_of(alloc, volume)?;
    let entry = place(18, 1);
    Ok(
        is_right
            && stands(
                image.as_slice(),
                entry.wrapping_add(2),
                &[0x82, 17, 0, b'C', 0xa0],
            )
            && stands(image.as_slice(), entry.wrapping_add(30), &[1, 0])
            && stands(image.as_slice(), place(17, 0), &[0, 1, 0]),
    )
}

#[test]
fn a_copy_of_nothing_has_a_block(rt: HostRuntime) -> Result<(), Fail> {
    assert!(rt; is_copied(rt.alloc())?);
    Ok(())
}

/// Whether a record past the greatest number, and one that isn't there, change nothing.
fn is_refused(alloc: Global) -> Result<bool, Fail> {
    let mut volume = empty_volume(alloc)?;
    make_records(&mut volume, 100)?;
    let image = image_of(alloc, volume)?;
    let mut volume = volume_of(alloc, image.as_slice())?;
    let is_refused = !put_third(&mut volume)? && !grow_too_far(&mut volume)?;
    Ok(is_refused && is_image(alloc, volume, image.as_slice())?)
}

#[test]
fn records_that_are_not_there(rt: HostRuntime) -> Result<(), Fail> {
    assert!(rt; is_refused(rt.alloc())?);
    Ok(())
}

/// Whether NEW with a title of no byte leaves an empty disk without one.
fn is_untitled(alloc: Global) -> Result<bool, Fail> {
    let mut volume = empty_volume(alloc)?;
    leave_open(&mut volume)?;
    make_untitled(&mut volume)?;
    let head = place(18, 0);
    let mut wanted = changed(alloc, head.wrapping_add(144), &[0xa0; 16])?;
    put(&mut wanted, head.wrapping_add(162), b"01");
    is_image(alloc, volume, wanted.as_slice())
}

#[test]
fn a_disk_without_a_title(rt: HostRuntime) -> Result<(), Fail> {
    assert!(rt; is_untitled(rt.alloc())?);
    Ok(())
}

/// Whether reading the label and counting the free blocks both tell that 18/0 doesn't read.
fn is_told(volume: &Volume<D64Disk>) -> bool {
    let wanted = Trouble {
        code: 23,
        track: 18,
        sector: 0,
    };
    matches!(volume.label(), Err(met) if met == wanted)
        && matches!(volume.free(), Err(met) if met == wanted)
}

/// The volume of an image with error bytes, whose map doesn't read.
fn unreadable(alloc: Global) -> Result<Volume<D64Disk>, Fail> {
    let mut image = empty_image(alloc)?;
    for _ in 0..683u16 {
        image.push(1)?;
    }
    put(&mut image, 175_205, &[5]);
    volume_of(alloc, image.as_slice())
}

#[test]
fn an_unreadable_map_is_told(rt: HostRuntime) -> Result<(), Fail> {
    let volume = unreadable(rt.alloc())?;
    assert!(rt; is_told(&volume));
    Ok(())
}
