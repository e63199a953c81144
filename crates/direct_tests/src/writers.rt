// What a writer tells of its file.

ghost use Rattle.std.specs.Prelude.{◌≤◌};

use crate::volumes::{empty_volume, leave_open};
use cbm_d64::D64Disk;
use cbm_file::FileType;
use cbm_volume::Volume;
use std::test::Fail;

/// The slot of a new file; None if there is no room for one.
fn new_slot(volume: &mut Volume<D64Disk>) -> Result<Option<u8>, Fail> {
    Ok(
        volume
            .begin_write(FileType::Prg, b"NEW")?
            .map(|writer| writer.slot()),
    )
}

/// A closed file without a byte.
fn close_one(volume: &mut Volume<D64Disk>) -> Result<(), Fail> {
    if let Some(writer) = volume.begin_write(FileType::Prg, b"OLD")? {
        volume.finish(&writer)?;
    }
    Ok(())
}

/// What a writer in the place of the first file tells: its slot, whether it replaces a file, and whether it is empty before
/// and after a byte.
fn told(volume: &mut Volume<D64Disk>) -> Result<Option<(u8, bool, bool, bool)>, Fail> {
    let Some(mut writer) = volume.begin_replace(0)? else {
        return Ok(None);
    };
    let is_empty = volume.is_empty(&writer);
    volume.store(&mut writer, 0x41)?;
    let is_empty_later = volume.is_empty(&writer);
    Ok(Some((writer.slot(), writer.replaces(), is_empty, is_empty_later)))
}

#[test]
fn what_a_writer_tells(rt: HostRuntime) -> Result<(), Fail> {
    let mut volume = empty_volume(rt.alloc())?;
    close_one(&mut volume)?;
    assert!(rt; new_slot(&mut volume)? == Some(1));
    assert!(rt; leave_open(&mut volume)?);
    assert!(rt; new_slot(&mut volume)? == Some(3));
    assert!(rt; told(&mut volume)? == Some((0, true, true, false)));
    Ok(())
}
