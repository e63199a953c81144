//! Images that gzip or ZIP packed: they are read, and never written.
use crate::failure::Failure;
use crate::what::What;
use disk_facts::{NotImage, NotUnpacked, is_image_name, is_other_name, not_image};
use host_files::GREATEST_IMAGE;
use host_packed::{Member, PackFault, is_gzip, is_zip, members, unpacked};
use std::alloc::Global;

/// The most bytes of an unpacked image.
const MOST: usize = GREATEST_IMAGE as usize;

/// Why the image in a compressed file isn't read.
#[derive(Clone, Copy)]
enum Unread {
    /// The file is at fault.
    File(NotUnpacked),
    /// Memory ran out.
    Memory,
}

/// The reason that is reported for a fault of unpacking.
fn reason_of(fault: PackFault) -> Unread {
    match fault {
        PackFault::Broken => Unread::File(NotUnpacked::Broken),
        PackFault::Unknown => Unread::File(NotUnpacked::Unknown),
        PackFault::Checksum => Unread::File(NotUnpacked::Checksum),
        PackFault::TooLong => Unread::File(NotUnpacked::TooLong),
        PackFault::Memory => Unread::Memory,
    }
}

/// Whether a member of an archive is named as disks and archives are.
fn is_image(member: Member<'_>) -> bool {
    let name = std::str::from_utf8(member.name).unwrap_or("");
    is_image_name(name) || is_other_name(name)
}

/// How many members are named as images are, and the last of them.
fn images_in<'b>(members: &[Member<'b>]) -> (usize, Option<Member<'b>>) {
    let mut count: usize = 0;
    let mut last = None;
    for member in members {
        if is_image(*member) {
            count = count.wrapping_add(1);
            last = Some(*member);
        }
    }
    (count, last)
}

/// How many members are files, and the last of them.
fn files_in<'b>(members: &[Member<'b>]) -> (usize, Option<Member<'b>>) {
    let mut count: usize = 0;
    let mut last = None;
    for member in members {
        if !member.is_folder() {
            count = count.wrapping_add(1);
            last = Some(*member);
        }
    }
    (count, last)
}

/// The only member with the name of an image; otherwise the only member.
fn chosen<'b>(members: &[Member<'b>]) -> Result<Member<'b>, Unread> {
    match images_in(members) {
        (1, Some(member)) => return Ok(member),
        (0, _) => {}
        _ => return Err(Unread::File(NotUnpacked::Several)),
    }
    match files_in(members) {
        (1, Some(member)) => Ok(member),
        _ => Err(Unread::File(NotUnpacked::Without)),
    }
}

/// The image in an archive.
fn zipped(alloc: Global, bytes: &[u8]) -> Result<Vec<u8>, Unread> {
    let members = members(alloc, bytes).map_err(reason_of)?;
    let member = chosen(members.as_slice())?;
    member.bytes(alloc, MOST).map_err(reason_of)
}

/// What is packed.
fn image_in(alloc: Global, bytes: &[u8]) -> Result<Vec<u8>, Unread> {
    if is_zip(bytes) {
        zipped(alloc, bytes)
    } else {
        unpacked(alloc, bytes, MOST).map_err(reason_of)
    }
}

/// Whether bytes are packed; an image of a 1541's disk isn't, however it begins.
pub fn is_packed(bytes: &[u8]) -> bool {
    (is_gzip(bytes) || is_zip(bytes)) && not_image(bytes).is_some()
}

/// The image in a packed file: what gzip packed, or the one image of a ZIP archive. Errors: `Foreign`, where it isn't unpacked; `NoMemory`.
pub fn unpacked_image(alloc: Global, name: &str, bytes: &[u8]) -> Result<Vec<u8>, Failure> {
    match image_in(alloc, bytes) {
        Ok(image) => Ok(image),
        Err(Unread::File(fault)) => Err(Failure::named(
            alloc,
            What::Foreign(NotImage::Packed(fault), bytes.len()),
            name,
        )),
        Err(Unread::Memory) => Err(Failure::new(What::NoMemory)),
    }
}
