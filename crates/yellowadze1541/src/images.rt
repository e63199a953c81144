//! What is looked for in an image.
ghost use Rattle.std.specs.Prelude.{◌≡◌, Ok, false};
ghost use Rattle.cbm_file.specs.Files.{Disk};
ghost use Rattle.cbm_machine.specs.Machines.{start};
ghost use Rattle.cbm_image.specs.Images.{kind_of, tracks_of, ImageHolds};
ghost use Rattle.cbm_shell.specs.Reading.{Gets};
ghost use Rattle.cbm_shell.specs.Listing.{IsSent};
ghost use Rattle.cbm_device.specs.Answers.{GivesBytes};
ghost use Rattle.cbm_device.specs.Looking.{IsAccepted, IsLookRefused, IsUnsent, IsUngot};
ghost use Rattle.yellowadze1541.specs.Looks.{entry_spelled, IsCheck, IsTitle, IsEntry, IsSector};

use crate::shapes::{Entry, Place, Title, flag};
use cbm_device::{DeviceRefusal, file, give, given, list, number};
use cbm_volume::Unsound;
use std::alloc::Global;
use std::ops::Range;

/// Where an entry has its name.
const NAME: Range<usize> = 3..19;

/// The version of the library: major, minor and patch, a byte each.
const VERSION: u32 = 0x00_04_00;

/// The version of the library, a byte each for major, minor and patch.
#[unsafe(no_mangle)]
pub extern "C" fn y1541_version() -> u32
    ensures { result ≡ 1024 }
{
    VERSION
}

/// What a check says.
fn told(unsound: Unsound) -> Place
    ensures what { result.what ≡ unsound.number }
    ensures track { result.track ≡ unsound.track }
    ensures sector { result.sector ≡ unsound.sector }
{
    Place {
        what: unsound.number,
        track: unsound.track,
        sector: unsound.sector,
    }
}

/// Whether the disk of an image is sound, or what is wrong with it first.
#[unsafe(no_mangle)]
pub extern "C" fn y1541_image_check(alloc: Global, image: &[u8], first: &mut Place) -> i32
    ensures { IsCheck image.now result first.old first.new }
{
    match cbm_device::check(alloc, image) {
        Ok(Ok(())) => 0,
        Ok(Err(unsound)) => {
            *first = told(unsound);
            DeviceRefusal::Unsound.number()
        }
        Err(refusal) => refusal.number(),
    }
}

/// What 18/0 says of a disk.
fn shown(heading: &cbm_device::Heading) -> Title
    ensures title { result.title ≡ heading.now.label.title }
    ensures mark { result.mark ≡ heading.now.label.mark }
    ensures free { result.free ≡ heading.now.free }
{
    let mut title = [0; 16];
    title.copy_from_slice(&heading.label.title);
    let mut mark = [0; 5];
    mark.copy_from_slice(&heading.label.mark);
    Title {
        free: heading.free,
        title,
        mark,
    }
}

/// The title of an image's disk, its id, and how many blocks are free.
#[unsafe(no_mangle)]
pub extern "C" fn y1541_image_title(alloc: Global, image: &[u8], title: &mut Title) -> i32
    ensures { IsTitle image.now result title.old title.new }
{
    match cbm_device::title(alloc, image) {
        Ok(found) => {
            *title = shown(&found);
            0
        }
        Err(refusal) => refusal.number(),
    }
}

/// An entry, field by field.
pub(crate) fn spelled(entry: &cbm_volume::Entry) -> Entry
    ensures { result ≡ entry_spelled entry.now }
{
    let bytes = entry.bytes();
    let mut name = [0; 16];
    name.copy_from_slice(&bytes[NAME]);
    Entry {
        blocks: entry.blocks(),
        kind: bytes[0] % 16,
        closed: flag(entry.is_closed()),
        locked: flag(entry.is_locked()),
        record_length: entry.record_length(),
        name,
        track: bytes[1],
        sector: bytes[2],
    }
}

/// The entry of a slot of an image's directory, counted from 0.
#[unsafe(no_mangle)]
pub extern "C" fn y1541_image_entry(alloc: Global, image: &[u8], slot: u8, entry: &mut Entry) -> i32
    ensures { IsEntry image.now slot result entry.old entry.new }
{
    match cbm_device::entry(alloc, image, slot) {
        Ok(found) => {
            *entry = spelled(&found);
            0
        }
        Err(refusal) => refusal.number(),
    }
}

/// The directory as the drive sends it, with the files that match a pattern; an empty pattern asks for all.
#[unsafe(no_mangle)]
pub extern "C" fn y1541_image_list(
    alloc: Global,
    image: &[u8],
    pattern: &[u8],
    out: &mut [u8],
    needed: &mut usize,
) -> i32
    ensures sent { let kind = kind_of image.now in (d : Disk) → ImageHolds kind image.now d →
        let m = start d false (tracks_of kind image.now) in
        GivesBytes result out.old out.new needed.old needed.new (IsSent pattern.now m) (IsUnsent image.now pattern.now m) }
    // Of any disk:
    ensures refused { GivesBytes result out.old out.new needed.old needed.new (λ _. IsAccepted image.now) (IsLookRefused image.now) }
{
    number(given(list(alloc, image, pattern), out, needed))
}

/// The bytes of the first file that matches a pattern, of any type.
#[unsafe(no_mangle)]
pub extern "C" fn y1541_image_file(
    alloc: Global,
    image: &[u8],
    pattern: &[u8],
    out: &mut [u8],
    needed: &mut usize,
) -> i32
    ensures got { (d : Disk) → ImageHolds (kind_of image.now) image.now d →
        GivesBytes result out.old out.new needed.old needed.new (Gets d pattern.now) (IsUngot image.now d pattern.now) }
    // Of any disk:
    ensures refused { GivesBytes result out.old out.new needed.old needed.new (λ _. IsAccepted image.now) (IsLookRefused image.now) }
{
    number(given(file(alloc, image, pattern), out, needed))
}

/// The bytes of a sector.
#[unsafe(no_mangle)]
pub extern "C" fn y1541_image_sector(
    alloc: Global,
    image: &[u8],
    track: u8,
    sector: u8,
    out: &mut [u8],
) -> i32
    ensures { IsSector image.now track sector result out.old out.new }
{
    let mut needed = 0;
    match cbm_device::sector(alloc, image, track, sector) {
        Ok(bytes) => number(give(&bytes, out, &mut needed)),
        Err(refusal) => refusal.number(),
    }
}
