//! All entries of a directory, and everything that is wrong with a disk.
ghost use Rattle.std.specs.Prelude.{◌≡◌, ◌≤◌, ◌<◌, ◌⊎◌, ◌++◌, List, None, length, map, drop, OnOk, IfOk, IfErr, MatchResult};
ghost use Rattle.cbm_medium.specs.Place.{Place};
ghost use Rattle.cbm_image.specs.Images.{kind_of, content_of};
ghost use Rattle.cbm_shell.specs.Images.{disk_tracks};
ghost use Rattle.cbm_shell.specs.Flaws.{flaws_of};
ghost use Rattle.cbm_device.specs.Answers.{answer_number};
ghost use Rattle.yellowadze1541.specs.Looks.{entry_spelled};
ghost use Rattle.yellowadze1541.specs.Entries.{flaw_spelled, number_of_whose, slot_of_whose, after_trouble, ListsEntries, IsEntryList, IsFlawList};
ghost use Rattle.cbm_device.specs.ImageDisks.{IsOpenRefusal};

use crate::images;
use crate::shapes::{Entry, Flaw};
use cbm_device::{DeviceRefusal, ImageDisk, number};
use cbm_shell::{DiskFlaw, ShellFault, Whose, flaws_of, listed_of};
use cbm_volume::{Trouble, Volume};
use std::alloc::Global;

/// Entries as C has them. The one error is `Memory`.
fn spelled(alloc: Global, entries: &[cbm_volume::Entry]) -> Result<Vec<Entry>, DeviceRefusal>
    ensures ok { IfOk result (λ v. v.items ≡ map entry_spelled entries.now) }
    ensures err { IfErr result (λ r. r ≡ DeviceRefusal.Memory) }
{
    let mut spelled = Vec::new(alloc);
    let mut rest = entries;
    'entries: while let Some((entry, more)) = rest.split_first() {
        if spelled.push(images::spelled(entry)).is_err() {
            return Err(DeviceRefusal::Memory);
        }
        rest = more;
    }
    Ok(spelled)
}

/// Items go to the caller's room, if it is large enough, and how many they are is reported. The one error is `NoRoom`.
fn hand_out<T: Copy>(items: &[T], out: &mut [T], count: &mut usize) -> Result<(), DeviceRefusal>
    ensures count { count.new ≡ length items.now }
    ensures ok { OnOk result (out.new ≡ items.now ++ drop (length items.now) out.old) }
    ensures err { IfErr result (λ r. (r ≡ DeviceRefusal.NoRoom) × (out.new ≡ out.old) × (length out.old < length items.now)) }
{
    *count = items.len();
    if out.len() < items.len() {
        return Err(DeviceRefusal::NoRoom);
    }
    out[..items.len()].copy_from_slice(items);
    Ok(())
}

/// The answer after entries: 0, or the status of what breaks the directory off.
fn after(trouble: Option<Trouble>) -> i32
    ensures { result ≡ after_trouble trouble }
{
    match trouble {
        Some(trouble) => DeviceRefusal::from(trouble).number(),
        None => 0,
    }
}

/// The entries of an image's directory, and the answer after them.
#[derive(Drop)]
struct Listing {
    items: Vec<Entry>,
    status: i32,
}

/// All entries of an image's directory, as C has them. Errors: `NoImage`, `Memory`.
fn list_all(alloc: Global, image: &[u8]) -> Result<Listing, DeviceRefusal>
    ensures ok { IfOk result (λ l. ListsEntries image.now l.items.items l.status) }
    ensures err { IfErr result (IsOpenRefusal image.now) }
{
    let volume = Volume::open(ImageDisk::open(alloc, image, true)?);
    let Ok(listed) = listed_of(alloc, &volume) else {
        return Err(DeviceRefusal::Memory);
    };
    let items = spelled(alloc, listed.entries.as_slice())?;
    Ok(Listing {
        items,
        status: after(listed.trouble),
    })
}

/// All entries of an image's directory, those of empty slots too, up to where it breaks off.
#[unsafe(no_mangle)]
pub extern "C" fn y1541_image_entries(
    alloc: Global,
    image: &[u8],
    out: &mut [Entry],
    count: &mut usize,
) -> i32
    ensures { IsEntryList image.now result out.old out.new count.old count.new }
{
    let listing = match list_all(alloc, image) {
        Ok(listing) => listing,
        Err(refusal) => return refusal.number(),
    };
    match hand_out(listing.items.as_slice(), out, count) {
        Ok(()) => listing.status,
        Err(refusal) => refusal.number(),
    }
}

/// Whose sectors led to a flaw, as a number, and the slot of the file.
fn whose(whose: Whose) -> (u8, u16)
    ensures { result ≡ (number_of_whose whose, slot_of_whose whose) }
{
    match whose {
        Whose::Disk => (0, 0),
        Whose::Directory => (1, 0),
        Whose::File(slot) => (2, slot),
    }
}

/// A flaw as C has it.
fn flaw_spelled(flaw: &DiskFlaw) -> Flaw
    ensures { result ≡ flaw_spelled flaw.now }
{
    let (whose, slot) = whose(flaw.whose);
    Flaw {
        what: flaw.what.number,
        track: flaw.what.track,
        sector: flaw.what.sector,
        whose,
        slot,
        before: flaw.before,
    }
}

/// Flaws as C has them. The one error is `Memory`.
fn flaws_spelled(alloc: Global, flaws: &[DiskFlaw]) -> Result<Vec<Flaw>, DeviceRefusal>
    ensures ok { IfOk result (λ v. v.items ≡ map flaw_spelled flaws.now) }
{
    let mut spelled = Vec::new(alloc);
    let mut rest = flaws;
    'flaws: while let Some((flaw, more)) = rest.split_first() {
        if spelled.push(flaw_spelled(flaw)).is_err() {
            return Err(DeviceRefusal::Memory);
        }
        rest = more;
    }
    Ok(spelled)
}

/// All that is wrong with an image's disk, as C has it. Errors: `NoImage`, `Memory`; a status, if a sector doesn't read any more.
fn all_flaws(alloc: Global, image: &[u8]) -> Result<Vec<Flaw>, DeviceRefusal>
    ensures { IfOk result (λ v. v.items ≡ map flaw_spelled (flaws_of (disk_tracks image.now) (content_of (kind_of image.now) image.now))) }
{
    let volume = Volume::open(ImageDisk::open(alloc, image, true)?);
    match flaws_of(alloc, &volume) {
        Ok(flaws) => flaws_spelled(alloc, flaws.as_slice()),
        Err(fault) => Err(DeviceRefusal::from(fault)),
    }
}

/// Everything that is wrong with the disk of an image, in the order in which a check looks.
#[unsafe(no_mangle)]
pub extern "C" fn y1541_image_flaws(
    alloc: Global,
    image: &[u8],
    out: &mut [Flaw],
    count: &mut usize,
) -> i32
    ensures { IsFlawList image.now result out.old out.new count.old count.new }
{
    match all_flaws(alloc, image) {
        Ok(flaws) => number(hand_out(flaws.as_slice(), out, count)),
        Err(refusal) => refusal.number(),
    }
}
