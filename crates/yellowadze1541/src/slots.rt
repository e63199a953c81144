//! Files by the slot of the directory in which their entry stands, whatever their names are, and changes that no command of the drive makes.
ghost use Rattle.std.specs.Prelude.{◌≡◌, ◌≤◌, ◌<◌, ◌⊎◌, ◌∷◌, [], ℕ, List, None, IfOk, IfErr, length, MatchResult, Some, not, ◌==◌};
ghost use Rattle.cbm_file.specs.Files.{Disk};
ghost use Rattle.cbm_file.specs.Types.{type_with};
ghost use Rattle.cbm_volume.specs.Holding.{EntryStandsAt, HasBytes};
ghost use Rattle.cbm_image.specs.Images.{kind_of, tracks_of, content_of, ImageHolds};
ghost use Rattle.cbm_device.specs.Answers.{answer_number, refusal_of, AreGiven, GivesBytes};
ghost use Rattle.cbm_device.specs.ImageDisks.{IsOpenRefusal};
ghost use Rattle.cbm_shell.specs.Undeleting.{IsUndeletedIn};
ghost use Rattle.cbm_shell.specs.Swapping.{AreSwappedIn, MissesSlotIn};
ghost use Rattle.cbm_shell.specs.Locking.{IsRetitled, IsRemarked};
ghost use Rattle.cbm_shell.specs.Editing.{IsUneditedIn};
ghost use Rattle.cbm_shell.specs.declared.fault.ShellFault.{ShellFault};
ghost use Rattle.cbm_slots.specs.InSlots.{IsRenamedInSlot, IsLockedInSlot, IsDeletedInSlot, IsCopiedInSlot, IsNotRenamedInSlot, IsNotLockedInSlot, IsNotDeletedInSlot, IsNotCopiedInSlot};
ghost use Rattle.yellowadze1541.specs.Changes.{IsRefusedNew};
ghost use Rattle.yellowadze1541.specs.Slots.{IsReadIn, IsSomeFault, IsUnreadIn};

use cbm_device::{DeviceRefusal, ImageDisk, entry, given, number};
use cbm_file::FileType;
use cbm_shell::{ShellFault, Swap, read_file};
use cbm_volume::Volume;
use std::alloc::Global;

/// The longest name, and the longest title.
const LONGEST: usize = 16;

/// How many bytes follow a title.
const MARK: usize = 5;

/// What was made of an image goes to the caller's room, or why nothing was made is reported.
pub(crate) fn handed(made: Result<Vec<u8>, ShellFault>, out: &mut [u8], needed: &mut usize) -> i32
    ensures { MatchResult made
        (λ v. (needed.new ≡ length v.items) × AreGiven result out.old out.new v.items)
        (λ fault. (result ≡ answer_number (refusal_of fault)) × (out.new ≡ out.old) × (needed.new ≡ needed.old)) }
{
    match made {
        Ok(bytes) => number(given(Ok(bytes), out, needed)),
        Err(fault) => DeviceRefusal::from(fault).number(),
    }
}

/// The bytes of the file in a slot, closed or not.
fn read(alloc: Global, image: &[u8], slot: u8) -> Result<Vec<u8>, DeviceRefusal>
    ensures held { MatchResult result (λ v. IsReadIn image.now slot v.items) (IsUnreadIn image.now slot) }
    ensures means { let kind = kind_of image.now in (d : Disk) (e : List ℕ) (bytes : List ℕ) → ImageHolds kind image.now d →
        EntryStandsAt (tracks_of kind image.now) (content_of kind image.now) slot e → HasBytes d slot bytes →
        MatchResult result (λ v. v.items ≡ bytes) (IsOpenRefusal image.now) }
{
    let entry = entry(alloc, image, slot)?;
    let volume = Volume::open(ImageDisk::open(alloc, image, true)?);
    match read_file(alloc, &volume, &entry) {
        Ok(bytes) => Ok(bytes),
        Err(fault) => Err(DeviceRefusal::from(fault)),
    }
}

/// The bytes of the file in a slot, counted from 0; of a relative file all records.
#[unsafe(no_mangle)]
pub extern "C" fn y1541_image_read(
    alloc: Global,
    image: &[u8],
    slot: u8,
    out: &mut [u8],
    needed: &mut usize,
) -> i32
    // Of any disk: what the chain of the entry in the slot holds to its end.
    ensures held { GivesBytes result out.old out.new needed.old needed.new (IsReadIn image.now slot) (IsUnreadIn image.now slot) }
    // A closed file without records on a sound disk is given byte for byte.
    ensures means { let kind = kind_of image.now in (d : Disk) (e : List ℕ) (bytes : List ℕ) → ImageHolds kind image.now d →
        EntryStandsAt (tracks_of kind image.now) (content_of kind image.now) slot e → HasBytes d slot bytes →
        GivesBytes result out.old out.new needed.old needed.new (λ got. got ≡ bytes) (IsOpenRefusal image.now) }
{
    number(given(read(alloc, image, slot), out, needed))
}

/// The file in a slot gets another name, of 1 to 16 bytes, and the new image is given.
#[unsafe(no_mangle)]
pub extern "C" fn y1541_image_rename(
    alloc: Global,
    image: &[u8],
    slot: u8,
    name: &[u8],
    out: &mut [u8],
    needed: &mut usize,
) -> i32
    ensures renamed { 1 ≤ length name.now → length name.now ≤ 16 → GivesBytes result out.old out.new needed.old needed.new
        (IsRenamedInSlot image.now slot name.now) (IsSomeFault (IsNotRenamedInSlot image.now slot name.now)) }
    ensures refused { (length name.now < 1) ⊎ (16 < length name.now) →
        IsRefusedNew result out.old out.new needed.old needed.new }
{
    if name.is_empty() || name.len() > LONGEST {
        return DeviceRefusal::Invalid.number();
    }
    handed(cbm_slots::rename(alloc, image, slot, name), out, needed)
}

/// The file in a slot is copied to another name, of 1 to 16 bytes, and the new image is given. The copy isn't locked.
#[unsafe(no_mangle)]
pub extern "C" fn y1541_image_copy(
    alloc: Global,
    image: &[u8],
    slot: u8,
    name: &[u8],
    out: &mut [u8],
    needed: &mut usize,
) -> i32
    ensures copied { 1 ≤ length name.now → length name.now ≤ 16 → GivesBytes result out.old out.new needed.old needed.new
        (IsCopiedInSlot image.now slot name.now) (IsSomeFault (IsNotCopiedInSlot image.now slot name.now)) }
    ensures refused { (length name.now < 1) ⊎ (16 < length name.now) →
        IsRefusedNew result out.old out.new needed.old needed.new }
{
    if name.is_empty() || name.len() > LONGEST {
        return DeviceRefusal::Invalid.number();
    }
    handed(cbm_slots::copy(alloc, image, slot, name), out, needed)
}

/// The file in a slot is locked against SCRATCH, or freed, and the new image is given.
#[unsafe(no_mangle)]
pub extern "C" fn y1541_image_lock(
    alloc: Global,
    image: &[u8],
    slot: u8,
    locked: u8,
    out: &mut [u8],
    needed: &mut usize,
) -> i32
    ensures { GivesBytes result out.old out.new needed.old needed.new
        (IsLockedInSlot image.now slot (not (locked == 0))) (IsSomeFault (IsNotLockedInSlot image.now slot)) }
{
    handed(
        cbm_slots::lock(alloc, image, slot, locked != 0),
        out,
        needed,
    )
}

/// The file in a slot is deleted, as the drive scratches it, and the new image is given.
#[unsafe(no_mangle)]
pub extern "C" fn y1541_image_delete(
    alloc: Global,
    image: &[u8],
    slot: u8,
    out: &mut [u8],
    needed: &mut usize,
) -> i32
    ensures { GivesBytes result out.old out.new needed.old needed.new
        (IsDeletedInSlot image.now slot) (IsSomeFault (IsNotDeletedInSlot image.now slot)) }
{
    handed(cbm_slots::delete(alloc, image, slot), out, needed)
}

/// The deleted file of a slot, or why it isn't given back.
fn undeleted(alloc: Global, image: &[u8], slot: u8, kind: FileType) -> Result<Vec<u8>, ShellFault>
    ensures { IfOk result (λ v. IsUndeletedIn image.now v.items slot kind) }
{
    match cbm_shell::undelete(alloc, image, slot, kind) {
        Ok(Some(image)) => Ok(image),
        Ok(None) => Err(ShellFault::NotFound),
        Err(fault) => Err(fault),
    }
}

/// The deleted file in a slot is given back with a type, 0 to 4, and the new image is given.
#[unsafe(no_mangle)]
pub extern "C" fn y1541_image_undelete(
    alloc: Global,
    image: &[u8],
    slot: u8,
    kind: u8,
    out: &mut [u8],
    needed: &mut usize,
) -> i32
    ensures given { (t : FileType) → type_with kind ≡ Some t → GivesBytes result out.old out.new needed.old needed.new
        (λ v. IsUndeletedIn image.now v slot t) (IsSomeFault (λ _. Unit {0})) }
    ensures refused { 4 < kind → IsRefusedNew result out.old out.new needed.old needed.new }
{
    let Some(kind) = FileType::from_number(kind) else {
        return DeviceRefusal::Invalid.number();
    };
    handed(undeleted(alloc, image, slot, kind), out, needed)
}

/// The entries of two slots change places, and the new image is given.
#[unsafe(no_mangle)]
pub extern "C" fn y1541_image_swap(
    alloc: Global,
    image: &[u8],
    first: u8,
    second: u8,
    out: &mut [u8],
    needed: &mut usize,
) -> i32
    ensures { let swaps = record { first = first; second = second } ∷ [] in GivesBytes result out.old out.new needed.old needed.new
        (AreSwappedIn image.now swaps) (IsSomeFault (IsUneditedIn image.now (MissesSlotIn image.now swaps))) }
{
    let swap = Swap { first, second };
    handed(cbm_shell::swap_entries(alloc, image, &[swap]), out, needed)
}

/// The disk gets another title, of at most 16 bytes, and the new image is given.
#[unsafe(no_mangle)]
pub extern "C" fn y1541_image_retitle(
    alloc: Global,
    image: &[u8],
    title: &[u8],
    out: &mut [u8],
    needed: &mut usize,
) -> i32
    ensures titled { length title.now ≤ 16 → GivesBytes result out.old out.new needed.old needed.new
        (IsRetitled image.now title.now) (IsSomeFault (IsUneditedIn image.now ⊥)) }
    ensures refused { 16 < length title.now → IsRefusedNew result out.old out.new needed.old needed.new }
{
    if title.len() > LONGEST {
        return DeviceRefusal::Invalid.number();
    }
    handed(cbm_shell::retitle(alloc, image, title), out, needed)
}

/// These five bytes, or as many of them as there are.
fn five(mark: &[u8]) -> [u8; 5]
    requires { length mark.now ≡ 5 }
    ensures { result ≡ mark.now }
{
    let mut bytes = [0; 5];
    bytes.copy_from_slice(mark);
    bytes
}

/// The disk gets other five bytes after its title, the id, a byte and the two of the DOS, and the new image is given.
#[unsafe(no_mangle)]
pub extern "C" fn y1541_image_remark(
    alloc: Global,
    image: &[u8],
    mark: &[u8],
    out: &mut [u8],
    needed: &mut usize,
) -> i32
    ensures marked { length mark.now ≡ 5 → GivesBytes result out.old out.new needed.old needed.new
        (IsRemarked image.now mark.now) (IsSomeFault (λ _. Unit {0})) }
    ensures refused { (length mark.now ≡ 5 → ⊥) → IsRefusedNew result out.old out.new needed.old needed.new }
{
    if mark.len() != MARK {
        return DeviceRefusal::Invalid.number();
    }
    handed(cbm_shell::remark(alloc, image, &five(mark)), out, needed)
}
