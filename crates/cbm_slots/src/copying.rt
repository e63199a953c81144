//! COPY: the drive's, of the one file that is meant.
ghost use Rattle.std.specs.Prelude.{◌≡◌, ◌≤◌, None, IfOk, IfErr, IfSome, OnOk, length};
ghost use Rattle.cbm_image.specs.Images.{kind_of, ChangesSectors};
ghost use Rattle.cbm_shell.specs.Images.{IsSoundImage};
ghost use Rattle.cbm_slots.specs.InSlots.{copy_text, IsPlaceOf, IsNowhere, IsDoubled, IsNotDoubled, IsNamedAs, IsNotNamedAs, IsCopiedInSlot, IsNotCopiedInSlot};

use crate::meant::{Meant, find_meant, has_name, is_named, refused};
use crate::spares::{Spares, spare_pair};
use cbm_channel::Code;
use cbm_shell::{DiskChange, Looks, ShellFault, change, dress, entries};
use cbm_volume::Entry;
use std::alloc::Global;

/// COPY of a name to another.
fn copy_text(new: &[u8; 2], old: &[u8; 2]) -> [u8; 8]
    ensures { result ≡ copy_text new.now old.now }
{
    [b'C', b'0', b':', new[0], new[1], b'=', old[0], old[1]]
}

/// The image with a copy of a file under a spare name. Errors: as of `dress` and `change`.
fn doubled(
    alloc: Global,
    image: &[u8],
    slot: u8,
    meant: &Meant,
    spares: Spares,
) -> Result<Vec<u8>, ShellFault>
    ensures doubled { IfOk result (λ v. IsDoubled image.now slot meant.now.name meant.now.blocks meant.now.is_locked spares.old spares.new v.items) }
    ensures sound { OnOk result (IsSoundImage (kind_of image.now) image.now) }
    ensures opens { IfOk result (λ v. ChangesSectors image.now v.items) }
    ensures fault { IfErr result (IsNotDoubled image.now slot) }
{
    let looks = Looks {
        name: &spares.old,
        blocks: meant.blocks,
        is_locked: false,
    };
    let hidden = dress(alloc, image, slot, looks)?;
    let text = copy_text(&spares.new, &spares.old);
    let copied = change(alloc, hidden.as_slice(), &DiskChange::Command(&text))?;
    let looks = Looks {
        name: &meant.name,
        blocks: meant.blocks,
        is_locked: meant.is_locked,
    };
    dress(alloc, copied.as_slice(), slot, looks)
}

/// Where a file stands, and how many blocks its entry says.
#[derive(Clone, Copy)]
struct Place {
    slot: u8,
    blocks: u16,
}

/// Where the file of a name stands, if a slot that has a number has it.
fn place_of(entries: &[Entry], name: &[u8]) -> Option<Place>
    ensures there { IfSome result (λ p. IsPlaceOf entries.now name.now p.slot p.blocks) }
    ensures none { result ≡ None → IsNowhere entries.now name.now }
{
    let mut slot = 0;
    'entries: while slot < u8::MAX {
        let entry = entries.get(slot as usize)?;
        if is_named(entry, name) {
            let blocks = entry.blocks();
            return Some(Place { slot, blocks });
        }
        slot += 1;
    }
    None
}

/// The image whose file of a spare name has another one. Errors: as of `entries` and `dress`; `NotFound`.
fn named(alloc: Global, image: &[u8], spare: &[u8], name: &[u8]) -> Result<Vec<u8>, ShellFault>
    requires { length name.now ≤ 16 }
    ensures named { IfOk result (λ v. IsNamedAs image.now spare.now name.now v.items) }
    ensures stays { IfOk result (λ v. IsSoundImage (kind_of image.now) v.items) }
    ensures opens { IfOk result (λ v. ChangesSectors image.now v.items) }
    ensures fault { IfErr result (IsNotNamedAs image.now spare.now) }
{
    let entries = entries(alloc, image)?;
    let Some(place) = place_of(entries.as_slice(), spare) else {
        return Err(ShellFault::NotFound);
    };
    let looks = Looks {
        name,
        blocks: place.blocks,
        is_locked: false,
    };
    dress(alloc, image, place.slot, looks)
}

/// Copies the file in a slot of an image under a name that no file has: both have names that the drive's COPY can say, while it copies. The copy isn't locked.
/// Errors: `Image`; `Trouble`, if the directory breaks off; `NotFound`, if the slot has no file; `Refused` with FILE EXISTS, if a
/// file has the name already; `Refused`, as the drive refuses COPY; `Unsound`, with what is wrong first; `Memory`.
pub fn copy(alloc: Global, image: &[u8], slot: u8, name: &[u8]) -> Result<Vec<u8>, ShellFault>
    requires { length name.now ≤ 16 }
    ensures copied { IfOk result (λ v. IsCopiedInSlot image.now slot name.now v.items) }
    ensures sound { OnOk result (IsSoundImage (kind_of image.now) image.now) }
    ensures opens { IfOk result (λ v. ChangesSectors image.now v.items) }
    ensures fault { IfErr result (IsNotCopiedInSlot image.now slot name.now) }
{
    let meant = find_meant(alloc, image, slot)?;
    if has_name(meant.entries.as_slice(), name) {
        return Err(refused(Code::FileExists));
    }
    let Some(spares) = spare_pair(meant.entries.as_slice()) else {
        return Err(refused(Code::FileExists));
    };
    let both = doubled(alloc, image, slot, &meant, spares)?;
    named(alloc, both.as_slice(), &spares.new, name)
}
