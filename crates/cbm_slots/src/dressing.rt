//! Another name, and a lock: changes of an entry alone.
ghost use Rattle.std.specs.Prelude.{◌≡◌, ◌≤◌, IfOk, IfErr, OnOk, length};
ghost use Rattle.cbm_image.specs.Images.{kind_of, ChangesSectors};
ghost use Rattle.cbm_shell.specs.Images.{IsSoundImage};
ghost use Rattle.cbm_slots.specs.InSlots.{IsRenamedInSlot, IsLockedInSlot, IsNotRenamedInSlot, IsNotLockedInSlot};

use crate::meant::{find_meant, has_name, refused};
use cbm_channel::Code;
use cbm_shell::{Looks, ShellFault, dress};
use std::alloc::Global;

/// Gives the file in a slot of an image another name, whichever it is. Errors: `Image`; `Trouble`, if the directory breaks off;
/// `NotFound`, if the slot has no file; `Refused` with FILE EXISTS, if a file has the name already; `Unsound`, with what is wrong
/// first; `Memory`.
pub fn rename(alloc: Global, image: &[u8], slot: u8, name: &[u8]) -> Result<Vec<u8>, ShellFault>
    requires { length name.now ≤ 16 }
    // The entry has the name, and nothing else of the image is changed.
    ensures renamed { IfOk result (λ v. IsRenamedInSlot image.now slot name.now v.items) }
    ensures sound { OnOk result (IsSoundImage (kind_of image.now) image.now) }
    ensures stays { IfOk result (λ v. IsSoundImage (kind_of image.now) v.items) }
    ensures opens { IfOk result (λ v. ChangesSectors image.now v.items) }
    ensures fault { IfErr result (IsNotRenamedInSlot image.now slot name.now) }
{
    let meant = find_meant(alloc, image, slot)?;
    if has_name(meant.entries.as_slice(), name) {
        return Err(refused(Code::FileExists));
    }
    let looks = Looks {
        name,
        blocks: meant.blocks,
        is_locked: meant.is_locked,
    };
    dress(alloc, image, slot, looks)
}

/// Locks the file in a slot of an image, or frees it. Errors: `Image`; `Trouble`, if the directory breaks off; `NotFound`, if the
/// slot has no file; `Unsound`, with what is wrong first; `Memory`.
pub fn lock(alloc: Global, image: &[u8], slot: u8, is_locked: bool) -> Result<Vec<u8>, ShellFault>
    // The entry is locked or not, and nothing else of the image is changed.
    ensures locked { IfOk result (λ v. IsLockedInSlot image.now slot is_locked v.items) }
    ensures sound { OnOk result (IsSoundImage (kind_of image.now) image.now) }
    ensures stays { IfOk result (λ v. IsSoundImage (kind_of image.now) v.items) }
    ensures opens { IfOk result (λ v. ChangesSectors image.now v.items) }
    ensures fault { IfErr result (IsNotLockedInSlot image.now slot) }
{
    let meant = find_meant(alloc, image, slot)?;
    let looks = Looks {
        name: &meant.name,
        blocks: meant.blocks,
        is_locked,
    };
    dress(alloc, image, slot, looks)
}
