//! DELETE: the drive's SCRATCH, of the one file that is meant.
ghost use Rattle.std.specs.Prelude.{◌≡◌, IfOk, IfErr, OnOk};
ghost use Rattle.cbm_image.specs.Images.{kind_of, ChangesSectors};
ghost use Rattle.cbm_shell.specs.Images.{IsSoundImage};
ghost use Rattle.cbm_slots.specs.InSlots.{scratch_text, IsDeletedInSlot, IsNotDeletedInSlot};

use crate::meant::{find_meant, refused};
use crate::spares::spare_name;
use cbm_channel::Code;
use cbm_shell::{DiskChange, Looks, ShellFault, change, dress};
use std::alloc::Global;

/// SCRATCH of a name.
fn scratch_text(name: &[u8; 2]) -> [u8; 5]
    ensures { result ≡ scratch_text name.now }
{
    [b'S', b'0', b':', name[0], name[1]]
}

/// Deletes the file in a slot of an image: it gets a name that no other file has, the drive scratches that, and the empty entry
/// gets its own name again, under which it can be given back. Errors: `Image`;
/// `Trouble`, if the directory breaks off; `NotFound`, if the slot has no file; `Refused` with WRITE PROTECT ON, if it is locked;
/// `Refused`, as the drive refuses SCRATCH; `Unsound`, with what is wrong first; `Memory`.
pub fn delete(alloc: Global, image: &[u8], slot: u8) -> Result<Vec<u8>, ShellFault>
    ensures deleted { IfOk result (λ v. IsDeletedInSlot image.now slot v.items) }
    ensures sound { OnOk result (IsSoundImage (kind_of image.now) image.now) }
    ensures opens { IfOk result (λ v. ChangesSectors image.now v.items) }
    ensures fault { IfErr result (IsNotDeletedInSlot image.now slot) }
{
    let meant = find_meant(alloc, image, slot)?;
    if meant.is_locked {
        return Err(refused(Code::WriteProtected));
    }
    let Some(spare) = spare_name(meant.entries.as_slice()) else {
        return Err(refused(Code::FileExists));
    };
    let looks = Looks {
        name: &spare,
        blocks: meant.blocks,
        is_locked: false,
    };
    let hidden = dress(alloc, image, slot, looks)?;
    let text = scratch_text(&spare);
    let scratched = change(alloc, hidden.as_slice(), &DiskChange::Command(&text))?;
    let looks = Looks {
        name: &meant.name,
        blocks: meant.blocks,
        is_locked: false,
    };
    dress(alloc, scratched.as_slice(), slot, looks)
}
