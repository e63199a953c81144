// The DOS on the bus, as bytes, and of bytes.

use crate::addressee::Addressee;
use crate::desk::Desk;
use cbm_channel::{Channels, Dos};
use cbm_medium::Medium;
use std::alloc::AllocError;

impl<M: Medium> Desk<M> {
    ghost use Rattle.std.specs.Prelude.{◌≡◌, ◌++◌, OnOk, option_map};
    ghost use Rattle.cbm_channel.specs.Saved.{saved_dos, MayBeKept};
    ghost use Rattle.cbm_drive.specs.Saved.{saved_addressed, MayBeAddressed};
    ghost use Rattle.cbm_drive.specs.Loaded.{desk_at};

    /// Adds who is addressed, and what the DOS keeps beside its disk. The one error is want of memory.
    pub fn save(&self, out: &mut Vec<u8>) -> Result<(), AllocError>
        ensures saved { OnOk result (out.new.items ≡ out.old.items ++ (saved_addressed self.now.addressed ++ saved_dos self.now.dos)) }
        ensures addressed { OnOk result (MayBeAddressed self.now.addressed) }
        ensures kept { OnOk result (MayBeKept (M.seen self.now.dos.medium).tracks self.now.dos) }
    {
        self.addressee.save(out)?;
        self.dos.save(out)
    }

    /// The same of bytes, over this medium, and what follows them; None if they are none of it.
    pub fn load(medium: M, channels: Channels, bytes: &[u8]) -> Option<(Desk<M>, &[u8])>
    where
        M: Drop,
        ensures { option_map (λ x. (x.0, x.1.now)) result ≡ desk_at medium (M.seen medium).tracks bytes.now }
    {
        let (addressee, rest) = Addressee::load(bytes)?;
        let (dos, rest) = Dos::load(medium, channels, rest)?;
        Some((Desk { dos, addressee }, rest))
    }
}
