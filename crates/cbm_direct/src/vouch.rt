ghost use Rattle.std.specs.Prelude.{◌≡◌};
ghost use Rattle.cbm_direct.specs.declared.access.Access.TheVariants.{Guarded};
ghost use Rattle.cbm_direct.specs.declared.vouch.Vouch.TheVariants.{Sound};
ghost use Rattle.cbm_direct.specs.Vouching.{ShowsDisk, IsVouchOf, access_of};

use crate::access::Access;
use cbm_medium::Medium;
use cbm_volume::Volume;

/// What is known of the disk that was put in.
#[derive(Clone, Copy, Debug, PartialEq, Eq, Drop)]
pub enum Vouch {
    /// It was sound; and how often its medium had failed by itself then.
    Sound(u64),
    /// It wasn't sound.
    Unsound,
    /// Nothing, as any sector may be written.
    Unknown,
}

impl Vouch {
    /// Of a disk that is put in. Unless any sector may be written, it looks whether the disk is sound.
    pub fn of<M: Medium>(volume: &Volume<M>, access: Access) -> Vouch
        ensures access { access_of result ≡ access }
        ensures sound { access ≡ Guarded → ShowsDisk (M.seen volume.now) → result ≡ Sound (M.seen volume.now).failures }
        ensures shown { IsVouchOf (M.seen volume.now) result }
    {
        match access {
            Access::Guarded => looked_at(volume),
            Access::Raw => Vouch::Unknown,
        }
    }

    /// Which sectors may be written.
    pub fn access(self) -> Access
        ensures { result ≡ access_of self }
    {
        match self {
            Vouch::Sound(_) | Vouch::Unsound => Access::Guarded,
            Vouch::Unknown => Access::Raw,
        }
    }
}

/// Whether a disk is sound.
fn looked_at<M: Medium>(volume: &Volume<M>) -> Vouch
    ensures access { access_of result ≡ Guarded }
    ensures sound { ShowsDisk (M.seen volume.now) → result ≡ Sound (M.seen volume.now).failures }
    ensures shown { IsVouchOf (M.seen volume.now) result }
{
    match volume.check() {
        Ok(()) => Vouch::Sound(volume.medium().failures()),
        Err(_) => Vouch::Unsound,
    }
}
