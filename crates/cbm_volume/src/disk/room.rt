// What a disk has room for.

ghost use Rattle.std.specs.Prelude.{◌≡◌, Err, IsOk, OnOk, IfOk, IfErr, IsOkAnd};
ghost use Rattle.cbm_medium.specs.Place.{directory_head};
ghost use Rattle.cbm_file.specs.Changes.{has_slot};
ghost use Rattle.cbm_volume.specs.Holding.{OfHeldDisk};
ghost use Rattle.cbm_volume.specs.Rooms.{free_bits_in, has_name_room, IsRoomFault};
ghost use Rattle.cbm_bam.specs.Causes.{IsHeadFault};

use crate::volume::Volume;
use cbm_bam::{free_bits, has_directory_room};
use cbm_directory::first_empty;
use cbm_medium::{Medium, Trouble};

/// What a disk has room for.
#[derive(Clone, Copy, Debug, PartialEq, Eq)]
pub struct Room {
    /// How many blocks are free for files, as the bits of the map count them.
    pub blocks: u16,
    /// Whether a new name has a place: a slot is empty, or track 18 has a free sector for eight more.
    pub slot: bool,
}

impl<M: Medium> Volume<M> {
    /// Whether the medium refuses each write with 26.
    pub fn is_protected(&self) -> bool
        ensures { result ≡ (M.seen self.now).protected }
    {
        self.medium.protected()
    }

    /// How many blocks are free for files, as the bits of the map count them. The directory isn't read. An `Err` is the
    /// medium's fault at 18/0.
    pub fn blocks_free(&self) -> Result<u16, Trouble>
        ensures blocks { IfOk result (λ n. n ≡ free_bits_in (M.seen self.now)) }
        ensures read { OnOk result (IsOk ((M.seen self.now).content directory_head)) }
        ensures err { IfErr result (IsHeadFault (M.seen self.now).content) }
        ensures means { OfHeldDisk (M.seen self.now) (λ d. IsOkAnd result (λ n. n ≡ d.free)) }
    {
        free_bits(&self.medium, self.geometry())
    }

    /// What the disk has room for. An `Err` is the medium's fault at 18/0, or what breaks the directory off.
    pub fn room(&self) -> Result<Room, Trouble>
        ensures blocks { IfOk result (λ r. r.blocks ≡ free_bits_in (M.seen self.now)) }
        ensures read { OnOk result (IsOk ((M.seen self.now).content directory_head)) }
        ensures slot { IfOk result (λ r. r.slot ≡ has_name_room (M.seen self.now)) }
        ensures err { IfErr result (IsRoomFault (M.seen self.now)) }
        ensures means { OfHeldDisk (M.seen self.now) (λ d. IsOkAnd result (λ r. (r.blocks ≡ d.free) × (r.slot ≡ has_slot d))) }
    {
        let blocks = self.blocks_free()?;
        let slot = self.has_slot()?;
        Ok(Room { blocks, slot })
    }

    /// Whether a new name has a place.
    fn has_slot(&self) -> Result<bool, Trouble>
        ensures slot { IfOk result (λ b. b ≡ has_name_room (M.seen self.now)) }
        ensures err { IfErr result (IsRoomFault (M.seen self.now)) }
    {
        let geometry = self.geometry();
        if first_empty(&self.medium, geometry)?.is_some() {
            return Ok(true);
        }
        has_directory_room(&self.medium, geometry)
    }
}
