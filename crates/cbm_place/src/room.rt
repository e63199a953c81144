//! Where the file in a slot lies, and where it may go.
ghost use Rattle.std.specs.Prelude.{◌≡◌, IfOk, IfErr};
ghost use Rattle.cbm_bam.specs.Marks.{is_marked};
ghost use Rattle.cbm_bam.specs.Map.{geometry_of};
ghost use Rattle.cbm_image.specs.Images.{kind_of};
ghost use Rattle.cbm_place.specs.Placed.{IsRoomOf, IsRoomOfImage, IsNoRoom, IsNoRoomIn};

use crate::bam::{Change, taken_sectors};
use crate::chain::{chain_of, set_of};
use crate::moving::movable;
use cbm_bam::SectorSet;
use cbm_medium::{Address, Medium};
use cbm_shell::{ShellFault, open_disk};
use cbm_volume::Volume;
use std::alloc::Global;

/// Where a file lies on its disk, and where it may go.
#[derive(Drop)]
pub struct Room {
    /// Its blocks, in order.
    pub blocks: Vec<Address>,
    /// The sectors that it can't have: the BAM has them as taken, and they aren't its own.
    pub taken: SectorSet,
    /// How many tracks the disk uses, 35 or 40.
    pub tracks: u8,
}

/// The room of the file in a slot of a disk.
fn room_on<M: Medium>(alloc: Global, volume: &Volume<M>, slot: u8) -> Result<Room, ShellFault>
    ensures room { let now = M.seen volume.now in IfOk result (IsRoomOf (geometry_of now.tracks now.content) now.content slot) }
    ensures fault { let now = M.seen volume.now in IfErr result (IsNoRoom (geometry_of now.tracks now.content) now.content slot) }
{
    let geometry = volume.geometry();
    let entry = movable(volume, slot)?;
    let chain = chain_of(alloc, volume.medium(), geometry, entry.first_block())?;
    let change = Change {
        left: set_of(chain.places.as_slice()),
        claimed: SectorSet::new(),
    };
    let taken = taken_sectors(volume.medium(), geometry, &change);
    Ok(Room {
        blocks: chain.places,
        taken,
        tracks: geometry.tracks(),
    })
}

/// Where the file in a slot of an image lies, and where it may go. Errors: `Image`; `NotFound`, if the slot has no file; `NotClosed`;
/// `Mistaken`, if the file is relative; `Trouble`, if the directory breaks off before the slot; `Memory`.
pub fn room_of(alloc: Global, image: &[u8], slot: u8) -> Result<Room, ShellFault>
    ensures room { IfOk result (IsRoomOfImage image.now slot) }
    ensures fault { IfErr result (IsNoRoomIn image.now slot) }
{
    let volume = open_disk(alloc, image)?;
    room_on(alloc, &volume, slot)
}
