// A relative file grows until a record is there.

ghost use Rattle.std.specs.Prelude.{◌≡◌, ◌≢◌, ◌≤◌, ◌<◌, ◌^◌, ◌⊎◌, true, false, None, Some, IsOk, OnOk, IfErr, IfOk, IfSome};
ghost use Rattle.cbm_medium.specs.Place.{directory_head};
ghost use Rattle.cbm_medium.specs.Seen.{ShowsGround};
ghost use Rattle.cbm_file.specs.Records.{blocks_for};
ghost use Rattle.cbm_bam.specs.Map.{geometry_of};
ghost use Rattle.cbm_directory.specs.Slots.{directory_of};
ghost use Rattle.cbm_volume.specs.Growth.{IsGrowth};
ghost use Rattle.cbm_volume.specs.GrowthPlans.{PlansGrowth, GrowsFile};
ghost use Rattle.cbm_volume.specs.Growing.{is_too_large};
ghost use Rattle.cbm_volume.specs.RecordWrites.{OfOpen};
ghost use Rattle.cbm_volume.specs.RecordFaults.{HidesSlot};
ghost use Rattle.cbm_volume.specs.Calls.{OnlyOnDisk, KeepsProtected, IsSameOn};

use crate::records::beginning_growth::begin_growth;
use crate::records::counting_blocks::tell_blocks;
use crate::records::growing_blocks::grow_blocks;
use crate::volume::Volume;
use cbm_medium::codes::WRITE_PROTECT_ON;
use cbm_medium::{Medium, Trouble};
use cbm_relfile::{Extent, Relative, extent_of};

/// The greatest number of a record that a place can have.
const MOST_NUMBER: u32 = 65535;

/// How many data blocks six side sectors list.
const MOST_BLOCKS: u32 = 720;

/// How many data blocks a file must have for a record, if its records are so long; None if a place can't have that
/// number, or six side sectors can't list as many, or fewer blocks are free than the growth takes.
pub fn needed(extent: Extent, length: u8, number: u32, free: u16) -> Option<u16>
    requires number { number < 2 ^ 24 }
    requires sides { extent.sides ≤ 6 }
    ensures some { IfSome result (λ x. (x ≡ blocks_for length extent.blocks number) ×
        (is_too_large free length extent.blocks extent.sides number ≡ false)) }
    ensures none { result ≡ None → is_too_large free length extent.blocks extent.sides number ≡ true }
    ensures bound { IfSome result (λ x. (extent.blocks ≤ x) × (x ≤ 720)) }
{
    if number > MOST_NUMBER {
        return None;
    }
    let blocks = ((number * length as u32 + 253) / 254).max(extent.blocks as u32);
    if blocks > MOST_BLOCKS {
        return None;
    }
    let blocks = blocks as u16;
    let sides = ((blocks + 119) / 120).max(extent.sides as u16);
    if (blocks - extent.blocks) + (sides - extent.sides as u16) > free {
        return None;
    }
    Some(blocks)
}

/// What a growth needs: where the file lies, how far it reaches, and how many data blocks it is to have.
#[derive(Clone, Copy)]
pub struct GrowthPlan {
    pub file: Relative,
    pub extent: Extent,
    pub blocks: u16,
}

/// What the growth of the file in a slot needs, so that a record is there, if this many blocks are free; None if it
/// is too large. An `Err` is why a sector doesn't read.
pub fn plan_growth<M: Medium>(
    medium: &M,
    slot: u8,
    number: u32,
    free: u16,
) -> Result<Option<GrowthPlan>, Trouble>
    requires number { number < 2 ^ 24 }
    ensures planned { PlansGrowth result (M.seen medium.now) slot number free }
    ensures bound { IfOk result (λ x. IfSome x (λ p. (1 ≤ p.file.width) × (p.file.width ≤ 254) ×
        (1 ≤ p.extent.blocks) × (p.extent.blocks ≤ p.blocks) × (p.blocks ≤ 720) × (p.extent.sides ≤ 6))) }
    ensures cause { IfErr result (HidesSlot (M.seen medium.now) slot) }
    ensures never_26 { IfErr result (λ t. t.code ≢ 26) }
    ensures shown { IfErr result (ShowsGround (M.seen medium.now)) }
{
    let geometry = cbm_bam::geometry(medium);
    let Some(entry) = cbm_directory::slot(medium, geometry, slot)? else {
        return Ok(None);
    };
    let length = entry.record_length();
    if length == 0 || length == 255 {
        return Ok(None);
    }
    let file = Relative::new(entry.first_block(), entry.first_side(), length);
    let extent = extent_of(medium, geometry, file)?;
    if extent.blocks == 0 {
        return Ok(None);
    }
    let Some(blocks) = needed(extent, length, number, free) else {
        return Ok(None);
    };
    Ok(Some(GrowthPlan {
        file,
        extent,
        blocks,
    }))
}

/// Makes the file in a slot, which has this many data blocks and side sectors, one of this many data blocks.
pub fn grow_to<M: Medium>(
    medium: &mut M,
    slot: u8,
    file: Relative,
    extent: Extent,
    blocks: u16,
) -> Result<(), Trouble>
    requires length { (1 ≤ file.width) × (file.width ≤ 254) }
    requires blocks { (1 ≤ extent.blocks) × (extent.blocks ≤ blocks) × (blocks ≤ 720) }
    requires sides { extent.sides ≤ 6 }
    ensures grown { GrowsFile result (M.seen medium.old) (M.seen medium.new) slot file extent.blocks extent.sides blocks }
    ensures only { OnlyOnDisk result (M.seen medium.old) (M.seen medium.new) }
{
    let geometry = cbm_bam::geometry(medium);
    let from = begin_growth(medium, geometry, file, extent.blocks, extent.sides)?;
    let reach = grow_blocks(medium, geometry, file, from, blocks - extent.blocks)?;
    tell_blocks(medium, geometry, slot, reach.blocks + reach.sides as u16)
}

/// Grows the file in a slot, if this many blocks are free, so that a record is there.
pub fn grow_in_slot<M: Medium>(
    medium: &mut M,
    slot: u8,
    number: u32,
    free: u16,
) -> Result<bool, Trouble>
    requires number { number < 2 ^ 24 }
    ensures call { OfOpen (M.seen medium.old) slot (λ d uses w b s rs o. free ≡ d.free →
        IsGrowth result (M.seen medium.old) (M.seen medium.new) d uses slot w b s rs number) }
    ensures kept { IsSameOn result false (M.seen medium.old) (M.seen medium.new) }
    ensures guarded { KeepsProtected (M.seen medium.old) (M.seen medium.new) }
    ensures only { OnlyOnDisk result (M.seen medium.old) (M.seen medium.new) }
{
    let Some(plan) = plan_growth(medium, slot, number, free)? else {
        return Ok(false);
    };
    if medium.protected() {
        return Err(Trouble {
            code: WRITE_PROTECT_ON,
            track: 0,
            sector: 0,
        });
    }
    grow_to(medium, slot, plan.file, plan.extent, plan.blocks)?;
    Ok(true)
}

impl<M: Medium> Volume<M> {
    /// Grows the relative file in a slot, whose records a channel has open, until a record is there: data blocks full of
    /// fresh records ($FF, then zeros) are added one by one, with side sectors that list them, and last the entry says
    /// how many blocks the file has. False, with nothing changed, if too few blocks are free, six side sectors can't
    /// list as many, or a place can't have that number. On a sound disk an `Err` says that the medium is protected (26),
    /// with nothing changed, or failed by itself: the file has its records then and perhaps fresh ones after them.
    pub fn grow_records(&mut self, slot: u8, number: u32) -> Result<bool, Trouble>
        requires number { (1 ≤ number) × (number < 2 ^ 24) }
        ensures call { OfOpen (M.seen self.old) slot (λ d uses w b s rs o.
            IsGrowth result (M.seen self.old) (M.seen self.new) d uses slot w b s rs number) }
        ensures read { OnOk result (IsOk ((M.seen self.old).content directory_head)) }
        ensures kept { IsSameOn result false (M.seen self.old) (M.seen self.new) }
        ensures guarded { KeepsProtected (M.seen self.old) (M.seen self.new) }
        ensures only { OnlyOnDisk result (M.seen self.old) (M.seen self.new) }
    {
        let room = self.room()?;
        grow_in_slot(&mut self.medium, slot, number, room.blocks)
    }
}
