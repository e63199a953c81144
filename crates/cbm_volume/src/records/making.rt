// OPEN of a relative file that isn't there: a block of fresh records, a side sector that lists it, and a closed entry.

ghost use Rattle.std.specs.Prelude.{◌≡◌, ◌≤◌, ◌||◌, length, not, nat_lt, true, false, None, IsOk, OnOk, IfOk, IfSome, IsOkAnd};
ghost use Rattle.cbm_medium.specs.Place.{directory_head};
ghost use Rattle.cbm_medium.specs.Seen.{OnlyContent};
ghost use Rattle.cbm_volume.specs.NewRecords.{HasNoRoomForRecords, OpensNewRecords, MakesRelative, ClaimsForRecords, EntersRecords, ClaimsLed, EntersRecordsLed, NewRecordsLed};
ghost use Rattle.cbm_volume.specs.Calls.{OnlyOnDisk, OfDisk, KeepsProtected, IsSameOn};

use crate::disk::Room;
use crate::volume::Volume;
use cbm_directory::{Entry, empty_slot, put_slot};
use cbm_file::FileType;
use cbm_medium::codes::{ENDLESS_CHAIN, WRITE_PROTECT_ON};
use cbm_medium::{Address, Geometry, Link, Medium, Trouble};
use cbm_relfile::{claim_two, write_new};

/// A new relative file has a data block and a side sector.
const NEW_BLOCKS: u16 = 2;

impl<M: Medium> Volume<M> {
    /// OPEN of a relative file that isn't there, with a record length: one data block full of fresh records ($FF, then
    /// zeros), one side sector that lists it, and a closed entry. Answers the slot; None if fewer than two blocks are
    /// free, or there is no place for a name: nothing has changed then. The two sectors are claimed and written first, and
    /// last the entry, in one write; so an `Err` leaves each slot as it was, with blocks that are nobody's until VALIDATE.
    /// On a sound disk it says that the medium is protected (26), with nothing changed, or failed by itself.
    pub fn make_records(&mut self, name: &[u8], record_length: u8) -> Result<Option<u8>, Trouble>
        requires name { length name.now ≤ 16 }
        requires width { (1 ≤ record_length) × (record_length ≤ 254) }
        ensures call { OpensNewRecords result (M.seen self.old) (M.seen self.new) name.now record_length }
        // Too little room is reported first, also on a protected medium.
        ensures full { OfDisk (M.seen self.old) (λ d uses. HasNoRoomForRecords d → IsOkAnd result (λ o. o ≡ None)) }
        ensures read { OnOk result (IsOk ((M.seen self.old).content directory_head)) }
        ensures led { IfOk result (λ o. IfSome o (NewRecordsLed (M.seen self.old) (M.seen self.new) name.now
            record_length)) }
        ensures kept { IsSameOn result None (M.seen self.old) (M.seen self.new) }
        ensures guarded { KeepsProtected (M.seen self.old) (M.seen self.new) }
        ensures only { OnlyOnDisk result (M.seen self.old) (M.seen self.new) }
    {
        let room = self.room()?;
        if !has_room(room) {
            return Ok(None);
        }
        if self.medium.protected() {
            return Err(Trouble {
                code: WRITE_PROTECT_ON,
                track: 0,
                sector: 0,
            });
        }
        let slot = make(&mut self.medium, name, record_length)?;
        Ok(Some(slot))
    }
}

/// Whether there is room for a new relative file, and for its name.
fn has_room(room: Room) -> bool
    ensures enough { result ≡ true → (2 ≤ room.blocks) × (room.slot ≡ true) }
    ensures none { result ≡ false → (nat_lt room.blocks 2 || not room.slot) ≡ true }
{
    room.slot && room.blocks >= NEW_BLOCKS
}

/// The map says less than it counted before.
pub fn miscounted() -> Trouble
    ensures { result ≡ (record { code = 71; track = 18; sector = 0 }) }
{
    Trouble {
        code: ENDLESS_CHAIN,
        track: 18,
        sector: 0,
    }
}

/// Makes the file, for which there is room: its slot is found, its two sectors are written, its entry is written.
/// Answers the slot.
fn make<M: Medium>(medium: &mut M, name: &[u8], record_length: u8) -> Result<u8, Trouble>
    requires name { length name.now ≤ 16 }
    requires width { (1 ≤ record_length) × (record_length ≤ 254) }
    ensures made { MakesRelative result (M.seen medium.old) (M.seen medium.new) name.now record_length }
    ensures led { IfOk result (NewRecordsLed (M.seen medium.old) (M.seen medium.new) name.now record_length) }
    ensures only { OnlyOnDisk result (M.seen medium.old) (M.seen medium.new) }
{
    let geometry = cbm_bam::geometry(medium);
    let (number, (block, side)) = begin(medium, geometry)?;
    write_new(medium, geometry, block, side, record_length)?;
    enter(medium, geometry, block, side, name, record_length, number)?;
    Ok(number)
}

/// Finds an empty slot, for which the directory may grow, and claims a block and a side sector.
fn begin<M: Medium>(medium: &mut M, geometry: Geometry) -> Result<(u8, (Address, Address)), Trouble>
    requires tracks { geometry ≤ (M.seen medium.old).tracks }
    ensures begun { ClaimsForRecords result (M.seen medium.old) (M.seen medium.new) geometry }
    ensures led { IfOk result (ClaimsLed geometry (M.seen medium.old).content (M.seen medium.new).content) }
    ensures tracks { IfOk result (λ r. (r.1.0.track ≤ geometry) × (r.1.1.track ≤ geometry)) }
    ensures only { OnlyContent geometry result (M.seen medium.old) (M.seen medium.new) }
{
    let Some(number) = empty_slot(medium, geometry)? else {
        return Err(miscounted());
    };
    let Some(sectors) = claim_two(medium, geometry)? else {
        return Err(miscounted());
    };
    Ok((number, sectors))
}

/// Writes the closed entry of the file that lies in these two sectors.
fn enter<M: Medium>(
    medium: &mut M,
    geometry: Geometry,
    block: Address,
    side: Address,
    name: &[u8],
    record_length: u8,
    number: u8,
) -> Result<(), Trouble>
    requires tracks { geometry ≤ (M.seen medium.old).tracks }
    requires name { length name.now ≤ 16 }
    requires width { (1 ≤ record_length) × (record_length ≤ 254) }
    ensures entered { EntersRecords result (M.seen medium.old) (M.seen medium.new) geometry block side name.now record_length number }
    ensures led { OnOk result (EntersRecordsLed geometry (M.seen medium.old).content (M.seen medium.new).content block side
        name.now record_length number) }
    ensures only { OnlyContent geometry result (M.seen medium.old) (M.seen medium.new) }
{
    let first = Link::from(block);
    let fresh = Entry::fresh(FileType::Rel, name, first);
    let closed = fresh.closed(first, NEW_BLOCKS);
    let entry = closed.relative(Link::from(side), record_length);
    put_slot(medium, geometry, number, &entry)
}
