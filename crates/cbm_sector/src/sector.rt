ghost use Rattle.std.specs.Prelude.{◌≡◌, ◌≢◌, ℕ, ◌<◌, ◌≤◌, ◌+◌, List, Ok, Err, Some, length, IfSome, IfOk, IfErr, OnOk, OnErr};
ghost use Rattle.cbm_gcr.specs.Code.{code};
ghost use Rattle.cbm_medium.specs.Place.{Place};
ghost use Rattle.cbm_medium.specs.Content.{header_fault};
ghost use Rattle.cbm_track.specs.Circle.{next_block};
ghost use Rattle.cbm_sector.specs.Answer.{sector_shown, header_of, block_of, id_shown, data_block, IsOverwritten};
ghost use Rattle.cbm_sector.specs.Fresh.{block_place};

use crate::block::{coded_block, data_at, data_block};
use crate::group::header_bytes;
use crate::header::{begins_header, find_header, is_right};
use crate::layout::{ID_FIRST, ID_SECOND};
use cbm_medium::codes::{DISK_ID_MISMATCH, HEADER_CHECKSUM, NO_HEADER, NO_SYNC};
use cbm_medium::{Address, Fault};
use cbm_track::Track;

/// The first block that begins after a place, going all the way round.
fn block_following(track: &Track, place: u32) -> Option<u32>
    requires { place < length track.now }
    ensures value { result ≡ next_block track.now (place + 1) }
    ensures below { IfSome result (λ p. p < length track.now) }
{
    let bits = track.bits();
    track.next_sync((place + 1) % bits)
}

/// Where the data block of a sector begins whose header stands at this place, or the fault of its header.
#[tactic(auto, unfolding(crate::specs::Answer::block_of, crate::specs::Answer::is_crowded))]
fn block_of(track: &Track, header: Option<u32>, at: Address, id: [u8; 2]) -> Result<u32, u8>
    requires { header ≡ header_of track.now at }
    ensures value { result ≡ block_of track.now id at }
    ensures below { IfOk result (λ p. p < length track.now) }
{
    let _bits = track.bits();
    if track.next_sync(0).is_none() {
        return Err(NO_SYNC);
    }
    let Some(place) = header else {
        return Err(NO_HEADER);
    };
    let Some(header) = header_bytes(track, place) else {
        return Err(NO_HEADER);
    };
    if !is_right(&header) {
        return Err(HEADER_CHECKSUM);
    }
    if header[ID_SECOND] != id[1] || header[ID_FIRST] != id[0] {
        return Err(DISK_ID_MISMATCH);
    }
    let Some(block) = block_following(track, place) else {
        return Err(NO_HEADER);
    };
    if begins_header(track, block) || !track.is_clear(block, 2600) {
        return Err(NO_HEADER);
    }
    Ok(block)
}

/// The header of a sector: the first one from the track's first bit on.
#[tactic(auto, unfolding(crate::specs::Answer::header_of))]
pub(crate) fn header_of(track: &Track, at: Address) -> Option<u32>
    ensures { result ≡ header_of track.now at }
{
    find_header(track, &Some(at))
}

/// Reads a sector: its 256 bytes. Errors, in the order of the tests (this project's order): 21 no sync mark on the
/// track; 20 header not found; 27 header checksum; 29 disk id mismatch; 20 no data block after the header; 24 a byte
/// that isn't group code; 22 not a data block; 23 data checksum.
pub fn read_sector(track: &Track, at: Address, id: [u8; 2]) -> Result<[u8; 256], Fault>
    requires { at.track ≤ 35 }
    ensures ok { IfOk result (λ bytes. sector_shown track.now id at ≡ Ok bytes) }
    ensures err { IfErr result (λ fault. (sector_shown track.now id at ≡ Err fault.code) × (fault.at ≡ at)) }
{
    read_at(track, header_of(track, at), at, id)
}

/// Reads a sector whose header stands at this place.
#[tactic(auto, unfolding(crate::specs::Answer::sector_shown))]
pub(crate) fn read_at(
    track: &Track,
    header: Option<u32>,
    at: Address,
    id: [u8; 2],
) -> Result<[u8; 256], Fault>
    requires track { at.track ≤ 35 }
    requires header { header ≡ header_of track.now at }
    ensures ok { IfOk result (λ bytes. sector_shown track.now id at ≡ Ok bytes) }
    ensures err { IfErr result (λ fault. (sector_shown track.now id at ≡ Err fault.code) × (fault.at ≡ at)) }
{
    match block_of(track, header, at, id) {
        Err(code) => Err(Fault { code, at }),
        Ok(place) => match data_at(track, place) {
            Err(code) => Err(Fault { code, at }),
            Ok(data) => Ok(data),
        },
    }
}

/// Overwrites a sector's data block, over the 2,600 bits after its sync mark. The faults of its
/// header refuse it as they refuse a read; an `Err` changes nothing.
pub fn write_sector(
    track: &mut Track,
    at: Address,
    id: [u8; 2],
    bytes: &[u8; 256],
) -> Result<(), Fault>
    requires { at.track ≤ 35 }
    ensures ok { OnOk result (sector_shown track.new id at ≡ Ok bytes.now) }
    ensures others { OnOk result ((id2 : List ℕ) (other : Place) → at ≢ other →
        sector_shown track.new id2 other ≡ sector_shown track.old id2 other) }
    ensures bits { OnOk result ((d : ℕ) → block_of track.old id at ≡ Ok d →
        IsOverwritten track.old track.new d (code (data_block bytes.now))) }
    ensures id { id_shown track.new ≡ id_shown track.old }
    ensures length { length track.new ≡ length track.old }
    // A data block and its sync mark take 2,610 bits.
    ensures long { OnOk result (2610 ≤ length track.old) }
    ensures err { OnErr result (track.new ≡ track.old) }
    ensures refused { IfSome (header_fault (sector_shown track.old id at))
        (λ code. result ≡ Err (record { code = code; at = at })) }
    ensures cause { IfErr result (λ fault. (header_fault (sector_shown track.old id at) ≡ Some fault.code) × (fault.at ≡ at)) }
{
    let header = header_of(track, at);
    write_at(track, header, at, id, bytes)
}

/// Overwrites a sector's data block, whose header stands at this place. A data block and its sync mark take 2,610 bits, and no
/// header is written over.
pub(crate) fn write_at(
    track: &mut Track,
    header: Option<u32>,
    at: Address,
    id: [u8; 2],
    bytes: &[u8; 256],
) -> Result<(), Fault>
    requires header { header ≡ header_of track.old at }
    requires track { at.track ≤ 35 }
    ensures ok { OnOk result (sector_shown track.new id at ≡ Ok bytes.now) }
    ensures others { OnOk result ((id2 : List ℕ) (other : Place) → at ≢ other →
        sector_shown track.new id2 other ≡ sector_shown track.old id2 other) }
    ensures bits { OnOk result ((d : ℕ) → block_of track.old id at ≡ Ok d →
        IsOverwritten track.old track.new d (code (data_block bytes.now))) }
    ensures id { id_shown track.new ≡ id_shown track.old }
    ensures length { length track.new ≡ length track.old }
    ensures long { OnOk result (2610 ≤ length track.old) }
    ensures err { OnErr result (track.new ≡ track.old) }
    ensures refused { IfSome (header_fault (sector_shown track.old id at))
        (λ code. result ≡ Err (record { code = code; at = at })) }
    ensures cause { IfErr result (λ fault. (header_fault (sector_shown track.old id at) ≡ Some fault.code) × (fault.at ≡ at)) }
    ensures headers { (other : Place) → header_of track.new other ≡ header_of track.old other }
{
    match block_of(track, header, at, id) {
        Err(code) => Err(Fault { code, at }),
        Ok(place) => {
            track.overwrite(place, &coded_block(&data_block(bytes)));
            Ok(())
        }
    }
}

/// How many bits a sector takes where formatting laid it, and how many of them stand before its
/// data block.
const SECTOR_BITS: u32 = 2896;

const BITS_BEFORE: u32 = 232;

/// Overwrites a sector's data block on a freshly formatted track. Its place is computed; the precondition says that a
/// search would find the same place.
pub fn fill_sector(track: &mut Track, at: Address, id: &[u8; 2], bytes: &[u8; 256])
    requires laid { block_of track.old id.now at ≡ Ok (block_place at.sector) }
    ensures ok { sector_shown track.new id.now at ≡ Ok bytes.now }
    ensures others { (id2 : List ℕ) (other : Place) → at ≢ other →
        sector_shown track.new id2 other ≡ sector_shown track.old id2 other }
    ensures blocks { (id2 : List ℕ) (other : Place) → block_of track.new id2 other ≡ block_of track.old id2 other }
    ensures headers { (other : Place) → header_of track.new other ≡ header_of track.old other }
    ensures bits { (d : ℕ) → block_of track.old id.now at ≡ Ok d →
        IsOverwritten track.old track.new d (code (data_block bytes.now)) }
    ensures id { id_shown track.new ≡ id_shown track.old }
    ensures length { length track.new ≡ length track.old }
    ensures long { 2610 ≤ length track.old }
{
    let _bits = track.bits();
    let place = SECTOR_BITS * at.sector() as u32 + BITS_BEFORE;
    track.overwrite(place, &coded_block(&data_block(bytes)));
}

/// The disk's id: that of the first header, from the track's first bit on, that names track 18 and
/// whose checksum is right.
#[tactic(auto, unfolding(crate::specs::Answer::id_shown))]
pub fn id_of(track: &Track) -> Option<[u8; 2]>
    ensures { result ≡ id_shown track.now }
{
    let place = find_header(track, &None)?;
    let header = header_bytes(track, place)?;
    Some([header[ID_FIRST], header[ID_SECOND]])
}
