//! A track whose headers were found.

ghost use Rattle.std.specs.Prelude.{◌≡◌, ◌≢◌, ℕ, ◌<◌, ◌≤◌, List, Ok, Err, None, Some, length, slice_index_or, IfSome, IfOk, IfErr, OnOk, OnErr};
ghost use Rattle.cbm_gcr.specs.Code.{code};
ghost use Rattle.cbm_medium.specs.Place.{Place};
ghost use Rattle.cbm_medium.specs.Content.{header_fault};
ghost use Rattle.cbm_track.specs.Circle.{or_then, some_if};
ghost use Rattle.cbm_sector.specs.Decoding.{coded_at};
ghost use Rattle.cbm_sector.specs.Answer.{sector_shown, header_of, names, passes, block_of, id_shown, data_block, IsOverwritten};
ghost use Rattle.cbm_sector.specs.Fresh.{block_place};
ghost use Rattle.cbm_sector.specs.Index.{IsIndex, is_of};

use crate::group::header_bytes;
use crate::header::{block_after, may_be_header};
use crate::layout::{HEADER_MARK, SECTOR, TRACK};
use crate::sector::{fill_sector, header_of, id_of, read_at, write_at};
use cbm_medium::{Address, Fault};
use cbm_track::Track;
use std::marker::Model;

/// A track of a disk with the places of its sectors' headers, which are searched for once: a sector is read and written
/// without a search.
#[derive(Drop)]
pub struct IndexedTrack {
    track: Track,
    number: u8,
    headers: [Option<u32>; 21],
}

impl Model for IndexedTrack {
    ghost use Rattle.std.specs.Prelude.{List, Bool};
    ghost use Rattle.cbm_sector.specs.Index.{IsIndex};

    ghost Value = { List Bool };

    ghost view = { λ t. t.track };

    ghost invariant = { λ t. IsIndex t.track t.number t.headers };
}

/// The sector that a header at a place names, if it is one of this track number.
fn sector_at(track: &Track, place: u32, number: u8) -> Option<u8>
    requires { place < length track.now }
    ensures { (s : ℕ) →
        is_of result s ≡ passes (names (record { track = number; sector = s })) (coded_at track.now place 8) }
{
    if !may_be_header(track, place) {
        return None;
    }
    let header = header_bytes(track, place)?;
    if header[0] != HEADER_MARK || header[TRACK] != number {
        return None;
    }
    Some(header[SECTOR])
}

/// A header at a place is kept, if none of its sector was found before.
fn keep(headers: &mut [Option<u32>; 21], sector: Option<u8>, place: u32)
    ensures { (s : ℕ) → s < 21 →
        slice_index_or headers.new s None ≡ or_then (slice_index_or headers.old s None) (some_if (is_of sector s) place) }
{
    let Some(sector) = sector else {
        return;
    };
    let i = sector as usize;
    if i < 21 && headers[i].is_none() {
        headers[i] = Some(place);
    }
}

/// The places of the headers of this track number, of each sector the first one from the track's first bit on.
fn index_of(track: &Track, number: u8) -> [Option<u32>; 21]
    ensures { IsIndex track.now number result }
{
    let bits = track.bits();
    let mut headers = [None; 21];
    let mut from = 0;
    while from < bits {
        let Some(place) = block_after(track, from) else {
            return headers;
        };
        keep(&mut headers, sector_at(track, place, number), place);
        from = place + 1;
    }
    headers
}

impl IndexedTrack {
    /// The track of this number, once its headers are found.
    pub fn new(track: Track, number: u8) -> IndexedTrack
        ensures { result ≡ track }
    {
        let headers = index_of(&track, number);
        IndexedTrack {
            track,
            number,
            headers,
        }
    }

    /// The track.
    pub fn track(&self) -> &Track
        ensures { result.now ≡ self.now }
    {
        &self.track
    }

    /// The disk's id, as `id_of` has it.
    pub fn id(&self) -> Option<[u8; 2]>
        ensures { result ≡ id_shown self.now }
    {
        id_of(&self.track)
    }

    /// The header of a sector; one of another track number is searched for.
    fn header(&self, at: Address) -> Option<u32>
        ensures { result ≡ header_of self.now at }
    {
        let i = at.sector() as usize;
        if at.track() == self.number && i < 21 {
            return self.headers[i];
        }
        header_of(&self.track, at)
    }

    /// Reads a sector, as `read_sector` does.
    pub fn read_sector(&self, at: Address, id: [u8; 2]) -> Result<[u8; 256], Fault>
        requires { at.track ≤ 35 }
        ensures ok { IfOk result (λ bytes. sector_shown self.now id at ≡ Ok bytes) }
        ensures err { IfErr result (λ fault. (sector_shown self.now id at ≡ Err fault.code) × (fault.at ≡ at)) }
    {
        read_at(&self.track, self.header(at), at, id)
    }

    /// Overwrites a sector's data block, as `write_sector` does; an `Err` changes nothing.
    pub fn write_sector(&mut self, at: Address, id: [u8; 2], bytes: &[u8; 256]) -> Result<(), Fault>
        requires { at.track ≤ 35 }
        ensures ok { OnOk result (sector_shown self.new id at ≡ Ok bytes.now) }
        ensures others { OnOk result ((id2 : List ℕ) (other : Place) → at ≢ other →
            sector_shown self.new id2 other ≡ sector_shown self.old id2 other) }
        ensures bits { OnOk result ((d : ℕ) → block_of self.old id at ≡ Ok d →
            IsOverwritten self.old self.new d (code (data_block bytes.now))) }
        ensures id { id_shown self.new ≡ id_shown self.old }
        ensures length { length self.new ≡ length self.old }
        ensures long { OnOk result (2610 ≤ length self.old) }
        ensures err { OnErr result (self.new ≡ self.old) }
        ensures refused { IfSome (header_fault (sector_shown self.old id at))
            (λ code. result ≡ Err (record { code = code; at = at })) }
        ensures cause { IfErr result (λ fault. (header_fault (sector_shown self.old id at) ≡ Some fault.code) × (fault.at ≡ at)) }
    {
        let header = self.header(at);
        write_at(&mut self.track, header, at, id, bytes)
    }

    /// Overwrites a sector's data block on a freshly formatted track, as `fill_sector` does.
    pub fn fill_sector(&mut self, at: Address, id: &[u8; 2], bytes: &[u8; 256])
        requires laid { block_of self.old id.now at ≡ Ok (block_place at.sector) }
        ensures ok { sector_shown self.new id.now at ≡ Ok bytes.now }
        ensures others { (id2 : List ℕ) (other : Place) → at ≢ other →
            sector_shown self.new id2 other ≡ sector_shown self.old id2 other }
        ensures blocks { (id2 : List ℕ) (other : Place) → block_of self.new id2 other ≡ block_of self.old id2 other }
        ensures bits { (d : ℕ) → block_of self.old id.now at ≡ Ok d →
            IsOverwritten self.old self.new d (code (data_block bytes.now)) }
        ensures id { id_shown self.new ≡ id_shown self.old }
        ensures length { length self.new ≡ length self.old }
        ensures long { 2610 ≤ length self.old }
    {
        fill_sector(&mut self.track, at, id, bytes);
    }
}
