ghost use Rattle.std.specs.Prelude.{◌≡◌, ℕ, ◌<◌, ◌≤◌, List, Some, true, false, length, take, IfSome, IfNone};
ghost use Rattle.cbm_gcr.specs.Code.{bits};
ghost use Rattle.cbm_track.specs.Circle.{first_below, begins};
ghost use Rattle.cbm_sector.specs.Decoding.{coded_at};
ghost use Rattle.cbm_sector.specs.Answer.{header_at, is_header, is_right, passes, wanted_test};

use crate::block::xor;
use crate::group::{group_at, header_bytes};
use crate::layout::{CHECKSUM, HEADER_MARK, SECTOR, TRACK};
use cbm_medium::Address;
use cbm_track::Track;

/// Whether a header's checksum is right.
pub(crate) fn is_right(header: &[u8; 8]) -> bool
    ensures { result ≡ is_right header.now }
{
    header[CHECKSUM] == xor(&header[SECTOR..SECTOR + 4])
}

/// Whether a header is one of a sector, or without one, one that the disk's id is taken from.
fn is_wanted(header: &[u8; 8], wanted: &Option<Address>) -> bool
    ensures { result ≡ wanted_test wanted.now header.now }
{
    match wanted {
        Some(at) => {
            header[0] == HEADER_MARK && header[SECTOR] == at.sector() && header[TRACK] == at.track()
        }
        None => header[0] == HEADER_MARK && header[TRACK] == 18 && is_right(header),
    }
}

/// The first byte of a header's code, that of 8.
const HEADER_FRONT: u8 = 0x52;

/// Whether a byte is the first of a header's code.
fn is_front(byte: u8) -> bool
    ensures { result ≡ false → bits 8 byte ≡ bits 8 82 → ⊥ }
{
    byte == HEADER_FRONT
}

/// Whether the byte at a place is the first of a header's code.
pub(crate) fn may_be_header(track: &Track, place: u32) -> bool
    requires { place < length track.now }
    ensures { result ≡ false → (v : List ℕ) → coded_at track.now place 8 ≡ Some v → is_header v ≡ false }
{
    let mut front = [0];
    track.bytes_at(place, &mut front);
    is_front(front[0])
}

/// Whether four bytes can begin such a header.
fn may_begin(front: &[u8; 4], wanted: &Option<Address>) -> bool
    ensures { result ≡ false → (v : List ℕ) → take 4 v ≡ front.now → wanted_test wanted.now v ≡ false }
{
    match wanted {
        Some(at) => {
            front[0] == HEADER_MARK && front[SECTOR] == at.sector() && front[TRACK] == at.track()
        }
        None => front[0] == HEADER_MARK && front[TRACK] == 18,
    }
}

/// Whether such a header stands at a place: its first byte, then its first four bytes, are looked
/// at alone if they already rule it out.
fn is_wanted_at(track: &Track, place: u32, wanted: &Option<Address>) -> bool
    requires { place < length track.now }
    ensures { result ≡ passes (wanted_test wanted.now) (coded_at track.now place 8) }
{
    if !may_be_header(track, place) {
        return false;
    }
    let Some(front) = group_at(track, place) else {
        return false;
    };
    if !may_begin(&front, wanted) {
        return false;
    }
    match header_bytes(track, place) {
        Some(header) => is_wanted(&header, wanted),
        None => false,
    }
}

/// The first block from a place on that begins before the track's end.
pub(crate) fn block_after(track: &Track, from: u32) -> Option<u32>
    requires { from < length track.now }
    ensures some { IfSome result (λ p. (from ≤ p) × (p < length track.now) × (begins track.now p ≡ true) ×
        ((q : ℕ) → from ≤ q → q < p → begins track.now q ≡ false)) }
    ensures none { IfNone result ((q : ℕ) → from ≤ q → q < length track.now → begins track.now q ≡ false) }
{
    let place = track.next_sync(from)?;
    if place < from {
        return None;
    }
    Some(place)
}

/// The first such header, from the track's first bit on.
pub(crate) fn find_header(track: &Track, wanted: &Option<Address>) -> Option<u32>
    ensures value { result ≡ first_below (header_at (wanted_test wanted.now) track.now) (length track.now) }
    ensures below { IfSome result (λ p. p < length track.now) }
{
    let bits = track.bits();
    let mut from = 0;
    while from < bits {
        let place = block_after(track, from)?;
        if is_wanted_at(track, place, wanted) {
            return Some(place);
        }
        from = place + 1;
    }
    None
}

/// Whether the four bytes at a place begin a header.
pub(crate) fn begins_header(track: &Track, place: u32) -> bool
    requires { place < length track.now }
    ensures { result ≡ passes is_header (coded_at track.now place 4) }
{
    match group_at(track, place) {
        Some(group) => group[0] == HEADER_MARK,
        None => false,
    }
}
