ghost use Rattle.std.specs.Prelude.{◌≡◌, ◌<◌, ◌≤◌, ◌+◌, ◌++◌, length};
ghost use Rattle.arrayvec.specs.ArrayVec.{array_vec_len};
ghost use Rattle.cbm_gcr.specs.Code.{code, bits_of};
ghost use Rattle.cbm_sector.specs.Answer.{data_block};
ghost use Rattle.cbm_sector.specs.Fresh.{bytes_on, fresh, header_block, laid, IsBlankTrack};

use crate::block::{coded_block, data_block, xor};
use crate::layout::HEADER_MARK;
use arrayvec::ArrayVec;
use cbm_gcr::encode4;
use cbm_medium::sectors_of;
use cbm_track::Track;

/// The bytes of a sector's header.
fn header_block(track: u8, id: [u8; 2], sector: u8) -> [u8; 8]
    ensures { result ≡ header_block track id sector }
{
    let [first, second] = id;
    let sum = xor(&[sector, track, second, first]);
    [HEADER_MARK, sum, sector, track, second, first, 15, 15]
}

/// Appends bytes, for which there is room.
fn append(out: &mut ArrayVec<u8, 7928>, bytes: &[u8])
    requires { array_vec_len out.old + length bytes.now ≤ 7928 }
    ensures items { out.new.items ≡ out.old.items ++ bytes.now }
    ensures length { array_vec_len out.new ≡ array_vec_len out.old + length bytes.now }
{
    match out.try_extend_from_slice(bytes) {
        Ok(()) => {}
        Err(_) => unreachable!(),
    }
}

/// Appends the code of a header.
fn append_header(out: &mut ArrayVec<u8, 7928>, header: &[u8; 8])
    requires { array_vec_len out.old + 10 ≤ 7928 }
    ensures bits { bits_of out.new.items ≡ bits_of out.old.items ++ code header.now }
    ensures length { array_vec_len out.new ≡ array_vec_len out.old + 10 }
{
    let [a, b, c, d, e, f, g, h] = *header;
    append(out, &encode4(&[a, b, c, d]));
    append(out, &encode4(&[e, f, g, h]));
}

/// Appends a sector with the code of a data block of zeros.
fn append_sector(out: &mut ArrayVec<u8, 7928>, header: &[u8; 8], block: &[u8; 325])
    requires { array_vec_len out.old + 362 ≤ 7928 }
    ensures bits { bits_of out.new.items ≡ bits_of out.old.items ++ laid header.now (bits_of block.now) }
    ensures length { array_vec_len out.new ≡ array_vec_len out.old + 362 }
{
    append(out, &[0xff; 5]);
    append_header(out, header);
    append(out, &[0x55; 9]);
    append(out, &[0xff; 5]);
    append(out, block);
    append(out, &[0x55; 8]);
}

/// How many bytes formatting writes on a track: by its speed zone, the four common sizes (the G64 format).
pub fn track_bytes(track: u8) -> u16
    ensures value { result ≡ bytes_on track }
    ensures most { result ≤ 7692 }
{
    match track {
        0..=17 => 7692,
        18..=24 => 7142,
        25..=30 => 6666,
        _ => 6250,
    }
}

/// A track as formatting writes it.
fn laid_track(track: u8, id: &[u8; 2]) -> Track
    requires { (0 < track) × (track < 36) }
    ensures value { result ≡ fresh track id.now }
    ensures blank { IsBlankTrack track id.now result }
{
    let block = coded_block(&data_block(&[0; 256]));
    let mut bytes = ArrayVec::new();
    for sector in 0..sectors_of(track) {
        append_sector(&mut bytes, &header_block(track, *id, sector), &block);
    }
    let rest = track_bytes(track) as usize - bytes.len();
    append(&mut bytes, &[0x55; 264][..rest]);
    match Track::from_bytes(bytes.as_slice()) {
        Some(track) => track,
        None => unreachable!(),
    }
}

/// A track as formatting writes it: for each sector from 0 a sync mark, its header, a gap, a sync
/// mark, a data block of zeros and a gap, then a gap up to the length of its zone (this project's
/// choice of gaps and filling).
pub fn fresh_track(track: u8, id: [u8; 2]) -> Track
    requires { (0 < track) × (track < 36) }
    ensures value { result ≡ fresh track id }
    ensures blank { IsBlankTrack track id result }
{
    laid_track(track, &id)
}
