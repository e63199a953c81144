ghost use Rattle.std.specs.Prelude.{◌≡◌, ℕ, ◌<◌, ◌≤◌, ◌+◌, ◌-◌, ◌*◌, [], ◌∷◌};
ghost use Rattle.std.specs.Prelude.{drop, false, length, slice_index_or, take};
ghost use Rattle.cbm_track.specs.Circle.{circle_bits, circle_bits_of, circle_bit, stretch, PutsBytes};

use crate::bits::wrapped;

/// The eight bits from a bit of the first of two bytes on.
fn joined(first: u8, second: u8, bit: usize) -> u8
    requires { bit < 8 }
    ensures { circle_bits 8 result ≡ take 8 (drop bit (circle_bits_of (first ∷ second ∷ []))) }
{
    let pair = 256 * first as u32 + second as u32;
    ((pair >> (8 - bit)) % 256) as u8
}

/// The byte that begins at a place of the circle.
pub(crate) fn byte_at(track: &[u8], place: usize) -> u8
    requires place { place < 8 * length track.now }
    requires size { length track.now ≤ 7928 }
    ensures { circle_bits 8 result ≡ stretch (circle_bits_of track.now) place 8 }
{
    let first = place / 8;
    let second = if first + 1 < track.len() {
        first + 1
    } else {
        0
    };
    joined(track[first], track[second], place % 8)
}

/// Reads the bytes from a place of the circle on, one after another.
fn read_around(track: &[u8], place: usize, out: &mut [u8])
    requires place { place < 8 * length track.now }
    requires size { length track.now ≤ 7928 }
    ensures { circle_bits_of out.new ≡ stretch (circle_bits_of track.now) place (8 * length out.old) }
{
    let bits = 8 * track.len();
    let mut at = place;
    for byte in out.iter_mut() {
        *byte = byte_at(track, at);
        at = wrapped(at + 8, bits);
    }
}

/// Reads the bytes from a place of the circle on.
pub(crate) fn read_bytes(track: &[u8], place: usize, out: &mut [u8])
    requires place { place < 8 * length track.now }
    requires size { length track.now ≤ 7928 }
    ensures { circle_bits_of out.new ≡ stretch (circle_bits_of track.now) place (8 * length out.old) }
{
    let first = place / 8;
    let count = out.len();
    if place % 8 == 0 && count <= track.len() - first {
        out.copy_from_slice(&track[first..first + count]);
    } else {
        read_around(track, place, out);
    }
}

/// A byte in which another one begins at a bit.
fn begun(old: u8, byte: u8, bit: usize) -> u8
    requires { bit < 8 }
    ensures kept { (k : ℕ) → k < bit → slice_index_or (circle_bits 8 result) k false ≡ slice_index_or (circle_bits 8 old) k false }
    ensures written { (k : ℕ) → bit ≤ k → k < 8 →
        slice_index_or (circle_bits 8 result) k false ≡ slice_index_or (circle_bits 8 byte) (k - bit) false }
{
    let room = 8 - bit;
    ((old as u32 >> room << room) + (byte as u32 >> bit)) as u8
}

/// A byte in which another one ends, this many of whose bits are left.
fn ended(old: u8, byte: u8, left: usize) -> u8
    requires { left < 8 }
    ensures written { (k : ℕ) → k < left →
        slice_index_or (circle_bits 8 result) k false ≡ slice_index_or (circle_bits 8 byte) (8 - left + k) false }
    ensures kept { (k : ℕ) → left ≤ k → k < 8 →
        slice_index_or (circle_bits 8 result) k false ≡ slice_index_or (circle_bits 8 old) k false }
{
    let room = 8 - left;
    (((byte as u32) << room) % 256 + old as u32 % (1 << room)) as u8
}

/// Writes a byte from a place of the circle on: it ends in the next byte, unless it is a whole one there.
fn put_byte(track: &mut [u8], place: usize, byte: u8)
    requires { place < 8 * length track.old }
    ensures written { (k : ℕ) → k < 8 → circle_bit (circle_bits_of track.new) (place + k) ≡ slice_index_or (circle_bits 8 byte) k false }
    ensures others { (k : ℕ) → 8 ≤ k → k < 8 * length track.old →
        circle_bit (circle_bits_of track.new) (place + k) ≡ circle_bit (circle_bits_of track.old) (place + k) }
{
    let first = place / 8;
    let last = wrapped(first + 1, track.len());
    track[first] = begun(track[first], byte, place % 8);
    track[last] = ended(track[last], byte, place % 8);
}

/// Writes bytes from a place of the circle on, one after another.
fn write_around(track: &mut [u8], place: usize, bytes: &[u8])
    requires place { place < 8 * length track.old }
    requires size { length track.old ≤ 7928 }
    requires fits { length bytes.now ≤ length track.old }
    ensures { PutsBytes (circle_bits_of track.old) (circle_bits_of track.new) (8 * length track.old) place bytes.now }
{
    let bits = 8 * track.len();
    let mut to = place;
    for byte in bytes {
        put_byte(track, to, *byte);
        to = wrapped(to + 8, bits);
    }
}

/// Writes bytes from a place of the circle on.
pub(crate) fn write_bytes(track: &mut [u8], place: usize, bytes: &[u8])
    requires place { place < 8 * length track.old }
    requires size { length track.old ≤ 7928 }
    requires fits { length bytes.now ≤ length track.old }
    ensures { PutsBytes (circle_bits_of track.old) (circle_bits_of track.new) (8 * length track.old) place bytes.now }
{
    let first = place / 8;
    let end = first + bytes.len();
    if place % 8 == 0 && end <= track.len() {
        track[first..end].copy_from_slice(bytes);
    } else {
        write_around(track, place, bytes);
    }
}
