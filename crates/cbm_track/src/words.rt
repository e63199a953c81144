ghost use Rattle.std.specs.Prelude.{◌≡◌, ℕ, ◌<◌, ◌≤◌, ◌+◌, ◌*◌, ◌-◌, ◌%◌, true, false, length, IfSome, IfNone};
ghost use Rattle.cbm_track.specs.Circle.{circle_bits_of, circle_bit, ten_ones};
ghost use Rattle.cbm_track.specs.Words.{number_from, round_byte, eight, Marks, IsWindow};

use crate::bits::rounded;

/// Eight bytes as a number, if they don't pass the track's end.
fn word_inside(track: &[u8], i: usize) -> u64
    requires inside { i + 8 ≤ length track.now }
    requires size { length track.now ≤ 7928 }
    ensures { result ≡ number_from 0 (eight track.now i) }
{
    u64::from_be_bytes([
        track[i],
        track[i + 1],
        track[i + 2],
        track[i + 3],
        track[i + 4],
        track[i + 5],
        track[i + 6],
        track[i + 7],
    ])
}

/// The byte at a place of a circle of bytes.
fn byte_around(track: &[u8], place: usize) -> u8
    requires some { 0 < length track.now }
    requires size { length track.now ≤ 7928 }
    ensures { result ≡ round_byte track.now place }
{
    let count = track.len();
    if place < count {
        track[place]
    } else if place - count < count {
        track[place - count]
    } else {
        track[place % count]
    }
}

/// Eight bytes as a number, round and round.
fn word_around(track: &[u8], i: usize) -> u64
    requires place { i < length track.now }
    requires size { length track.now ≤ 7928 }
    ensures { result ≡ number_from 0 (eight track.now i) }
{
    u64::from_be_bytes([
        byte_around(track, i),
        byte_around(track, i + 1),
        byte_around(track, i + 2),
        byte_around(track, i + 3),
        byte_around(track, i + 4),
        byte_around(track, i + 5),
        byte_around(track, i + 6),
        byte_around(track, i + 7),
    ])
}

/// The bits from a place on, the first one highest, up to the end of the eighth byte.
fn window(track: &[u8], place: usize) -> u64
    requires place { place < 8 * length track.now }
    requires size { length track.now ≤ 7928 }
    ensures { IsWindow (circle_bits_of track.now) place result }
{
    let i = place / 8;
    let word = if i + 8 <= track.len() {
        word_inside(track, i)
    } else {
        word_around(track, i)
    };
    word << (place % 8)
}

/// A one at each bit from which nine ones stand upwards.
fn nines(word: u64) -> u64
    ensures { Marks word result 9 }
{
    let two = word & word >> 1;
    let four = two & two >> 2;
    let eight = four & four >> 4;
    eight & word >> 8
}

/// A number of places from a place on at which no ten ones begin, by the eight bytes there.
fn plain_at(track: &[u8], place: usize, word: u64) -> usize
    requires place { place < 8 * length track.now }
    requires window { IsWindow (circle_bits_of track.now) place word }
    ensures most { result ≤ 56 }
    ensures none { (j : ℕ) → j < result → ten_ones (circle_bits_of track.now) (place + j) ≡ false }
{
    let marks = nines(word);
    let room = 56 - place % 8;
    if marks == 0 {
        return room;
    }
    (marks.leading_zeros() as usize).saturating_sub(8).min(room)
}

/// How many ones stand from a place on, up to the end of the eighth byte.
fn ones_at(track: &[u8], place: usize, word: u64) -> usize
    requires place { place < 8 * length track.now }
    requires window { IsWindow (circle_bits_of track.now) place word }
    ensures most { result ≤ 64 - place % 8 }
    ensures ones { (j : ℕ) → j < result → circle_bit (circle_bits_of track.now) (place + j) ≡ true }
    ensures zero { result < 64 - place % 8 → circle_bit (circle_bits_of track.now) (place + result) ≡ false }
{
    (word.leading_ones() as usize).min(64 - place % 8)
}

/// A number of bytes from one on in which no ten ones begin, by two words at a time up to the
/// track's end.
fn plain_bytes(track: &[u8], from: usize) -> usize
    requires size { length track.now ≤ 7928 }
    requires place { from ≤ 8000 }
    ensures most { result ≤ 7928 }
    ensures none { (j : ℕ) → j < 8 * result → ten_ones (circle_bits_of track.now) (8 * from + j) ≡ false }
{
    let mut i = from;
    while i + 15 <= track.len() {
        let first = nines(word_inside(track, i));
        if first | nines(word_inside(track, i + 7)) != 0 {
            return if first == 0 { i + 7 - from } else { i - from };
        }
        i += 14;
    }
    i - from
}

/// How many places, at least one, may be passed as no ten ones begin there; `None` if ten ones
/// begin at the place itself.
pub(crate) fn step_at(track: &[u8], place: usize) -> Option<usize>
    requires place { place < 8 * length track.now }
    requires size { length track.now ≤ 7928 }
    ensures some { IfSome result (λ s. (0 < s) × (s ≤ 63480) ×
        ((j : ℕ) → j < s → ten_ones (circle_bits_of track.now) (place + j) ≡ false)) }
    ensures none { IfNone result (ten_ones (circle_bits_of track.now) place ≡ true) }
{
    let word = window(track, place);
    let plain = plain_at(track, place, word);
    let next = place + plain;
    if plain > 0 && next % 8 == 0 {
        return Some(plain + 8 * plain_bytes(track, next / 8));
    }
    if plain > 0 {
        return Some(plain);
    }
    let ones = ones_at(track, place, word);
    if ones >= 10 {
        return None;
    }
    Some(ones + 1)
}

/// How many ones stand from a place on, at most those of the whole circle.
pub(crate) fn run_at(track: &[u8], place: usize) -> usize
    requires place { place < 8 * length track.now }
    requires size { length track.now ≤ 7928 }
    ensures most { result ≤ 8 * length track.now }
    ensures ones { (j : ℕ) → j < result → circle_bit (circle_bits_of track.now) (place + j) ≡ true }
    ensures zero { result < 8 * length track.now → circle_bit (circle_bits_of track.now) (place + result) ≡ false }
{
    let bits = 8 * track.len();
    let mut run = 0;
    let mut at = place;
    while run < bits {
        let ones = ones_at(track, at, window(track, at));
        let whole = 64 - at % 8;
        if ones < whole {
            return (run + ones).min(bits);
        }
        run += whole;
        at = rounded(at + whole, bits);
    }
    bits
}
