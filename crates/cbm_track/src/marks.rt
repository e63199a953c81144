ghost use Rattle.std.specs.Prelude.{◌≡◌, ℕ, ◌<◌, ◌≤◌, ◌+◌, ◌*◌, ◌-◌, ◌%◌, false, length, IfSome};
ghost use Rattle.cbm_track.specs.Circle.{circle_bits_of, first_below, is_clear, next_block, ten_ones};

use crate::bits::{bit_of, rounded, wrapped};
use crate::words::{run_at, step_at};

/// The first of this many places, counted from a place on, at which ten ones begin; some from the
/// place on are known to have none.
fn first_ten(track: &[u8], place: usize, known: usize, count: usize) -> Option<usize>
    requires place { place < 8 * length track.now }
    requires size { length track.now ≤ 7928 }
    requires few { count ≤ 65536 }
    requires known { known ≤ 10 }
    requires none { (j : ℕ) → j < known → ten_ones (circle_bits_of track.now) (place + j) ≡ false }
    ensures value { result ≡ first_below (λ k. ten_ones (circle_bits_of track.now) (place + k)) count }
    ensures below { IfSome result (λ k. k < count) }
{
    let bits = 8 * track.len();
    let mut far = known;
    let mut at = rounded(place + known, bits);
    while far < count {
        let Some(step) = step_at(track, at) else {
            return Some(far);
        };
        far += step;
        at = rounded(at + step, bits);
    }
    None
}

/// Whether ten ones in a row begin nowhere among some bits from a place on.
pub(crate) fn is_clear(track: &[u8], place: usize, count: usize) -> bool
    requires place { place < 8 * length track.now }
    requires size { length track.now ≤ 7928 }
    requires few { count ≤ 65536 }
    ensures { result ≡ is_clear (circle_bits_of track.now) place count }
{
    first_ten(track, place, 0, count).is_none()
}

/// The place ten bits before another, two rounds on.
fn ten_before(place: usize, bits: usize) -> usize
    requires place { place < bits }
    requires some { 8 ≤ bits }
    requires size { bits ≤ 63424 }
    ensures value { result ≡ (place + (2 * bits - 10)) % bits }
    ensures below { result < bits }
{
    if place >= 10 {
        return place - 10;
    }
    (place + (2 * bits - 10)) % bits
}

/// Of ten places, those at which no ten ones begin: all, if the last of them has a zero.
fn ruled_out(track: &[u8], place: usize) -> usize
    requires place { place < 8 * length track.now }
    requires size { length track.now ≤ 7928 }
    ensures most { result ≤ 10 }
    ensures none { (j : ℕ) → j < result → ten_ones (circle_bits_of track.now) (place + j) ≡ false }
{
    if bit_of(track, rounded(place + 9, 8 * track.len())) {
        return 0;
    }
    10
}

/// The first place at which a block begins, from a place on: where ten ones first begin ten places
/// before it, and the ones that stand there end.
pub(crate) fn next_place(track: &[u8], from: usize) -> Option<usize>
    requires place { from < 8 * length track.now }
    requires size { length track.now ≤ 7928 }
    ensures value { result ≡ next_block (circle_bits_of track.now) from }
    ensures below { IfSome result (λ p. p < 8 * length track.now) }
{
    let bits = 8 * track.len();
    let start = ten_before(from, bits);
    let Some(far) = first_ten(track, start, ruled_out(track, start), bits) else {
        return None;
    };
    let at = wrapped(start + far, bits);
    let run = run_at(track, at);
    if run == bits {
        return None;
    }
    Some(wrapped(at + run, bits))
}
