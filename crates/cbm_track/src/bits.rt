ghost use Rattle.std.specs.Prelude.{◌≡◌, ◌<◌, ◌*◌, ◌%◌, false, length, slice_index_or};
ghost use Rattle.cbm_track.specs.Circle.{circle_bits_of};

/// The bit at a place of bytes, if the high bit of the first byte is the first.
pub(crate) fn bit_of(bytes: &[u8], place: usize) -> bool
    requires { place < 8 * length bytes.now }
    ensures { result ≡ slice_index_or (circle_bits_of bytes.now) place false }
{
    bytes[place / 8] >> (7 - place % 8) & 1 == 1
}

/// The place on a circle of some bits, for one that is past its end at most once.
pub(crate) fn wrapped(place: usize, bits: usize) -> usize
    requires { place < 2 * bits }
    ensures value { result ≡ place % bits }
    ensures below { result < bits }
{
    if place < bits { place } else { place - bits }
}

/// The same for any place.
pub(crate) fn rounded(place: usize, bits: usize) -> usize
    requires { 0 < bits }
    ensures value { result ≡ place % bits }
    ensures below { result < bits }
{
    if place < bits { place } else { place % bits }
}
