ghost use Rattle.std.specs.Prelude.{◌≡◌};
ghost use Rattle.cbm_image.specs.Images.{is_d64_size, kind_of};

use cbm_d64::{OF_35_TRACKS, OF_40_TRACKS, WITH_ERRORS};

/// The format of an image.
#[derive(Clone, Copy, Debug, PartialEq, Eq)]
pub enum Kind {
    /// Sectors in order of track and sector.
    D64,
    /// Tracks as circles of bits.
    G64,
}

/// Whether a file of this many bytes has one of the three sizes of a D64.
fn is_d64_size(bytes: usize) -> bool
    ensures { result ≡ is_d64_size bytes }
{
    bytes == OF_35_TRACKS || bytes == WITH_ERRORS || bytes == OF_40_TRACKS
}

/// The format of an image: one that begins with `GCR-1541` is a G64, unless it has one of the sizes of a D64; any other is
/// a D64. So no bytes that are written to the sectors of a D64 make it a G64.
pub fn kind_of(image: &[u8]) -> Kind
    ensures { result ≡ kind_of image.now }
{
    if image.starts_with(b"GCR-1541") && !is_d64_size(image.len()) {
        Kind::G64
    } else {
        Kind::D64
    }
}
