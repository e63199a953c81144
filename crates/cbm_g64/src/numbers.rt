ghost use Rattle.std.specs.Prelude.{◌≡◌, ◌<◌, ◌≤◌, ◌+◌, length};
ghost use Rattle.cbm_g64.specs.File.{four_at, offset, two_at};

use byteorder::{ByteOrder, LittleEndian};

/// A number of two bytes of a file, the low one first.
pub(crate) fn two_at(file: &[u8], at: usize) -> usize
    requires { at + 2 ≤ length file.now }
    ensures value { result ≡ two_at file.now at }
    ensures below { result < 65536 }
{
    LittleEndian::read_u16(&file[at..]) as usize
}

/// A number of four bytes of a file, the low one first.
fn four_at(file: &[u8], at: usize) -> usize
    requires { at + 4 ≤ length file.now }
    ensures value { result ≡ four_at file.now at }
    ensures below { result < 4294967296 }
{
    LittleEndian::read_u32(&file[at..]) as usize
}

/// The offset of track `i + 1`, 0 for no track.
#[tactic(auto, unfolding(crate::specs::File::offset))]
pub(crate) fn offset(file: &[u8], i: usize) -> usize
    requires track { i < 35 }
    requires tables { 292 ≤ length file.now }
    ensures value { result ≡ offset file.now i }
    ensures below { result < 4294967296 }
{
    four_at(file, 12 + 8 * i)
}
