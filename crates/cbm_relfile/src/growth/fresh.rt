// Fresh records, as they are written into the blocks of a file that grows.

ghost use Rattle.std.specs.Prelude.{◌≡◌, ◌≤◌};
ghost use Rattle.cbm_relfile.specs.Fresh.{fresh_in, full_end, IsFilledFrom};

use cbm_medium::Link;

/// The first byte of a record that was never written.
const FRESH: u8 = 255;

/// The link of a last block whose 254 bytes are all used.
pub fn full_end() -> Link
    ensures { result ≡ full_end }
{
    Link::new(0, 255)
}

/// The byte at a place of a file of this many data blocks that has fresh records alone: $FF where one begins, else 0, and 0
/// after the last whole one.
pub fn fresh_byte(length: u8, blocks: u16, place: u32) -> u8
    requires { 1 ≤ length }
    ensures { result ≡ fresh_in length blocks place }
{
    let length = length as u32;
    let count = 254 * blocks as u32 / length;
    if place < count * length && place % length == 0 {
        FRESH
    } else {
        0
    }
}

/// A data block that is filled up with fresh records from a place of its data on: the one of this number, counted from 0,
/// of a file of this many data blocks. It links to `next`, and the data before the place stay.
pub fn fresh_from(
    block: &[u8; 256],
    next: Link,
    place: u8,
    length: u8,
    blocks: u16,
    number: u16,
) -> [u8; 256]
    requires length { 1 ≤ length }
    requires place { place ≤ 254 }
    ensures { IsFilledFrom length blocks number place block.now next result }
{
    let mut new = *block;
    new[0] = next.track();
    new[1] = next.sector();
    for at in place..254u8 {
        new[2 + at as usize] = fresh_byte(length, blocks, 254 * number as u32 + at as u32);
    }
    new
}
