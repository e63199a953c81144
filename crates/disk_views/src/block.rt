//! What stands after a sync mark.
use cbm_gcr::decode5;
use cbm_track::Track;

/// The first byte of a header.
const HEADER: u8 = 8;

/// The first byte of a data block.
const DATA: u8 = 7;

/// How many bytes a header has, and how many groups of five as group code.
const HEADER_BITS: u32 = 80;

/// How many bits a data block has.
const DATA_BITS: u32 = 2600;

/// What a header block says.
#[derive(Clone, Copy)]
pub struct Header {
    /// The track.
    pub track: u8,
    /// The sector.
    pub sector: u8,
    /// The first byte of the id.
    pub first: u8,
    /// The second one.
    pub second: u8,
    /// Whether the checksum is right.
    pub is_good: bool,
}

/// A block.
#[derive(Clone, Copy)]
pub enum Block {
    /// A header block.
    Header(Header),
    /// A data block, and whether its checksum is right; None where it isn't group code.
    Data(Option<bool>),
    /// Another block, by its first byte; None where that is no group code.
    Other(Option<u8>),
}

impl Block {
    /// How many bits it has.
    pub fn bits(self) -> u32 {
        match self {
            Block::Header(_) => HEADER_BITS,
            Block::Data(_) => DATA_BITS,
            Block::Other(_) => 0,
        }
    }
}

/// The four bytes of a group, if it is one.
fn group_at(track: &Track, place: u32) -> Option<[u8; 4]> {
    let bits = track.bits();
    let mut coded = [0; 5];
    track.bytes_at(place % bits, &mut coded);
    decode5(&coded)
}

/// What a header block says, from its second group and the bytes of its first one.
fn header_of(group: [u8; 4], sum: u8, sector: u8, track: u8) -> Header {
    let [second, first, _, _] = group;
    Header {
        track,
        sector,
        first,
        second,
        is_good: sum == sector ^ track ^ first ^ second,
    }
}

/// A header block, from its first group.
fn read_header(track: &Track, place: u32, sum: u8, sector: u8, number: u8) -> Block {
    match group_at(track, place.wrapping_add(40)) {
        Some(group) => Block::Header(header_of(group, sum, sector, number)),
        None => Block::Other(Some(HEADER)),
    }
}

/// The exclusive or of a group's bytes.
fn sum_of(group: [u8; 4]) -> u8 {
    let [a, b, c, d] = group;
    a ^ b ^ c ^ d
}

/// Whether the checksum of a data block is right: over all its groups the exclusive or is 7, its first byte, without the two
/// bytes after the checksum.
fn is_good(track: &Track, place: u32) -> Option<bool> {
    let mut sum: u8 = 0;
    let mut at = place;
    for _ in 0..64u8 {
        sum ^= sum_of(group_at(track, at)?);
        at = at.wrapping_add(40);
    }
    let [byte, check, _, _] = group_at(track, at)?;
    Some(sum ^ DATA ^ byte == check)
}

/// The block that begins at a place with a group.
fn block_of(track: &Track, place: u32, group: [u8; 4]) -> Block {
    let [first, sum, sector, number] = group;
    if first == HEADER {
        read_header(track, place, sum, sector, number)
    } else if first == DATA {
        Block::Data(is_good(track, place))
    } else {
        Block::Other(Some(first))
    }
}

/// The block that begins at a place.
pub fn block_at(track: &Track, place: u32) -> Block {
    match group_at(track, place) {
        Some(group) => block_of(track, place, group),
        None => Block::Other(None),
    }
}
