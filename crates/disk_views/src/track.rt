//! What stands on a track of a G64.
use crate::block::{Block, Header, block_at};
use crate::circle::{afterwards, distance, ones_before};
use cbm_track::Track;
use std::alloc::{AllocError, Global};

/// A sync mark and its block.
#[derive(Clone, Copy)]
pub struct Part {
    /// Where the mark begins.
    pub from: u32,
    /// How many ones it has.
    pub ones: u32,
    /// The block after it.
    pub block: Block,
    /// How many bits stand after the block before the next mark.
    pub gap: u32,
}

/// A track that goes round.
#[derive(Drop)]
pub struct Circle {
    /// How many bits it has.
    pub bits: u32,
    /// Its marks and blocks.
    pub parts: Vec<Part>,
}

/// How many blocks of each kind there are.
#[derive(Clone, Copy)]
pub struct Counts {
    /// Header blocks.
    pub headers: u32,
    /// Data blocks.
    pub data: u32,
    /// Other blocks.
    pub others: u32,
}

impl Counts {
    /// One block more.
    fn add(&mut self, block: Block) {
        match block {
            Block::Header(_) => self.headers = self.headers.wrapping_add(1),
            Block::Data(_) => self.data = self.data.wrapping_add(1),
            Block::Other(_) => self.others = self.others.wrapping_add(1),
        }
    }
}

impl Circle {
    /// How many blocks of each kind it has.
    pub fn counts(&self) -> Counts {
        let mut counts = Counts {
            headers: 0,
            data: 0,
            others: 0,
        };
        for part in self.parts.as_slice() {
            counts.add(part.block);
        }
        counts
    }
}

/// How a checksum is shown.
fn checksum_word(is_good: bool) -> &'static str {
    if is_good { "good" } else { "bad" }
}

/// Adds what a header block says.
fn add_header(alloc: Global, text: &mut String, header: Header) -> Result<(), AllocError> {
    let Header {
        track,
        sector,
        first,
        second,
        is_good,
    } = header;
    let word = checksum_word(is_good);
    text.push_str(format!(in alloc;
        "header {track}/{sector}, id {first:02x} {second:02x}, checksum {word}"
    )?.as_str())
}

/// What a data block is.
fn data_words(good: Option<bool>) -> &'static str {
    match good {
        Some(true) => "data block, checksum good",
        Some(false) => "data block, checksum bad",
        None => "data block with bytes that are no group code",
    }
}

/// Adds what another block is.
fn add_other(alloc: Global, text: &mut String, first: Option<u8>) -> Result<(), AllocError> {
    match first {
        Some(first) => {
            text.push_str(format!(in alloc; "block that begins with {first:02x}")?.as_str())
        }
        None => text.push_str("block that is no group code"),
    }
}

/// Adds what a block is.
fn add_block(alloc: Global, text: &mut String, block: Block) -> Result<(), AllocError> {
    match block {
        Block::Header(header) => add_header(alloc, text, header),
        Block::Data(good) => text.push_str(data_words(good)),
        Block::Other(first) => add_other(alloc, text, first),
    }
}

/// Adds the line of a mark and its block.
fn add_part(alloc: Global, text: &mut String, part: Part) -> Result<(), AllocError> {
    let Part {
        from,
        ones,
        gap,
        ..
    } = part;
    text.push_str(format!(in alloc; "{from:>6}  sync {ones}, ")?.as_str())?;
    add_block(alloc, text, part.block)?;
    text.push_str(format!(in alloc; ", gap {gap}\n")?.as_str())
}

/// The mark whose block begins at a place, before the block that begins at another one.
fn part_at(track: &Track, bytes: &[u8], place: u32, next: u32) -> Part {
    let bits = track.bits();
    let ones = ones_before(track, bytes, place);
    let block = block_at(track, place);
    let to_next = if place == next {
        bits
    } else {
        distance(bits, place, next)
    };
    let room = to_next.saturating_sub(ones_before(track, bytes, next));
    Part {
        from: afterwards(bits, place, ones),
        ones,
        block,
        gap: room.saturating_sub(block.bits()),
    }
}

/// Where the next block begins after the one at a place.
fn next_place(track: &Track, place: u32) -> u32 {
    let bits = track.bits();
    track
        .next_sync(place.wrapping_add(1) % bits)
        .unwrap_or(place)
}

/// All marks and their blocks, once round from the block at a place.
fn parts_from(
    alloc: Global,
    track: &Track,
    bytes: &[u8],
    first: u32,
) -> Result<Vec<Part>, AllocError> {
    let mut parts = Vec::new(alloc);
    let mut place = first;
    for _ in 0..track.bits() {
        let next = next_place(track, place);
        parts
            .push(part_at(track, bytes, place, next))
            .map_err(AllocError::from)?;
        if next <= place {
            break;
        }
        place = next;
    }
    Ok(parts)
}

/// What stands on a track of a G64 of these bytes; None where a track has no byte or more than 7,928. The one error is want of
/// memory.
pub fn circle_of(alloc: Global, bytes: &[u8]) -> Result<Option<Circle>, AllocError> {
    let Some(track) = Track::from_bytes(bytes) else {
        return Ok(None);
    };
    let bits = track.bits();
    let parts = match track.next_sync(0) {
        Some(first) if first < bits => parts_from(alloc, &track, bytes, first)?,
        _ => Vec::new(alloc),
    };
    Ok(Some(Circle { bits, parts }))
}

/// Adds the line of the counts.
fn add_counts(alloc: Global, text: &mut String, counts: Counts) -> Result<(), AllocError> {
    let Counts {
        headers,
        data,
        others,
    } = counts;
    text.push_str(format!(in alloc;
        "{headers} headers, {data} data blocks, {others} other blocks\n"
    )?.as_str())
}

/// A track of a name in lines: one for each sync mark, with the place of its first bit, how many ones it has, the block after it, and
/// the bits of the gap up to the next mark; then how many blocks there are. The one error is want of memory.
pub fn track_lines(alloc: Global, name: &str, circle: &Circle) -> Result<String, AllocError> {
    let bits = circle.bits;
    let mut text = format!(in alloc; "track {name}: {bits} bits\n   bit\n")?;
    if circle.parts.is_empty() {
        text.push_str("no sync mark\n")?;
        return Ok(text);
    }
    for part in circle.parts.as_slice() {
        add_part(alloc, &mut text, *part)?;
    }
    add_counts(alloc, &mut text, circle.counts())?;
    Ok(text)
}
