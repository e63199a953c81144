//! TRACK for programs.
use disk_facts::hex;
use disk_json::line;
use disk_views::{Block, Circle, Counts, Header, Part};
use serde::Serialize;
use std::alloc::{AllocError, Global};

/// What a header block says.
#[derive(Drop, Serialize)]
struct HeaderFacts {
    track: u8,
    sector: u8,
    id: String,
}

/// A sync mark and its block.
#[derive(Drop, Serialize)]
struct MarkFacts {
    bit: u32,
    ones: u32,
    block: &'static str,
    first: Option<u8>,
    header: Option<HeaderFacts>,
    good: Option<bool>,
    gap: u32,
}

/// A track.
#[derive(Drop, Serialize)]
struct TrackReport<'a> {
    image: &'a str,
    track: &'a str,
    bits: u32,
    marks: Vec<MarkFacts>,
    headers: u32,
    data: u32,
    others: u32,
}

/// What a header block says.
fn header_facts(alloc: Global, header: Header) -> Result<HeaderFacts, AllocError> {
    Ok(HeaderFacts {
        track: header.track,
        sector: header.sector,
        id: hex(alloc, &[header.first, header.second])?,
    })
}

/// What a block is called, the first byte of another one, and whether its checksum is right.
fn block_facts(block: Block) -> (&'static str, Option<u8>, Option<bool>) {
    match block {
        Block::Header(header) => ("header", None, Some(header.is_good)),
        Block::Data(good) => ("data", None, good),
        Block::Other(first) => ("other", first, None),
    }
}

/// A mark and its block.
fn mark_facts(alloc: Global, part: Part) -> Result<MarkFacts, AllocError> {
    let (block, first, good) = block_facts(part.block);
    let header = match part.block {
        Block::Header(header) => Some(header_facts(alloc, header)?),
        _ => None,
    };
    Ok(MarkFacts {
        bit: part.from,
        ones: part.ones,
        block,
        first,
        header,
        good,
        gap: part.gap,
    })
}

/// All marks and their blocks.
fn marks_of(alloc: Global, circle: &Circle) -> Result<Vec<MarkFacts>, AllocError> {
    let mut marks = Vec::new(alloc);
    for part in circle.parts.as_slice() {
        let facts = mark_facts(alloc, *part)?;
        marks.push(facts).map_err(AllocError::from)?;
    }
    Ok(marks)
}

/// What stands on a track of a name, as a line of JSON. The one error is want of memory.
pub fn circle_line(
    alloc: Global,
    image: &str,
    track: &str,
    circle: &Circle,
) -> Result<Vec<u8>, AllocError> {
    let Counts {
        headers,
        data,
        others,
    } = circle.counts();
    let report = TrackReport {
        image,
        track,
        bits: circle.bits,
        marks: marks_of(alloc, circle)?,
        headers,
        data,
        others,
    };
    line(alloc, &report)
}
