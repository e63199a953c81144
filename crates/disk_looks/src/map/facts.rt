//! MAP for programs.
use super::Sketch;
use disk_json::{Named, line};
use disk_views::{Owner, Row, row_of, slots_at, state_of};
use serde::Serialize;
use std::alloc::{AllocError, Global};

/// A sector.
#[derive(Drop, Serialize)]
struct SectorFacts {
    sector: u8,
    state: &'static str,
    slots: Vec<usize>,
}

/// A track.
#[derive(Drop, Serialize)]
struct TrackFacts {
    track: u8,
    sectors: Vec<SectorFacts>,
}

/// A file that has sectors.
#[derive(Drop, Serialize)]
struct FileFacts<'a> {
    slot: usize,
    name: &'a str,
    #[serde(rename = "type")]
    kind: &'static str,
}

/// The sectors of an image.
#[derive(Drop, Serialize)]
struct MapReport<'a> {
    image: &'a str,
    free: Option<u16>,
    files: Vec<FileFacts<'a>>,
    rests: &'a [Named],
    tracks: Vec<TrackFacts>,
}

/// The sectors of a track.
fn sectors_of(
    alloc: Global,
    row: Row<'_>,
    owners: &[Owner],
) -> Result<Vec<SectorFacts>, AllocError> {
    let mut sectors = Vec::new(alloc);
    let mut sector: u8 = 0;
    for sign in row.signs {
        let facts = SectorFacts {
            sector,
            state: state_of(*sign),
            slots: slots_at(alloc, owners, row.track, sector)?,
        };
        sectors.push(facts).map_err(AllocError::from)?;
        sector = sector.saturating_add(1);
    }
    Ok(sectors)
}

/// The tracks of a picture.
fn tracks_of(alloc: Global, sketch: Sketch<'_>) -> Result<Vec<TrackFacts>, AllocError> {
    let mut tracks = Vec::new(alloc);
    for text in sketch.picture.lines() {
        if let Some(row) = row_of(text) {
            let facts = TrackFacts {
                track: row.track,
                sectors: sectors_of(alloc, row, sketch.owners)?,
            };
            tracks.push(facts).map_err(AllocError::from)?;
        }
    }
    Ok(tracks)
}

/// The files that have sectors.
fn files_of<'a>(alloc: Global, owners: &'a [Owner]) -> Result<Vec<FileFacts<'a>>, AllocError> {
    let mut files = Vec::new(alloc);
    for owner in owners {
        let file = FileFacts {
            slot: owner.slot,
            name: owner.name.as_str(),
            kind: owner.kind,
        };
        files.push(file).map_err(AllocError::from)?;
    }
    Ok(files)
}

/// The sectors of an image as a line of JSON. The one error is want of memory.
pub fn map_line(
    alloc: Global,
    image: &str,
    free: Option<u16>,
    sketch: Sketch<'_>,
) -> Result<Vec<u8>, AllocError> {
    let report = MapReport {
        image,
        free,
        files: files_of(alloc, sketch.owners)?,
        rests: sketch.rests,
        tracks: tracks_of(alloc, sketch)?,
    };
    line(alloc, &report)
}
