//! CONVERT of a D64 to 40 tracks, or back to 35.
use cbm_image::{OF_35_TRACKS, OF_40_TRACKS};
use cbm_medium::Address;
use cbm_shell::geos_of;
use cbm_volume::Entry;
use disk_basics::calls::{check, entries, geos_blocks};
use disk_basics::host::joined;
use disk_basics::odd::put_away;
use disk_basics::{Failure, What, WordFault, in_memory, on_disk};
use disk_facts::{DOLPHIN, SPEED, WideMap, wide_map, without_errors};
use std::alloc::Global;
use std::rt::Runtime;

/// The bytes of the tracks 36 to 40.
const BEYOND: usize = OF_40_TRACKS - OF_35_TRACKS;

/// The bytes of a sector.
const SECTOR: usize = 256;

/// How many bytes it has.
const ROWS: usize = 20;

/// The map of five tracks of which each sector is free.
const FREE: [u8; ROWS] = [
    17, 255, 255, 1, 17, 255, 255, 1, 17, 255, 255, 1, 17, 255, 255, 1, 17, 255, 255, 1,
];

/// The error byte of a sector that reads.
const FINE: u8 = 1;

/// Whether a word says 40 tracks. Errors: `Word`, where it says neither 35 nor 40.
fn is_forty(alloc: Global, word: &str) -> Result<bool, Failure> {
    match word {
        "35" => Ok(false),
        "40" => Ok(true),
        _ => Err(Failure::named(alloc, What::Word(WordFault::Tracks), word)),
    }
}

/// Refuses a disk that isn't sound, or sound but for its odd entries.
fn require_sound(alloc: Global, image: &str, bytes: &[u8]) -> Result<(), Failure> {
    if on_disk(alloc, image, check(alloc, bytes))?.is_err() {
        on_disk(alloc, image, put_away(alloc, bytes))?;
    }
    Ok(())
}

/// Whether the map of the tracks 36 to 40 at a place has each sector as free.
fn is_free(bytes: &[u8], place: usize) -> bool {
    bytes.get(place..place.saturating_add(ROWS)) == Some(FREE.as_slice())
}

/// The places of the maps of the tracks 36 to 40 that a D64 has, the drive's and Dolphin DOS's.
fn map_places(bytes: &[u8]) -> (bool, bool) {
    match wide_map(bytes) {
        Some(WideMap::Speed) => (true, false),
        Some(WideMap::Dolphin) => (false, true),
        Some(WideMap::Both) => (true, true),
        None => (false, false),
    }
}

/// Whether each map of the tracks 36 to 40 that a D64 has, and one is there, has each of their sectors as free.
fn are_free(bytes: &[u8]) -> bool {
    let (has_speed, has_dolphin) = map_places(bytes);
    (has_speed || has_dolphin)
        && (!has_speed || is_free(bytes, SPEED))
        && (!has_dolphin || is_free(bytes, DOLPHIN))
}

/// Whether GEOS keeps blocks of a file beyond track 35.
fn has_geos_beyond(
    alloc: Global,
    image: &str,
    bytes: &[u8],
    entry: &Entry,
) -> Result<bool, Failure> {
    let blocks = on_disk(alloc, image, geos_blocks(alloc, bytes, entry))?;
    for track in 36..41u8 {
        for sector in 0..17u8 {
            match Address::new(track, sector) {
                Some(at) if blocks.has(at) => return Ok(true),
                _ => {}
            }
        }
    }
    Ok(false)
}

/// Whether GEOS keeps blocks of any file there.
fn has_any_geos(alloc: Global, image: &str, bytes: &[u8]) -> Result<bool, Failure> {
    for entry in on_disk(alloc, image, entries(alloc, bytes))?.as_slice() {
        if geos_of(entry).is_some() && has_geos_beyond(alloc, image, bytes, entry)? {
            return Ok(true);
        }
    }
    Ok(false)
}

/// How many sectors have a byte that isn't 0.
fn count_written(sectors: &[u8]) -> usize {
    let mut count: usize = 0;
    for sector in sectors.chunks(SECTOR) {
        if has_other(sector, 0) {
            count = count.saturating_add(1);
        }
    }
    count
}

/// Puts zeros where a map of the tracks 36 to 40 stood.
fn clear_map(image: &mut Vec<u8>, place: usize) {
    let rows = image
        .as_mut_slice()
        .get_mut(place..place.saturating_add(ROWS));
    if let Some(rows) = rows {
        rows.fill(0);
    }
}

/// The sectors of tracks 1 to 35, with zeros where maps of the tracks 36 to 40 stood.
fn cut(alloc: Global, bytes: &[u8]) -> Result<Vec<u8>, Failure> {
    let (has_speed, has_dolphin) = map_places(bytes);
    let sectors = bytes.get(..OF_35_TRACKS).unwrap_or(&[]);
    let mut new = in_memory(Vec::from_slice(alloc, sectors))?;
    if has_speed {
        clear_map(&mut new, SPEED);
    }
    if has_dolphin {
        clear_map(&mut new, DOLPHIN);
    }
    Ok(new)
}

/// The D64 of 35 tracks, if nothing on the tracks beyond is in use; data there are reported, and lost. Answers whether something is.
fn shortened<R: Runtime + AllocGlobal>(
    rt: &R,
    image: &str,
    bytes: &[u8],
    output: &str,
) -> Result<(Vec<u8>, bool), Failure> {
    if !are_free(bytes) || has_any_geos(rt.alloc(), image, bytes)? {
        let _ = eprintln!(rt;
            "disk1541: {image} needs its 40 tracks: some blocks of tracks 36 to 40 are in use"
        );
        return Err(Failure::new(What::Told));
    }
    let count = count_written(bytes.get(OF_35_TRACKS..).unwrap_or(&[]));
    if count != 0 {
        let _ = eprintln!(rt;
            "disk1541: {output} can't hold tracks 36 to 40, where {count} sectors have data"
        );
    }
    Ok((cut(rt.alloc(), bytes)?, count != 0))
}

/// Whether one of these bytes is another one.
fn has_other(bytes: &[u8], fine: u8) -> bool {
    for byte in bytes {
        if *byte != fine {
            return true;
        }
    }
    false
}

/// Reports what a D64 of 40 tracks can't hold of one of 35. Answers whether it is something.
fn tell_unheld(rt: &impl Eprint, bytes: &[u8], output: &str) -> bool {
    let plain = without_errors(bytes);
    let has_errors = has_other(bytes.get(plain.len()..).unwrap_or(&[]), FINE);
    if has_errors {
        let _ = eprintln!(rt; "disk1541: {output} can't hold the error bytes");
    }
    let has_more = has_other(plain.get(SPEED..SPEED + ROWS).unwrap_or(&[]), 0);
    if has_more {
        let _ = eprintln!(rt;
            "disk1541: {output} can't hold the bytes $C0 to $D3 of track 18, sector 0, the place of the BAM of tracks 36 to 40"
        );
    }
    has_errors || has_more
}

/// The D64 of 40 tracks, those beyond 35 free and zeros.
fn lengthened(alloc: Global, bytes: &[u8]) -> Result<Vec<u8>, Failure> {
    let plain = without_errors(bytes);
    let beyond = in_memory(vec![in alloc; 0u8; BEYOND])?;
    let start = plain.get(..SPEED).unwrap_or(&[]);
    let end = plain.get(SPEED + ROWS..).unwrap_or(&[]);
    joined(alloc, &[start, &FREE, end, beyond.as_slice()])
}

/// The D64 with 35 tracks or 40, and whether it lacks something, as is reported. Errors: `Word`, where no disk has that many tracks, or
/// the image has them already; `Disk`, where the disk isn't sound, nor but for odd entries, before or after; `Told`, where something on
/// the tracks 36 to 40 is in use, as is reported; `NoMemory`.
pub fn with_tracks<R: Runtime + AllocGlobal>(
    rt: &R,
    image: &str,
    bytes: &[u8],
    output: &str,
    tracks: &str,
) -> Result<(Vec<u8>, bool), Failure> {
    let is_long = bytes.len() == OF_40_TRACKS;
    if is_forty(rt.alloc(), tracks)? == is_long {
        return Err(Failure::named(rt.alloc(), What::Word(WordFault::SameTracks), image));
    }
    require_sound(rt.alloc(), image, bytes)?;
    let (new, is_lossy) = if is_long {
        shortened(rt, image, bytes, output)?
    } else {
        let is_lossy = tell_unheld(rt, bytes, output);
        (lengthened(rt.alloc(), bytes)?, is_lossy)
    };
    require_sound(rt.alloc(), output, new.as_slice())?;
    Ok((new, is_lossy))
}
