//! What an image lacks that is made of another disk or archive.
use crate::other::Other;
use cbm_medium::Trouble;
use cbm_shell::texts::Charset;
use cbm_sources::Fault;
use cbm_volume::Entry;
use disk_basics::calls::name_text;
use disk_basics::{Failure, What, in_memory};
use std::rt::Runtime;

/// The bytes of a sector.
const SECTOR: usize = 256;

/// How many sectors have a byte that isn't 0.
fn count_written(sectors: &[u8]) -> usize {
    let mut count: usize = 0;
    for sector in sectors.chunks(SECTOR) {
        if sector.iter().any(|byte| *byte != 0) {
            count = count.saturating_add(1);
        }
    }
    count
}

/// Reports that the sectors beyond track 40 can't be held, if one has data. Answers whether one has.
fn tell_beyond(rt: &impl Eprint, output: &str, other: &Other<'_>) -> bool {
    let count = count_written(other.beyond_40());
    if count != 0 {
        let _ = eprintln!(rt;
            "disk1541: {output} can't hold the tracks 41 and 42: sectors with data there: {count}"
        );
    }
    count != 0
}

/// Reports that error bytes can't be held, if one says that a sector can't be read.
fn tell_errors(rt: &impl Eprint, output: &str, count: usize, first: Trouble) {
    let track = first.track;
    let sector = first.sector;
    let code = first.code;
    let _ = eprintln!(rt;
        "disk1541: {output} can't hold the error bytes: sectors that can't be read: {count}, the first at track {track}, sector {sector} (error {code})"
    );
}

/// Reports what an image lacks that is made of another disk or archive. Answers whether it lacks something.
pub fn tell_lost(rt: &impl Eprint, output: &str, other: &Other<'_>) -> bool {
    let is_beyond = tell_beyond(rt, output, other);
    match other.unreadable() {
        Some((count, Some(first))) => {
            tell_errors(rt, output, count, first);
            true
        }
        _ => is_beyond,
    }
}

/// Whether a file reads as before on the disk that ends with track 40, or never did.
fn is_held<R: Runtime + AllocGlobal>(
    rt: &R,
    other: &Other<'_>,
    cut: &Other<'_>,
    number: usize,
) -> Result<bool, Failure> {
    match (other.file(rt.alloc(), number), cut.file(rt.alloc(), number)) {
        (Err(Fault::Memory), _) | (_, Err(Fault::Memory)) => Err(Failure::new(What::NoMemory)),
        (Ok(before), Ok(after)) => Ok(before.as_slice() == after.as_slice()),
        (Ok(_), Err(_)) => Ok(false),
        (Err(_), _) => Ok(true),
    }
}

/// Reports a file that has blocks beyond track 40.
fn tell_file<R: Runtime + AllocGlobal>(rt: &R, entry: &Entry) -> Result<(), Failure> {
    let name = in_memory(name_text(rt.alloc(), Charset::Upper, entry.name()))?;
    let name = name.as_str();
    let _ = eprintln!(rt;
        "disk1541: \"{name}\" has blocks beyond track 40: `new` makes a disk, and `transfer` takes the files over"
    );
    Ok(())
}

/// Reports the files of a disk that don't read as before where it ends with track 40, or that its directory doesn't. Answers whether it
/// has such. The one error is `NoMemory`.
pub fn tell_unheld<R: Runtime + AllocGlobal>(
    rt: &R,
    image: &str,
    other: &Other<'_>,
    cut: &Other<'_>,
) -> Result<bool, Failure> {
    let before = in_memory(other.contents(rt.alloc()))?;
    let after = in_memory(cut.contents(rt.alloc()))?;
    if before.fault.is_none() && after.fault.is_some() {
        let _ = eprintln!(rt;
            "disk1541: {image}: the directory has blocks beyond track 40: `new` makes a disk, and `transfer` takes the files over"
        );
        return Ok(true);
    }
    let mut has_some = false;
    for (number, entry) in before.entries.iter().enumerate() {
        if !is_held(rt, other, cut, number)? {
            tell_file(rt, entry)?;
            has_some = true;
        }
    }
    Ok(has_some)
}
