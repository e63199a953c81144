//! Where paths lead.
use std::fs;
use std::io::{self, ErrorKind};
use std::os::unix::fs::MetadataExt;
use std::path::{Path, PathBuf};
use std::rt::Files;

/// How many links are followed, as many as the system does.
const LINKS: u32 = 40;

/// The folder of a path, as it is named.
fn folder_of(path: Path<'_>) -> Path<'_> {
    match path.parent() {
        Some(folder) if !folder.as_str().is_empty() => folder,
        _ => Path::new("."),
    }
}

/// Where a path leads, from link to link, as it is named there. What it leads to needn't be there.
fn end_of_links<R: Files + AllocGlobal>(rt: &R, path: &str) -> io::Result<PathBuf> {
    let mut place = PathBuf::from_str(rt.alloc(), path)?;
    for _ in 0..LINKS {
        let Ok(link) = fs::read_link(rt, place.as_path()) else {
            break;
        };
        place = folder_of(place.as_path()).join(rt.alloc(), link.as_str())?;
    }
    Ok(place)
}

/// The place of a file that isn't there: its name in the folder in which it would be.
fn place_of_none<R: Files + AllocGlobal>(rt: &R, path: &str) -> io::Result<PathBuf> {
    let end = end_of_links(rt, path)?;
    let folder = fs::canonicalize(rt, folder_of(end.as_path()))?;
    let name = end.as_path().file_name().unwrap_or("");
    Ok(folder.as_path().join(rt.alloc(), name)?)
}

/// The place to which a path leads, without links; the file itself needn't be there. Errors: the system's.
pub fn place_of<R: Files + AllocGlobal>(rt: &R, path: &str) -> io::Result<PathBuf> {
    match fs::canonicalize(rt, path) {
        Err(error) if error.kind() == ErrorKind::NotFound => place_of_none(rt, path),
        place => place,
    }
}

/// Whether two files that aren't there would be one.
fn is_one_place<R: Files + AllocGlobal>(rt: &R, one: &str, other: &str) -> bool {
    match (place_of(rt, one), place_of(rt, other)) {
        (Ok(one), Ok(other)) => one.as_path().as_str() == other.as_path().as_str(),
        _ => one == other,
    }
}

/// Whether two paths lead to one regular file, or would if it were there. Names of devices and pipes are never the same here: what is
/// written to these takes nothing away.
pub fn is_same<R: Files + AllocGlobal>(rt: &R, one: &str, other: &str) -> bool {
    match (fs::metadata(rt, one), fs::metadata(rt, other)) {
        (Ok(one), Ok(other)) => {
            one.is_file() && one.dev() == other.dev() && one.ino() == other.ino()
        }
        (Err(_), Err(_)) => is_one_place(rt, one, other),
        _ => false,
    }
}
