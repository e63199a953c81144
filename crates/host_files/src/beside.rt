//! Saving a file so that half a file is never left.
use crate::left::{Leftovers, beside};
use std::alloc::{AllocError, Global};
use std::fs::{Metadata, OpenFile, OpenOptions};
use std::io::{ErrorKind, Read, Write};
use std::os::unix::fs::{MetadataExt, chown};
use std::path::{Path, PathBuf};
use std::rt::Files;
use std::{fs, io};

/// How many names are tried for the file beside.
const TRIES: u32 = u32::MAX;

/// How many bytes of a file are compared at a time.
const ROOM: usize = 8192;

/// How many links are followed, as many as the system does.
const LINKS: u32 = 40;

/// Whether bytes have to be on the host's disk before they get a file's name.
#[derive(Clone, Copy, Debug, PartialEq, Eq)]
pub enum Sync {
    /// They have, so that also a power cut leaves the old file or the new one.
    Before,
    /// The system may write them when it likes.
    Later,
}

/// What is saved.
#[derive(Clone, Copy)]
struct Saving<'p, 'b, 'o> {
    program: &'p str,
    bytes: &'b [u8],
    // What the file must still hold, if that matters.
    old: Option<&'o [u8]>,
    sync: Sync,
}

/// Writes the bytes beside the file, and then gives them the file's name. At an `Err` the file is as it was. What is
/// there and is no regular file, as a device, is written to as it stands. A link stays a link, also one to nothing yet,
/// and the file that was there leaves its mode to the new one, and its owner and group, if the process may give them.
///
/// The file beside has the names of the program that saves and of the file, the number of the process, another number, and `.new`.
/// What earlier processes that were ended in a save of the file left beside is removed.
pub fn save<R: Files + AllocGlobal>(
    rt: &R,
    program: &str,
    path: &str,
    bytes: &[u8],
) -> io::Result<()> {
    save_by(rt, program, path, bytes, Sync::Before)
}

/// As `save`, with a choice of whether the bytes are on the host's disk before they get the file's name.
pub fn save_by<R: Files + AllocGlobal>(
    rt: &R,
    program: &str,
    path: &str,
    bytes: &[u8],
    sync: Sync,
) -> io::Result<()> {
    let mut left = Leftovers::new(rt.alloc());
    save_among(rt, program, path, bytes, sync, &mut left)
}

/// As `save_by`, one of several files: the folder is looked through for what is left there when the first of them is saved.
pub fn save_among<R: Files + AllocGlobal>(
    rt: &R,
    program: &str,
    path: &str,
    bytes: &[u8],
    sync: Sync,
    left: &mut Leftovers,
) -> io::Result<()> {
    let save = Saving {
        program,
        bytes,
        old: None,
        sync,
    };
    save_whole(rt, path, save, left)?;
    Ok(())
}

/// As `save`, in place of a file that holds these bytes: where it holds others just before the new ones get its name,
/// it stays as it is, and the answer is false.
pub fn replace<R: Files + AllocGlobal>(
    rt: &R,
    program: &str,
    path: &str,
    old: &[u8],
    bytes: &[u8],
) -> io::Result<bool> {
    let save = Saving {
        program,
        bytes,
        old: Some(old),
        sync: Sync::Before,
    };
    save_whole(rt, path, save, &mut Leftovers::new(rt.alloc()))
}

/// What a path leads to, and whether it is a link.
fn found_at<R: Files>(rt: &R, path: &str) -> (io::Result<Metadata>, bool) {
    match fs::symlink_metadata(rt, path) {
        Ok(own) if own.is_symlink() => (fs::metadata(rt, path), true),
        found => (found, false),
    }
}

/// Saves a file. False where it doesn't hold any more what it must.
fn save_whole<R: Files + AllocGlobal>(
    rt: &R,
    path: &str,
    save: Saving<'_, '_, '_>,
    left: &mut Leftovers,
) -> io::Result<bool> {
    let (found, is_link) = found_at(rt, path);
    match found {
        Ok(metadata) if metadata.is_file() => {
            let place = end_of_links(rt, path, is_link)?;
            require_writable(rt, place.as_path())?;
            save_beside(rt, place.as_path(), save, Some(metadata), left)
        }
        Ok(_) => {
            fs::write(rt, path, save.bytes)?;
            Ok(true)
        }
        Err(error) if error.kind() == ErrorKind::NotFound => {
            let place = end_of_links(rt, path, is_link)?;
            save_beside(rt, place.as_path(), save, None, left)
        }
        Err(error) => Err(error),
    }
}

/// Where a path leads, from link to link, if it is one; the file itself needn't be there.
fn end_of_links<R: Files + AllocGlobal>(rt: &R, path: &str, is_link: bool) -> io::Result<PathBuf> {
    let mut place = PathBuf::from_str(rt.alloc(), path)?;
    let links = if is_link { LINKS } else { 0 };
    for _ in 0..links {
        let Ok(link) = fs::read_link(rt, place.as_path()) else {
            break;
        };
        place = beside(rt.alloc(), place.as_path(), link.as_str())?;
    }
    Ok(place)
}

// A new name over a file asks the folder alone, and the file's own mode would not be heard.
fn require_writable<R: Files>(rt: &R, path: Path<'_>) -> io::Result<()> {
    OpenOptions::new().write(true).open(rt, path)?;
    Ok(())
}

/// The longest name of a file that the file beside repeats.
const LONGEST_NAME: usize = 200;

/// How the names of files beside a file begin, whichever process makes them. The one error is want of memory.
fn beginning(alloc: Global, program: &str, path: Path<'_>) -> Result<String, AllocError> {
    let file = path.file_name().unwrap_or("");
    let file = if file.len() > LONGEST_NAME { "" } else { file };
    format!(in alloc; "{program}.{file}.")
}

fn save_beside<R: Files + AllocGlobal>(
    rt: &R,
    path: Path<'_>,
    save: Saving<'_, '_, '_>,
    before: Option<Metadata>,
    left: &mut Leftovers,
) -> io::Result<bool> {
    let beginning = beginning(rt.alloc(), save.program, path)?;
    left.look(rt, save.program, path)?;
    let _ = left.remove(rt, path, beginning.as_str());
    let process = left.own_number();
    for number in 0..TRIES {
        let name = format!(in rt.alloc(); "{beginning}{process}.{number}.new")?;
        let new = beside(rt.alloc(), path, name.as_str())?;
        let file = OpenOptions::new()
            .write(true)
            .create_new(true)
            .open(rt, new.as_path());
        match file {
            Ok(file) => {
                let saved = put_in_place(rt, file, new.as_path(), path, save, before);
                if !is_in_place(&saved) {
                    let _ = fs::remove_file(rt, new.as_path());
                }
                return saved;
            }
            Err(error) if error.kind() == ErrorKind::AlreadyExists => {}
            Err(error) => return Err(error),
        }
    }
    Err(io::Error::from(ErrorKind::AlreadyExists))
}

// Whether the file beside got the other one's name.
fn is_in_place(saved: &io::Result<bool>) -> bool {
    match saved {
        Ok(is_saved) => *is_saved,
        Err(_) => false,
    }
}

// Gives a new file the owner and the group of the one before, if the process may: a member of the group may give that only.
fn give_owner<R: Files>(rt: &R, new: Path<'_>, own: &Metadata, before: &Metadata) {
    if own.gid() != before.gid() {
        let _ = chown(rt, new, None, Some(before.gid()));
    }
    if own.uid() != before.uid() {
        let _ = chown(rt, new, Some(before.uid()), None);
    }
}

// The file beside is whole, and on the host's disk if that is wanted.
fn fill<R: Files>(
    rt: &R,
    mut file: R::File,
    new: Path<'_>,
    save: Saving<'_, '_, '_>,
    before: Option<Metadata>,
) -> io::Result<()> {
    file.write_all(save.bytes)?;
    if let Some(before) = before {
        give_owner(rt, new, &file.metadata()?, &before);
        // (a new owner takes bits from the mode, so it comes first)
        file.set_permissions(before.permissions())?;
    }
    if save.sync == Sync::Before {
        file.sync_all()?;
    }
    Ok(())
}

fn put_in_place<R: Files + AllocGlobal>(
    rt: &R,
    file: R::File,
    new: Path<'_>,
    path: Path<'_>,
    save: Saving<'_, '_, '_>,
    before: Option<Metadata>,
) -> io::Result<bool> {
    fill(rt, file, new, save, before)?;
    if !is_as_before(rt, path, save.old)? {
        return Ok(false);
    }
    fs::rename(rt, new, path)?;
    Ok(true)
}

// Whether a file holds what it must.
fn is_as_before<R: Files + AllocGlobal>(
    rt: &R,
    path: Path<'_>,
    old: Option<&[u8]>,
) -> io::Result<bool> {
    let Some(old) = old else {
        return Ok(true);
    };
    holds(fs::open(rt, path)?, old)
}

// Whether what is read is these bytes and no more.
fn holds<I: Read + Drop>(mut input: I, bytes: &[u8]) -> io::Result<bool> {
    let mut rest = bytes;
    let mut room = [0; ROOM];
    for _ in 0..u64::MAX {
        let count = match input.read(&mut room) {
            Ok(count) => count,
            Err(error) if error.kind() == ErrorKind::Interrupted => continue,
            Err(error) => return Err(error),
        };
        if count == 0 {
            return Ok(rest.is_empty());
        }
        let Some(after) = rest.strip_prefix(room.get(..count).unwrap_or(&[])) else {
            return Ok(false);
        };
        rest = after;
    }
    Ok(false)
}
