//! Files and folders by names that are bytes, written as `names` writes them. The system is asked for what is in a folder by
//! bytes, and for a file by UTF-8 alone: a name that is none is told, and its file isn't reached.
use crate::names::{name_of, text_of};
use std::alloc::{AllocError, Global};
use std::fs;
use std::io::{self, ErrorKind, Read};
use std::os::unix::fs::MetadataExt;
use std::rt::Files;

/// How many bytes of names are read at a time: any name fits.
const ROOM: usize = 8192;

/// What a name is that of.
#[derive(Clone, Copy, Debug, PartialEq, Eq)]
pub enum Kind {
    /// A file of bytes.
    File,
    /// A folder.
    Folder,
    /// A link.
    Link,
    /// A pipe, a socket or a device.
    Other,
}

/// The path of a text. Errors: `InvalidFilename`, where it is no UTF-8; `OutOfMemory`.
pub fn path_of(alloc: Global, text: &str) -> io::Result<String> {
    let name = name_of(alloc, text)?;
    match String::from_utf8(name) {
        Ok(path) => Ok(path),
        Err(_) => Err(io::Error::from(ErrorKind::InvalidFilename)),
    }
}

/// Opens a file for reading. Errors: those of `path_of`, and the system's.
pub fn open<R: Files + AllocGlobal>(rt: &R, text: &str) -> io::Result<R::File> {
    let path = path_of(rt.alloc(), text)?;
    fs::open(rt, path.as_str())
}

/// The kind of a file's type.
fn kind_by(kind: fs::FileType) -> Kind {
    if kind.is_file() {
        Kind::File
    } else if kind.is_dir() {
        Kind::Folder
    } else if kind.is_symlink() {
        Kind::Link
    } else {
        Kind::Other
    }
}

/// What a path leads to, along links. Errors: those of `path_of`, and the system's.
pub fn kind_of<R: Files + AllocGlobal>(rt: &R, text: &str) -> io::Result<Kind> {
    let path = path_of(rt.alloc(), text)?;
    Ok(kind_by(fs::metadata(rt, path.as_str())?.file_type()))
}

/// Whether a path leads to a file of bytes that has more names than one (hard links); false where that can't be seen.
pub fn has_other_names<R: Files>(rt: &R, path: &str) -> bool {
    match fs::metadata(rt, path) {
        Ok(found) => found.is_file() && found.nlink() > 1,
        Err(_) => false,
    }
}

/// What a path names: a link is a link. Errors: those of `path_of`, and the system's.
pub fn own_kind_of<R: Files + AllocGlobal>(rt: &R, text: &str) -> io::Result<Kind> {
    let path = path_of(rt.alloc(), text)?;
    Ok(kind_by(fs::symlink_metadata(rt, path.as_str())?.file_type()))
}

/// Adds those names that begin so, of names that the system packed, each with a 0 after it, but for the two by which each folder begins.
fn add_names(
    alloc: Global,
    names: &mut Vec<String>,
    packed: &[u8],
    beginning: &[u8],
) -> Result<(), AllocError> {
    for name in packed.split(|byte| *byte == 0) {
        match name {
            b"" | b"." | b".." => {}
            _ if name.starts_with(beginning) => names.push(text_of(alloc, name)?)?,
            _ => {}
        }
    }
    Ok(())
}

/// The names in a folder, in the system's order. Errors: those of `path_of`, and the system's.
pub fn names_in<R: Files + AllocGlobal>(rt: &R, folder: &str) -> io::Result<Vec<String>> {
    names_beginning(rt, folder, b"")
}

/// Those that begin with these bytes. Errors: those of `names_in`.
pub fn names_beginning<R: Files + AllocGlobal>(
    rt: &R,
    folder: &str,
    beginning: &[u8],
) -> io::Result<Vec<String>> {
    let mut path = path_of(rt.alloc(), folder)?;
    // A link to a folder that was named is followed.
    path.push('/')?;
    let mut dir = rt.open_dir(path.as_str())?;
    let mut names = Vec::new(rt.alloc());
    let mut room = [0; ROOM];
    for _ in 0..u64::MAX {
        let count = dir.read(&mut room)?;
        if count == 0 {
            break;
        }
        add_names(
            rt.alloc(),
            &mut names,
            room.get(..count).unwrap_or(&[]),
            beginning,
        )?;
    }
    Ok(names)
}
