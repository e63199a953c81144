//! Files of the host, standard input and standard output.
use crate::failure::{Failure, in_memory};
use crate::packed::{is_packed, unpacked_image};
use crate::what::What;
use crate::word_fault::WordFault;
use disk_facts::{WideMap, not_image, wide_map};
use host_files::{GREATEST_IMAGE, Leftovers, Sync, has_other_names, read_whole};
use host_locks::is_same;
use std::alloc::Global;
use std::io::{self, Write};
use std::rt::Runtime;

/// The program's name, which its temporary files have.
pub const PROGRAM: &str = "disk1541";

/// The word that means standard input or output.
const STANDARD: &str = "-";

/// The most bytes of a file that is put on a disk: 16 MB.
const GREATEST_FILE: u64 = 16_777_216;

/// What reading to the end came to, where that comes before more than this many bytes.
fn whole(
    alloc: Global,
    name: &str,
    read: io::Result<Option<Vec<u8>>>,
    most: u64,
) -> Result<Vec<u8>, Failure> {
    match read {
        Ok(Some(bytes)) => Ok(bytes),
        Ok(None) => Err(Failure::named(alloc, What::TooLong(most), name)),
        Err(error) => Err(Failure::named(alloc, What::Read(error.kind()), name)),
    }
}

/// Reads a file of the host, or standard input, of at most this many bytes.
fn read<R: Runtime + AllocGlobal>(rt: &R, name: &str, most: u64) -> Result<Vec<u8>, Failure> {
    if name == STANDARD {
        let bytes = read_whole(rt.alloc(), rt.reader(), most);
        return whole(rt.alloc(), "standard input", bytes, most);
    }
    match host_files::open(rt, name) {
        Ok(file) => whole(
            rt.alloc(),
            name,
            host_files::read_file(rt.alloc(), file, most),
            most,
        ),
        Err(error) => Err(Failure::named(rt.alloc(), What::Read(error.kind()), name)),
    }
}

/// A file that may be packed, or has at most as many bytes as an image.
fn unpacked_or_short(alloc: Global, name: &str, bytes: Vec<u8>) -> Result<Vec<u8>, Failure> {
    if is_packed(bytes.as_slice()) {
        return unpacked_image(alloc, name, bytes.as_slice());
    }
    if bytes.len() as u64 > GREATEST_IMAGE {
        return Err(Failure::named(alloc, What::TooLong(GREATEST_IMAGE), name));
    }
    Ok(bytes)
}

/// Reads a file that may be an image or an archive of another kind, and unpacks it, if gzip or ZIP packed it. Errors: `Read`; `TooLong`, for
/// more bytes than an image has; `Foreign`, where it isn't unpacked; `NoMemory`.
pub fn read_any<R: Runtime + AllocGlobal>(rt: &R, name: &str) -> Result<Vec<u8>, Failure> {
    let shown = if name == STANDARD {
        "standard input"
    } else {
        name
    };
    match read(rt, name, GREATEST_FILE) {
        Ok(bytes) => unpacked_or_short(rt.alloc(), shown, bytes),
        Err(failure) if matches!(failure.what, What::TooLong(_)) => {
            Err(Failure::named(rt.alloc(), What::TooLong(GREATEST_IMAGE), shown))
        }
        Err(failure) => Err(failure),
    }
}

/// Reads an image that is only looked at, and unpacks it, if it is packed. Errors: those of `read_any`; `Foreign`.
pub fn read_to_look<R: Runtime + AllocGlobal>(rt: &R, name: &str) -> Result<Vec<u8>, Failure> {
    let bytes = read_any(rt, name)?;
    require_ours(rt.alloc(), name, bytes.as_slice())?;
    Ok(bytes)
}

/// Reads an image that is changed. A file that by its first bytes or its size is none of a 1541's disk is refused. Errors: `Read`;
/// `TooLong`, for more bytes than an image has; `Foreign`.
pub fn read_image<R: Runtime + AllocGlobal>(rt: &R, name: &str) -> Result<Vec<u8>, Failure> {
    let bytes = read(rt, name, GREATEST_IMAGE)?;
    require_ours(rt.alloc(), name, bytes.as_slice())?;
    Ok(bytes)
}

/// Refuses a file that by its first bytes or its size is no image of a 1541's disk. The one error is `Foreign`.
pub fn require_ours(alloc: Global, name: &str, bytes: &[u8]) -> Result<(), Failure> {
    match not_image(bytes) {
        Some(why) => Err(Failure::named(alloc, What::Foreign(why, bytes.len()), name)),
        None => Ok(()),
    }
}

/// Reads an image that is changed by writing its BAM. Errors: those of `read_image`; `OtherMap`, where Dolphin DOS has its map
/// of tracks 36 to 40 on the disk.
pub fn read_to_change<R: Runtime + AllocGlobal>(rt: &R, name: &str) -> Result<Vec<u8>, Failure> {
    let bytes = read_image(rt, name)?;
    require_own_map(rt.alloc(), name, bytes.as_slice())?;
    Ok(bytes)
}

/// Refuses an image on which Dolphin DOS has its map of tracks 36 to 40. The one error is `OtherMap`.
pub fn require_own_map(alloc: Global, name: &str, image: &[u8]) -> Result<(), Failure> {
    match wide_map(image) {
        Some(WideMap::Dolphin | WideMap::Both) => Err(Failure::named(alloc, What::OtherMap, name)),
        Some(WideMap::Speed) | None => Ok(()),
    }
}

/// Reads a file that is put on a disk. Errors: `Read`; `TooLong`, for more than 16 MB.
pub fn read_file<R: Runtime + AllocGlobal>(rt: &R, name: &str) -> Result<Vec<u8>, Failure> {
    read(rt, name, GREATEST_FILE)
}

/// The path of a name that is written to. The one error is `Write`, where the name is no
/// UTF-8 or memory runs out.
pub fn path_of(alloc: Global, name: &str) -> Result<String, Failure> {
    match host_files::path_of(alloc, name) {
        Ok(path) => Ok(path),
        Err(error) => Err(Failure::named(alloc, What::Write(error.kind()), name)),
    }
}

/// What writing to a name came to.
fn written(alloc: Global, name: &str, answer: io::Result<()>) -> Result<(), Failure> {
    match answer {
        Ok(()) => Ok(()),
        Err(error) => Err(Failure::named(alloc, What::Write(error.kind()), name)),
    }
}

/// Prints bytes on standard output. The one error is `Write`.
pub fn print<R: Runtime + AllocGlobal>(rt: &R, bytes: &[u8]) -> Result<(), Failure> {
    let mut output = io::writer(rt);
    written(rt.alloc(), "standard output", output.write_all(bytes))
}

/// Reports that a file which was replaced has another name, under which the old one is left.
fn tell_others(rt: &impl Eprint, name: &str, has_others: bool) {
    if has_others {
        let _ = eprintln!(rt;
            "disk1541: {name} had another name (a hard link), which keeps the old file"
        );
    }
}

/// Writes a file whole or not at all, or standard output. A new image is on the host's disk before it takes the place of
/// the old one; of a file that was taken out the image still has the bytes, so nothing waits for the host's disk. The one
/// error is `Write`.
pub fn write<R: Runtime + AllocGlobal>(
    rt: &R,
    name: &str,
    bytes: &[u8],
    sync: Sync,
) -> Result<(), Failure> {
    if name == STANDARD {
        return print(rt, bytes);
    }
    let path = path_of(rt.alloc(), name)?;
    let has_others = has_other_names(rt, path.as_str());
    written(
        rt.alloc(),
        name,
        host_files::save_by(rt, PROGRAM, path.as_str(), bytes, sync),
    )?;
    tell_others(rt, name, has_others);
    Ok(())
}

/// Writes one of several files that are taken out whole or not at all, as `write` does: what a killed program left in their folder is
/// looked for once. The one error is `Write`.
pub fn write_among<R: Runtime + AllocGlobal>(
    rt: &R,
    name: &str,
    bytes: &[u8],
    left: &mut Leftovers,
) -> Result<(), Failure> {
    let path = path_of(rt.alloc(), name)?;
    written(
        rt.alloc(),
        name,
        host_files::save_among(rt, PROGRAM, path.as_str(), bytes, Sync::Later, left),
    )
}

/// Saves an image in place of the one that was read, as `write` does, if that is still there; or writes it to standard
/// output. Errors: `Changed`, where it isn't; `Write`.
pub fn replace<R: Runtime + AllocGlobal>(
    rt: &R,
    name: &str,
    old: &[u8],
    new: &[u8],
) -> Result<(), Failure> {
    if name == STANDARD {
        return print(rt, new);
    }
    let path = path_of(rt.alloc(), name)?;
    let has_others = has_other_names(rt, path.as_str());
    match host_files::replace(rt, PROGRAM, path.as_str(), old, new) {
        Ok(true) => {
            tell_others(rt, name, has_others);
            Ok(())
        }
        Ok(false) => Err(Failure::named(rt.alloc(), What::Changed, name)),
        Err(error) => Err(Failure::named(rt.alloc(), What::Write(error.kind()), name)),
    }
}

/// Whether a name is that of standard input or output.
pub fn is_standard(name: &str) -> bool {
    name == STANDARD
}

/// Refuses to write where a file is already, unless it is to be replaced. The one error is `Exists`.
pub fn require_new<R: Runtime + AllocGlobal>(
    rt: &R,
    name: &str,
    replaces: bool,
) -> Result<(), Failure> {
    if !replaces && !is_standard(name) && exists(rt, name) {
        return Err(Failure::named(rt.alloc(), What::Exists, name));
    }
    Ok(())
}

/// Whether two names are those of one file.
fn is_one_file<R: Runtime + AllocGlobal>(rt: &R, one: &str, other: &str) -> io::Result<bool> {
    let one = host_files::path_of(rt.alloc(), one)?;
    let other = host_files::path_of(rt.alloc(), other)?;
    Ok(is_same(rt, one.as_str(), other.as_str()))
}

/// Whether two names are those of one file, neither of them standard input or output.
fn is_shared<R: Runtime + AllocGlobal>(rt: &R, one: &str, other: &str) -> bool {
    if is_standard(one) || is_standard(other) {
        return false;
    }
    matches!(is_one_file(rt, one, other), Ok(true))
}

/// Refuses to write over the image that is read. The one error is `Word`.
pub fn require_apart<R: Runtime + AllocGlobal>(
    rt: &R,
    image: &str,
    output: &str,
) -> Result<(), Failure> {
    if is_shared(rt, image, output) {
        return Err(Failure::named(rt.alloc(), What::Word(WordFault::Itself), output));
    }
    Ok(())
}

/// Refuses to write an image over a file that the command reads. The one error is `Word`.
pub fn require_no_input<R: Runtime + AllocGlobal>(
    rt: &R,
    input: &str,
    image: &str,
) -> Result<(), Failure> {
    if is_shared(rt, input, image) {
        return Err(Failure::named(rt.alloc(), What::Word(WordFault::Input), image));
    }
    Ok(())
}

/// Whether something of that name is there.
pub fn exists<R: Runtime + AllocGlobal>(rt: &R, name: &str) -> bool {
    host_files::kind_of(rt, name).is_ok()
}

/// A text of parts, each after the one before. The one error is `NoMemory`.
pub fn joined(alloc: Global, parts: &[&[u8]]) -> Result<Vec<u8>, Failure> {
    let mut text = Vec::new(alloc);
    for part in parts {
        in_memory(text.extend_from_slice(part))?;
    }
    Ok(text)
}
