//! LOCK, UNLOCK and TITLE.
use cbm_shell::texts::Charset;
use cbm_volume::Entry;
use disk_basics::calls::{entries, info};
use disk_basics::changing::{lock, remark, retitle};
use disk_basics::{Failure, What, id_codes, in_memory, on_disk, petscii, title_of};
use disk_facts::first_meant;
use std::alloc::{AllocError, Global};

/// The pattern of a word. Refuses one that means no file.
fn pattern_of(
    alloc: Global,
    entries: &[Entry],
    charset: Charset,
    word: &str,
) -> Result<Vec<u8>, Failure> {
    let pattern = petscii(alloc, charset, word)?;
    if first_meant(entries, pattern.as_slice()).is_some() {
        return Ok(pattern);
    }
    Err(Failure::new(What::NoMatch))
}

/// The patterns of words, of which each means a file.
fn patterns_of(
    alloc: Global,
    entries: &[Entry],
    charset: Charset,
    words: &[&str],
) -> Result<Vec<Vec<u8>>, Failure> {
    let mut patterns = Vec::new(alloc);
    for word in words {
        let pattern = pattern_of(alloc, entries, charset, *word)?;
        in_memory(patterns.push(pattern).map_err(AllocError::from))?;
    }
    Ok(patterns)
}

/// The same by the directory of an image.
fn patterns_on(
    alloc: Global,
    image: &str,
    bytes: &[u8],
    charset: Charset,
    words: &[&str],
) -> Result<Vec<Vec<u8>>, Failure> {
    let entries = on_disk(alloc, image, entries(alloc, bytes))?;
    patterns_of(alloc, entries.as_slice(), charset, words)
}

/// The bytes of each pattern.
fn slices_of<'a>(alloc: Global, patterns: &'a [Vec<u8>]) -> Result<Vec<&'a [u8]>, AllocError> {
    let mut slices = Vec::new(alloc);
    for pattern in patterns {
        slices.push(pattern.as_slice())?;
    }
    Ok(slices)
}

/// The image with each file locked, or freed, that one of the patterns means.
fn locked_by(
    alloc: Global,
    image: &str,
    bytes: &[u8],
    patterns: &[Vec<u8>],
    is_locked: bool,
) -> Result<Vec<u8>, Failure> {
    let slices = in_memory(slices_of(alloc, patterns))?;
    on_disk(
        alloc,
        image,
        lock(alloc, bytes, slices.as_slice(), is_locked),
    )
}

/// The image with each file locked, or freed, that one of the words means. Errors: those of `petscii`; `NoMatch`, where a
/// word means no file; `Disk`; `NoMemory`.
pub fn locked_all(
    alloc: Global,
    image: &str,
    bytes: &[u8],
    charset: Charset,
    words: &[&str],
    is_locked: bool,
) -> Result<Vec<u8>, Failure> {
    let patterns = patterns_on(alloc, image, bytes, charset, words)?;
    locked_by(alloc, image, bytes, patterns.as_slice(), is_locked)
}

/// The five bytes after a disk's title, the first of which are these.
fn mark_with(old: &[u8; 5], codes: &[u8]) -> [u8; 5] {
    let mut mark = *old;
    for (place, code) in mark.iter_mut().zip(codes) {
        *place = *code;
    }
    mark
}

/// The image with another id. Errors: those of `id_codes`; `Disk`; `Untitled`, where 18/0 can't be read.
pub fn identified(
    alloc: Global,
    image: &str,
    bytes: &[u8],
    charset: Charset,
    id: &str,
) -> Result<Vec<u8>, Failure> {
    let codes = id_codes(alloc, charset, id)?;
    let Some(label) = on_disk(alloc, image, info(alloc, bytes))?.label else {
        return Err(Failure::named(alloc, What::Untitled, image));
    };
    let mark = mark_with(&label.mark, codes.as_slice());
    on_disk(alloc, image, remark(alloc, bytes, &mark))
}

/// The image with another title. Errors: those of `title_of`; `Disk`.
pub fn retitled(
    alloc: Global,
    image: &str,
    bytes: &[u8],
    charset: Charset,
    title: &str,
) -> Result<Vec<u8>, Failure> {
    let title = title_of(alloc, charset, title)?;
    on_disk(alloc, image, retitle(alloc, bytes, title.as_slice()))
}
