//! PUT: files of the host into the image.
use crate::cvt::{Cvt, cvt_of, is_cvt_name, name_in, with_cvt};
use crate::stored::{Stored, is_full, open_text, put_answer, with_stored};
use cbm_shell::texts::Charset;
use cbm_shell::{DiskChange, unwrapped};
use disk_basics::changing::changes;
use disk_basics::host::{is_standard, read_file, require_own_map};
use disk_basics::{
    Failure, FileKind, What, WordFault, file_name, in_memory, is_wrapped_name, kind_of_file,
    name_of_file, require_name,
};
use std::alloc::{AllocError, Global};
use std::rt::Runtime;

/// How files of the host are put on the disk.
#[derive(Clone, Copy)]
pub struct HostFiles<'a> {
    /// The name on the disk, if that isn't made of where the file is.
    pub name: Option<&'a str>,
    /// The type on the disk, if the ending of the name doesn't say it.
    pub kind: Option<&'a str>,
    /// The length of the records of relative files, as it was typed.
    pub record: Option<&'a str>,
    /// Files of the disk that have the names are replaced.
    pub replaces: bool,
    /// The character set of names.
    pub charset: Charset,
    /// What standard input gave, where it was read already.
    pub input: Option<&'a [u8]>,
}

/// What is put on the disk of a file: its bytes, and the name and the length of records that they give.
#[derive(Clone, Copy)]
pub struct Body<'b> {
    /// The name.
    pub name: Option<&'b [u8]>,
    /// The length of its records.
    pub record: Option<u8>,
    /// The bytes.
    pub bytes: &'b [u8],
}

/// What is put on the disk of a file's bytes.
pub fn body_of<'b>(file: &str, bytes: &'b [u8]) -> Body<'b> {
    match unwrapped(bytes) {
        Some(wrapped) if is_wrapped_name(file) => Body {
            name: Some(wrapped.name),
            record: Some(wrapped.record_length),
            bytes: wrapped.bytes,
        },
        _ => Body {
            name: None,
            record: None,
            bytes,
        },
    }
}

/// The name that a file's own bytes give.
fn told_name(alloc: Global, file: &str, codes: &[u8]) -> Result<Vec<u8>, Failure> {
    require_name(alloc, file, codes)?;
    in_memory(Vec::from_slice(alloc, codes))
}

/// A file's name on the disk.
fn name_of(
    alloc: Global,
    file: &str,
    put: &HostFiles<'_>,
    told: Option<&[u8]>,
) -> Result<Vec<u8>, Failure> {
    match (put.name, told) {
        (Some(name), _) => file_name(alloc, put.charset, name),
        (None, Some(codes)) => told_name(alloc, file, codes),
        (None, None) => name_of_file(alloc, put.charset, file),
    }
}

/// The length of records of a word.
fn record_of(alloc: Global, word: &str) -> Result<u8, Failure> {
    match word.parse::<u8>() {
        Ok(length @ 1..=254) => Ok(length),
        _ => Err(Failure::named(alloc, What::Word(WordFault::RecordLength), word)),
    }
}

/// The length of a file's records, if that is known.
fn record(alloc: Global, put: &HostFiles<'_>, body: Body<'_>) -> Result<Option<u8>, Failure> {
    match put.record {
        Some(word) => Ok(Some(record_of(alloc, word)?)),
        None => Ok(body.record),
    }
}

/// The image with the file of these bytes on it.
fn put_body(
    alloc: Global,
    image: &str,
    old: &[u8],
    file: &str,
    put: &HostFiles<'_>,
    body: Body<'_>,
) -> Result<Vec<u8>, Failure> {
    let kind = kind_of_file(alloc, put.kind, file)?;
    let record = record(alloc, put, body)?;
    let name = name_of(alloc, file, put, body.name)?;
    let file = Stored {
        name: name.as_slice(),
        kind,
        record,
        replaces: put.replaces,
        bytes: body.bytes,
    };
    with_stored(alloc, image, old, &file)
}

/// Reads a file, or takes what standard input gave.
fn read_given<R: Runtime + AllocGlobal>(
    rt: &R,
    file: &str,
    put: &HostFiles<'_>,
) -> Result<Vec<u8>, Failure> {
    match put.input {
        Some(input) if is_standard(file) => in_memory(Vec::from_slice(rt.alloc(), input)),
        _ => read_file(rt, file),
    }
}

/// The image with the file of GEOS on it that a CVT is.
fn put_cvt(
    alloc: Global,
    image: &str,
    old: &[u8],
    file: &str,
    put: &HostFiles<'_>,
    cvt: &Cvt<'_>,
) -> Result<Vec<u8>, Failure> {
    let name = match put.name {
        Some(name) => file_name(alloc, put.charset, name)?,
        None => in_memory(Vec::from_slice(alloc, name_in(cvt)))?,
    };
    with_cvt(alloc, image, old, file, cvt, name.as_slice())
}

/// Reports a file without bytes that is no relative one: the drive's CLOSE gives it a byte.
pub fn tell_empty(rt: &impl Eprint, file: &str, kind: FileKind, bytes: &[u8]) {
    if let FileKind::Plain(_) = kind
        && bytes.is_empty()
    {
        let _ = eprintln!(rt; "disk1541: {file} is empty: on the disk it becomes one byte, 13");
    }
}

/// The image with a file on it.
fn put_one<R: Runtime + AllocGlobal>(
    rt: &R,
    image: &str,
    old: &[u8],
    file: &str,
    put: &HostFiles<'_>,
) -> Result<Vec<u8>, Failure> {
    let bytes = read_given(rt, file, put)?;
    if let Some(cvt) = cvt_of(file, bytes.as_slice()) {
        return put_cvt(rt.alloc(), image, old, file, put, &cvt);
    }
    let body = body_of(file, bytes.as_slice());
    let new = put_body(rt.alloc(), image, old, file, put, body)?;
    tell_empty(
        rt,
        file,
        kind_of_file(rt.alloc(), put.kind, file)?,
        body.bytes,
    );
    Ok(new)
}

/// The image with one of several files on it. The one that can't be put is reported, as none is put then.
fn put_among<R: Runtime + AllocGlobal>(
    rt: &R,
    image: &str,
    old: &[u8],
    file: &str,
    put: &HostFiles<'_>,
) -> Result<Vec<u8>, Failure> {
    let new = put_one(rt, image, old, file, put);
    if new.is_err() {
        tell_first(rt, file);
    }
    new
}

/// A file of bytes one after another, with the text of its OPEN; the first of its bytes may be no part of what is put.
#[derive(Drop)]
struct Loaded<'a> {
    file: &'a str,
    text: Vec<u8>,
    bytes: Vec<u8>,
    head: usize,
}

/// The end of the text of the OPEN that writes a file of bytes; none where the file isn't one.
fn end_of(alloc: Global, put: &HostFiles<'_>, file: &str) -> Option<&'static [u8]> {
    match kind_of_file(alloc, put.kind, file) {
        Ok(FileKind::Plain(end)) => Some(end),
        _ => None,
    }
}

/// Whether all files are files of bytes.
fn are_plain(alloc: Global, files: &[&str], put: &HostFiles<'_>) -> bool {
    for file in files {
        if is_cvt_name(*file) || end_of(alloc, put, *file).is_none() {
            return false;
        }
    }
    true
}

/// The text of the OPEN that writes one of several files.
fn text_for(
    alloc: Global,
    file: &str,
    put: &HostFiles<'_>,
    told: Option<&[u8]>,
    end: &[u8],
) -> Result<Vec<u8>, Failure> {
    let name = name_of(alloc, file, put, told)?;
    open_text(alloc, name.as_slice(), put.replaces, end)
}

/// One of several files.
fn load_one<'a, R: Runtime + AllocGlobal>(
    rt: &R,
    file: &'a str,
    put: &HostFiles<'a>,
    end: &'static [u8],
) -> Result<Loaded<'a>, Failure> {
    let bytes = read_given(rt, file, put)?;
    let body = body_of(file, bytes.as_slice());
    let head = bytes.len().saturating_sub(body.bytes.len());
    let text = text_for(rt.alloc(), file, put, body.name, end)?;
    tell_empty(rt, file, FileKind::Plain(end), body.bytes);
    Ok(Loaded {
        file,
        text,
        bytes,
        head,
    })
}

/// Reports which of several files can't be put, as none is put then.
fn tell_first(rt: &impl Eprint, file: &str) {
    let _ = eprintln!(rt; "disk1541: {file} could not be added, so none of the files was");
}

/// Several files of bytes.
fn load_all<'a, R: Runtime + AllocGlobal>(
    rt: &R,
    files: &[&'a str],
    put: &HostFiles<'a>,
) -> Result<Vec<Loaded<'a>>, Failure> {
    let mut all = Vec::new(rt.alloc());
    for file in files {
        let end = end_of(rt.alloc(), put, *file).unwrap_or(&[]);
        let one = load_one(rt, *file, put, end);
        if one.is_err() {
            tell_first(rt, *file);
        }
        in_memory(all.push(one?).map_err(AllocError::from))?;
    }
    Ok(all)
}

/// How they are put on a disk.
fn changes_of<'b>(alloc: Global, all: &'b [Loaded<'_>]) -> Result<Vec<DiskChange<'b>>, AllocError> {
    let mut puts = Vec::new(alloc);
    for one in all {
        let bytes = one.bytes.get(one.head..).unwrap_or(&[]);
        puts.push(DiskChange::File(one.text.as_slice(), bytes))
            .map_err(AllocError::from)?;
    }
    Ok(puts)
}

/// Reports which of these files can't be put first: they are put one after another, as the disk refuses them all at once.
fn tell_refused<R: Runtime + AllocGlobal>(
    rt: &R,
    old: &[u8],
    all: &[Loaded<'_>],
    puts: &[DiskChange<'_>],
) {
    let Ok(mut image) = Vec::from_slice(rt.alloc(), old) else {
        return;
    };
    for (one, put) in all.iter().zip(puts) {
        match changes(rt.alloc(), image.as_slice(), &[*put]) {
            Ok(new) => image = new,
            Err(_) => return tell_first(rt, one.file),
        }
    }
}

/// The image with several files of bytes on it, which is opened once.
fn put_plain<R: Runtime + AllocGlobal>(
    rt: &R,
    image: &str,
    old: &[u8],
    files: &[&str],
    put: &HostFiles<'_>,
) -> Result<Vec<u8>, Failure> {
    let all = load_all(rt, files, put)?;
    let puts = in_memory(changes_of(rt.alloc(), all.as_slice()))?;
    let new = changes(rt.alloc(), old, puts.as_slice());
    if let Err(fault) = &new
        && put.replaces
        && is_full(*fault)
    {
        return put_each(rt, image, old, files, put);
    }
    if new.is_err() {
        tell_refused(rt, old, all.as_slice(), puts.as_slice());
    }
    put_answer(rt.alloc(), image, old, all.len(), put.replaces, new)
}

/// The image with several files on it, one after another.
fn put_each<R: Runtime + AllocGlobal>(
    rt: &R,
    image: &str,
    old: &[u8],
    files: &[&str],
    put: &HostFiles<'_>,
) -> Result<Vec<u8>, Failure> {
    let mut new = in_memory(Vec::from_slice(rt.alloc(), old))?;
    for file in files {
        new = put_among(rt, image, new.as_slice(), *file, put)?;
    }
    Ok(new)
}

/// The image with the files on it.
fn put_all<R: Runtime + AllocGlobal>(
    rt: &R,
    image: &str,
    old: &[u8],
    files: &[&str],
    put: &HostFiles<'_>,
) -> Result<Vec<u8>, Failure> {
    match files {
        [file] => put_one(rt, image, old, *file, put),
        _ if are_plain(rt.alloc(), files, put) => put_plain(rt, image, old, files, put),
        _ => put_each(rt, image, old, files, put),
    }
}

/// Standard input is read once.
fn require_once(image: &str, files: &[&str]) -> Result<(), Failure> {
    let mut is_read = is_standard(image);
    for file in files {
        if is_read && is_standard(*file) {
            return Err(Failure::new(What::Word(WordFault::Twice)));
        }
        is_read = is_read || is_standard(*file);
    }
    Ok(())
}

/// One name is that of one file.
fn require_one(files: &[&str], put: &HostFiles<'_>) -> Result<(), Failure> {
    if put.name.is_some() && files.len() > 1 {
        return Err(Failure::new(What::Word(WordFault::OneName)));
    }
    Ok(())
}

/// Refuses words that don't fit together. The one error is `Word`, where standard input is wanted twice, or one name is given for
/// several files.
pub fn require_files(image: &str, files: &[&str], put: &HostFiles<'_>) -> Result<(), Failure> {
    require_once(image, files)?;
    require_one(files, put)
}

/// The image with files of the host on its disk, all of them or none. Errors: those of `require_files` and of `read_file`;
/// `OtherMap`, where Dolphin DOS has its map on the disk; `Word`, where a name, a type or a length can't be; `Disk`, where the drive
/// or the disk refuses it; `NoMemory`.
pub fn with_files<R: Runtime + AllocGlobal>(
    rt: &R,
    image: &str,
    old: &[u8],
    files: &[&str],
    put: &HostFiles<'_>,
) -> Result<Vec<u8>, Failure> {
    require_files(image, files, put)?;
    require_own_map(rt.alloc(), image, old)?;
    put_all(rt, image, old, files, put)
}
