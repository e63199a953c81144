//! The types of files by the endings of their names.
use crate::failure::Failure;
use crate::what::What;
use crate::word_fault::WordFault;
use cbm_volume::{Entry, FileType};
use std::alloc::Global;
use std::path::Path;

/// How the text of an OPEN ends that writes a program.
const PROGRAM: &[u8] = b",P,W";

/// The types of files, their letters among PC64's endings, and how the text of an OPEN ends that writes one.
const ENDS: [(&str, u8, &[u8]); 3] = [
    ("prg", b'P', PROGRAM),
    ("seq", b'S', b",S,W"),
    ("usr", b'U', b",U,W"),
];

/// The letter of an ending as PC64 makes them: P, S, U or R, and two digits.
fn letter_of(ending: &str) -> Option<u8> {
    match ending.as_bytes() {
        [letter, b'0'..=b'9', b'0'..=b'9'] => Some(letter.to_ascii_uppercase()),
        _ => None,
    }
}

/// Whether a name has such an ending.
pub fn is_wrapped_name(file: &str) -> bool {
    match Path::new(file).extension() {
        Some(ending) => letter_of(ending).is_some(),
        None => false,
    }
}

/// Whether a name has the ending of a relative file of PC64: R, and two digits.
pub fn is_relative_name(file: &str) -> bool {
    match Path::new(file).extension() {
        Some(ending) => letter_of(ending) == Some(b'R'),
        None => false,
    }
}

/// How a relative file is called.
const RELATIVE: &str = "rel";

/// The kind of a file that is put on a disk.
#[derive(Clone, Copy)]
pub enum FileKind {
    /// Bytes one after another, with the end of the text of the OPEN that writes them.
    Plain(&'static [u8]),
    /// Records of one length.
    Relative,
}

/// The kind for a type that is said.
fn said(alloc: Global, kind: &str) -> Result<FileKind, Failure> {
    if kind == RELATIVE {
        return Ok(FileKind::Relative);
    }
    for (name, _, end) in &ENDS {
        if *name == kind {
            return Ok(FileKind::Plain(*end));
        }
    }
    Err(Failure::named(alloc, What::Word(WordFault::Type), kind))
}

/// The kind for an ending; that of a program where it says none.
fn told(ending: &str) -> FileKind {
    let wrapped = letter_of(ending);
    if RELATIVE.eq_ignore_ascii_case(ending) || wrapped == Some(b'R') {
        return FileKind::Relative;
    }
    for (name, letter, end) in &ENDS {
        if name.eq_ignore_ascii_case(ending) || wrapped == Some(*letter) {
            return FileKind::Plain(*end);
        }
    }
    FileKind::Plain(PROGRAM)
}

/// The kind of a file: by the type that is said, or by the ending of its name. Errors: `Word`, where the type that is
/// said is none.
pub fn kind_of_file(alloc: Global, kind: Option<&str>, file: &str) -> Result<FileKind, Failure> {
    match kind {
        Some(kind) => said(alloc, kind),
        None => Ok(told(Path::new(file).extension().unwrap_or(""))),
    }
}

/// The kind of an entry's file; None of a deleted one, of a line of art, and of an unknown type.
pub fn kind_of_entry(entry: &Entry) -> Option<FileKind> {
    match entry.kind()? {
        FileType::Del => None,
        FileType::Seq => Some(FileKind::Plain(b",S,W")),
        FileType::Prg => Some(FileKind::Plain(PROGRAM)),
        FileType::Usr => Some(FileKind::Plain(b",U,W")),
        FileType::Rel => Some(FileKind::Relative),
    }
}
