use crate::name::Name;
use cbm_file::FileType;

/// What an OPEN does with a file's bytes.
#[derive(Clone, Copy, Debug, PartialEq, Eq)]
pub enum Mode {
    Read,
    Write,
    Append,
}

/// A file that an OPEN asks for.
#[derive(Debug, Drop)]
pub struct Wanted {
    /// `@` stands before the name.
    pub has_at: bool,
    pub name: Name,
    pub mode: Mode,
    /// None is any type.
    pub kind: Option<FileType>,
    /// In bytes; 0 is none given.
    pub record_length: u8,
}

/// What an OPEN asks for.
#[derive(Debug, Drop)]
pub enum Opening {
    /// The listing of the files that match a pattern.
    Listing(Name),
    /// A file.
    File(Wanted),
}
