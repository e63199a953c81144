//! A disk image or an archive.
ghost use Rattle.std.specs.Prelude.{◌≡◌, ◌⊎◌, IfOk, IfSome, MatchResult, None, Ok, Err};
ghost use Rattle.cbm_sources.specs.Told.{source_kind, IsSourceOf, IsNoSource, disk_fault, text_fault, contents_of, source_file};

use crate::disk::Disk;
use crate::fault::Fault;
use crate::files::disk_file;
use crate::form::Form;
use crate::listing::listed_of;
use crate::lynx::Lynx;
use crate::tape::Tape;
use cbm_directory::Entry;
use cbm_medium::Trouble;
use std::alloc::{AllocError, Global};

/// A disk image or an archive of files.
#[derive(Drop)]
pub enum Source<'a> {
    /// A disk image.
    Image(Disk<'a>),
    /// A T64 archive.
    TapeArchive(Tape<'a>),
    /// A Lynx archive.
    LynxArchive(Lynx<'a>),
}

/// What a source is.
#[derive(Clone, Copy, Debug, PartialEq, Eq)]
pub enum SourceKind {
    /// A disk image of this form.
    Image(Form),
    /// A T64 archive.
    TapeArchive,
    /// A Lynx archive.
    LynxArchive,
}

/// What can be read of a source's directory.
#[derive(Drop)]
pub struct Contents {
    /// The entries of its files, as a disk's directory has them; those of an archive are closed, and their first block is 0/0.
    pub entries: Vec<Entry>,
    /// Why the directory breaks off after them; None where it ends.
    pub fault: Option<Fault>,
}

/// The fault of a disk's directory.
fn fault_of(trouble: Option<Trouble>) -> Option<Fault>
    ensures { result ≡ disk_fault trouble }
{
    match trouble {
        Some(trouble) => Some(Fault::Chain(trouble)),
        None => None,
    }
}

/// The fault of a Lynx archive's directory.
fn text_fault(broken: Option<usize>) -> Option<Fault>
    ensures { result ≡ text_fault broken }
{
    match broken {
        Some(at) => Some(Fault::Text(at)),
        None => None,
    }
}

impl<'a> Source<'a> {
    /// The source that these bytes are: an image if a form has their size, else an archive; None if they are none. The one error is
    /// want of memory.
    pub fn of(alloc: Global, bytes: &'a [u8]) -> Result<Option<Source<'a>>, AllocError>
        ensures some { IfOk result (λ o. IfSome o (IsSourceOf bytes.now)) }
        ensures none { IfOk result (λ o. o ≡ None → IsNoSource bytes.now) }
    {
        if let Some(disk) = Disk::of(bytes) {
            return Ok(Some(Source::Image(disk)));
        }
        if let Some(tape) = Tape::of(alloc, bytes)? {
            return Ok(Some(Source::TapeArchive(tape)));
        }
        match Lynx::of(alloc, bytes)? {
            Some(lynx) => Ok(Some(Source::LynxArchive(lynx))),
            None => Ok(None),
        }
    }

    /// What it is.
    pub fn kind(&self) -> SourceKind
        ensures { result ≡ source_kind self.now }
    {
        match self {
            Source::Image(disk) => SourceKind::Image(disk.form()),
            Source::TapeArchive(_) => SourceKind::TapeArchive,
            Source::LynxArchive(_) => SourceKind::LynxArchive,
        }
    }

    /// The entries of its files. The one error is want of memory.
    pub fn entries(&self, alloc: Global) -> Result<Contents, AllocError>
        ensures { IfOk result (λ r. contents_of self.now ≡ (record { entries = r.entries.items; fault = r.fault })) }
    {
        match self {
            Source::Image(disk) => {
                let listed = listed_of(alloc, disk)?;
                let fault = fault_of(listed.trouble);
                Ok(Contents {
                    entries: listed.entries,
                    fault,
                })
            }
            Source::TapeArchive(tape) => {
                let entries = tape.entries(alloc)?;
                Ok(Contents {
                    entries,
                    fault: None,
                })
            }
            Source::LynxArchive(lynx) => {
                let (entries, broken) = lynx.entries(alloc)?;
                Ok(Contents {
                    entries,
                    fault: text_fault(broken),
                })
            }
        }
    }

    /// The bytes of the file of a number, counted from 0 over its entries.
    pub fn file(&self, alloc: Global, number: usize) -> Result<Vec<u8>, Fault>
        ensures { MatchResult result (λ v. source_file self.now number ≡ Ok v.items)
            (λ fault. (fault ≡ Fault.Memory) ⊎ (source_file self.now number ≡ Err fault)) }
    {
        match self {
            Source::Image(disk) => disk_file(alloc, disk, number),
            Source::TapeArchive(tape) => tape.file(alloc, number),
            Source::LynxArchive(lynx) => lynx.file(alloc, number),
        }
    }
}
