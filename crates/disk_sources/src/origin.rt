//! A disk or an archive from which files are taken.
use crate::end::End;
use crate::other::Other;
use cbm_shell::ShellFault;
use cbm_shell::texts::Charset;
use cbm_sources::Fault;
use cbm_volume::Entry;
use disk_basics::calls::name_text;
use disk_basics::host::require_ours;
use disk_basics::strays::unlisted_on;
use disk_basics::{Cause, Disk, Failure, What, in_memory, on_disk};
use std::alloc::{AllocError, Global};
use std::io;

/// A disk, or a disk or an archive of another kind.
#[derive(Drop)]
pub enum Origin<'b> {
    /// The disk of a 1541.
    Disk(Disk),
    /// Another one.
    Other(Other<'b>),
}

/// The entries of a disk or an archive. A file's number is the place of its entry.
#[derive(Drop)]
pub struct Entries {
    /// They.
    pub entries: Vec<Entry>,
    /// What ends them.
    pub end: End,
}

/// Why a file isn't read.
#[derive(Clone, Copy)]
pub enum FileFault {
    /// The disk of a 1541 refuses it.
    Disk(ShellFault),
    /// Another one does.
    Other(Fault),
}

impl<'b> Origin<'b> {
    /// The disk or the archive of these bytes. Errors: `Foreign`, where they are none; `Disk`; `NoMemory`.
    pub fn open(alloc: Global, name: &str, bytes: &'b [u8]) -> Result<Origin<'b>, Failure> {
        if let Some(other) = in_memory(Other::of(alloc, bytes))? {
            return Ok(Origin::Other(other));
        }
        require_ours(alloc, name, bytes)?;
        let disk = on_disk(alloc, name, Disk::open(alloc, bytes))?;
        Ok(Origin::Disk(disk))
    }

    /// Whether it is a disk.
    pub fn is_disk(&self) -> bool {
        match self {
            Origin::Disk(_) => true,
            Origin::Other(other) => other.form().is_some(),
        }
    }

    /// Its entries, as far as its directory can be followed. The one error is `NoMemory`.
    pub fn entries(&self, alloc: Global) -> Result<Entries, Failure> {
        match self {
            Origin::Disk(disk) => disk_entries(alloc, disk),
            Origin::Other(other) => other_entries(alloc, other),
        }
    }

    /// The bytes of the file of an entry, by its number.
    pub fn file(&self, alloc: Global, entry: &Entry, number: usize) -> Result<Vec<u8>, FileFault> {
        match self {
            Origin::Disk(_) if !entry.is_closed() => Err(FileFault::Disk(ShellFault::NotClosed)),
            Origin::Disk(disk) => disk.file_of(alloc, entry).map_err(FileFault::Disk),
            Origin::Other(other) => other_file(alloc, other, entry, number),
        }
    }
}

/// The bytes of the file of another kind's entry, by its number.
pub fn other_file(
    alloc: Global,
    other: &Other<'_>,
    entry: &Entry,
    number: usize,
) -> Result<Vec<u8>, FileFault> {
    if !entry.is_closed() {
        return Err(FileFault::Disk(ShellFault::NotClosed));
    }
    other.file(alloc, number).map_err(FileFault::Other)
}

/// The entries of a 1541's disk.
fn disk_entries(alloc: Global, disk: &Disk) -> Result<Entries, Failure> {
    let listed = in_memory(disk.listed(alloc))?;
    let end = match in_memory(unlisted_on(alloc, disk, &listed))? {
        Some(What::Broken(end)) => End::Disk(end),
        Some(What::Unlinked(unlinked)) => End::Unlinked(unlinked),
        _ => End::Whole,
    };
    Ok(Entries {
        entries: listed.entries,
        end,
    })
}

/// The entries of another one. The one error is `NoMemory`.
pub fn other_entries(alloc: Global, other: &Other<'_>) -> Result<Entries, Failure> {
    let contents = in_memory(other.contents(alloc))?;
    let end = End::of(other.end(&contents));
    Ok(Entries {
        entries: contents.entries,
        end,
    })
}

/// Prints why a file of another kind isn't read.
fn tell_fault(rt: &impl Eprint, name: &str, fault: Fault) -> io::Result<()> {
    match fault {
        Fault::NoFile => eprintln!(rt; "disk1541: {name}: no such file"),
        Fault::Chain(trouble) => {
            let cause = Cause(trouble);
            eprintln!(rt; "disk1541: {name} breaks off: {cause}")
        }
        Fault::Cut(at) => {
            eprintln!(rt;
                "disk1541: {name} is cut off: it begins at byte {at}, and the archive ends before it does"
            )
        }
        Fault::Text(at) => {
            eprintln!(rt; "disk1541: {name}: the directory can't be read from byte {at} on")
        }
        Fault::Memory => eprintln!(rt; "disk1541: no memory"),
    }
}

/// Prints why a file isn't taken.
pub fn tell_file<R: Eprint + AllocGlobal>(
    rt: &R,
    entry: &Entry,
    fault: FileFault,
) -> Result<(), AllocError> {
    let name = name_text(rt.alloc(), Charset::Upper, entry.name())?;
    let _ = match fault {
        FileFault::Disk(fault) => What::Disk(fault).tell(rt, name.as_str()),
        FileFault::Other(fault) => tell_fault(rt, name.as_str(), fault),
    };
    Ok(())
}
