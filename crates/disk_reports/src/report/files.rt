//! What has files whose bytes are read.
use cbm_shell::ShellFault;
use cbm_volume::{Entry, FileType};
use disk_basics::Disk;
use std::alloc::{AllocError, Global};

/// What has files whose bytes are read: a disk or an archive.
pub trait Files {
    /// The bytes of the file of an entry, by the entry's number; None where they can't be read. The one error is want of memory.
    fn bytes_of(
        &self,
        alloc: Global,
        entry: &Entry,
        number: usize,
    ) -> Result<Option<Vec<u8>>, AllocError>;
}

impl Files for Disk {
    fn bytes_of(
        &self,
        alloc: Global,
        entry: &Entry,
        _number: usize,
    ) -> Result<Option<Vec<u8>>, AllocError> {
        match self.file_of(alloc, entry) {
            Ok(bytes) => Ok(Some(bytes)),
            Err(ShellFault::Memory) => Err(AllocError),
            Err(_) => Ok(None),
        }
    }
}

/// How long a file is and where it is loaded, where that is known.
#[derive(Clone, Copy)]
pub struct Size {
    /// How many bytes it has.
    pub bytes: Option<usize>,
    /// Where it is loaded.
    pub load: Option<u16>,
}

/// The load address of a program.
fn load_of(entry: &Entry, bytes: &[u8]) -> Option<u16> {
    match (entry.kind()?, bytes) {
        (FileType::Prg, [low, high, ..]) => Some(u16::from(*low) + 256 * u16::from(*high)),
        _ => None,
    }
}

/// How long the file of an entry is, where it was closed and can be read. The one error is want of memory.
pub fn size_of<F: Files>(
    alloc: Global,
    files: &F,
    entry: &Entry,
    number: usize,
) -> Result<Size, AllocError> {
    let unknown = Size {
        bytes: None,
        load: None,
    };
    if !entry.is_closed() {
        return Ok(unknown);
    }
    match files.bytes_of(alloc, entry, number)? {
        Some(bytes) => Ok(Size {
            bytes: Some(bytes.len()),
            load: load_of(entry, bytes.as_slice()),
        }),
        None => Ok(unknown),
    }
}
