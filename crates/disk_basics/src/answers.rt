//! The disk's answer to a command of the drive, with the reason if the drive's status is less exact.
use crate::calls::listed;
use crate::failure::{Failure, on_disk};
use crate::what::What;
use cbm_channel::Code;
use cbm_shell::ShellFault;
use disk_facts::count_files;
use std::alloc::Global;

/// How many files a directory has at most.
const MOST_FILES: usize = 144;

/// Whether the directory has no room for so many files more.
fn is_directory_full(alloc: Global, image: &[u8], more: usize) -> bool {
    match listed(alloc, image) {
        Ok(listed) => {
            let files = count_files(listed.entries.as_slice());
            files.saturating_add(more) > MOST_FILES
        }
        Err(_) => false,
    }
}

/// The disk's answer to this number of new files. Errors: `DirectoryFull`, if the directory is full; `Disk`.
pub fn on_room(
    alloc: Global,
    image: &str,
    old: &[u8],
    files: usize,
    answer: Result<Vec<u8>, ShellFault>,
) -> Result<Vec<u8>, Failure> {
    match answer {
        Err(ShellFault::Refused(status))
            if status.code == Code::DiskFull && is_directory_full(alloc, old, files) => {
            Err(Failure::named(alloc, What::DirectoryFull, image))
        }
        _ => on_disk(alloc, image, answer),
    }
}

/// What a disk answered to a new name of a file or of its copy. Errors: `NameTaken`, where a file has it; those of `on_room`.
pub fn on_new_name(
    alloc: Global,
    image: &str,
    old: &[u8],
    answer: Result<Vec<u8>, ShellFault>,
) -> Result<Vec<u8>, Failure> {
    match answer {
        Err(ShellFault::Refused(status)) if status.code == Code::FileExists => {
            Err(Failure::named(alloc, What::NameTaken, image))
        }
        _ => on_room(alloc, image, old, 1, answer),
    }
}
