//! A lock that programs hold while they change a file.
use crate::place::place_of;
use std::fs::{self, File, TryLockError};
use std::path::{Path, PathBuf};
use std::time::{Duration, Instant};

/// How many milliseconds another program is waited for without a word.
const PATIENCE: u64 = 1000;

/// Tries to lock a folder for a second. Answers whether it is locked, or can't be.
fn waits_briefly(rt: &HostRuntime, folder: &File) -> bool {
    let Ok(begun) = Instant::now(rt) else {
        return false;
    };
    for _ in 0..u32::MAX {
        if !matches!(folder.try_lock(), Err(TryLockError::WouldBlock)) {
            return true;
        }
        match begun.elapsed(rt) {
            Ok(since) if since < Duration::from_millis(PATIENCE) => {}
            _ => return false,
        }
    }
    false
}

/// The folder in which a file is that a path leads to.
fn folder_of(place: &PathBuf) -> &str {
    let folder = place.as_path().parent().unwrap_or(Path::new("/"));
    folder.as_str()
}

/// Whether something is there that is no regular file.
fn is_special(rt: &HostRuntime, path: &str) -> bool {
    match fs::metadata(rt, path) {
        Ok(found) => !found.is_file(),
        Err(_) => false,
    }
}

/// Waits until no other program holds the lock of the folder in which a file is, or would be, and takes it. Links are followed, so that
/// programs that name one file differently wait for each other. It is held until the answer is dropped, or the program ends in whatever
/// way. A wait of more than a second is reported, after the program's name. None where the folder can't be locked, or the file is no regular one.
pub fn lock_beside(rt: &HostRuntime, program: &str, path: &str) -> Option<File> {
    if is_special(rt, path) {
        return None;
    }
    let place = place_of(rt, path).ok()?;
    let name = folder_of(&place);
    let folder = File::open(rt, name).ok()?;
    if !waits_briefly(rt, &folder) {
        let _ = eprintln!(rt;
            "{program}: waiting for another program to finish changing an image in {name}"
        );
        folder.lock().ok()?;
    }
    Some(folder)
}
