//! Saving an image, so that no change of another program is lost.
use crate::arguments::{Arguments, is_standard};
use crate::failure::{RunFailure, Stream};
use host_files::{replace, save};
use host_locks::{is_same, lock_beside};
use std::fs::{self, File};
use std::io::{self, Write};
use std::rt::{Files, Runtime};

/// The program's name, which its temporary files have.
const PROGRAM: &str = "drive1541";

/// An image that was read, and the file to which it is saved.
#[derive(Clone, Copy)]
pub struct Saving<'s> {
    /// The file that was read.
    pub image: &'s str,
    /// Its bytes.
    pub old: &'s [u8],
    /// The file that is written.
    pub out: &'s str,
    /// What is written to it.
    pub new: &'s [u8],
}

/// Saves an image, in place of the one that was read only if that is still there. Answers whether it was.
fn save_over<R: Files + AllocGlobal>(rt: &R, saving: Saving<'_>) -> io::Result<bool> {
    if !is_standard(saving.image) && is_same(rt, saving.image, saving.out) {
        return replace(rt, PROGRAM, saving.out, saving.old, saving.new);
    }
    save(rt, PROGRAM, saving.out, saving.new)?;
    Ok(true)
}

/// The same, while no other program changes an image in its folder.
pub fn save_alone(rt: &HostRuntime, saving: Saving<'_>) -> io::Result<bool> {
    let others_wait = lock_beside(rt, PROGRAM, saving.out);
    let saved = save_over(rt, saving);
    drop(others_wait);
    saved
}

/// Whether a file is read at once: it is a regular one, and no pipe or terminal, for which a program may wait.
fn is_at_hand<R: Files>(rt: &R, name: &str) -> bool {
    match fs::metadata(rt, name) {
        Ok(found) => found.is_file() && !is_standard(name),
        Err(_) => false,
    }
}

/// Takes the lock of OUT's folder, if IMAGE and SCRIPT are read at once. Otherwise it is taken only to save: no program should wait for a script
/// that is typed.
pub fn lock_out(rt: &HostRuntime, arguments: &Arguments<'_>) -> Option<File> {
    let out = arguments.out?;
    if is_standard(out) || !is_at_hand(rt, arguments.image) || !is_at_hand(rt, arguments.script) {
        return None;
    }
    lock_beside(rt, PROGRAM, out)
}

/// Prints the image.
fn print_image<R: Runtime>(rt: &R, image: &[u8]) -> Result<(), RunFailure> {
    let mut output = io::writer(rt);
    match output.write_all(image) {
        Ok(()) => Ok(()),
        Err(error) => Err(RunFailure::of_file(error, Stream::Out)),
    }
}

/// What saving to OUT came to.
fn saved_out(saved: io::Result<bool>) -> Result<(), RunFailure> {
    match saved {
        Ok(true) => Ok(()),
        Ok(false) => Err(RunFailure::Changed),
        Err(error) => Err(RunFailure::of_file(error, Stream::Out)),
    }
}

/// Saves the image where it goes, if anything is saved.
pub fn save_image(
    rt: &HostRuntime,
    arguments: &Arguments<'_>,
    old: &[u8],
    new: &[u8],
    is_locked: bool,
) -> Result<(), RunFailure> {
    let Some(out) = arguments.out else {
        return Ok(());
    };
    if is_standard(out) {
        return print_image(rt, new);
    }
    let saving = Saving {
        image: arguments.image,
        old,
        out,
        new,
    };
    if is_locked {
        saved_out(save_over(rt, saving))
    } else {
        saved_out(save_alone(rt, saving))
    }
}
