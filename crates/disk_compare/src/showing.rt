//! SHOW: a file on the screen.
mod facts;

use self::facts::file_line;
use crate::screen::{Form, is_listed, screen_of};
use cbm_basic::after_program;
use cbm_shell::ShellFault;
use cbm_volume::Entry;
use disk_basics::host::{print, read_to_look};
use disk_basics::rests::named;
use disk_basics::{Choice, Disk, Failure, What, in_memory, on_disk, petscii, slot_chosen};
use disk_facts::{number_meant, type_of};
use disk_json::Named;
use std::alloc::Global;
use std::io;
use std::rt::Runtime;

/// The file that is shown, and how.
#[derive(Clone, Copy)]
pub struct Wanted<'a> {
    /// Which it is.
    pub choice: Choice<'a>,
    /// How it is shown, in the character set of its name.
    pub form: Form,
    /// It is shown for programs.
    pub is_json: bool,
}

/// A file that is shown.
#[derive(Drop)]
struct Found {
    file: Named,
    kind: Option<&'static str>,
    bytes: Vec<u8>,
}

/// The slot of the file that is said.
fn slot_of(alloc: Global, entries: &[Entry], choice: Choice<'_>) -> Result<usize, Failure> {
    if !choice.is_pattern() {
        return slot_chosen(alloc, entries, choice);
    }
    let pattern = petscii(alloc, choice.charset, choice.name)?;
    match number_meant(entries, pattern.as_slice()) {
        Some(slot) => Ok(slot),
        None => Err(Failure::named(alloc, What::NoFile, choice.word())),
    }
}

/// The bytes of an entry's file, if it was closed.
fn closed_file(alloc: Global, disk: &Disk, entry: &Entry) -> Result<Vec<u8>, ShellFault> {
    if !entry.is_closed() {
        return Err(ShellFault::NotClosed);
    }
    disk.file_of(alloc, entry)
}

/// The file that is said.
fn found_of(
    alloc: Global,
    image: &str,
    bytes: &[u8],
    choice: Choice<'_>,
) -> Result<Found, Failure> {
    let disk = on_disk(alloc, image, Disk::open(alloc, bytes))?;
    let listed = in_memory(disk.listed(alloc))?;
    let slot = slot_of(alloc, listed.entries.as_slice(), choice)?;
    let Some(entry) = listed.entries.as_slice().get(slot) else {
        return Err(Failure::named(alloc, What::NoFile, choice.word()));
    };
    Ok(Found {
        bytes: on_disk(alloc, choice.word(), closed_file(alloc, &disk, entry))?,
        file: in_memory(named(alloc, choice.charset, slot, entry))?,
        kind: type_of(entry),
    })
}

/// Reports how many bytes follow a program that is listed.
fn tell_more(rt: &impl Eprint, form: Form, file: &[u8]) -> io::Result<()> {
    if !is_listed(form, file) {
        return Ok(());
    }
    match after_program(file).len() {
        0 => Ok(()),
        1 => eprintln!(rt; "disk1541: 1 byte follows the program"),
        count => eprintln!(rt; "disk1541: {count} bytes follow the program"),
    }
}

/// Shows a file for programs.
fn show_json<R: Runtime + AllocGlobal>(
    rt: &R,
    image: &str,
    wanted: Wanted<'_>,
    found: Found,
) -> Result<(), Failure> {
    let Found { file, kind, bytes } = found;
    let shown = (wanted.choice.charset, wanted.form);
    let line = file_line(rt.alloc(), image, file, kind, shown, bytes.as_slice());
    print(rt, in_memory(line)?.as_slice())
}

/// Shows a file of an image. Errors: those of `read_to_look`; `Word`, where the name can't be typed or the slot is no number; `NoFile`;
/// `Disk`, where the file was never closed or can't be read; `Write`; `NoMemory`.
pub fn show<R: Runtime + AllocGlobal>(
    rt: &R,
    image: &str,
    wanted: Wanted<'_>,
) -> Result<(), Failure> {
    let bytes = read_to_look(rt, image)?;
    let found = found_of(rt.alloc(), image, bytes.as_slice(), wanted.choice)?;
    if wanted.is_json {
        return show_json(rt, image, wanted, found);
    }
    let file = found.bytes.as_slice();
    let text = screen_of(rt.alloc(), wanted.choice.charset, wanted.form, file);
    print(rt, in_memory(text)?.as_bytes())?;
    let _ = tell_more(rt, wanted.form, file);
    Ok(())
}
