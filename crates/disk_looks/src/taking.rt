//! Files that are taken out of an image into a folder.
use crate::cvt::cvt_of;
use crate::geos::{is_kept_in_records, tell_geos};
use crate::naming::host_name;
use crate::relative::{ENDING, packed};
use crate::salvage::salvaged;
use cbm_channel::FileType;
use cbm_shell::texts::Charset;
use cbm_shell::{ShellFault, geos_of};
use cbm_volume::Entry;
use disk_basics::calls::name_text;
use disk_basics::host::{exists, require_apart, write_among};
use disk_basics::{Cause, Disk, Failure, What};
use disk_facts::type_of;
use host_files::Leftovers;
use std::alloc::{AllocError, Global};
use std::io;
use std::path::{Path, PathBuf};
use std::rt::Runtime;

/// The ending of the name of a CVT.
const CVT: &str = "cvt";

/// The exit status where the host's files are at fault.
const HOST: u8 = 3;

/// Where files are written.
#[derive(Clone, Copy)]
pub struct Destination<'a> {
    /// The image, over which no file is written.
    pub image: &'a str,
    /// The folder.
    pub folder: &'a str,
    /// Files that are there are replaced.
    pub replaces: bool,
    /// What can be read of the files is taken.
    pub salvages: bool,
    /// Files of GEOS are taken as CVT.
    pub is_cvt: bool,
}

/// The names of the host's files so far, without their numbers.
#[derive(Drop)]
pub struct Names {
    taken: Vec<String>,
}

impl Names {
    /// None yet.
    pub fn new(alloc: Global) -> Names {
        Names {
            taken: Vec::new(alloc),
        }
    }

    /// The name of a host's file for the next entry; from the second of one name on it has a number. The one error is
    /// want of memory.
    pub fn next(&mut self, alloc: Global, entry: &Entry) -> Result<String, AllocError> {
        self.next_as(alloc, entry, ending_of(entry))
    }

    /// The same with another ending.
    pub fn next_as(
        &mut self,
        alloc: Global,
        entry: &Entry,
        end: &str,
    ) -> Result<String, AllocError> {
        let base = host_name(alloc, entry.name())?;
        let number = self.number_of(alloc, base.as_str(), end)?;
        numbered(alloc, base.as_str(), end, number)
    }

    /// Adds a name of a base and an ending, and answers how many so far were the same.
    fn number_of(&mut self, alloc: Global, base: &str, end: &str) -> Result<usize, AllocError> {
        let name = format!(in alloc; "{base}.{end}")?;
        self.enter(name)
    }

    /// Adds a name, and answers how many so far were the same.
    fn enter(&mut self, name: String) -> Result<usize, AllocError> {
        let count = self.count(name.as_str());
        self.taken.push(name)?;
        Ok(count)
    }

    /// How many names so far are this one.
    fn count(&self, name: &str) -> usize {
        let mut count: usize = 0;
        for other in self.taken.as_slice() {
            if other.as_str() == name {
                count = count.saturating_add(1);
            }
        }
        count
    }
}

/// What was saved in a folder so far.
#[derive(Drop)]
pub struct Saves {
    /// The names of the files.
    pub names: Names,
    /// What killed programs left beside them.
    left: Leftovers,
    // A file could not be written.
    is_stopped: bool,
}

impl Saves {
    /// Nothing yet.
    pub fn new(alloc: Global) -> Saves {
        Saves {
            names: Names::new(alloc),
            left: Leftovers::new(alloc),
            is_stopped: false,
        }
    }

    /// The name of the host's file for the next entry, whose file may be taken as CVT.
    fn next(&mut self, alloc: Global, entry: &Entry, is_cvt: bool) -> Result<String, AllocError> {
        if is_cvt && geos_of(entry).is_some() {
            return self.names.next_as(alloc, entry, CVT);
        }
        self.names.next(alloc, entry)
    }

    /// Passes the next entry over, whose name counts for those after it.
    pub fn pass_over(
        &mut self,
        alloc: Global,
        entry: &Entry,
        is_cvt: bool,
    ) -> Result<(), AllocError> {
        self.next(alloc, entry, is_cvt)?;
        Ok(())
    }

    /// What saving files came to. Errors: `Ended` with the status of the host's files, where one could not be written; `Told`, where one
    /// was left out.
    pub fn outcome(&self, are_saved: bool) -> Result<(), Failure> {
        if self.is_stopped {
            return Err(Failure::new(What::Ended(HOST)));
        }
        if are_saved {
            Ok(())
        } else {
            Err(Failure::new(What::Told))
        }
    }
}

/// The ending of the name of a host's file: the type, but for relative files, which have PC64's.
fn ending_of(entry: &Entry) -> &'static str {
    if entry.is_relative() {
        return ENDING;
    }
    type_of(entry).unwrap_or("del")
}

/// A name with a number, from 1 on, and an ending.
fn numbered(alloc: Global, base: &str, end: &str, number: usize) -> Result<String, AllocError> {
    if number == 0 {
        return format!(in alloc; "{base}.{end}");
    }
    format!(in alloc; "{base}~{number}.{end}")
}

/// Reports a file that isn't taken out.
fn tell_left(rt: &impl Eprint, name: &str, fault: ShellFault) -> io::Result<()> {
    match fault {
        ShellFault::Trouble(trouble) => {
            let cause = Cause(trouble);
            eprintln!(rt;
                "disk1541: \"{name}\" was not extracted: {cause}. --salvage extracts the readable part"
            )
        }
        ShellFault::NotClosed => {
            eprintln!(rt;
                "disk1541: \"{name}\" was not extracted: the file was never closed. --salvage extracts the readable part"
            )
        }
        _ => eprintln!(rt; "disk1541: \"{name}\" was not extracted: {fault}"),
    }
}

/// A disk whose files are taken out, and the image that it is of.
#[derive(Clone, Copy)]
pub struct Source<'d> {
    /// The disk.
    pub disk: &'d Disk,
    /// Its image.
    pub image: &'d [u8],
}

/// The bytes of an entry's file, if it was closed, or what can be read of it.
pub fn bytes_of_entry<R: Runtime + AllocGlobal>(
    rt: &R,
    source: Source<'_>,
    entry: &Entry,
    salvages: bool,
) -> Result<Vec<u8>, ShellFault> {
    if salvages {
        return salvaged(rt, source.image, source.disk, entry);
    }
    if !entry.is_closed() {
        return Err(ShellFault::NotClosed);
    }
    source.disk.file_of(rt.alloc(), entry)
}

/// The host's file for an entry's file, if it was closed, or what can be read of it.
fn file_for<R: Runtime + AllocGlobal>(
    rt: &R,
    source: Source<'_>,
    entry: &Entry,
    salvages: bool,
) -> Result<Vec<u8>, ShellFault> {
    let bytes = bytes_of_entry(rt, source, entry, salvages)?;
    Ok(packed(rt.alloc(), entry, bytes)?)
}

/// Reports the name of a host's file where it isn't that of the disk.
fn tell_name(rt: &impl Eprint, path: Path<'_>, name: &str) -> io::Result<()> {
    let place = path.as_str();
    if path.file_stem().unwrap_or(place) == name {
        return Ok(());
    }
    eprintln!(rt; "disk1541: \"{name}\" was written as {place}")
}

/// Writes a file, but not over the image, and over another only where that is wanted; a failure is reported. Answers whether it was
/// written.
fn write_apart<R: Runtime + AllocGlobal>(
    rt: &R,
    path: &str,
    bytes: &[u8],
    place: Destination<'_>,
    saves: &mut Saves,
) -> bool {
    if !place.replaces && exists(rt, path) {
        let _ = eprintln!(rt; "disk1541: {path} already exists: use --replace to overwrite it");
        return false;
    }
    if let Err(failure) = require_apart(rt, place.image, path) {
        let _ = failure.tell(rt);
        return false;
    }
    if let Err(failure) = write_among(rt, path, bytes, &mut saves.left) {
        let _ = failure.tell(rt);
        saves.is_stopped = true;
        return false;
    }
    true
}

/// Saves a file under a name, and reports the name where it isn't that of the disk. Answers whether it was saved.
pub fn save_as<R: Runtime + AllocGlobal>(
    rt: &R,
    path: Path<'_>,
    name: &str,
    bytes: &[u8],
    place: Destination<'_>,
    saves: &mut Saves,
) -> bool {
    let is_saved = write_apart(rt, path.as_str(), bytes, place, saves);
    if is_saved {
        let _ = tell_name(rt, path, name);
    }
    is_saved
}

/// Saves a file, if it could be read, or else reports that it isn't taken out. Answers whether it was saved.
fn save_or_tell<R: Runtime + AllocGlobal>(
    rt: &R,
    path: &PathBuf,
    name: &str,
    file: Result<Vec<u8>, ShellFault>,
    place: Destination<'_>,
    saves: &mut Saves,
) -> bool {
    match file {
        Ok(bytes) => save_as(rt, path.as_path(), name, bytes.as_slice(), place, saves),
        Err(fault) => {
            let _ = tell_left(rt, name, fault);
            false
        }
    }
}

/// Takes the file of an entry out, to a path. Answers whether it was saved.
fn take_to<R: Runtime + AllocGlobal>(
    rt: &R,
    source: Source<'_>,
    entry: &Entry,
    path: &PathBuf,
    place: Destination<'_>,
    saves: &mut Saves,
) -> Result<bool, AllocError> {
    let name = name_text(rt.alloc(), Charset::Upper, entry.name())?;
    let shown = name.as_str();
    if !place.salvages && is_kept_in_records(entry) {
        let _ = eprintln!(rt;
            "disk1541: \"{shown}\" was not extracted: it is a GEOS file with records, use --cvt"
        );
        return Ok(false);
    }
    let file = file_for(rt, source, entry, place.salvages);
    let geos = if file.is_ok() { geos_of(entry) } else { None };
    let is_saved = save_or_tell(rt, path, shown, file, place, saves);
    if let Some(geos) = geos {
        let _ = tell_geos(rt, shown, geos);
        return Ok(false);
    }
    Ok(is_saved)
}

/// Whether an entry is a line of art to those who see the directory.
pub fn is_art(entry: &Entry) -> bool {
    matches!(entry.kind(), Some(FileType::Del)) && entry.is_closed()
}

/// Whether an entry is a line of art without blocks, of which no file is written.
pub fn is_blank_art(entry: &Entry) -> bool {
    is_art(entry) && entry.first_block().is_end()
}

/// Takes the file of the next entry out. Answers whether it was saved, or nothing is to be saved of it. The one error is want of
/// memory.
pub fn take<R: Runtime + AllocGlobal>(
    rt: &R,
    source: Source<'_>,
    entry: &Entry,
    saves: &mut Saves,
    place: Destination<'_>,
) -> Result<bool, AllocError> {
    let alloc = rt.alloc();
    let geos = if place.is_cvt { geos_of(entry) } else { None };
    let name = saves.next(alloc, entry, place.is_cvt)?;
    if is_blank_art(entry) {
        return Ok(true);
    }
    let path = Path::new(place.folder).join(alloc, name.as_str())?;
    let Some(geos) = geos else {
        return take_to(rt, source, entry, &path, place, saves);
    };
    let shown = name_text(alloc, Charset::Upper, entry.name())?;
    let file = cvt_of(alloc, source.disk, entry, geos);
    Ok(save_or_tell(rt, &path, shown.as_str(), file, place, saves))
}
