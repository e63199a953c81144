//! What processes that were ended in a save left beside files.
use crate::folders::names_beginning;
use crate::names::text_of;
use std::alloc::{AllocError, Global};
use std::fs;
use std::io::{self, ErrorKind};
use std::path::{Path, PathBuf};
use std::rt::Files;

/// The files beside others in the folder in which a program saved last, as they were when it first saved there. With it many files are
/// saved in a folder that is looked through once.
#[derive(Drop)]
pub struct Leftovers {
    // None before the first save.
    folder: Option<String>,
    names: Vec<String>,
    // As text; empty where the system doesn't tell it.
    own_number: String,
}

/// A name in the folder of a path, or a path of its own from the root on.
pub fn beside(alloc: Global, path: Path<'_>, name: &str) -> Result<PathBuf, AllocError> {
    let folder = path.parent().unwrap_or(Path::new(""));
    folder.join(alloc, name)
}

/// The number of this process, as text; empty where the system doesn't tell it.
fn own_number<R: Files + AllocGlobal>(rt: &R) -> io::Result<String> {
    match fs::read_link(rt, "/proc/self") {
        Ok(link) => Ok(String::from_str(rt.alloc(), link.as_str())?),
        Err(_) => Ok(String::new(rt.alloc())),
    }
}

/// What is in a folder under a name that begins as those of files beside others, as a program names them.
fn names_beside<R: Files + AllocGlobal>(
    rt: &R,
    program: &str,
    folder: &str,
) -> io::Result<Vec<String>> {
    let named = if folder.is_empty() { "." } else { folder };
    let text = text_of(rt.alloc(), named.as_bytes())?;
    let beginning = format!(in rt.alloc(); "{program}.")?;
    names_beginning(rt, text.as_str(), beginning.as_bytes())
}

/// The number of the process in the name of a file beside that begins so.
fn number_in<'n>(name: &'n str, beginning: &str) -> Option<&'n str> {
    let rest = name.strip_prefix(beginning)?.strip_suffix(".new")?;
    let (process, number) = rest.split_once('.')?;
    let is_number = |text: &str| !text.is_empty() && text.bytes().all(|b| b.is_ascii_digit());
    if is_number(process) && is_number(number) {
        Some(process)
    } else {
        None
    }
}

/// Whether no process has this number, where the system tells of processes.
fn is_ended<R: Files + AllocGlobal>(rt: &R, process: &str) -> io::Result<bool> {
    let place = format!(in rt.alloc(); "/proc/{process}")?;
    match fs::metadata(rt, place.as_str()) {
        Err(error) => Ok(error.kind() == ErrorKind::NotFound),
        Ok(_) => Ok(false),
    }
}

impl Leftovers {
    /// Before the first save.
    pub fn new(alloc: Global) -> Leftovers {
        Leftovers {
            folder: None,
            names: Vec::new(alloc),
            own_number: String::new(alloc),
        }
    }

    /// Those of a folder; none where it can't be looked through, or this process has no number, by which others have.
    fn of<R: Files + AllocGlobal>(rt: &R, program: &str, folder: &str) -> io::Result<Leftovers> {
        let own_number = own_number(rt)?;
        let names = if own_number.is_empty() {
            Vec::new(rt.alloc())
        } else {
            names_beside(rt, program, folder).unwrap_or(Vec::new(rt.alloc()))
        };
        Ok(Leftovers {
            folder: Some(String::from_str(rt.alloc(), folder)?),
            names,
            own_number,
        })
    }

    /// Looks through the folder of a path, unless it is the one that was looked through last.
    pub(crate) fn look<R: Files + AllocGlobal>(
        &mut self,
        rt: &R,
        program: &str,
        path: Path<'_>,
    ) -> io::Result<()> {
        let parent = path.parent().unwrap_or(Path::new(""));
        let folder = parent.as_str();
        if self.is_of(folder) {
            return Ok(());
        }
        *self = Leftovers::of(rt, program, folder)?;
        Ok(())
    }

    /// Whether this is the folder that was looked through last.
    fn is_of(&self, folder: &str) -> bool {
        match &self.folder {
            Some(own) => own.as_str() == folder,
            None => false,
        }
    }

    /// The number of this process, as text; empty where the system doesn't tell it.
    pub(crate) fn own_number(&self) -> &str {
        self.own_number.as_str()
    }

    /// Removes those whose names begin so, beside a path, if their processes were ended.
    pub(crate) fn remove<R: Files + AllocGlobal>(
        &self,
        rt: &R,
        path: Path<'_>,
        beginning: &str,
    ) -> io::Result<()> {
        for name in self.names.as_slice() {
            if let Some(process) = number_in(name.as_str(), beginning) {
                if is_ended(rt, process)? {
                    let left = beside(rt.alloc(), path, name.as_str())?;
                    let _ = fs::remove_file(rt, left.as_path());
                }
            }
        }
        Ok(())
    }
}
