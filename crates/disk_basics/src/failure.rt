//! Why a command wasn't carried out.
use crate::what::What;
use cbm_shell::ShellFault;
use std::alloc::{AllocError, Global};
use std::io;

/// Why a command wasn't carried out: what went wrong, and the name of the image, file or word that it is about. It owns the
/// name, so that no result of a command borrows.
#[derive(Drop)]
pub struct Failure {
    /// What went wrong.
    pub what: What,
    // None where it is about no name.
    name: Option<String>,
}

impl Failure {
    ghost use Rattle.std.specs.Prelude.{◌≡◌, ◌⊎◌};
    ghost use Rattle.disk_basics.specs.Exits.{exit_status};
    ghost use Rattle.disk_basics.specs.declared.what.What.TheVariants.{NoMemory};

    /// A failure that is about no name.
    pub fn new(what: What) -> Failure
        ensures { result.what ≡ what }
    {
        Failure { what, name: None }
    }

    /// A failure that is about a name. If memory runs out for the name, that is what went wrong.
    pub fn named(alloc: Global, what: What, name: &str) -> Failure
        ensures { (result.what ≡ what) ⊎ (result.what ≡ NoMemory) }
    {
        match String::from_str(alloc, name) {
            Ok(name) => Failure {
                what,
                name: Some(name),
            },
            Err(_) => Failure::new(What::NoMemory),
        }
    }

    /// The name that it is about; the empty text where there is none.
    pub fn name(&self) -> &str {
        match &self.name {
            Some(name) => name.as_str(),
            None => "",
        }
    }

    /// The exit status: 1 the disk or the drive said no, 2 the image is none, 3 this computer's files or memory are at fault,
    /// 4 of several images some are, 64 the command line is.
    pub fn status(&self) -> u8
        ensures { result ≡ exit_status self.now.what }
    {
        self.what.status()
    }

    /// Why an image can't be looked at, without its name.
    pub fn reason(&self) -> &'static str {
        self.what.reason(self.name())
    }

    /// Prints the sentence on standard error.
    pub fn tell(&self, rt: &impl Eprint) -> io::Result<()> {
        self.what.tell(rt, self.name())
    }
}

/// What a disk answered; its fault is that of the image or file of a name.
pub fn on_disk<T>(alloc: Global, name: &str, answer: Result<T, ShellFault>) -> Result<T, Failure> {
    match answer {
        Ok(value) => Ok(value),
        Err(fault) => Err(Failure::named(alloc, What::Disk(fault), name)),
    }
}

/// What took memory.
pub fn in_memory<T>(made: Result<T, AllocError>) -> Result<T, Failure> {
    match made {
        Ok(value) => Ok(value),
        Err(_) => Err(Failure::new(What::NoMemory)),
    }
}
