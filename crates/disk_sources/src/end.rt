//! Where a directory ends.
use cbm_sources::Fault;
use disk_basics::strays::Unlinked;
use disk_basics::{BreakOff, Cause, Failure, What};
use std::fmt::{self, Display, Formatter};

/// A link leads to a sector that came already, or to one too many.
const ENDLESS_CHAIN: u8 = 71;

/// Why the directory of another kind breaks off.
#[derive(Clone, Copy)]
pub struct OtherEnd {
    /// How many entries come before.
    pub entries: usize,
    /// Why it breaks off.
    pub fault: Fault,
    /// How many sectors it has at most.
    pub most: u16,
}

impl Display for OtherEnd {
    fn fmt<W: fmt::Write>(&self, f: &mut Formatter<W>) -> fmt::Result {
        let entries = self.entries;
        let most = self.most;
        match self.fault {
            Fault::Chain(trouble) => {
                let cause = Cause(trouble);
                write!(
                    f,
                    "the directory breaks off after {entries} entries: {cause}"
                )?;
                if trouble.code == ENDLESS_CHAIN {
                    write!(f, ", or it has more than {most} sectors")?;
                }
                Ok(())
            }
            Fault::Text(at) => write!(
                f,
                "the directory can't be read after {entries} entries, from byte {at} on"
            ),
            Fault::NoFile | Fault::Cut(_) | Fault::Memory => {
                write!(f, "the directory can't be read after {entries} entries")
            }
        }
    }
}

/// Why a directory ends where it does.
#[derive(Clone, Copy)]
pub enum End {
    /// It is whole.
    Whole,
    /// That of a 1541's disk breaks off.
    Disk(BreakOff),
    /// A 1541's disk has files to which no link of its directory leads.
    Unlinked(Unlinked),
    /// That of another one does.
    Other(OtherEnd),
}

impl End {
    /// That of another kind's directory.
    pub fn of(end: Option<OtherEnd>) -> End {
        match end {
            Some(end) => End::Other(end),
            None => End::Whole,
        }
    }

    /// Whether each file that is listed can be followed, though others aren't listed.
    pub fn is_unlinked(self) -> bool {
        matches!(self, End::Unlinked(_))
    }

    /// Prints that a directory breaks off, or that files aren't listed; answers whether it is whole.
    pub fn tell(self, rt: &impl Eprint, name: &str) -> bool {
        match self {
            End::Whole => return true,
            End::Disk(end) => {
                let _ = What::Broken(end).tell(rt, name);
            }
            End::Unlinked(unlinked) => {
                let _ = What::Unlinked(unlinked).tell(rt, name);
            }
            End::Other(end) => {
                let _ = eprintln!(rt; "disk1541: {name}: {end}");
            }
        }
        false
    }
}
