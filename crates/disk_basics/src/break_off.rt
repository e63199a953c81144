//! Where a chain or a directory breaks off, in words.
use cbm_volume::Trouble;
use std::fmt::{self, Display, Formatter};

/// A link leads to no sector of the disk.
const ILLEGAL_LINK: u8 = 66;

/// A link leads to a sector that came already, or to one too many.
const ENDLESS_CHAIN: u8 = 71;

/// How many entries the sectors have that the drive reads of a directory at most.
const MOST_ENTRIES: usize = 144;

/// Why a chain breaks off, in words.
#[derive(Clone, Copy)]
pub struct Cause(pub Trouble);

impl Display for Cause {
    fn fmt<W: fmt::Write>(&self, f: &mut Formatter<W>) -> fmt::Result {
        let Trouble {
            code,
            track,
            sector,
        } = self.0;
        match code {
            ILLEGAL_LINK => write!(
                f,
                "a link leads to track {track}, sector {sector}, which the disk doesn't have (error {code})"
            ),
            ENDLESS_CHAIN => write!(
                f,
                "a link leads back to track {track}, sector {sector} (error {code})"
            ),
            _ => write!(
                f,
                "track {track}, sector {sector} can't be read (error {code})"
            ),
        }
    }
}

/// A directory that breaks off.
#[derive(Clone, Copy)]
pub struct BreakOff {
    /// How many entries come before, those of empty slots too.
    pub entries: usize,
    /// Why it breaks off.
    pub trouble: Trouble,
}

impl BreakOff {
    /// Whether it has more sectors than the drive reads.
    pub fn is_too_long(self) -> bool {
        self.entries == MOST_ENTRIES && self.trouble.code == ENDLESS_CHAIN
    }
}

impl Display for BreakOff {
    fn fmt<W: fmt::Write>(&self, f: &mut Formatter<W>) -> fmt::Result {
        if self.is_too_long() {
            return f.write_str("the directory has more than the 18 sectors that the drive reads");
        }
        let entries = self.entries;
        let cause = Cause(self.trouble);
        write!(
            f,
            "the directory breaks off after {entries} entries: {cause}"
        )
    }
}
