ghost use Rattle.std.specs.Prelude.{◌≡◌, ◌==◌};
ghost use Rattle.cbm_volume.specs.check.Flaws.{flaw_number};
ghost use Rattle.cbm_volume.specs.check.Claims.{fault_at};

use cbm_medium::Link;

/// What makes a disk unsound, and the two numbers of the sector or of the link at fault.
#[derive(Clone, Copy, Debug, PartialEq, Eq)]
pub struct Unsound {
    /// 1 a count of the map, at sector 0 of its track; 2 claimed but free; 3 claimed twice; 4 a file's link to no
    /// sector or to track 18; 5 a header's fault; 6 the directory's link off track 18; 7 side sectors, at the first;
    /// 8 no type, at the sector of the directory; 9 a claimed sector that doesn't read.
    pub number: u8,
    pub track: u8,
    pub sector: u8,
}

impl Unsound {
    /// Whether this is what is wrong.
    pub(crate) fn is(self, flaw: Flaw) -> bool
        ensures { result ≡ (self.number == flaw_number flaw) }
    {
        self.number == flaw.number()
    }
}

/// What can be wrong with a disk.
#[derive(Clone, Copy, Debug, PartialEq, Eq)]
pub enum Flaw {
    /// A track's count isn't the number of its free bits.
    MapCount,
    /// A sector is used that the map has as free.
    ClaimedButFree,
    /// A sector is used twice.
    SharedBlock,
    /// A file's link to no sector, or to track 18.
    ChainOutside,
    /// A sector's header has a fault.
    BadHeader,
    /// The directory's link to no sector, or off track 18.
    DirectoryChain,
    /// The records of a relative file aren't right.
    SideSectors,
    /// An entry's type is none of a file's.
    UnknownType,
    /// A sector that is used doesn't read.
    Unreadable,
}

impl Flaw {
    /// Its number, as the program shows it.
    pub fn number(self) -> u8
        ensures { result ≡ flaw_number self }
    {
        match self {
            Flaw::MapCount => 1,
            Flaw::ClaimedButFree => 2,
            Flaw::SharedBlock => 3,
            Flaw::ChainOutside => 4,
            Flaw::BadHeader => 5,
            Flaw::DirectoryChain => 6,
            Flaw::SideSectors => 7,
            Flaw::UnknownType => 8,
            Flaw::Unreadable => 9,
        }
    }

    /// This flaw at a sector, or at a link to none.
    pub fn at(self, place: Link) -> Unsound
        ensures { result ≡ fault_at (flaw_number self) place }
    {
        Unsound {
            number: self.number(),
            track: place.track(),
            sector: place.sector(),
        }
    }
}

/// What a sector is claimed for.
#[derive(Clone, Copy, Debug, PartialEq, Eq)]
pub enum Part {
    OfDirectory,
    OfFile,
}
