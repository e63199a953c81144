//! What crosses to C beside numbers and bytes.
ghost use Rattle.std.specs.Prelude.{◌≡◌};
ghost use Rattle.yellowadze1541.specs.Looks.{flag};

/// What is wrong with a disk first, and where.
#[repr(C)]
#[derive(Clone, Copy, Drop)]
pub struct Place {
    /// What: 1 to 9.
    pub what: u8,
    /// The track.
    pub track: u8,
    /// The sector on it.
    pub sector: u8,
}

/// What 18/0 says of a disk.
#[repr(C)]
#[derive(Clone, Copy, Drop)]
pub struct Title {
    /// How many blocks are free.
    pub free: u16,
    /// The title, filled up with $A0.
    pub title: [u8; 16],
    /// The id, a $A0, and the kind of DOS.
    pub mark: [u8; 5],
}

/// An entry of the directory.
#[repr(C)]
#[derive(Clone, Copy, Drop)]
pub struct Entry {
    /// How many blocks it says the file has.
    pub blocks: u16,
    /// 0 DEL, 1 SEQ, 2 PRG, 3 USR, 4 REL; others are no type of a file.
    pub kind: u8,
    /// 1 if the file was closed, else 0.
    pub closed: u8,
    /// 1 if it is locked against scratching, else 0.
    pub locked: u8,
    /// The length of a relative file's records.
    pub record_length: u8,
    /// The name, filled up with $A0.
    pub name: [u8; 16],
    /// The track of the file's first block, 0 if it has none.
    pub track: u8,
    /// The sector of that block.
    pub sector: u8,
}

/// Something that is wrong with a disk, and where.
#[repr(C)]
#[derive(Clone, Copy, Drop)]
pub struct Flaw {
    /// What: 1 to 9, as in `Place`.
    pub what: u8,
    /// The track.
    pub track: u8,
    /// The sector on it.
    pub sector: u8,
    /// Whose sectors were followed to it: 0 nobody's (it is a header or the BAM), 1 the directory's, 2 those of the file in `slot`.
    pub whose: u8,
    /// The slot of that file, else 0.
    pub slot: u16,
    /// How many sectors of the chain come before it.
    pub before: u16,
}

/// What an image of the other format doesn't hold.
#[repr(C)]
#[derive(Clone, Copy, Drop)]
pub struct Lost {
    /// How many sectors of the tracks 1 to 35 don't read; they are zeros in the new image.
    pub unreadable: usize,
    /// 1 if there are more tracks, or half tracks, else 0.
    pub tracks: u8,
    /// 1 if there are error bytes other than 1, else 0.
    pub errors: u8,
    /// 1 if the id of the headers is another one than 18/0 has, else 0.
    pub id: u8,
}

/// A file that is put on a disk.
#[repr(C)]
#[derive(Clone, Copy)]
pub struct File<'a> {
    /// The text of the OPEN that writes it, such as `NAME,P,W`.
    pub text: &'a [u8],
    /// Its bytes.
    pub bytes: &'a [u8],
}

/// What the drive says on channel 15.
#[repr(C)]
#[derive(Clone, Copy, Drop)]
pub struct Said {
    /// The number of the status, 0 to 74.
    pub number: u8,
    /// Its first number: a track, or how many files.
    pub first: u8,
    /// Its second number: a sector.
    pub second: u8,
    /// Its line without the return, such as `01, FILES SCRATCHED,05,00`, and zeros after it.
    pub line: [u8; 33],
}

/// The lines that a drive holds low.
#[repr(C)]
#[derive(Clone, Copy, Drop)]
pub struct Pulls {
    /// 1 if it holds CLOCK, else 0.
    pub clock_low: u8,
    /// 1 if it holds DATA, else 0.
    pub data_low: u8,
}

/// What a reaction did.
#[repr(C)]
#[derive(Clone, Copy, Drop)]
pub struct Reacted {
    /// When, in microseconds.
    pub moment: u64,
    /// 1 if the drive holds CLOCK since, else 0.
    pub clock_low: u8,
    /// 1 if it holds DATA since, else 0.
    pub data_low: u8,
    /// 1 if that of CLOCK is new, else 0.
    pub clock_changed: u8,
    /// 1 if that of DATA is new, else 0.
    pub data_changed: u8,
}

/// A change of a line.
#[repr(C)]
#[derive(Clone, Copy, Drop)]
pub struct Signal {
    /// When, in microseconds.
    pub moment: u64,
    /// 0 the host, else the drive's device number.
    pub who: u8,
    /// 0 ATN, 1 CLOCK, 2 DATA.
    pub line: u8,
    /// 0 if it is freed, else it is pulled.
    pub low: u8,
}

/// 1 for yes, 0 for no.
pub fn flag(is: bool) -> u8
    ensures { result ≡ flag is }
{
    if is { 1 } else { 0 }
}
