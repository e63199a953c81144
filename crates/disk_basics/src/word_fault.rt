//! What is wrong with a word of the command line.
use std::io;

/// What a name can't have, and how any byte is typed.
const NO_KEY: &str = "a C64 can't type a character of ";

const ANY_BYTE: &str = ": write any byte as {hh}, two hexadecimal digits";

/// What divides the words of the drive's commands.
const DIVIDING: &str = "a name can't have `,` `=` `:` or a quotation mark: ";

/// What a name of COPY or RENAME can't have.
const INEXACT: &str =
    "without --exact or --slot, a name can't have `,` `=` `:` or a quotation mark: ";

/// How a relative file is put.
const RECORDS: &str = "a relative file needs a record length: use --record, 1 to 254";

/// Which types a file's bytes can have.
const PLAIN_TYPES: &str = " is not a file type: use prg, seq or usr";

/// Which commands lines have.
const NO_LINE: &str =
    " is not a command for `run`: use put, copy, rename, delete, undelete, lock, unlock, title, art, move, retype, place, sort or validate";

/// Which places a directory has.
const PLACES: &str = " is no place of this directory: its files are counted from 1 on";

/// How a format is said.
const FORMATS: &str =
    " does not show the format: add --format d64 or --format g64 (in a recipe: `format`)";

/// Which sectors disks have.
const SECTORS: &str = " (tracks are 1 to 40, sectors 0 to 20)";

/// Where a recipe may lay files.
const LAYING: &str =
    "in a recipe, `interleave` is 1 to 20, `track` 1 to 40 but not 18, and `sector` one of that track";

/// What a track may be.
const TRACKS: &str = " is not a track: use 1 to 42, or 17.5 for the half track after 17";

/// Why a word of the command line is refused.
#[derive(Clone, Copy)]
pub enum WordFault {
    /// A name has a character that no key of a C64 types, or a number that isn't whole.
    Name,
    /// A file's name has more than sixteen characters.
    LongName,
    /// A name has one of `,` `=` `:` `"`, which divide the words of the drive's commands.
    Divided,
    /// The same for a name of COPY or RENAME, for which there is --exact.
    Inexact,
    /// No slot of a directory has such a number.
    Slot,
    /// A command is about one file, and neither its name nor its slot is said.
    NoFileName,
    /// A file gets one new name, and is said by its old one or by its slot.
    TwoNames,
    /// A file from standard input has no name.
    NoName,
    /// One name is given for several files.
    OneName,
    /// Standard input is read once, so it isn't image and file, nor two files.
    Twice,
    /// No file has such a type.
    Type,
    /// No file's bytes can have such a type.
    PlainType,
    /// A file gets a type, and isn't said by its name or by its slot, or the type is missing.
    NameAndType,
    /// A line of commands changes no image, or another one.
    LineCommand,
    /// A word can't be said in a line of commands.
    LineWord,
    /// A quotation mark of a line has no other.
    OpenQuote,
    /// A relative file has records of a length that isn't given.
    Record,
    /// No record has such a length.
    RecordLength,
    /// A line of a recipe is no file and no art, or both.
    Line,
    /// A text is no recipe of a disk, as was reported.
    Recipe,
    /// No directory is sorted by that.
    Order,
    /// The directory has no such place.
    Place,
    /// No entry shows such a number of blocks.
    ShownBlocks,
    /// A disk's title has more than sixteen characters.
    Title,
    /// A disk's id hasn't two characters, nor five.
    Id,
    /// No disk has this many tracks.
    Tracks,
    /// No G64 has such a track.
    Track,
    /// No disk has a sector of this number or track.
    Sector,
    /// A G64 has 35 tracks.
    LongG64,
    /// No interleave is that.
    Interleave,
    /// No file of a recipe is laid there.
    Laying,
    /// No file is laid on the directory's track.
    DirectoryTrack,
    /// A C64 has no such character set.
    Charset,
    /// No image has such a format, or the name doesn't say it.
    Format,
    /// The image has that format already.
    SameFormat,
    /// The tracks of a disk or an archive of another kind aren't chosen.
    OtherTracks,
    /// The image has that many tracks already.
    SameTracks,
    /// A file that is written is the image itself.
    Itself,
    /// An image that is written is a file that the command reads.
    Input,
}

impl WordFault {
    /// The sentence before the word and after it.
    fn sentence(self) -> (&'static str, &'static str) {
        match self {
            WordFault::Name => (NO_KEY, ANY_BYTE),
            WordFault::LongName => ("a file's name has at most 16 characters: ", ""),
            WordFault::Divided => (DIVIDING, ""),
            WordFault::Inexact => (INEXACT, ""),
            WordFault::Slot => ("", " is no slot: take 0 to 143"),
            WordFault::NoFileName => ("give the file: its name, or --slot", ""),
            WordFault::TwoNames => (
                "give the old name and the new one, or --slot and the new one",
                "",
            ),
            WordFault::NoName => ("give the file's name with --name", ""),
            WordFault::OneName => ("--name is for one file", ""),
            WordFault::Twice => (
                "`-` can be used only once: for the image or for one file",
                "",
            ),
            WordFault::Type => ("", " is no type of a file: take prg, seq, usr or rel"),
            WordFault::PlainType => ("", PLAIN_TYPES),
            WordFault::NameAndType => (
                "give the file's name and its new type, or --slot and the type",
                "",
            ),
            WordFault::LineCommand => ("", NO_LINE),
            WordFault::LineWord => ("", " can't be said in a line of `run`"),
            WordFault::OpenQuote => ("unmatched quotation mark", ""),
            WordFault::Record => (RECORDS, ""),
            WordFault::RecordLength => ("records have 1 to 254 bytes, not ", ""),
            WordFault::Line => ("an entry of a recipe needs either `file` or `art`", ""),
            WordFault::Recipe => ("", " is no recipe of a disk: nothing is made"),
            WordFault::Order => { ("", " is not a sort order: use name, type or size") }
            WordFault::Place => ("", PLACES),
            WordFault::ShownBlocks => ("an entry shows 0 to 65535 blocks, not ", ""),
            WordFault::Title => ("a title has at most 16 characters: ", ""),
            WordFault::Id => ("an id has two characters, or five: ", ""),
            WordFault::Tracks => ("a disk has 35 or 40 tracks, not ", ""),
            WordFault::Charset => ("", " is no character set: take upper or lower"),
            WordFault::Sector => ("no disk has such a sector: ", SECTORS),
            WordFault::Track => ("", TRACKS),
            WordFault::Interleave => ("an interleave is 1 to 20, not ", ""),
            WordFault::DirectoryTrack => ("track 18 holds the directory: use another track", ""),
            WordFault::Laying => (LAYING, ""),
            WordFault::LongG64 => ("a G64 has 35 tracks here, not 40", ""),
            WordFault::OtherTracks => ("--tracks is for a D64 of 35 or 40 tracks, not for ", ""),
            WordFault::SameTracks => ("", " has that many tracks already"),
            WordFault::Itself => ("", " is the image itself: use another name"),
            WordFault::Input => ("", " is a file that the command reads: use another name"),
            WordFault::SameFormat => ("", " has that format already"),
            WordFault::Format => ("", FORMATS),
        }
    }

    /// Prints the sentence on standard error, with the word.
    pub fn tell(self, rt: &impl Eprint, word: &str) -> io::Result<()> {
        let (start, end) = self.sentence();
        eprintln!(rt; "disk1541: {start}{word}{end}")
    }
}
