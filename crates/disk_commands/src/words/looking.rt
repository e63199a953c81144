//! The words of commands that look at disks.
use crate::word::{FLAG, Mark, NEEDED, OPTION, Word};
use clap::ArgAction;

/// The image that a command is about.
pub const IMAGE: Word = Word {
    name: "IMAGE",
    help: "the disk image",
    ..NEEDED
};

/// The images that are looked at.
pub const IMAGES: Word = Word {
    name: "IMAGE",
    help: "the disk images; with --recursive also folders",
    action: ArgAction::Append,
    ..NEEDED
};

/// Images in folders.
pub const RECURSIVE: Word = Word {
    name: "recursive",
    help: "for a folder, all images in it and its folders: .d64, .g64; but for check also .d71, .d81, .t64, .lnx",
    mark: Mark::Short('r'),
    ..FLAG
};

/// The files that LIST shows.
pub const ONLY: Word = Word {
    name: "only",
    help: "file name or pattern (`?` one character, `*` the rest)",
    value: &["PATTERN"],
    default: &["*"],
    ..OPTION
};

/// The files that FIND looks for.
pub const WANTED: Word = Word {
    name: "PATTERN",
    help: "file name or pattern (`?` one character, `*` the rest)",
    ..NEEDED
};

/// The character set of names.
pub const CHARSET: Word = Word {
    name: "charset",
    help: "names as a C64 shows them: upper, as at power up, or lower",
    value: &["SET"],
    default: &["upper"],
    ..OPTION
};

/// LIST as the drive sends it.
pub const RAW: Word = Word {
    name: "raw",
    help: "print the bytes that the drive sends",
    excludes: &["json", "csv"],
    ..FLAG
};

/// What is looked at, for programs.
pub const JSON: Word = Word {
    name: "json",
    help: "print JSON for programs, a line for each image",
    ..FLAG
};

/// What a command shows of one or two images, for programs.
pub const JSON_OBJECT: Word = Word {
    help: "print JSON for programs",
    ..JSON
};

/// The sectors of MAP, for programs.
pub const JSON_MAP: Word = Word {
    excludes: &["svg"],
    ..JSON_OBJECT
};

/// The image that DIFF compares with another one.
pub const FIRST: Word = Word {
    name: "FIRST",
    help: "the first disk image",
    ..NEEDED
};

/// The other one.
pub const SECOND: Word = Word {
    name: "SECOND",
    help: "the second disk image",
    ..NEEDED
};

/// SHOW of a BASIC program.
pub const BASIC: Word = Word {
    name: "basic",
    help: "as a BASIC program; the default for a program that is loaded at $0801",
    excludes: &["hex", "text"],
    ..FLAG
};

/// SHOW of bytes.
pub const HEX: Word = Word {
    name: "hex",
    help: "as bytes in digits, and the characters that they are",
    excludes: &["basic", "text"],
    ..FLAG
};

/// SHOW of text.
pub const TEXT: Word = Word {
    name: "text",
    help: "as text",
    excludes: &["basic", "hex"],
    ..FLAG
};

/// The character set of SHOW.
pub const SCREEN_CHARSET: Word = Word {
    help: "names and the file as a C64 shows them: upper, as at power up, or lower",
    ..CHARSET
};

/// Every flaw of a disk.
pub const ALL: Word = Word {
    name: "all",
    help: "show every fault, the files that have it, and whether it can be repaired",
    excludes: &["csv"],
    ..FLAG
};

/// The file that GET takes out.
pub const NAME: Word = Word {
    name: "NAME",
    help: "file name or pattern (`?` one character, `*` the rest)",
    ..NEEDED
};

/// One file, which may be said by its slot instead.
pub const NAME_OR_SLOT: Word = Word {
    is_needed: false,
    ..NAME
};

/// The slot of a file.
pub const SLOT: Word = Word {
    name: "slot",
    help: "instead of a name: the file in this slot of the directory, from 0 on, as `list --json` shows it",
    value: &["N"],
    ..OPTION
};

/// An exact name.
pub const EXACT: Word = Word {
    name: "exact",
    help: "the name is exact: `*`, `?`, `,` and `\"` are characters of it",
    ..FLAG
};

/// Where GET writes it.
pub const OUTPUT: Word = Word {
    name: "output",
    help: "where the file goes, `-` for standard output",
    mark: Mark::Short('o'),
    value: &["FILE"],
    default: &["-"],
    ..OPTION
};

/// GET over a file that is there.
pub const REPLACE_FILE: Word = Word {
    name: "replace",
    help: "replace an existing file",
    ..FLAG
};

/// What can be read of damaged files.
pub const SALVAGE: Word = Word {
    name: "salvage",
    help: "extract the readable part, even of damaged and unclosed files",
    ..FLAG
};

/// GET of a file of GEOS.
pub const CVT: Word = Word {
    name: "cvt",
    help: "a file of GEOS as CVT, with its info block and its records",
    excludes: &["salvage"],
    ..FLAG
};

/// GET-ALL of files of GEOS.
pub const CVT_ALL: Word = Word {
    help: "files of GEOS as CVT, with their info blocks and their records",
    ..CVT
};

/// The track of a sector.
pub const TRACK: Word = Word {
    name: "TRACK",
    help: "its track, from 1 on",
    ..NEEDED
};

/// Its number on the track.
pub const SECTOR: Word = Word {
    name: "SECTOR",
    help: "its number on the track, from 0 on",
    ..NEEDED
};

/// Where GET-ALL writes the files.
pub const FOLDER: Word = Word {
    name: "DIR",
    help: "the folder, created if missing",
    ..NEEDED
};

/// The files that GET-ALL takes out.
pub const TAKEN: Word = Word {
    name: "PATTERN",
    help: "file names or patterns (`?` one character, `*` the rest); default: all files",
    action: ArgAction::Append,
    is_needed: false,
    ..NEEDED
};

/// The type of these files.
pub const OF_TYPE: Word = Word {
    name: "type",
    help: "only files of this type: prg, seq, usr, rel or del",
    value: &["TYPE"],
    ..OPTION
};

/// GET-ALL over files that are there.
pub const REPLACE_FILES: Word = Word {
    help: "replace existing files",
    ..REPLACE_FILE
};

/// The folder of the files that DESCRIBE names.
pub const FILES_FOLDER: Word = Word {
    name: "folder",
    help: "the folder of the files, where get-all puts them",
    value: &["DIR"],
    default: &[""],
    ..OPTION
};

/// What is looked at, as a table.
pub const CSV: Word = Word {
    name: "csv",
    help: "print a table (CSV) for programs, with a head line and a line for each file or image",
    ..FLAG
};

/// MAP with the files of the sectors.
pub const WITH_FILES: Word = Word {
    name: "files",
    help: "show a letter for each file, and which file it is",
    ..FLAG
};

/// MAP as a picture.
pub const SVG: Word = Word {
    name: "svg",
    help: "write a picture instead, as SVG, `-` for standard output",
    value: &["FILE"],
    ..OPTION
};

/// A track, or a half track.
pub const CIRCLE: Word = Word {
    name: "TRACK",
    help: "the track, or a half track as 17.5",
    ..NEEDED
};

/// LIST of where files lie.
pub const BLOCKS: Word = Word {
    name: "blocks",
    help: "show where each file's blocks lie, in order, as track/sector",
    excludes: &["json", "csv"],
    ..FLAG
};

/// LIST of the files that were deleted.
pub const DELETED: Word = Word {
    name: "deleted",
    help: "show deleted files: `undelete` restores one while its blocks are free",
    excludes: &["json", "csv"],
    ..FLAG
};
