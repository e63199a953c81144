//! The words of commands that make and change disks.
use crate::word::{FLAG, NEEDED, OPTION, Word};
use crate::words::looking::{IMAGES, JSON, RECURSIVE, REPLACE_FILE};
use clap::ArgAction;

/// ERRORS that drops them.
pub const DROP: Word = Word {
    name: "drop",
    help: "save the image without its error bytes",
    excludes: &["add"],
    ..FLAG
};

/// ERRORS that adds them.
pub const ADD: Word = Word {
    name: "add",
    help: "save the image with error bytes, each 1 (no error)",
    excludes: &["drop"],
    ..FLAG
};

/// The error bytes, for programs.
pub const JSON_ERRORS: Word = Word {
    help: "print JSON for programs",
    excludes: &["add", "drop"],
    ..JSON
};

/// What a command changes, for programs.
pub const JSON_CHANGES: Word = Word {
    help: "print the changes as JSON for programs",
    ..JSON
};

/// The title of a new disk.
pub const TITLE: Word = Word {
    name: "title",
    help: "the disk's title, up to 16 characters",
    is_needed: true,
    value: &["T"],
    ..OPTION
};

/// Its id.
pub const ID: Word = Word {
    name: "id",
    help: "the disk's id: two characters, or five with those of the DOS after it, as `64 2A`",
    is_needed: true,
    value: &["XX"],
    ..OPTION
};

/// The id that TITLE gives.
pub const NEW_ID: Word = Word {
    help: "another id, too: two characters, or five with those of the DOS after it",
    is_needed: false,
    ..ID
};

/// How many tracks it has.
pub const TRACKS: Word = Word {
    name: "tracks",
    help: "35 or 40",
    value: &["N"],
    default: &["35"],
    ..OPTION
};

/// The format of a new image.
pub const FORMAT: Word = Word {
    name: "format",
    help: "d64 or g64; default: from the ending of the name",
    value: &["F"],
    ..OPTION
};

/// A new image over one that is there.
pub const REPLACE_IMAGE: Word = Word {
    help: "replace an existing image",
    ..REPLACE_FILE
};

/// The image that CONVERT makes.
pub const OUT: Word = Word {
    name: "OUT",
    help: "the new image",
    ..NEEDED
};

/// CONVERT with what is lost.
pub const LOSSY: Word = Word {
    name: "lossy",
    help: "convert even if something is lost",
    ..FLAG
};

/// ERRORS that drops those that tell of an error, too.
pub const LOSSY_DROP: Word = Word {
    help: "with --drop: even if some report an error",
    ..LOSSY
};

/// How many tracks CONVERT's D64 has.
pub const NEW_TRACKS: Word = Word {
    help: "35 or 40: the D64 of a D64 with other tracks",
    default: &[],
    ..TRACKS
};

/// The files that PUT reads.
pub const FILES: Word = Word {
    name: "FILE",
    help: "the files; all of them are put on the disk, or none",
    action: ArgAction::Append,
    ..NEEDED
};

/// The name of the one file on the disk.
pub const NAME_ON_DISK: Word = Word {
    name: "name",
    help: "the one file's name on the disk",
    value: &["NAME"],
    ..OPTION
};

/// The files' type.
pub const TYPE: Word = Word {
    name: "type",
    help: "prg, seq, usr or rel; default: from the ending of the file's name, or prg",
    value: &["TYPE"],
    ..OPTION
};

/// PUT over files of these names.
pub const REPLACE_NAME: Word = Word {
    help: "replace files of these names",
    ..REPLACE_FILE
};

/// A file's name.
pub const OLD: Word = Word {
    name: "OLD",
    help: "the file's name",
    ..NEEDED
};

/// Its new name.
pub const NEW: Word = Word {
    name: "NEW",
    help: "the new name; with --slot it is the one name",
    is_needed: false,
    ..NEEDED
};

/// The files that DELETE deletes, LOCK locks and UNLOCK frees.
pub const MEANT: Word = Word {
    name: "PATTERN",
    help: "file names or patterns (`?` one character, `*` the rest)",
    action: ArgAction::Append,
    is_needed: false,
    ..NEEDED
};

/// The files that PLACE moves.
pub const PLACED: Word = Word {
    help: "file names or patterns, in the order in which they are laid",
    is_needed: true,
    ..MEANT
};

/// How far apart PLACE lays blocks.
pub const INTERLEAVE: Word = Word {
    name: "interleave",
    help: "sectors from one block to the next, 1 to 20",
    value: &["N"],
    default: &["10"],
    ..OPTION
};

/// The track on which PLACE begins.
pub const TRACK_FROM: Word = Word {
    name: "track",
    help: "the first track; blocks are placed there and on later ones, except 18",
    value: &["T"],
    default: &["1"],
    ..OPTION
};

/// The sector at which PLACE begins.
pub const SECTOR_FROM: Word = Word {
    name: "sector",
    help: "the first sector of the first file",
    value: &["S"],
    default: &["0"],
    ..OPTION
};

/// The files of several images.
pub const OF_ALL: Word = Word {
    name: "only",
    help: "file name or pattern, of which there may be several; then each PATTERN is one more IMAGE",
    action: ArgAction::Append,
    value: &["PATTERN"],
    ..OPTION
};

/// The images that VALIDATE puts in order.
pub const ORDERED: Word = Word {
    help: "the disk images; with --recursive also folders",
    ..IMAGES
};

/// The images of folders that VALIDATE puts in order.
pub const ORDERED_WITHIN: Word = Word {
    help: "for a folder, all images in it and its folders: .d64, .g64",
    ..RECURSIVE
};

/// The type that RETYPE gives.
pub const NEW_TYPE: Word = Word {
    name: "TYPE",
    help: "prg, seq or usr; with --slot it is the one word",
    is_needed: false,
    ..NEEDED
};

/// The commands that RUN carries out.
pub const LINES: Word = Word {
    name: "FILE",
    help: "the commands, one a line, without the image; default: standard input",
    default: &["-"],
    is_needed: false,
    ..NEEDED
};

/// What TRANSFER takes files from.
pub const FROM: Word = Word {
    name: "FROM",
    help: "the disk or the archive that has the files: D64, G64, D71, D81, T64, Lynx",
    ..NEEDED
};

/// The files that TRANSFER takes.
pub const TRANSFERRED: Word = Word {
    help: "file names or patterns; default: all files",
    ..MEANT
};

/// The title that TITLE gives.
pub const NEW_TITLE: Word = Word {
    name: "TITLE",
    help: "the new title, up to 16 characters",
    ..NEEDED
};

/// VALIDATE or TRANSFER without a change.
pub const DRY_RUN: Word = Word {
    name: "dry-run",
    help: "show the changes without making them",
    ..FLAG
};

/// VALIDATE of what GEOS uses.
pub const FORCE: Word = Word {
    name: "force",
    help: "free blocks that GEOS uses, too",
    ..FLAG
};

/// The length of a relative file's records.
pub const RECORD: Word = Word {
    name: "record",
    help: "the length of a relative file's records, 1 to 254; a file .r00 has its own",
    value: &["N"],
    ..OPTION
};

/// The recipe that BUILD reads.
pub const RECIPE: Word = Word {
    name: "FILE",
    help: "the recipe, TOML; its files are named from its folder",
    ..NEEDED
};

/// What a line of art shows.
pub const ART_TEXT: Word = Word {
    name: "TEXT",
    help: "its text, up to 16 characters",
    takes_hyphens: true,
    ..NEEDED
};

/// The place of a line of art.
pub const ART_PLACE: Word = Word {
    name: "at",
    help: "its place among the files, from 1 on; default: the last",
    value: &["PLACE"],
    ..OPTION
};

/// How many blocks a line of art shows.
pub const ART_BLOCKS: Word = Word {
    name: "blocks",
    help: "the number of blocks that it shows",
    value: &["N"],
    default: &["0"],
    ..OPTION
};

/// Where MOVE moves a file.
pub const NEW_PLACE: Word = Word {
    name: "to",
    help: "its new place among the files, from 1 on",
    is_needed: true,
    value: &["PLACE"],
    ..OPTION
};

/// What SORT sorts by.
pub const BY: Word = Word {
    name: "by",
    help: "name, type or size",
    value: &["ORDER"],
    default: &["name"],
    ..OPTION
};

/// DELETE of files at fault.
pub const FORCE_FAULT: Word = Word {
    help: "on a disk that isn't sound, remove files at fault from the directory; then run `validate`",
    ..FORCE
};

/// The files that UNDELETE gives back.
pub const GONE: Word = Word {
    name: "NAME",
    help: "file names, each for the first deleted file of that name, or patterns, each for all that match",
    is_needed: true,
    ..MEANT
};

/// The type that UNDELETE gives files.
pub const TYPE_AGAIN: Word = Word {
    help: "prg, seq or usr: the type was lost when a file was deleted",
    default: &["prg"],
    ..TYPE
};
