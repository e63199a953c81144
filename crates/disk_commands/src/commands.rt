//! The commands.
use crate::word::Word;
use crate::words::changing::{
    ADD, ART_BLOCKS, ART_PLACE, ART_TEXT, BY, DROP, DRY_RUN, FILES, FORCE, FORCE_FAULT, FORMAT,
    FROM, GONE, ID, INTERLEAVE, JSON_CHANGES, JSON_ERRORS, LINES, LOSSY, LOSSY_DROP, MEANT,
    NAME_ON_DISK, NEW, NEW_ID, NEW_PLACE, NEW_TITLE, NEW_TRACKS, NEW_TYPE, OF_ALL, OLD, ORDERED,
    ORDERED_WITHIN, OUT, PLACED, RECIPE, RECORD, REPLACE_IMAGE, REPLACE_NAME, SECTOR_FROM, TITLE,
    TRACK_FROM, TRACKS, TRANSFERRED, TYPE, TYPE_AGAIN,
};
use crate::words::looking::{
    ALL, BASIC, BLOCKS, CHARSET, CIRCLE, CSV, CVT, CVT_ALL, DELETED, EXACT, FILES_FOLDER, FIRST,
    FOLDER, HEX, IMAGE, IMAGES, JSON, JSON_MAP, JSON_OBJECT, NAME, NAME_OR_SLOT, OF_TYPE, ONLY,
    OUTPUT, RAW, RECURSIVE, REPLACE_FILE, REPLACE_FILES, SALVAGE, SCREEN_CHARSET, SECOND, SECTOR,
    SLOT, SVG, TAKEN, TEXT, TRACK, WANTED, WITH_FILES,
};

/// What a command does.
#[derive(Clone, Copy)]
pub enum Verb {
    /// Shows the directory.
    List,
    /// Shows which images have a file.
    Find,
    /// Takes a file out.
    Get,
    /// Takes all files out.
    GetAll,
    /// Shows a file.
    Show,
    /// Shows what the disk is.
    Info,
    /// Shows a picture of its sectors.
    Map,
    /// Shows the bytes of a sector.
    Sector,
    /// Shows what stands on a track of a G64.
    Track,
    /// Shows whether it is sound.
    Check,
    /// Shows a sum of its bytes.
    Hash,
    /// Shows what differs between two images.
    Diff,
    /// Shows the recipe of a disk.
    Describe,
    /// Makes an image of an empty disk.
    New,
    /// Makes an image of the disk of a recipe.
    Build,
    /// Makes the image in the other format.
    Convert,
    /// Puts files on the disk.
    Put,
    /// Takes files of another disk or archive over.
    Transfer,
    /// Copies a file.
    Copy,
    /// Gives a file another name.
    Rename,
    /// Deletes files.
    Delete,
    /// Gives deleted files back.
    Undelete,
    /// Lays files on other blocks.
    Place,
    /// Locks files against DELETE.
    Lock,
    /// Frees them.
    Unlock,
    /// Gives the disk another title.
    Title,
    /// Adds a line of art to the directory.
    Art,
    /// Gives a file another place in the directory.
    Move,
    /// Sorts the directory.
    Sort,
    /// Gives lost blocks back.
    Validate,
    /// Shows the error bytes of a D64, adds them or drops them.
    Errors,
    /// Gives a file another type.
    Retype,
    /// Carries out several commands in one save.
    Run,
}

/// A command.
#[derive(Clone, Copy)]
pub struct Command {
    /// What it does.
    pub verb: Verb,
    /// Its name.
    pub name: &'static str,
    /// What help says of it.
    pub about: &'static str,
    /// The words that it takes.
    pub words: &'static [Word],
}

/// The commands that look at files, in the order of help. (One table of all that look at disks is more than the prover takes at once.)
const READING: &[Command] = &[
    Command {
        verb: Verb::List,
        name: "list",
        about: "Show the directory",
        words: &[
            IMAGES, RECURSIVE, ONLY, RAW, DELETED, BLOCKS, JSON, CSV, CHARSET,
        ],
    },
    Command {
        verb: Verb::Find,
        name: "find",
        about: "Show which images have a file",
        words: &[WANTED, IMAGES, RECURSIVE, JSON, CSV, CHARSET],
    },
    Command {
        verb: Verb::Get,
        name: "get",
        about: "Extract a file",
        words: &[
            IMAGE,
            NAME_OR_SLOT,
            OUTPUT,
            REPLACE_FILE,
            SALVAGE,
            CVT,
            SLOT,
            EXACT,
            CHARSET,
        ],
    },
    Command {
        verb: Verb::GetAll,
        name: "get-all",
        about: "Extract all files into a folder",
        words: &[
            IMAGE,
            FOLDER,
            TAKEN,
            OF_TYPE,
            REPLACE_FILES,
            SALVAGE,
            CVT_ALL,
            CHARSET,
        ],
    },
    Command {
        verb: Verb::Show,
        name: "show",
        about: "Show a file: a BASIC program, bytes, or text",
        words: &[
            IMAGE,
            NAME_OR_SLOT,
            BASIC,
            HEX,
            TEXT,
            JSON_OBJECT,
            SLOT,
            EXACT,
            SCREEN_CHARSET,
        ],
    },
];

/// The commands that look at disks, in the order of help.
const LOOKING: &[Command] = &[
    Command {
        verb: Verb::Info,
        name: "info",
        about: "Show information about disks",
        words: &[IMAGES, RECURSIVE, JSON, CSV, CHARSET],
    },
    Command {
        verb: Verb::Map,
        name: "map",
        about: "Show which sectors are free, used or lost",
        words: &[IMAGE, WITH_FILES, SVG, REPLACE_FILE, JSON_MAP, CHARSET],
    },
    Command {
        verb: Verb::Sector,
        name: "sector",
        about: "Show the bytes of a sector",
        words: &[IMAGE, TRACK, SECTOR, JSON_OBJECT],
    },
    Command {
        verb: Verb::Track,
        name: "track",
        about: "Show a G64's track: sync marks, headers, blocks, gaps",
        words: &[IMAGE, CIRCLE, JSON_OBJECT],
    },
    Command {
        verb: Verb::Check,
        name: "check",
        about: "Check whether disks are sound",
        words: &[IMAGES, RECURSIVE, ALL, JSON, CSV, CHARSET],
    },
    Command {
        verb: Verb::Hash,
        name: "hash",
        about: "Show a checksum of each image's sectors (SHA-256)",
        words: &[IMAGES, RECURSIVE, JSON, CSV],
    },
    Command {
        verb: Verb::Diff,
        name: "diff",
        about: "Show what differs between two images",
        words: &[FIRST, SECOND, JSON_OBJECT, CHARSET],
    },
    Command {
        verb: Verb::Describe,
        name: "describe",
        about: "Show the recipe of a disk, as build takes it",
        words: &[IMAGE, FILES_FOLDER, JSON_OBJECT, CHARSET],
    },
];

/// The commands that make disks and bring files to them, in the order of help.
const MAKING: &[Command] = &[
    Command {
        verb: Verb::New,
        name: "new",
        about: "Make an image of an empty disk",
        words: &[IMAGE, TITLE, ID, TRACKS, FORMAT, REPLACE_IMAGE, CHARSET],
    },
    Command {
        verb: Verb::Build,
        name: "build",
        about: "Make an image of the disk that a recipe describes",
        words: &[RECIPE, IMAGE, REPLACE_IMAGE, CHARSET],
    },
    Command {
        verb: Verb::Convert,
        name: "convert",
        about: "Convert a D64 to a G64, to other tracks, or back; other disks to either",
        words: &[IMAGE, OUT, FORMAT, NEW_TRACKS, LOSSY, REPLACE_IMAGE],
    },
    Command {
        verb: Verb::Put,
        name: "put",
        about: "Add files to the disk",
        words: &[
            IMAGE,
            FILES,
            NAME_ON_DISK,
            TYPE,
            RECORD,
            REPLACE_NAME,
            CHARSET,
        ],
    },
    Command {
        verb: Verb::Transfer,
        name: "transfer",
        about: "Copy files from another disk or archive",
        words: &[
            FROM,
            IMAGE,
            TRANSFERRED,
            REPLACE_NAME,
            DRY_RUN,
            JSON_CHANGES,
            CHARSET,
        ],
    },
];

/// The commands that change what is on disks, in the order of help.
const CHANGING: &[Command] = &[
    Command {
        verb: Verb::Copy,
        name: "copy",
        about: "Copy a file under a new name",
        words: &[IMAGE, OLD, NEW, SLOT, EXACT, CHARSET],
    },
    Command {
        verb: Verb::Rename,
        name: "rename",
        about: "Rename a file",
        words: &[IMAGE, OLD, NEW, SLOT, EXACT, CHARSET],
    },
    Command {
        verb: Verb::Delete,
        name: "delete",
        about: "Delete files",
        words: &[
            IMAGE,
            MEANT,
            OF_ALL,
            DRY_RUN,
            JSON_CHANGES,
            FORCE_FAULT,
            SLOT,
            EXACT,
            CHARSET,
        ],
    },
    Command {
        verb: Verb::Undelete,
        name: "undelete",
        about: "Restore deleted files",
        words: &[IMAGE, GONE, TYPE_AGAIN, CHARSET],
    },
    Command {
        verb: Verb::Lock,
        name: "lock",
        about: "Lock files, so that they can't be deleted",
        words: &[
            IMAGE,
            MEANT,
            OF_ALL,
            DRY_RUN,
            JSON_CHANGES,
            SLOT,
            EXACT,
            CHARSET,
        ],
    },
    Command {
        verb: Verb::Unlock,
        name: "unlock",
        about: "Unlock files",
        words: &[
            IMAGE,
            MEANT,
            OF_ALL,
            DRY_RUN,
            JSON_CHANGES,
            SLOT,
            EXACT,
            CHARSET,
        ],
    },
    Command {
        verb: Verb::Title,
        name: "title",
        about: "Change the disk's title, and its id",
        words: &[IMAGE, NEW_TITLE, NEW_ID, CHARSET],
    },
    Command {
        verb: Verb::Place,
        name: "place",
        about: "Move files to other blocks, for loaders that depend on their order",
        words: &[
            IMAGE,
            PLACED,
            INTERLEAVE,
            TRACK_FROM,
            SECTOR_FROM,
            DRY_RUN,
            JSON_CHANGES,
            CHARSET,
        ],
    },
    Command {
        verb: Verb::Retype,
        name: "retype",
        about: "Change a file's type",
        words: &[IMAGE, NAME_OR_SLOT, NEW_TYPE, SLOT, EXACT, CHARSET],
    },
];

/// The commands that change the directory or the disk as a whole, in the order of help.
const ARRANGING: &[Command] = &[
    Command {
        verb: Verb::Art,
        name: "art",
        about: "Add a line of art to the directory",
        words: &[
            IMAGE,
            ART_TEXT,
            ART_PLACE,
            ART_BLOCKS,
            DRY_RUN,
            JSON_CHANGES,
            CHARSET,
        ],
    },
    Command {
        verb: Verb::Move,
        name: "move",
        about: "Move a file to another place in the directory",
        words: &[
            IMAGE,
            NAME_OR_SLOT,
            NEW_PLACE,
            DRY_RUN,
            JSON_CHANGES,
            SLOT,
            EXACT,
            CHARSET,
        ],
    },
    Command {
        verb: Verb::Sort,
        name: "sort",
        about: "Sort the directory",
        words: &[IMAGE, BY],
    },
    Command {
        verb: Verb::Validate,
        name: "validate",
        about: "Validate: free unused blocks and remove unclosed files",
        words: &[ORDERED, ORDERED_WITHIN, DRY_RUN, FORCE, JSON],
    },
    Command {
        verb: Verb::Errors,
        name: "errors",
        about: "Show the error bytes of a D64, add them or drop them",
        words: &[IMAGE, ADD, DROP, LOSSY_DROP, JSON_ERRORS],
    },
    Command {
        verb: Verb::Run,
        name: "run",
        about: "Carry out several commands on an image, all or none",
        words: &[IMAGE, LINES, DRY_RUN, JSON_CHANGES],
    },
];

/// The commands that look at files, in the order of help.
pub fn reading_commands() -> &'static [Command] {
    READING
}

/// The commands that look at disks, in the order of help.
pub fn looking_commands() -> &'static [Command] {
    LOOKING
}

/// The commands that make disks and bring files to them, in the order of help.
pub fn making_commands() -> &'static [Command] {
    MAKING
}

/// The commands that change what is on disks, in the order of help.
pub fn changing_commands() -> &'static [Command] {
    CHANGING
}

/// The commands that change the directory or the disk as a whole, in the order of help.
pub fn arranging_commands() -> &'static [Command] {
    ARRANGING
}

/// The command of a name among these.
fn command_in(commands: &[Command], name: &str) -> Option<Command> {
    for command in commands {
        if command.name == name {
            return Some(*command);
        }
    }
    None
}

/// The command of a name, with its words; None where there is none.
pub fn command_of(name: &str) -> Option<Command> {
    if let Some(command) = command_in(reading_commands(), name) {
        return Some(command);
    }
    if let Some(command) = command_in(looking_commands(), name) {
        return Some(command);
    }
    if let Some(command) = command_in(making_commands(), name) {
        return Some(command);
    }
    match command_in(changing_commands(), name) {
        Some(command) => Some(command),
        None => command_in(arranging_commands(), name),
    }
}

/// The command of a name; None where there is none.
pub fn verb_of(name: &str) -> Option<Verb> {
    match command_of(name) {
        Some(command) => Some(command.verb),
        None => None,
    }
}
