//! What went wrong, in words, and the exit status.
use crate::break_off::BreakOff;
use crate::refusal::{image_fault_text, tell_foreign, tell_refusal, tell_unmendable, tell_unread};
use crate::strays::Unlinked;
use crate::word_fault::WordFault;
use cbm_shell::ShellFault;
use cbm_volume::{Trouble, Unsound};
use disk_facts::NotImage;
use std::io;

/// What went wrong. A name is that of the failure's image, file or word.
#[derive(Clone, Copy)]
pub enum What {
    /// A file of this computer can't be read.
    Read(io::ErrorKind),
    /// A file of this computer has more than this many bytes, and isn't read further.
    TooLong(u64),
    /// A file of this computer can't be written.
    Write(io::ErrorKind),
    /// A file of this many bytes is not an image of a 1541's disk, and why.
    Foreign(NotImage, usize),
    /// The disk, or the drive, refused it.
    Disk(ShellFault),
    /// A file can't be read to its end, and isn't taken out.
    Unread(Trouble),
    /// The disk isn't sound, as a check says.
    Unsound(Unsound),
    /// No file that isn't locked matches the pattern, so none was deleted.
    NoneDeleted,
    /// No file at fault matches the pattern, so none was taken out.
    NoneAtFault,
    /// The disk is sound, so no file of it is at fault.
    IsSound,
    /// No deleted file matches the pattern.
    NotDeleted,
    /// A deleted file can't be given back.
    Overwritten,
    /// The disk can't be put in order, for what is met first.
    Unmendable(Trouble),
    /// A word of the command line can't be used.
    Word(WordFault),
    /// The new image would lack what was reported.
    Lossy,
    /// A file of that name is there.
    Exists,
    /// An image was changed while a command had it, so that nothing is saved.
    Changed,
    /// Putting the disk in order would give back blocks of files that lie in GEOS's border block.
    Geos,
    /// An image's files are shown, and its title, its id and its free blocks can't be read.
    Untitled,
    /// An image's files are shown or taken out up to where its directory breaks off.
    Broken(BreakOff),
    /// An image's files are shown or taken out, and there are others to which no link of the directory leads.
    Unlinked(Unlinked),
    /// Putting the disk in order would give back blocks of files to whose entries no link of the directory leads.
    UnlinkedOrder,
    /// A change would take blocks of such files.
    UnlinkedChange,
    /// A disk has another DOS's map of tracks 36 to 40, which the change wouldn't follow.
    OtherMap,
    /// A G64 has no such track.
    NoTrack,
    /// A D64 has sectors, and no circles of bits.
    NoCircles,
    /// An image has no error bytes.
    NoErrorBytes,
    /// An image has error bytes already.
    HasErrorBytes,
    /// An image can't have error bytes.
    NoErrorRoom,
    /// A file isn't one of GEOS.
    NotGeos,
    /// A file of GEOS lies on a disk or in an archive of another kind, of which no CVT is made.
    GeosElsewhere,
    /// A relative file has no other type.
    RelativeType,
    /// No file has the name or the slot that was said.
    NoFile,
    /// A file is locked, and so isn't deleted or replaced.
    Locked,
    /// A file of a disk that is to be replaced is locked.
    LockedThere,
    /// The directory has 144 files, and no room for another.
    DirectoryFull,
    /// A file has the name that another one is to get.
    NameTaken,
    /// Two files of a recipe have one name.
    SameName,
    /// A file of GEOS isn't copied: its info and its records would be missing.
    GeosCopy,
    /// A file that GEOS keeps in records isn't taken out: its index alone would be.
    GeosRecords,
    /// A relative file isn't copied.
    Records,
    /// A relative file isn't laid elsewhere.
    RecordsPlace,
    /// A CVT ends before the blocks that it says it has.
    CutOff,
    /// A file has the name of a CVT's, and isn't replaced.
    GeosThere,
    /// Too few blocks are free for a file from the place on that was said.
    NoPlace,
    /// What went wrong was reported, and ends the program with this status.
    Ended(u8),
    /// No file of an image matches what is looked for.
    NoMatch,
    /// Of several images some aren't sound, or are none, as was reported one by one.
    Several,
    /// What went wrong was reported file by file.
    Told,
    /// Memory ran out.
    NoMemory,
}

/// Whether a name has bytes that are no text. Of those that are written as `\xHH` only these are beyond ASCII.
fn has_no_text(name: &str) -> bool {
    for part in name.as_bytes().windows(4) {
        if let [
            b'\\',
            b'x',
            b'8' | b'9' | b'A'..=b'F',
            b'0'..=b'9' | b'A'..=b'F',
        ] = part
        {
            return true;
        }
    }
    false
}

/// Why a file of this computer failed, where this program has words of its own for it.
fn host_text(name: &str, kind: io::ErrorKind) -> Option<&'static str> {
    match kind {
        io::ErrorKind::InvalidFilename if has_no_text(name) => {
            Some("the name isn't UTF-8: use another one, or `-`")
        }
        io::ErrorKind::NotFound => Some("no such file or folder"),
        io::ErrorKind::InvalidFilename => Some("the name is too long"),
        io::ErrorKind::FilesystemLoop => Some("symbolic links that form a loop"),
        io::ErrorKind::Uncategorized => Some("the system refused it"),
        _ => None,
    }
}

/// Prints which file of this computer failed.
fn tell_host(rt: &impl Eprint, call: &str, name: &str, kind: io::ErrorKind) -> io::Result<()> {
    match host_text(name, kind) {
        Some(why) => eprintln!(rt; "disk1541: can't {call} {name}: {why}"),
        None => eprintln!(rt; "disk1541: can't {call} {name}: {kind}"),
    }
}

impl What {
    ghost use Rattle.std.specs.Prelude.{◌≡◌};
    ghost use Rattle.disk_basics.specs.Exits.{exit_status};

    /// The exit status: 1 the disk or the drive said no, 2 the image is none, 3 this computer's files or memory are at fault,
    /// 4 of several images some are, 64 the command line is.
    pub fn status(self) -> u8
        ensures { result ≡ exit_status self }
    {
        match self {
            What::Foreign(..) | What::Disk(ShellFault::Image(_)) => 2,
            What::Disk(ShellFault::Memory) => 3,
            What::Read(..) | What::TooLong(..) | What::Write(..) | What::NoMemory => 3,
            What::Exists | What::Changed => 3,
            What::Several => 4,
            What::Word(_) => 64,
            What::Ended(status) => status,
            _ => 1,
        }
    }

    /// Why an image of this name can't be looked at, without the name.
    pub fn reason(self, name: &str) -> &'static str {
        match self {
            What::Read(io::ErrorKind::PermissionDenied) => "permission denied",
            What::Read(io::ErrorKind::IsADirectory) => "a folder",
            What::Read(kind) => host_text(name, kind).unwrap_or("it can't be read"),
            What::TooLong(..) => "it is larger than any image",
            What::Foreign(why, _) => why.words(),
            What::Disk(ShellFault::Image(number)) => image_fault_text(number),
            _ => "it can't be opened",
        }
    }

    /// Prints the sentence on standard error, with the name that it is about.
    pub fn tell(self, rt: &impl Eprint, name: &str) -> io::Result<()> {
        match self {
            What::Read(kind) => tell_host(rt, "read", name, kind),
            What::Write(kind) => tell_host(rt, "write", name, kind),
            What::TooLong(most) => {
                eprintln!(rt; "disk1541: {name} is too large: more than {most} bytes")
            }
            What::Foreign(why, size) => tell_foreign(rt, name, why.words(), size),
            What::Disk(fault) => tell_refusal(rt, name, fault),
            What::Unread(trouble) => tell_unread(rt, name, trouble),
            What::Word(fault) => fault.tell(rt, name),
            What::Unsound(_) | What::Several | What::Told => Ok(()),
            What::Ended(_) => Ok(()),
            What::Untitled => {
                eprintln!(rt;
                    "disk1541: {name}: track 18, sector 0 is unreadable, so title, id and free blocks are unknown"
                )
            }
            What::Broken(end) => eprintln!(rt; "disk1541: {name}: {end}"),
            What::Unlinked(unlinked) => eprintln!(rt; "disk1541: {name}: {unlinked}"),
            What::UnlinkedOrder => {
                eprintln!(rt;
                    "disk1541: {name} was not validated: sectors of track 18 look like directory, but no link reaches them, and the blocks of their files would be freed. `get-all --salvage` extracts the files; --force frees the blocks"
                )
            }
            What::UnlinkedChange => {
                eprintln!(rt;
                    "disk1541: {name}: not changed: sectors of track 18 look like directory, but no link reaches them, and blocks of their files would be overwritten. `get-all --salvage` extracts the files"
                )
            }
            What::OtherMap => {
                eprintln!(rt;
                    "disk1541: {name}: not changed, because it has Dolphin DOS's map of tracks 36 to 40, and the drive would write a second one. `describe` and `build` make a disk of its files with the drive's map"
                )
            }
            What::NoTrack => eprintln!(rt; "disk1541: {name} has no such track"),
            What::NoCircles => {
                eprintln!(rt; "disk1541: {name} is a D64, which has no track data: use `sector`")
            }
            What::NoErrorBytes => eprintln!(rt; "disk1541: {name} has no error bytes"),
            What::HasErrorBytes => { eprintln!(rt; "disk1541: {name} already has error bytes") }
            What::NoErrorRoom => {
                eprintln!(rt;
                    "disk1541: {name} can't have error bytes: only a D64 of 35 tracks can"
                )
            }
            What::NotGeos => {
                eprintln!(rt;
                    "disk1541: {name} is not a GEOS file, so it has no CVT form: omit --cvt"
                )
            }
            What::GeosElsewhere => {
                eprintln!(rt;
                    "disk1541: {name}: only files of a D64 or a G64 can be written as CVT"
                )
            }
            What::RelativeType => {
                eprintln!(rt;
                    "disk1541: {name} is a relative file, and its type can't change: only relative files have side sectors"
                )
            }
            What::NoFile => {
                eprintln!(rt; "disk1541: no file of the disk has the name or the slot {name}")
            }
            What::Locked => { eprintln!(rt; "disk1541: {name} is locked: `unlock` it first") }
            What::LockedThere => {
                eprintln!(rt; "disk1541: {name}: a file of that name is locked: `unlock` it first")
            }
            What::DirectoryFull => {
                eprintln!(rt; "disk1541: {name}: the directory is full: it has room for 144 files")
            }
            What::NameTaken => {
                eprintln!(rt;
                    "disk1541: {name}: a file of that name already exists: use another name, or `delete` it first"
                )
            }
            What::SameName => {
                eprintln!(rt; "disk1541: {name}: two files of the recipe have this name")
            }
            What::GeosCopy => {
                eprintln!(rt;
                    "disk1541: {name} is a GEOS file: a copy by the drive would lack its info block and its records"
                )
            }
            What::GeosRecords => {
                eprintln!(rt;
                    "disk1541: {name} is a GEOS file with records: `get --cvt` extracts it whole, --salvage only its index"
                )
            }
            What::Records => {
                eprintln!(rt;
                    "disk1541: {name} is a relative file, which the drive can't copy: use `get -o FILE.r00`, then `put --name`"
                )
            }
            What::RecordsPlace => {
                eprintln!(rt;
                    "disk1541: {name} is a relative file, and can't be moved: its side sectors name its blocks"
                )
            }
            What::CutOff => {
                eprintln!(rt; "disk1541: {name} is a truncated CVT, and was not added")
            }
            What::GeosThere => {
                eprintln!(rt;
                    "disk1541: {name}: a file of that name already exists: use --name, or `delete` it and `validate`"
                )
            }
            What::NoPlace => {
                eprintln!(rt;
                    "disk1541: {name}: too few free blocks from there to the last track: use a lower --track"
                )
            }
            What::NoMemory => eprintln!(rt; "disk1541: memory ran out"),
            What::NoMatch => eprintln!(rt; "disk1541: no file matches"),
            What::Changed => {
                eprintln!(rt;
                    "disk1541: {name}: another program changed it meanwhile, so nothing was saved"
                )
            }
            What::Geos => {
                eprintln!(rt;
                    "disk1541: {name} was not validated: GEOS's border block holds files, and their blocks would be freed. --force frees them"
                )
            }
            What::Exists => {
                eprintln!(rt; "disk1541: {name} already exists: use another name, or --replace")
            }
            What::Lossy => {
                eprintln!(rt; "disk1541: {name} was not written; --lossy writes it anyway")
            }
            What::NoneAtFault => {
                eprintln!(rt; "disk1541: nothing was deleted: no damaged file matches {name}")
            }
            What::IsSound => {
                eprintln!(rt;
                    "disk1541: {name} is sound: `disk1541 delete` without --force deletes its files"
                )
            }
            What::Unmendable(trouble) => tell_unmendable(rt, name, trouble),
            What::NotDeleted => eprintln!(rt; "disk1541: no deleted file matches {name}"),
            What::Overwritten => {
                eprintln!(rt;
                    "disk1541: {name} can't be restored: one of its blocks is in use again, or the disk has lost blocks. Nothing was restored"
                )
            }
            What::NoneDeleted => {
                eprintln!(rt; "disk1541: nothing was deleted: no unlocked file matches {name}")
            }
        }
    }
}
