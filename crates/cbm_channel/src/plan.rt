use crate::finding::Found;
use cbm_command::Name;
use cbm_file::FileType;

/// What an OPEN will do.
#[derive(Drop)]
pub enum Plan {
    /// The listing of the files that match a pattern is read.
    ReadListing(Name),
    /// A file is read.
    ReadFile(Found),
    /// A new file of this type and name is written.
    WriteFile(FileType, Name),
    /// Bytes are put after those of a file.
    AppendFile(Found),
    /// The file in the slot of this number is replaced.
    ReplaceFile(u8),
    /// The records of a file are opened.
    OpenRecords(Found),
    /// A new relative file is made, of this name and with records of this length.
    MakeRecords(Name, u8),
}
