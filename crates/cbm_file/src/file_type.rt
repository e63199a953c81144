ghost use Rattle.std.specs.Prelude.{◌≡◌};
ghost use Rattle.cbm_file.specs.Types.{type_number, type_text, type_with};

/// The type of a file, as the low four bits of its directory entry's type byte give it
/// (Immers and Neufeld, Inside Commodore DOS).
#[derive(Clone, Copy, Debug, PartialEq, Eq)]
pub enum FileType {
    /// A deleted file, which may still be named.
    Del,
    /// Bytes in sequence.
    Seq,
    /// A program.
    Prg,
    /// A user's file, read as a sequential one.
    Usr,
    /// Records of one length.
    Rel,
}

impl FileType {
    /// The number in a directory entry, 0 to 4.
    pub fn number(self) -> u8
        ensures { result ≡ type_number self }
    {
        match self {
            FileType::Del => 0,
            FileType::Seq => 1,
            FileType::Prg => 2,
            FileType::Usr => 3,
            FileType::Rel => 4,
        }
    }

    /// The type of a number; None from 5 on.
    pub fn from_number(number: u8) -> Option<FileType>
        ensures { result ≡ type_with number }
    {
        match number {
            0 => Some(FileType::Del),
            1 => Some(FileType::Seq),
            2 => Some(FileType::Prg),
            3 => Some(FileType::Usr),
            4 => Some(FileType::Rel),
            _ => None,
        }
    }

    /// The three letters that a listing shows.
    pub fn text(self) -> &'static [u8; 3]
        ensures { result.now ≡ type_text self }
    {
        match self {
            FileType::Del => b"DEL",
            FileType::Seq => b"SEQ",
            FileType::Prg => b"PRG",
            FileType::Usr => b"USR",
            FileType::Rel => b"REL",
        }
    }
}
