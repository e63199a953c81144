ghost use Rattle.std.specs.Prelude.{◌≡◌, ◌≤◌, length};
ghost use Rattle.cbm_machine.specs.Codes.{code_number, code_text, code_of_refusal, code_of_fault, refusal_gives};
ghost use Rattle.cbm_machine.specs.Numbered.{code_with};

use cbm_command::Refusal;

/// The codes of a status (Commodore 1541 User's Guide; the texts of all but 00, 01 and 73 are this project's).
#[derive(Clone, Copy, Debug, PartialEq, Eq)]
pub enum Code {
    /// 00: no error.
    Fine,
    /// 01: files were scratched; the first number is their count.
    FilesScratched,
    /// 20: no header block of the sector, or no data block after it.
    NoHeader,
    /// 21: no sync mark.
    NoSync,
    /// 22: no data block.
    NoData,
    /// 23: a data block's checksum.
    DataChecksum,
    /// 24: bits in a data block that are no group code.
    DataCode,
    /// 25: a write that failed.
    WriteFailed,
    /// 26: a protected disk.
    WriteProtected,
    /// 27: a header's checksum.
    HeaderChecksum,
    /// 28: a data block that is too long.
    LongData,
    /// 29: a header block with another disk id.
    WrongId,
    /// 30: a byte or a piece of the text that isn't allowed there.
    Syntax,
    /// 31: no such command.
    UnknownCommand,
    /// 32: more than 58 bytes.
    LongText,
    /// 33: a pattern if a name is written.
    WildName,
    /// 34: no name.
    NoName,
    /// 50: the record isn't there.
    NoRecord,
    /// 51: more than the record holds.
    RecordOverflow,
    /// 52: more records than the disk holds.
    FileTooLarge,
    /// 60: the file is being written.
    WriteFileOpen,
    /// 61: the channel isn't open for that.
    FileNotOpen,
    /// 62: no such file.
    FileNotFound,
    /// 63: the name is taken.
    FileExists,
    /// 64: the file has another type.
    WrongType,
    /// 65: the block is taken; the numbers are the next one that is free.
    NoBlock,
    /// 66: a link to no sector of the disk.
    WrongLink,
    /// 70: no channel is free, or the one that is meant isn't open.
    NoChannel,
    /// 71: a chain that never ends.
    EndlessChain,
    /// 72: no block or no slot is left.
    DiskFull,
    /// 73: the drive was just switched on.
    PowerUp,
    /// 74: the text names another drive than 0.
    DriveNotReady,
}

impl Code {
    /// The number that the status line begins with, 0 to 74.
    pub fn number(self) -> u8
        ensures { result ≡ code_number self }
    {
        match self {
            Code::Fine => 0,
            Code::FilesScratched => 1,
            Code::NoHeader => 20,
            Code::NoSync => 21,
            Code::NoData => 22,
            Code::DataChecksum => 23,
            Code::DataCode => 24,
            Code::WriteFailed => 25,
            Code::WriteProtected => 26,
            Code::HeaderChecksum => 27,
            Code::LongData => 28,
            Code::WrongId => 29,
            Code::Syntax => 30,
            Code::UnknownCommand => 31,
            Code::LongText => 32,
            Code::WildName => 33,
            Code::NoName => 34,
            Code::NoRecord => 50,
            Code::RecordOverflow => 51,
            Code::FileTooLarge => 52,
            Code::WriteFileOpen => 60,
            Code::FileNotOpen => 61,
            Code::FileNotFound => 62,
            Code::FileExists => 63,
            Code::WrongType => 64,
            Code::NoBlock => 65,
            Code::WrongLink => 66,
            Code::NoChannel => 70,
            Code::EndlessChain => 71,
            Code::DiskFull => 72,
            Code::PowerUp => 73,
            Code::DriveNotReady => 74,
        }
    }

    /// The code of a sector's fault (20 to 29), of a link to no sector (66) or of an endless chain (71). Any other
    /// number becomes 25, since only a write that fails can have one.
    pub fn of_fault(number: u8) -> Code
        ensures { result ≡ code_of_fault number }
    {
        match number {
            20 => Code::NoHeader,
            21 => Code::NoSync,
            22 => Code::NoData,
            23 => Code::DataChecksum,
            24 => Code::DataCode,
            25 => Code::WriteFailed,
            26 => Code::WriteProtected,
            27 => Code::HeaderChecksum,
            28 => Code::LongData,
            29 => Code::WrongId,
            66 => Code::WrongLink,
            71 => Code::EndlessChain,
            _ => Code::WriteFailed,
        }
    }

    /// The code that has this number; None if no code has it.
    pub fn of_number(number: u8) -> Option<Code>
        ensures { result ≡ code_with number }
    {
        match number {
            0 => Some(Code::Fine),
            1 => Some(Code::FilesScratched),
            20 => Some(Code::NoHeader),
            21 => Some(Code::NoSync),
            22 => Some(Code::NoData),
            23 => Some(Code::DataChecksum),
            24 => Some(Code::DataCode),
            25 => Some(Code::WriteFailed),
            26 => Some(Code::WriteProtected),
            27 => Some(Code::HeaderChecksum),
            28 => Some(Code::LongData),
            29 => Some(Code::WrongId),
            30 => Some(Code::Syntax),
            31 => Some(Code::UnknownCommand),
            32 => Some(Code::LongText),
            33 => Some(Code::WildName),
            34 => Some(Code::NoName),
            50 => Some(Code::NoRecord),
            51 => Some(Code::RecordOverflow),
            52 => Some(Code::FileTooLarge),
            60 => Some(Code::WriteFileOpen),
            61 => Some(Code::FileNotOpen),
            62 => Some(Code::FileNotFound),
            63 => Some(Code::FileExists),
            64 => Some(Code::WrongType),
            65 => Some(Code::NoBlock),
            66 => Some(Code::WrongLink),
            70 => Some(Code::NoChannel),
            71 => Some(Code::EndlessChain),
            72 => Some(Code::DiskFull),
            73 => Some(Code::PowerUp),
            74 => Some(Code::DriveNotReady),
            _ => None,
        }
    }

    /// The text of the status line, at most 23 bytes.
    pub fn text(self) -> &'static [u8]
        ensures value { result.now ≡ code_text self }
        ensures short { length result.now ≤ 23 }
    {
        match self {
            Code::Fine => b" OK",
            Code::FilesScratched => b" FILES SCRATCHED",
            Code::NoHeader
            | Code::NoSync
            | Code::NoData
            | Code::DataChecksum
            | Code::DataCode
            | Code::HeaderChecksum => b"READ ERROR",
            Code::WriteFailed | Code::LongData => b"WRITE ERROR",
            Code::WriteProtected => b"WRITE PROTECT ON",
            Code::WrongId => b"DISK ID MISMATCH",
            Code::Syntax | Code::UnknownCommand | Code::LongText | Code::WildName | Code::NoName =>
                b"SYNTAX ERROR",
            Code::NoRecord => b"RECORD NOT PRESENT",
            Code::RecordOverflow => b"OVERFLOW IN RECORD",
            Code::FileTooLarge => b"FILE TOO LARGE",
            Code::WriteFileOpen => b"WRITE FILE OPEN",
            Code::FileNotOpen => b"FILE NOT OPEN",
            Code::FileNotFound => b"FILE NOT FOUND",
            Code::FileExists => b"FILE EXISTS",
            Code::WrongType => b"FILE TYPE MISMATCH",
            Code::NoBlock => b"NO BLOCK",
            Code::WrongLink => b"ILLEGAL TRACK OR SECTOR",
            Code::NoChannel => b"NO CHANNEL",
            Code::EndlessChain => b"DIR ERROR",
            Code::DiskFull => b"DISK FULL",
            Code::PowerUp => b"CBM DOS V2.6 1541",
            Code::DriveNotReady => b"DRIVE NOT READY",
        }
    }
}

impl From<Refusal> for Code {
    ghost from_gives = { refusal_gives };

    fn from(refusal: Refusal) -> Code {
        match refusal {
            Refusal::Syntax => Code::Syntax,
            Refusal::UnknownCommand => Code::UnknownCommand,
            Refusal::LongText => Code::LongText,
            Refusal::WildName => Code::WildName,
            Refusal::NoName => Code::NoName,
            Refusal::NoChannel => Code::NoChannel,
            Refusal::DriveNotReady => Code::DriveNotReady,
        }
    }
}
