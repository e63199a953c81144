//! The codes of the drive's status that a disk's sectors answer (1541 User's Guide, "Error messages"; Immers and
//! Neufeld, Inside Commodore DOS): faults that reading meets, refusals of a write, and links that lead nowhere.

/// 20: no header of the sector is on the track, or no data block can stand after it.
pub const NO_HEADER: u8 = 20;

/// 21: no sync mark is on the track.
pub const NO_SYNC: u8 = 21;

/// 22: what stands after the header is no data block.
pub const NO_DATA_BLOCK: u8 = 22;

/// 23: the checksum of the data block is wrong.
pub const DATA_CHECKSUM: u8 = 23;

/// 24: a byte of the data block isn't group code.
pub const BYTE_DECODING: u8 = 24;

/// 25: a write failed.
pub const WRITE_ERROR: u8 = 25;

/// 26: the disk is protected.
pub const WRITE_PROTECT_ON: u8 = 26;

/// 27: the checksum of the header is wrong.
pub const HEADER_CHECKSUM: u8 = 27;

/// 29: the header has another disk's id.
pub const DISK_ID_MISMATCH: u8 = 29;

/// 66: a link names no sector of the disk.
pub const ILLEGAL_LINK: u8 = 66;

/// 71: a chain or the directory has more sectors than the disk.
pub const ENDLESS_CHAIN: u8 = 71;
