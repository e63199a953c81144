//! Where the fields of a header block and of a data block stand (Immers and Neufeld, Inside Commodore DOS).

/// The first byte of a header block.
pub(crate) const HEADER_MARK: u8 = 8;

/// The first byte of a data block.
pub(crate) const DATA_MARK: u8 = 7;

/// In a header block: the checksum of the four bytes after it, which are the sector, the track and the disk's id, its
/// second byte first.
pub(crate) const CHECKSUM: usize = 1;

pub(crate) const SECTOR: usize = 2;

pub(crate) const TRACK: usize = 3;

pub(crate) const ID_SECOND: usize = 4;

pub(crate) const ID_FIRST: usize = 5;

/// In a data block: the first of the sector's 256 bytes, and the checksum after them.
pub(crate) const DATA: usize = 1;

pub(crate) const DATA_SUM: usize = 257;
