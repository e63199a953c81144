//! Where the fields of a side sector stand (Immers and Neufeld, Inside Commodore DOS).

/// Its number among the side sectors of its file, from 0.
pub const NUMBER: usize = 2;

/// The length of the file's records, in bytes.
pub const RECORD_LENGTH: usize = 3;

/// The list of the file's side sectors, two bytes each; six of them.
pub const SIDES: usize = 4;

/// The list of the file's data blocks, two bytes each; 120 of them.
pub const BLOCKS: usize = 16;
