/// A sector that a command names, and the channel whose buffer it is for.
#[derive(Clone, Copy, Debug, PartialEq, Eq, Drop)]
pub struct Block {
    /// The channel.
    pub channel: u8,
    /// The drive's number, which is 0.
    pub drive: u8,
    /// The track.
    pub track: u8,
    /// The sector.
    pub sector: u8,
}

/// A sector that a command names without a channel.
#[derive(Clone, Copy, Debug, PartialEq, Eq, Drop)]
pub struct Sector {
    /// The drive's number, which is 0.
    pub drive: u8,
    /// The track.
    pub track: u8,
    /// The sector.
    pub sector: u8,
}

/// What a command of direct access asks for.
#[derive(Clone, Copy, Debug, PartialEq, Eq, Drop)]
pub enum Asked {
    /// U1 or UA: a channel's buffer gets a sector.
    Read(Block),
    /// B-R: the same, and byte 0 says which byte is the last.
    ReadCounted(Block),
    /// U2 or UB: a sector gets a channel's buffer.
    Write(Block),
    /// B-W: the same, and byte 0 says which byte was put last.
    WriteCounted(Block),
    /// B-A: a sector is claimed.
    Allocate(Sector),
    /// B-F: a sector is given back.
    Free(Sector),
    /// B-P: the next byte of a channel's buffer is the one of this place.
    Seek(u8, u8),
    /// M-R: this many bytes of the drive's memory from an address on, 1 to 255.
    Memory(u16, u8),
    /// UI, UJ, U9 or `U:`: the drive starts again.
    Restart,
    /// UI+ or UI-: nothing.
    Nothing,
    /// N or V while a channel has a buffer.
    Held,
    /// V on a disk of GEOS.
    Denied,
    /// The numbers of a command that can't be read.
    Unread,
}
