use cbm_file::FileType;

/// What a line of the listing shows of a slot that isn't empty.
#[derive(Clone, Copy, Debug)]
pub struct Entry<'a> {
    /// The blocks that the directory entry counts.
    pub blocks: u16,
    /// At most 16 bytes, of which those before the first $A0 are shown.
    pub name: &'a [u8],
    /// None is shown as `???`.
    pub kind: Option<FileType>,
    pub closed: bool,
    pub locked: bool,
}
