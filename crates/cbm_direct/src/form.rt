/// How a block's bytes are taken.
#[derive(Clone, Copy, Debug, PartialEq, Eq, Drop)]
pub enum Form {
    /// U1 and U2: all 256.
    Whole,
    /// B-R and B-W: byte 0 says which byte is the last.
    Counted,
}
