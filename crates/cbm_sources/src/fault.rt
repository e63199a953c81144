use cbm_medium::Trouble;

/// Why a file of a source isn't read.
#[derive(Clone, Copy, Debug, PartialEq, Eq)]
pub enum Fault {
    /// There is no file of this number.
    NoFile,
    /// A disk's chain breaks off: the code of the drive's status, and the sector.
    Chain(Trouble),
    /// The archive ends before the bytes of the file do, which begin at this place.
    Cut(usize),
    /// The archive's directory can't be read from this place on.
    Text(usize),
    /// Memory ran out.
    Memory,
}
