use thiserror::Error;

/// Why an image isn't opened.
#[derive(Clone, Copy, Debug, PartialEq, Eq, Error)]
pub enum ImageFault {
    /// It has a fault of its format, the first of which has this number.
    #[error("image refused: {0}")]
    Format(u8),
    /// Memory ran out.
    #[error("no memory")]
    Memory,
}
