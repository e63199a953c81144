//! What texts are made of: bytes, lines, words and numbers.

mod source;
mod words;

pub use source::Source;
pub(crate) use source::is_blank;
pub(crate) use words::number_upto;
pub use words::{number, split_word};
