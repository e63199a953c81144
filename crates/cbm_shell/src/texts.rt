//! Words for people: names, characters, and what a check answers.
pub(crate) mod checking;
pub(crate) mod names;
pub(crate) mod petscii;
pub(crate) mod readable;

pub use checking::{check_text, unsound_text, words};
pub use names::{name_text, read_name};
pub use petscii::{Charset, LOWER_TABLE, TABLE, code_of, key_of};
