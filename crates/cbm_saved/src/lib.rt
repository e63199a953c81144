//! Values as bytes, to be kept and read again: numbers, texts, and a seal by which bytes that are broken are known.
#![tactic(auto)]

mod laws;
mod number;
mod seal;
mod text;

pub use laws::what_is_saved_reads_back;
pub use number::{eight_at, put_eight, two_at};
pub use seal::{opened, sealed};
pub use text::{put_text, text_at};
