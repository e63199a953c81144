// A line of a file.

use std::alloc::{AllocError, Global};

/// A line of a file, with its number.
#[derive(Drop)]
pub struct Numbered {
    pub number: usize,
    pub text: String,
}

impl Numbered {
    /// A line of this number.
    pub fn new(alloc: Global, number: usize, text: &str) -> Result<Numbered, AllocError> {
        let text = String::from_str(alloc, text)?;
        Ok(Numbered { number, text })
    }
}
