//! Bytes as digits to the base 16.
use std::alloc::{AllocError, Global};

/// The digits.
const DIGITS: &[u8; 16] = b"0123456789abcdef";

/// The digit of a number below 16.
fn digit(value: u8) -> char {
    char::from(DIGITS[usize::from(value % 16)])
}

/// Adds a byte.
fn add_byte(text: &mut String, byte: u8) -> Result<(), AllocError> {
    text.push(digit(byte / 16))?;
    text.push(digit(byte))
}

/// Bytes, two digits for each. The one error is want of memory.
pub fn hex(alloc: Global, bytes: &[u8]) -> Result<String, AllocError> {
    let mut text = String::new(alloc);
    for byte in bytes {
        add_byte(&mut text, *byte)?;
    }
    Ok(text)
}
