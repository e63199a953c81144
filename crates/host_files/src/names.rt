//! Names of files as text. A name is bytes: what is no text of it, and what would break a line, is written as `\xHH`.
use std::alloc::{AllocError, Global};

/// The digits to the base 16.
const DIGITS: &[u8; 16] = b"0123456789ABCDEF";

/// The value of a digit to the base 16.
fn value_of(digit: u8) -> Option<u8> {
    match digit {
        b'0'..=b'9' => Some(digit - b'0'),
        b'A'..=b'F' => Some(digit - b'A' + 10),
        b'a'..=b'f' => Some(digit - b'a' + 10),
        _ => None,
    }
}

/// The byte that a text begins with, where it is written as `\xHH`.
fn written_byte(text: &[u8]) -> Option<u8> {
    match text {
        [b'\\', b'x', high, low, ..] => Some(value_of(*high)? % 16 * 16 + value_of(*low)? % 16),
        _ => None,
    }
}

/// Adds a byte as `\xHH`.
fn add_byte(text: &mut String, byte: u8) -> Result<(), AllocError> {
    text.push_str("\\x")?;
    text.push(char::from(DIGITS[usize::from(byte / 16)]))?;
    text.push(char::from(DIGITS[usize::from(byte % 16)]))
}

/// Adds text as it is, but for bytes that would break a line, and for what looks like a byte that is written so.
fn add_valid(text: &mut String, part: &str) -> Result<(), AllocError> {
    for (place, shown) in part.char_indices() {
        let rest = part.as_bytes().get(place..).unwrap_or(&[]);
        match rest {
            [byte @ (0..=31 | 127), ..] => add_byte(text, *byte)?,
            [b'\\', ..] if written_byte(rest).is_some() => add_byte(text, b'\\')?,
            _ => text.push(shown)?,
        }
    }
    Ok(())
}

/// A name as text. Different names have different texts. The one error is want of memory.
pub fn text_of(alloc: Global, name: &[u8]) -> Result<String, AllocError> {
    let mut text = String::new(alloc);
    for chunk in name.utf8_chunks() {
        add_valid(&mut text, chunk.valid())?;
        for byte in chunk.invalid() {
            add_byte(&mut text, *byte)?;
        }
    }
    Ok(text)
}

/// The name of a text. The one error is want of memory.
pub fn name_of(alloc: Global, text: &str) -> Result<Vec<u8>, AllocError> {
    let mut name = Vec::new(alloc);
    let mut rest = text.as_bytes();
    for _ in 0..text.len() {
        let [first, others @ ..] = rest else {
            break;
        };
        match written_byte(rest) {
            Some(byte) => {
                name.push(byte)?;
                rest = rest.get(4..).unwrap_or(&[]);
            }
            None => {
                name.push(*first)?;
                rest = others;
            }
        }
    }
    Ok(name)
}
