//! The name of a host's file for a name on a disk.
use cbm_shell::texts::{Charset, key_of};
use std::alloc::{AllocError, Global};

/// A digit of a number to the base 16.
fn digit(value: u8) -> char {
    match value % 16 {
        low @ 0..=9 => char::from(b'0' + low),
        high => char::from(b'A' + (high - 10)),
    }
}

/// The character of a host's name for a code, None where a host can't have it: a letter typed with SHIFT is a capital letter,
/// and a code that looks like another one is shown as that.
fn host_char(code: u8) -> Option<char> {
    match code {
        193..=218 => Some(char::from(code - 128)),
        b'/' | b'%' => None,
        32..=95 | 161..=191 => Some(key_of(Charset::Upper, code)),
        96..=127 => Some(key_of(Charset::Upper, code + 96)),
        _ => None,
    }
}

/// Adds a code as `%XX`.
fn add_escaped(text: &mut String, code: u8) -> Result<(), AllocError> {
    text.push('%')?;
    text.push(digit(code / 16))?;
    text.push(digit(code))
}

/// The name of a host's file for a name on a disk, without an ending: codes that a host can't have are `%XX`. The one
/// error is want of memory.
pub fn host_name(alloc: Global, name: &[u8]) -> Result<String, AllocError> {
    let mut text = String::new(alloc);
    for (place, code) in name.iter().enumerate() {
        match host_char(*code) {
            Some(shown) if place > 0 || shown != '.' => text.push(shown)?,
            _ => add_escaped(&mut text, *code)?,
        }
    }
    if name.is_empty() {
        text.push_str("%A0")?;
    }
    Ok(text)
}
