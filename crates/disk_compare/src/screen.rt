//! A file as it is shown on the screen.
use cbm_basic::{Sign, is_program, listing};
use cbm_shell::texts::{Charset, key_of};
use disk_basics::calls::name_text;
use disk_facts::hex;
use std::alloc::{AllocError, Global};

/// How a file is shown.
#[derive(Clone, Copy, PartialEq, Eq)]
pub enum Form {
    /// As a BASIC program, if it is one, else as bytes.
    Either,
    /// As a BASIC program.
    Basic,
    /// As bytes in digits, and the characters that they are.
    Hex,
    /// As text.
    Text,
}

/// How many bytes stand in a line.
const WIDTH: usize = 16;

/// The code that ends a line of text.
const RETURN: u8 = 13;

/// A place in a file, in digits.
fn place_text(alloc: Global, place: usize) -> Result<String, AllocError> {
    format!(in alloc; "{place:04x}")
}

/// Adds bytes in digits, and spaces up to the width of a line.
fn add_digits(alloc: Global, text: &mut String, bytes: &[u8]) -> Result<(), AllocError> {
    for byte in bytes {
        text.push_str(hex(alloc, &[*byte])?.as_str())?;
        text.push(' ')?;
    }
    for _ in bytes.len()..WIDTH {
        text.push_str("   ")?;
    }
    Ok(())
}

/// Adds a line of bytes: the place of the first, the bytes, the characters that they are. A point stands for one that no key types.
fn add_bytes(
    alloc: Global,
    text: &mut String,
    charset: Charset,
    place: usize,
    bytes: &[u8],
) -> Result<(), AllocError> {
    text.push_str(place_text(alloc, place)?.as_str())?;
    text.push_str("  ")?;
    add_digits(alloc, text, bytes)?;
    text.push(' ')?;
    for code in bytes {
        match key_of(charset, *code) {
            '{' => text.push('.')?,
            key => text.push(key)?,
        }
    }
    text.push('\n')
}

/// A file as bytes.
fn hex_lines(alloc: Global, charset: Charset, file: &[u8]) -> Result<String, AllocError> {
    let mut text = String::new(alloc);
    let mut place: usize = 0;
    for bytes in file.chunks(WIDTH) {
        add_bytes(alloc, &mut text, charset, place, bytes)?;
        place = place.saturating_add(WIDTH);
    }
    Ok(text)
}

/// Adds codes as a name shows them, and forgets them.
fn add_codes(
    alloc: Global,
    text: &mut String,
    charset: Charset,
    codes: &mut Vec<u8>,
) -> Result<(), AllocError> {
    text.push_str(name_text(alloc, charset, codes.as_slice())?.as_str())?;
    codes.clear();
    Ok(())
}

/// Adds codes as a name shows them, and the end of their line.
fn end_line(
    alloc: Global,
    text: &mut String,
    charset: Charset,
    codes: &mut Vec<u8>,
) -> Result<(), AllocError> {
    add_codes(alloc, text, charset, codes)?;
    text.push('\n')
}

/// A file as text: 13 ends a line, and each other code is shown as in a name.
fn text_lines(alloc: Global, charset: Charset, file: &[u8]) -> Result<String, AllocError> {
    let mut text = String::new(alloc);
    let mut codes = Vec::new(alloc);
    for code in file {
        if *code == RETURN {
            end_line(alloc, &mut text, charset, &mut codes)?;
        } else {
            codes.push(*code).map_err(AllocError::from)?;
        }
    }
    if !codes.is_empty() {
        end_line(alloc, &mut text, charset, &mut codes)?;
    }
    Ok(text)
}

/// Adds a code by its number, as a name shows one that no key types.
fn add_number(alloc: Global, text: &mut String, code: u8) -> Result<(), AllocError> {
    text.push('{')?;
    text.push_str(hex(alloc, &[code])?.as_str())?;
    text.push('}')
}

/// Adds a sign of a listing; characters are kept until the next one that is none.
fn add_sign(
    alloc: Global,
    text: &mut String,
    charset: Charset,
    codes: &mut Vec<u8>,
    sign: Sign,
) -> Result<(), AllocError> {
    match sign {
        Sign::Character(code) => codes.push(code).map_err(AllocError::from),
        Sign::NoWord(code) => {
            add_codes(alloc, text, charset, codes)?;
            add_number(alloc, text, code)
        }
        Sign::LineEnd => end_line(alloc, text, charset, codes),
    }
}

/// A file as a BASIC program.
fn basic_lines(alloc: Global, charset: Charset, file: &[u8]) -> Result<String, AllocError> {
    let signs = listing(alloc, file)?;
    let mut text = String::new(alloc);
    let mut codes = Vec::new(alloc);
    for sign in signs.as_slice() {
        add_sign(alloc, &mut text, charset, &mut codes, *sign)?;
    }
    add_codes(alloc, &mut text, charset, &mut codes)?;
    Ok(text)
}

/// Whether a file is listed as a BASIC program.
pub fn is_listed(form: Form, file: &[u8]) -> bool {
    match form {
        Form::Basic => true,
        Form::Either => is_program(file),
        Form::Hex | Form::Text => false,
    }
}

/// A file as it is shown. The one error is want of memory.
pub fn screen_of(
    alloc: Global,
    charset: Charset,
    form: Form,
    file: &[u8],
) -> Result<String, AllocError> {
    if is_listed(form, file) {
        return basic_lines(alloc, charset, file);
    }
    if form == Form::Text {
        text_lines(alloc, charset, file)
    } else {
        hex_lines(alloc, charset, file)
    }
}
