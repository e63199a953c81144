//! Names on a disk and names of the host's files.
ghost use Rattle.std.specs.Prelude.{◌≤◌, length, IfOk};

use crate::calls::read_name;
use crate::failure::{Failure, in_memory};
use crate::host::is_standard;
use crate::what::What;
use crate::word_fault::WordFault;
use cbm_shell::texts::Charset;
use std::alloc::{AllocError, Global};
use std::path::Path;

/// The most bytes of a name on a disk, and of its title.
const LONGEST: usize = 16;

/// How many codes an id has, and with those of the DOS.
const SHORT_ID: usize = 2;

const LONG_ID: usize = 5;

/// A name as PETSCII, as it is typed in a character set. Errors: `Word`, where a character of it is none that is typed;
/// `NoMemory`.
pub fn petscii(alloc: Global, charset: Charset, name: &str) -> Result<Vec<u8>, Failure> {
    match read_name(alloc, charset, name) {
        Ok(Some(codes)) => Ok(codes),
        Ok(None) => Err(Failure::named(alloc, What::Word(WordFault::Name), name)),
        Err(_) => Err(Failure::new(What::NoMemory)),
    }
}

/// The codes of a title. Errors: those of `petscii`; `Word`, for more than sixteen codes.
pub fn title_of(alloc: Global, charset: Charset, title: &str) -> Result<Vec<u8>, Failure>
    ensures { IfOk result (λ v. length v.items ≤ 16) }
{
    let codes = petscii(alloc, charset, title)?;
    if codes.len() > LONGEST {
        return Err(Failure::named(alloc, What::Word(WordFault::Title), title));
    }
    Ok(codes)
}

/// The codes of an id: two, or five with those of the DOS. Errors: those of `petscii`; `Word`, for any other count.
pub fn id_codes(alloc: Global, charset: Charset, id: &str) -> Result<Vec<u8>, Failure> {
    let codes = petscii(alloc, charset, id)?;
    if codes.len() == SHORT_ID || codes.len() == LONG_ID {
        return Ok(codes);
    }
    Err(Failure::named(alloc, What::Word(WordFault::Id), id))
}

/// Whether a code divides the words of the drive's commands.
fn divides(code: u8) -> bool {
    matches!(code, b',' | b'=' | b':' | b'"')
}

/// Whether one of the codes does.
fn is_divided(codes: &[u8]) -> bool {
    for code in codes {
        if divides(*code) {
            return true;
        }
    }
    false
}

/// Refuses codes that can't be the name of a file. Errors: `Word`, for more than sixteen of them, or one that divides the
/// words of a command.
pub fn require_name(alloc: Global, name: &str, codes: &[u8]) -> Result<(), Failure> {
    if codes.len() > LONGEST {
        return Err(Failure::named(alloc, What::Word(WordFault::LongName), name));
    }
    if is_divided(codes) {
        return Err(Failure::named(alloc, What::Word(WordFault::Divided), name));
    }
    Ok(())
}

/// The name of one file as PETSCII. Errors: those of `petscii` and of `require_name`.
pub fn file_name(alloc: Global, charset: Charset, name: &str) -> Result<Vec<u8>, Failure> {
    let codes = petscii(alloc, charset, name)?;
    require_name(alloc, name, codes.as_slice())?;
    Ok(codes)
}

/// Whether a byte is a digit of a number to the base 16, as GET-ALL writes it.
fn is_digit(byte: u8) -> bool {
    matches!(byte, b'0'..=b'9' | b'A'..=b'F')
}

/// The digits of a code that GET-ALL wrote as `%XX`, if one begins at this place.
fn code_at(bytes: &[u8], place: usize) -> Option<[u8; 2]> {
    match bytes.get(place..place.saturating_add(3)) {
        Some([b'%', high, low]) if is_digit(*high) && is_digit(*low) => Some([*high, *low]),
        _ => None,
    }
}

/// Adds a code as it is typed.
fn add_code(text: &mut Vec<u8>, digits: [u8; 2]) -> Result<(), AllocError> {
    let code = [b'{', digits[0], digits[1], b'}'];
    text.extend_from_slice(&code)
}

/// The name of a host's file as it is typed: a code that GET-ALL wrote as `%XX` is `{XX}`.
fn typed(alloc: Global, stem: &str) -> Result<Vec<u8>, AllocError> {
    let mut text = Vec::new(alloc);
    let mut passed: u8 = 0;
    for (place, byte) in stem.as_bytes().iter().enumerate() {
        if passed > 0 {
            passed = passed.saturating_sub(1);
            continue;
        }
        match code_at(stem.as_bytes(), place) {
            Some(digits) => {
                add_code(&mut text, digits)?;
                passed = 2;
            }
            None => text.push(*byte).map_err(AllocError::from)?,
        }
    }
    Ok(text)
}

/// The name that a file of the host gets on a disk: without its folder and its ending; `%XX` is the code that it is in names which GET-ALL
/// writes. Errors: `Word` for standard input, which has no name; those of `file_name`.
pub fn name_of_file(alloc: Global, charset: Charset, file: &str) -> Result<Vec<u8>, Failure> {
    if is_standard(file) {
        return Err(Failure::new(What::Word(WordFault::NoName)));
    }
    let stem = Path::new(file).file_stem().unwrap_or(file);
    let name = in_memory(typed(alloc, stem))?;
    file_name(
        alloc,
        charset,
        std::str::from_utf8(name.as_slice()).unwrap_or(stem),
    )
}
