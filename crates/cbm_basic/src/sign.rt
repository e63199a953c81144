//! What LIST shows, sign by sign.
ghost use Rattle.std.specs.Prelude.{◌≡◌, ◌∷◌, ◌++◌, [], OnOk, false};
ghost use Rattle.cbm_basic.specs.Signs.{characters, letters, signs_of, quoted_after};

use crate::words::row_of;
use std::alloc::AllocError;

/// What LIST shows next.
#[derive(Clone, Copy, Debug, PartialEq, Eq)]
pub enum Sign {
    /// The character of a PETSCII code.
    Character(u8),
    /// A code that is no word's, where the token of a word is due.
    NoWord(u8),
    /// The end of a line.
    LineEnd,
}

/// A quotation mark.
const QUOTE: u8 = b'"';

/// What fills up the rows of the table of words.
const SPACE: u8 = b' ';

/// The first code that is no character outside of quotation marks.
const FIRST_TOKEN: u8 = 128;

/// The token of π, and the code that its key types.
const PI_TOKEN: u8 = 255;

const PI_KEY: u8 = 222;

/// Adds a sign.
pub fn add(signs: &mut Vec<Sign>, sign: Sign) -> Result<(), AllocError>
    ensures { OnOk result (signs.new.items ≡ signs.old.items ++ sign ∷ []) }
{
    signs.push(sign).map_err(AllocError::from)
}

/// Adds the characters of codes.
pub fn add_characters(signs: &mut Vec<Sign>, codes: &[u8]) -> Result<(), AllocError>
    ensures { OnOk result (signs.new.items ≡ signs.old.items ++ characters codes.now) }
{
    let mut rest = codes;
    'codes: while let Some((code, afterwards)) = rest.split_first() {
        add(signs, Sign::Character(*code))?;
        rest = afterwards;
    }
    Ok(())
}

/// Adds the letters of a row up to its first space.
fn add_letters(signs: &mut Vec<Sign>, row: &[u8]) -> Result<(), AllocError>
    ensures { OnOk result (signs.new.items ≡ signs.old.items ++ letters row.now) }
{
    let mut rest = row;
    'letters: while let Some((letter, afterwards)) = rest.split_first() {
        if *letter == SPACE {
            return Ok(());
        }
        add(signs, Sign::Character(*letter))?;
        rest = afterwards;
    }
    Ok(())
}

/// Adds what is shown for a code outside of quotation marks.
fn add_token(signs: &mut Vec<Sign>, code: u8) -> Result<(), AllocError>
    ensures { OnOk result (signs.new.items ≡ signs.old.items ++ signs_of false code) }
{
    if code < FIRST_TOKEN {
        return add(signs, Sign::Character(code));
    }
    if code == PI_TOKEN {
        return add(signs, Sign::Character(PI_KEY));
    }
    match row_of(code) {
        Some(row) => add_letters(signs, &row),
        None => add(signs, Sign::NoWord(code)),
    }
}

/// Adds what is shown for a code.
pub fn add_code(signs: &mut Vec<Sign>, is_quoted: bool, code: u8) -> Result<(), AllocError>
    ensures { OnOk result (signs.new.items ≡ signs.old.items ++ signs_of is_quoted code) }
{
    if is_quoted {
        return add(signs, Sign::Character(code));
    }
    add_token(signs, code)
}

/// Whether what follows a code stands within quotation marks.
pub fn quoted_after(is_quoted: bool, code: u8) -> bool
    ensures { result ≡ quoted_after is_quoted code }
{
    if code == QUOTE { !is_quoted } else { is_quoted }
}
