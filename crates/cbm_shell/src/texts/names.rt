//! Names of files as text, as they are shown and typed.
ghost use Rattle.std.specs.Prelude.{◌≡◌, ◌≤◌, ◌<◌, ◌∷◌, ◌++◌, length, string_bytes, IfOk, IfSome, MatchOption, OnOk};
ghost use Rattle.std.specs.Char.{digit_char};
ghost use Rattle.std.specs.Str.{chars, encode_utf8_all};
ghost use Rattle.cbm_shell.specs.declared.texts.petscii.Charset.{Charset};
ghost use Rattle.cbm_shell.specs.Names.{numbered, shown_as, name_text, byte_of_digits, with_code, codes_of, number_in};

use crate::texts::petscii::{BY_NUMBER, Charset, code_of, key_of};
use std::alloc::{AllocError, Global};

/// The digit of a number below 16.
fn digit(value: u8) -> char
    requires { value < 16 }
    ensures { result ≡ digit_char value }
{
    if value < 10 {
        char::from(b'0' + value)
    } else {
        char::from(b'a' - 10 + value)
    }
}

/// Adds a code by its number: two digits to the base 16 between braces.
fn add_number(text: &mut String, code: u8) -> Result<(), AllocError>
    ensures { OnOk result (string_bytes text.new ≡ string_bytes text.old ++ encode_utf8_all (numbered code)) }
{
    text.push(BY_NUMBER)?;
    text.push(digit(code / 16))?;
    text.push(digit(code % 16))?;
    text.push('}')
}

/// Adds a code: the character of its key, or else its number.
pub(crate) fn add_code(text: &mut String, charset: Charset, code: u8) -> Result<(), AllocError>
    ensures { OnOk result (string_bytes text.new ≡ string_bytes text.old ++ shown_as charset code) }
{
    let key = key_of(charset, code);
    if key == BY_NUMBER {
        return add_number(text, code);
    }
    text.push(key)
}

/// A name as text, in a character set of a C64: each code as the character of its key, and as its number, as in `{c1}`, where
/// no key has a character of its own for it. The one error is want of memory.
pub fn name_text(alloc: Global, charset: Charset, name: &[u8]) -> Result<String, AllocError>
    ensures shown { IfOk result (λ text. string_bytes text ≡ name_text charset name.now) }
    // What is shown is read as the same bytes.
    ensures read_back { IfOk result (λ text. codes_of charset (chars (string_bytes text)) ≡ Some name.now) }
{
    let mut text = String::new(alloc);
    let mut rest = name;
    'codes: while let Some((code, afterwards)) = rest.split_first() {
        add_code(&mut text, charset, *code)?;
        rest = afterwards;
    }
    Ok(text)
}

/// The byte of two digits to the base 16; None where one is no digit.
fn byte_of(high: char, low: char) -> Option<u8>
    ensures { result ≡ byte_of_digits high low }
{
    let high = high.to_digit(16)?;
    let low = low.to_digit(16)?;
    Some((16 * high + low) as u8)
}

/// The code of a number, from after its brace on, and what follows it; None where the number isn't whole.
#[tactic(auto, unfolding(crate::specs::Names::number_in))]
fn number_in(text: &[char]) -> Option<(u8, &[char])>
    ensures read { (charset : Charset) → MatchOption result (number_in charset text.now ≡ None)
        (λ p. number_in charset text.now ≡ with_code (Some p.0) (codes_of charset p.1.now)) }
    ensures shorter { IfSome result (λ p. length p.1.now < length text.now) }
{
    let (high, rest) = text.split_first()?;
    let (low, rest) = rest.split_first()?;
    let (brace, rest) = rest.split_first()?;
    if *brace != '}' {
        return None;
    }
    Some((byte_of(*high, *low)?, rest))
}

/// The code that a text begins with, and what follows it; None where it begins with none.
fn next_code(charset: Charset, first: char, rest: &[char]) -> Option<(u8, &[char])>
    ensures read { MatchOption result (codes_of charset (first ∷ rest.now) ≡ None)
        (λ p. codes_of charset (first ∷ rest.now) ≡ with_code (Some p.0) (codes_of charset p.1.now)) }
    ensures shorter { IfSome result (λ p. length p.1.now ≤ length rest.now) }
{
    if first == BY_NUMBER {
        return number_in(rest);
    }
    Some((code_of(charset, first)?, rest))
}

/// The codes of characters; None where one is no key's, or a number isn't whole.
fn codes_in(alloc: Global, charset: Charset, text: &[char]) -> Result<Option<Vec<u8>>, AllocError>
    ensures { IfOk result (λ codes. MatchOption codes (codes_of charset text.now ≡ None)
        (λ v. codes_of charset text.now ≡ Some v.items)) }
{
    let mut codes = Vec::new(alloc);
    let mut rest = text;
    'codes: while let Some((first, afterwards)) = rest.split_first() {
        let Some((code, after)) = next_code(charset, *first, afterwards) else {
            return Ok(None);
        };
        codes.push(code).map_err(AllocError::from)?;
        rest = after;
    }
    Ok(Some(codes))
}

/// The characters of a text.
fn characters(alloc: Global, text: &str) -> Result<Vec<char>, AllocError>
    ensures { IfOk result (λ v. v.items ≡ chars text.now) }
{
    text.chars().collect(alloc)
}

/// The codes of a name that is typed in a character set of a C64, a number as in `{c1}` for any; None where a character is no
/// key's, or a number isn't whole. The one error is want of memory.
pub fn read_name(alloc: Global, charset: Charset, text: &str) -> Result<Option<Vec<u8>>, AllocError>
    ensures { IfOk result (λ codes. MatchOption codes (codes_of charset (chars text.now) ≡ None)
        (λ v. codes_of charset (chars text.now) ≡ Some v.items)) }
{
    let shown = characters(alloc, text)?;
    codes_in(alloc, charset, shown.as_slice())
}
