//! A BASIC program as LIST shows it.
ghost use Rattle.std.specs.Prelude.{◌≡◌, ◌≤◌, ◌<◌, ◌∷◌, ◌++◌, [], length, false, IfOk, IfSome, MatchOption, OnOk};
ghost use Rattle.cbm_basic.specs.Lines.{listed_lines, listed_text, number_signs, basic_listing};

use crate::sign::{Sign, add, add_characters, add_code, quoted_after};
use itoa::Buffer;
use std::alloc::{AllocError, Global};

/// Adds the end of a line, and returns what follows it.
fn end_line<'a>(signs: &mut Vec<Sign>, afterwards: &'a [u8]) -> Result<&'a [u8], AllocError>
    ensures { IfOk result (λ rest. (signs.new.items ≡ signs.old.items ++ Sign.LineEnd ∷ []) × (rest.now ≡ afterwards.now)) }
{
    add(signs, Sign::LineEnd)?;
    Ok(afterwards)
}

/// Adds the text of a line and its end. Returns what follows its 0.
fn add_text<'a>(signs: &mut Vec<Sign>, bytes: &'a [u8]) -> Result<&'a [u8], AllocError>
    ensures text { IfOk result (λ rest.
        signs.new.items ++ listed_lines rest.now ≡ signs.old.items ++ listed_text false bytes.now) }
    ensures shorter { IfOk result (λ rest. length rest.now ≤ length bytes.now) }
{
    let mut rest = bytes;
    let mut is_quoted = false;
    'codes: while let Some((code, afterwards)) = rest.split_first() {
        if *code == 0 {
            return end_line(signs, afterwards);
        }
        add_code(signs, is_quoted, *code)?;
        is_quoted = quoted_after(is_quoted, *code);
        rest = afterwards;
    }
    end_line(signs, rest)
}

/// The number of the next line, and its text with what follows; None where the program ends.
#[tactic(auto, unfolding(crate::specs::Lines::listed_lines))]
fn next_line(bytes: &[u8]) -> Option<(u16, &[u8])>
    ensures line { MatchOption result (listed_lines bytes.now ≡ [])
        (λ p. listed_lines bytes.now ≡ number_signs p.0 ++ listed_text false p.1.now) }
    ensures shorter { IfSome result (λ p. length p.1.now < length bytes.now) }
{
    let (_, rest) = bytes.split_first()?;
    let (second, rest) = rest.split_first()?;
    let (low, rest) = rest.split_first()?;
    let (high, rest) = rest.split_first()?;
    if *second == 0 {
        return None;
    }
    Some((*low as u16 + 256 * *high as u16, rest))
}

/// Adds the number of a line, and a space.
fn add_number(signs: &mut Vec<Sign>, number: u16) -> Result<(), AllocError>
    ensures { OnOk result (signs.new.items ≡ signs.old.items ++ number_signs number) }
{
    let mut buffer = Buffer::new();
    add_characters(signs, buffer.format(number).as_bytes())?;
    add(signs, Sign::Character(b' '))
}

/// A BASIC program as LIST shows it, its load address left out: of each line the number, a space, the text. Links are read only for the
/// program's end, since a C64 mends them as it loads. A program that is cut off ends with its bytes. The one error is want of memory.
pub fn listing(alloc: Global, program: &[u8]) -> Result<Vec<Sign>, AllocError>
    ensures { IfOk result (λ v. v.items ≡ basic_listing program.now) }
{
    let mut signs = Vec::new(alloc);
    let mut rest = program.get(2..).unwrap_or(&[]);
    'lines: while let Some((number, afterwards)) = next_line(rest) {
        add_number(&mut signs, number)?;
        rest = add_text(&mut signs, afterwards)?;
    }
    Ok(signs)
}
