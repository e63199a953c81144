//! A directory as the drive sends it, made readable.
ghost use Rattle.std.specs.Prelude.{◌≡◌, ◌≤◌, ◌<◌, ◌++◌, [], length, codes, decimal, string_bytes, IfOk, IfSome, MatchOption, OnOk};
ghost use Rattle.cbm_shell.specs.Readable.{opened_as, ends, readable_lines, opening, text, readable};

use crate::texts::names::add_code;
use crate::texts::petscii::Charset;
use itoa::Buffer;
use std::alloc::{AllocError, Global};

/// The code that makes a C64 show the title in reverse; where it begins a line it isn't shown.
const REVERSE: u8 = 0x12;

/// How many codes of a line's text are sure to come after its first: no line of a directory has fewer.
const SURE: u8 = 24;

/// Adds the first code of a line's text.
fn open_line(out: &mut String, charset: Charset, code: u8) -> Result<(), AllocError>
    ensures { OnOk result (string_bytes out.new ≡ string_bytes out.old ++ opened_as charset code) }
{
    if code == REVERSE {
        return Ok(());
    }
    add_code(out, charset, code)
}

/// Whether a code ends a line's text of which this many codes are still sure to come.
fn ends(left: u8, code: u8) -> bool
    ensures { result ≡ ends left code }
{
    left == 0 && code == 0
}

/// Adds a new line, and returns what follows the line.
fn end_line<'a>(out: &mut String, afterwards: &'a [u8]) -> Result<&'a [u8], AllocError>
    ensures { IfOk result (λ rest. (string_bytes out.new ≡ string_bytes out.old ++ codes "\n") × (rest.now ≡ afterwards.now)) }
{
    out.push_str("\n")?;
    Ok(afterwards)
}

/// Adds the text of a line from after its first code up to its 0, and a new line. Returns what follows the 0.
fn add_text<'a>(out: &mut String, charset: Charset, bytes: &'a [u8]) -> Result<&'a [u8], AllocError>
    ensures text { IfOk result (λ rest.
        string_bytes out.new ++ readable_lines charset rest.now ≡ string_bytes out.old ++ text charset 24 bytes.now) }
    ensures shorter { IfOk result (λ rest. length rest.now ≤ length bytes.now) }
{
    let mut rest = bytes;
    let mut left = SURE;
    'codes: while let Some((code, afterwards)) = rest.split_first() {
        if ends(left, *code) {
            return end_line(out, afterwards);
        }
        add_code(out, charset, *code)?;
        left = left.saturating_sub(1);
        rest = afterwards;
    }
    end_line(out, rest)
}

/// Adds the text of a line, and a new line. Returns what follows its 0.
fn add_line<'a>(out: &mut String, charset: Charset, bytes: &'a [u8]) -> Result<&'a [u8], AllocError>
    ensures text { IfOk result (λ rest.
        string_bytes out.new ++ readable_lines charset rest.now ≡ string_bytes out.old ++ opening charset bytes.now) }
    ensures shorter { IfOk result (λ rest. length rest.now ≤ length bytes.now) }
{
    let Some((code, afterwards)) = bytes.split_first() else {
        return end_line(out, bytes);
    };
    open_line(out, charset, *code)?;
    add_text(out, charset, afterwards)
}

/// The number of the next line, and what follows it; None where the lines end.
#[tactic(auto, unfolding(crate::specs::Readable::readable_lines))]
fn next_line(charset: Charset, bytes: &[u8]) -> Option<(u16, &[u8])>
    ensures line { MatchOption result (readable_lines charset bytes.now ≡ [])
        (λ p. readable_lines charset bytes.now ≡ decimal p.0 ++ codes " " ++ opening charset p.1.now) }
    ensures shorter { IfSome result (λ p. length p.1.now < length bytes.now) }
{
    let (_, rest) = bytes.split_first()?;
    let (second, rest) = rest.split_first()?;
    let (low, rest) = rest.split_first()?;
    let (high, rest) = rest.split_first()?;
    if *second == 0 {
        return None;
    }
    Some((*low as u16 + 256 * *high as u16, rest))
}

/// Adds the number of a line, and a space.
fn add_number(out: &mut String, number: u16) -> Result<(), AllocError>
    ensures { OnOk result (string_bytes out.new ≡ string_bytes out.old ++ decimal number ++ codes " ") }
{
    let mut buffer = Buffer::new();
    out.push_str(buffer.format(number))?;
    out.push_str(" ")
}

/// A directory as the drive sends it, a BASIC program, as lines of UTF-8: each has the number, a space, the text in a
/// character set of a C64, and a new line. The one error is want of memory.
pub fn readable_listing(
    alloc: Global,
    charset: Charset,
    bytes: &[u8],
) -> Result<Vec<u8>, AllocError>
    ensures { IfOk result (λ v. v.items ≡ readable charset bytes.now) }
{
    let mut out = String::new(alloc);
    let mut rest = bytes.get(2..).unwrap_or(&[]);
    'lines: while let Some((number, afterwards)) = next_line(charset, rest) {
        add_number(&mut out, number)?;
        rest = add_line(&mut out, charset, afterwards)?;
    }
    Ok(out.into_bytes())
}
