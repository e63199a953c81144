//! What follows a BASIC program in its file.
ghost use Rattle.std.specs.Prelude.{◌≡◌, ◌≤◌, ◌<◌, [], false, true, length, IfSome, MatchOption};
ghost use Rattle.cbm_basic.specs.Lines.{after_basic, after_text, after_program};
ghost use Rattle.cbm_basic.specs.Links.{is_end};

use crate::links::is_end;

/// What follows the text of a line and its 0.
fn after_text(bytes: &[u8]) -> &[u8]
    ensures lines { after_basic result.now ≡ after_text bytes.now }
    ensures shorter { length result.now ≤ length bytes.now }
{
    let mut rest = bytes;
    'codes: while let Some((code, afterwards)) = rest.split_first() {
        if *code == 0 {
            return afterwards;
        }
        rest = afterwards;
    }
    rest
}

/// The text of a line, and what follows; None where the line breaks off before it.
#[tactic(auto, unfolding(crate::specs::Lines::after_basic, crate::specs::Lines::after_number))]
fn text_of(bytes: &[u8]) -> Option<&[u8]>
    ensures text { is_end bytes.now ≡ false → MatchOption result (after_basic bytes.now ≡ [])
        (λ text. after_basic bytes.now ≡ after_text text.now) }
    ensures shorter { IfSome result (λ text. length text.now < length bytes.now) }
{
    let (_, rest) = bytes.split_first()?;
    let (_, rest) = rest.split_first()?;
    let (_, rest) = rest.split_first()?;
    let (_, text) = rest.split_first()?;
    Some(text)
}

/// What follows the link that ends a program.
#[tactic(auto, unfolding(crate::specs::Lines::after_basic))]
fn after_link(bytes: &[u8]) -> &[u8]
    ensures { is_end bytes.now ≡ true → after_basic bytes.now ≡ result.now }
{
    match bytes {
        [_, _, rest @ ..] => rest,
        _ => bytes,
    }
}

/// What follows a BASIC program in its file, as machine code that it calls; nothing if the program is cut off.
pub fn after_program(program: &[u8]) -> &[u8]
    ensures { result.now ≡ after_program program.now }
{
    let mut rest = program.get(2..).unwrap_or(&[]);
    'lines: while !is_end(rest) {
        let Some(text) = text_of(rest) else {
            return &[];
        };
        rest = after_text(text);
    }
    after_link(rest)
}
