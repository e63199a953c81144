//! The heads before a colon.

ghost use Rattle.std.specs.Prelude.{◌≡◌};
ghost use Rattle.cbm_command.specs.Refusals.{head_refusal, head_ends, drive_head};
ghost use Rattle.cbm_command.specs.Openings.{at_in_head};
ghost use Rattle.cbm_command.specs.Commands.{command_head};

use crate::refusal::Refusal;
use crate::text::is_letter;

/// What a byte answers that may not stand in a head.
fn head_refusal(byte: u8) -> Refusal
    ensures { result ≡ head_refusal byte }
{
    if b'1' <= byte && byte <= b'9' {
        Refusal::DriveNotReady
    } else {
        Refusal::Syntax
    }
}

fn head_ends(head: &[u8]) -> Result<(), Refusal>
    ensures { result ≡ head_ends head.now }
{
    match head.split_first() {
        None => Ok(()),
        Some((byte, _)) => Err(head_refusal(*byte)),
    }
}

/// No byte, or the drive's digit.
pub(crate) fn drive_head(head: &[u8]) -> Result<(), Refusal>
    ensures { result ≡ drive_head head.now }
{
    match head.split_first() {
        None => Ok(()),
        Some((byte, rest)) => {
            if *byte == b'0' {
                head_ends(rest)
            } else {
                Err(head_refusal(*byte))
            }
        }
    }
}

/// `@` and the drive's digit, each of which may be missing: whether `@` is there.
pub(crate) fn at_in_head(head: &[u8]) -> Result<bool, Refusal>
    ensures { result ≡ at_in_head head.now }
{
    match head.split_first() {
        None => Ok(false),
        Some((byte, rest)) => {
            if *byte == b'@' {
                drive_head(rest)?;
                Ok(true)
            } else {
                drive_head(head)?;
                Ok(false)
            }
        }
    }
}

/// Letters, and perhaps the drive's digit at the end.
pub(crate) fn command_head(head: &[u8]) -> Result<(), Refusal>
    ensures { result ≡ command_head head.now }
{
    let mut rest = head;
    while let Some((byte, more)) = rest.split_first() {
        if !is_letter(*byte) {
            return drive_head(rest);
        }
        rest = more;
    }
    Ok(())
}
