//! Checking a disk before a script runs on it.
ghost use Rattle.std.specs.Prelude.{◌≡◌, true, false};
ghost use Rattle.cbm_program.specs.Checking.{check_line, PrintsCheck};

use crate::fault::RunFault;
use crate::output::print;
use arrayvec::ArrayVec;
use cbm_medium::Medium;
use cbm_volume::{Unsound, Volume};
use itoa::Buffer;
use std::io::Write;

/// The line of what a check answers: at most 19 bytes.
fn check_line(answer: &Result<(), Unsound>) -> ArrayVec<u8, 32>
    ensures { result.items ≡ check_line answer.now }
{
    let mut line = ArrayVec::<u8, 32>::new();
    let unsound = match answer {
        Ok(()) => {
            line.try_extend_from_slice(b"check sound\n").unwrap();
            return line;
        }
        Err(unsound) => *unsound,
    };
    let mut buffer = Buffer::new();
    line.try_extend_from_slice(b"check ").unwrap();
    line.try_extend_from_slice(buffer.format(unsound.number).as_bytes())
        .unwrap();
    line.try_extend_from_slice(b" ").unwrap();
    line.try_extend_from_slice(buffer.format(unsound.track).as_bytes())
        .unwrap();
    line.try_extend_from_slice(b" ").unwrap();
    line.try_extend_from_slice(buffer.format(unsound.sector).as_bytes())
        .unwrap();
    line.try_extend_from_slice(b"\n").unwrap();
    line
}

/// Prints whether the disk is sound, or what is wrong with it and where.
fn print_line<M: Medium, W: Write>(volume: &Volume<M>, writer: &mut W) -> Result<(), RunFault>
    ensures { PrintsCheck result (M.seen volume.now) true (W.contents writer.old) (W.contents writer.new) }
{
    let answer = volume.check();
    print(writer, check_line(&answer).as_slice())
}

/// Prints the line of a check, if one is asked for.
pub(crate) fn print_check<M: Medium, W: Write>(
    volume: &Volume<M>,
    checks: bool,
    writer: &mut W,
) -> Result<(), RunFault>
    ensures check { PrintsCheck result (M.seen volume.now) checks (W.contents writer.old) (W.contents writer.new) }
    ensures none { checks ≡ false → writer.new ≡ writer.old }
{
    if checks {
        return print_line(volume, writer);
    }
    Ok(())
}
