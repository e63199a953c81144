//! The lines of a script by their numbers, and what the first one says of it.
ghost use Rattle.std.specs.Prelude.{◌≡◌, ◌≤◌, true, length, IfOk};
ghost use Rattle.bus_traces.specs.Lines.{source_bytes_left};
ghost use Rattle.cbm_program.specs.Beginnings.{BytesRead, FirstRead, BeginsInRange};

use crate::fault::RunFault;
use crate::line::{ScriptLine, parse};
use arrayvec::ArrayVec;
use bus_traces::{LineFault, Source};
use std::io::Read;

/// The greatest number of lines.
const LINES: u32 = 1_000_000;

/// What a script is, by its first line.
#[derive(Debug, Drop)]
pub(crate) enum Beginning {
    /// Changes of lines follow.
    Changes,
    /// It is a script of requests, and this is its first line, if there is one.
    Requests(Option<ScriptLine>),
}

/// Reads the bytes of line `number`, and answers whether there is one.
pub(crate) fn next_line<R: Read>(
    lines: &mut Source<R>,
    bytes: &mut ArrayVec<u8, 1000>,
    number: u32,
) -> Result<bool, RunFault>
    ensures { BytesRead (source_bytes_left R.remaining lines.old) (source_bytes_left R.remaining lines.new) number bytes.new.items result }
{
    let found = match lines.next_line(bytes) {
        Ok(found) => found,
        Err(LineFault::Reading) => return Err(RunFault::Reading),
        Err(LineFault::Long) => return Err(RunFault::Script(number)),
    };
    if found && number > LINES {
        return Err(RunFault::Script(number));
    }
    Ok(found)
}

/// Reads the first line of a script.
pub(crate) fn read_first<R: Read>(lines: &mut Source<R>) -> Result<Beginning, RunFault>
    ensures read { FirstRead (source_bytes_left R.remaining lines.old) (source_bytes_left R.remaining lines.new) result }
    ensures channel { IfOk result BeginsInRange }
{
    let mut bytes = ArrayVec::new();
    if !next_line(lines, &mut bytes, 1)? {
        return Ok(Beginning::Requests(None));
    }
    if bytes.as_slice() == b"lines".as_slice() {
        return Ok(Beginning::Changes);
    }
    match parse(bytes.as_slice()) {
        Some(line) => Ok(Beginning::Requests(Some(line))),
        None => Err(RunFault::Script(1)),
    }
}
