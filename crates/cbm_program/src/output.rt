//! Writing what a script prints.
ghost use Rattle.std.specs.Prelude.{◌≡◌, ◌≤◌, length, IfErr};
ghost use Rattle.std.specs.Io.KnownBytes.{Keeps};
ghost use Rattle.cbm_program.specs.Output.{Writes};
ghost use Rattle.cbm_program.specs.Running.{IsOfWriting};

use crate::fault::RunFault;
use std::io::Write;

/// Writes these bytes. An interrupted write is a fault as any other, and so is one that takes no byte.
pub(crate) fn print<W: Write>(writer: &mut W, bytes: &[u8]) -> Result<(), RunFault>
    ensures { Writes result (W.contents writer.old) (W.contents writer.new) bytes.now }
{
    let mut rest = bytes;
    'writes: while !rest.is_empty() {
        match writer.write(rest) {
            Ok(0) | Err(_) => return Err(RunFault::Writing),
            Ok(count) => {
                let (_written, others) = rest.split_at(count);
                rest = others;
            }
        }
    }
    Ok(())
}

/// Flushes the writer.
pub(crate) fn flush<W: Write>(writer: &mut W) -> Result<(), RunFault>
    ensures bytes { Keeps (W.contents writer.old) (W.contents writer.new) }
    ensures fault { IfErr result IsOfWriting }
{
    writer.flush().map_err(|_| RunFault::Writing)
}
