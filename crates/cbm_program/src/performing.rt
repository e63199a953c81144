//! Carrying out the requests of a script, over the wires.
ghost use Rattle.std.specs.Prelude.{◌<◌, ◌^◌};
ghost use Rattle.cbm_program.specs.Performing.{GoesOnHosting, HasPrinted};
ghost use Rattle.cbm_program.specs.Scripts.{printed, printed_by};
ghost use Rattle.cbm_program.specs.Running.{IsInRange, LineIsInRange, requests_in};

use crate::fault::RunFault;
use crate::line::ScriptLine;
use crate::output::flush;
use crate::request::ScriptRequest;
use cbm_drive::Watches;
use cbm_host::{Hosted, Request};
use cbm_medium::Steady;
use std::io::Write;

pub(crate) mod getting;
pub(crate) mod status;

use getting::print_get;
use status::print_status;

/// Carries out a request, prints what it prints, and tells each event on the bus.
fn perform<M: Steady, W: Write, T: Watches>(
    drive: &mut Hosted<M>,
    writer: &mut W,
    watcher: &mut T,
    request: &ScriptRequest,
) -> Result<(), RunFault>
    requires request { IsInRange request.now }
    requires moment { drive.old.moment < 2 ^ 58 }
    ensures printed { HasPrinted M.seen result (W.contents writer.old) (W.contents writer.new) drive.old drive.new
        (printed_by drive.old.pace request.now) }
    ensures drive { GoesOnHosting M.seen drive.old drive.new }
{
    match request {
        ScriptRequest::Open(channel, text) => {
            drive.carry_out(Request::Open(*channel, text.as_slice()), watcher);
            Ok(())
        }
        ScriptRequest::Put(channel, bytes) => {
            drive.carry_out(Request::Put(*channel, bytes.as_slice()), watcher);
            Ok(())
        }
        ScriptRequest::Fill(channel, count, byte) => {
            drive.carry_out(Request::Fill(*channel, *count, *byte), watcher);
            Ok(())
        }
        ScriptRequest::Get(channel, most) => print_get(drive, writer, watcher, *channel, *most),
        ScriptRequest::Close(channel) => {
            drive.carry_out(Request::Close(*channel), watcher);
            Ok(())
        }
        ScriptRequest::Status => print_status(drive, writer, watcher),
    }
}

/// Carries out a line, and sends on what it prints.
pub(crate) fn perform_line<M: Steady, W: Write, T: Watches>(
    drive: &mut Hosted<M>,
    writer: &mut W,
    watcher: &mut T,
    line: &ScriptLine,
) -> Result<(), RunFault>
    requires line { LineIsInRange line.now }
    requires moment { drive.old.moment < 2 ^ 58 }
    ensures printed { HasPrinted M.seen result (W.contents writer.old) (W.contents writer.new) drive.old drive.new
        (printed drive.old.pace (requests_in line.now)) }
    ensures drive { GoesOnHosting M.seen drive.old drive.new }
{
    match line {
        ScriptLine::Skipped => Ok(()),
        ScriptLine::Asks(request) => {
            perform(drive, writer, watcher, request)?;
            flush(writer)
        }
    }
}
