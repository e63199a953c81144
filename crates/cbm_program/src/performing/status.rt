//! Printing the status.
ghost use Rattle.std.specs.Prelude.{◌≡◌, ◌≤◌, ◌<◌, ◌^◌, ◌++◌, ◌∷◌, [], length};
ghost use Rattle.cbm_machine.specs.Machines.{Machine};
ghost use Rattle.cbm_machine.specs.Calls.{without_return};
ghost use Rattle.cbm_host.specs.Hosted.{Rests};
ghost use Rattle.cbm_program.specs.declared.request.ScriptRequest.TheVariants.{Status};
ghost use Rattle.cbm_program.specs.Performing.{GoesOnHosting, HasPrinted};
ghost use Rattle.cbm_talk.specs.Talks.{status_said};
ghost use Rattle.cbm_program.specs.Scripts.{printed_by};

use crate::fault::RunFault;
use crate::output::print;
use arrayvec::ArrayVec;
use cbm_drive::Watches;
use cbm_host::{Hosted, Request};
use cbm_medium::Steady;
use std::io::Write;

/// The text without one return at its end.
pub(crate) fn without_return(text: &[u8]) -> &[u8]
    ensures value { result.now ≡ without_return text.now }
    ensures short { length result.now ≤ length text.now }
{
    let Some((last, front)) = text.split_last() else {
        return text;
    };
    if *last == b'\r' { front } else { text }
}

/// Keeps a byte of the line, if there is room for it: a status line has at most 33.
pub(crate) fn keep(line: &mut ArrayVec<u8, 33>, byte: u8)
    ensures { length line.old.items < 33 → line.new.items ≡ line.old.items ++ byte ∷ [] }
{
    if !line.is_full() {
        line.push(byte);
    }
}

/// The status line as channel 15 sends it, to its end.
fn status_line<M: Steady, T: Watches>(drive: &mut Hosted<M>, watcher: &mut T) -> ArrayVec<u8, 33>
    requires { drive.old.moment < 2 ^ 58 }
    ensures told { (m : Machine) → Rests M.seen drive.old m
        → ((status_said m).bytes ≡ result.items) × Rests M.seen drive.new (status_said m).machine }
    ensures drive { GoesOnHosting M.seen drive.old drive.new }
{
    let mut line = ArrayVec::new();
    let mut performer = drive.ask(Request::Status);
    'bytes: while let Some((byte, _last)) = drive.take(&mut performer, watcher) {
        keep(&mut line, byte);
    }
    line
}

/// Carries out a status: the line is read to its end, and printed.
pub(crate) fn print_status<M: Steady, W: Write, T: Watches>(
    drive: &mut Hosted<M>,
    writer: &mut W,
    watcher: &mut T,
) -> Result<(), RunFault>
    requires { drive.old.moment < 2 ^ 58 }
    ensures printed { HasPrinted M.seen result (W.contents writer.old) (W.contents writer.new) drive.old drive.new
        (printed_by drive.old.pace Status) }
    ensures drive { GoesOnHosting M.seen drive.old drive.new }
{
    let told = status_line(drive, watcher);
    let mut line = ArrayVec::<u8, 64>::new();
    line.try_extend_from_slice(b"status ").unwrap();
    line.try_extend_from_slice(without_return(told.as_slice()))
        .unwrap();
    line.push(b'\n');
    print(writer, line.as_slice())
}
