//! Printing what a channel sends.
ghost use Rattle.std.specs.Prelude.{◌≡◌, ◌<◌, ◌≤◌, ◌^◌, length, Some};
ghost use Rattle.cbm_host.specs.Hosted.{tracks_on};
ghost use Rattle.cbm_program.specs.declared.request.ScriptRequest.TheVariants.{Get};
ghost use Rattle.cbm_program.specs.Running.{IsInRange};
ghost use Rattle.cbm_program.specs.Scripts.{hex_digit, printed_by};
ghost use Rattle.cbm_program.specs.Output.{Writes};
ghost use Rattle.cbm_program.specs.Performing.{GoesOnHosting, HasPrinted, SaysRest};
ghost use Rattle.cbm_program.specs.Units.{unit_text, get_head};

use crate::fault::RunFault;
use crate::output::print;
use arrayvec::ArrayVec;
use cbm_drive::Watches;
use cbm_host::{Hosted, Performer, Request};
use cbm_medium::Steady;
use itoa::Buffer;
use std::io::Write;

fn hex_digit(n: u8) -> u8
    requires { n < 16 }
    ensures { result ≡ hex_digit n }
{
    if n < 10 { n + b'0' } else { n - 10 + b'a' }
}

/// Prints a byte, and whether it is the last.
pub(crate) fn print_byte<W: Write>(writer: &mut W, byte: u8, is_last: bool) -> Result<(), RunFault>
    ensures { Writes result (W.contents writer.old) (W.contents writer.new) (unit_text (Some (byte, is_last))) }
{
    let high = hex_digit(byte / 16);
    let low = hex_digit(byte % 16);
    if is_last {
        print(writer, &[high, low, b' ', b'e', b'o', b'i'])
    } else {
        print(writer, &[high, low])
    }
}

/// Prints the bytes that a channel sends on, each as it comes.
pub(crate) fn print_bytes<M: Steady, W: Write, T: Watches>(
    drive: &mut Hosted<M>,
    performer: &mut Performer,
    writer: &mut W,
    watcher: &mut T,
) -> Result<(), RunFault>
    ensures said { SaysRest M.seen result (W.contents writer.old) (W.contents writer.new) drive.old drive.new performer.old }
    ensures soon { drive.old.moment ≤ performer.old.limit → drive.new.moment ≤ performer.old.limit }
    ensures pace { drive.new.pace ≡ drive.old.pace }
    ensures tracks { tracks_on M.seen drive.new ≡ tracks_on M.seen drive.old }
{
    'bytes: while let Some((byte, is_last)) = drive.take(performer, watcher) {
        print_byte(writer, byte, is_last)?;
    }
    Ok(())
}

/// Prints the beginning of a get's line.
pub(crate) fn print_head<W: Write>(writer: &mut W, channel: u8, tail: &[u8]) -> Result<(), RunFault>
    requires { length tail.now ≤ 8 }
    ensures { Writes result (W.contents writer.old) (W.contents writer.new) (get_head channel tail.now) }
{
    let mut line = ArrayVec::<u8, 64>::new();
    let mut buffer = Buffer::new();
    line.try_extend_from_slice(b"get ").unwrap();
    line.try_extend_from_slice(buffer.format(channel).as_bytes())
        .unwrap();
    line.try_extend_from_slice(tail).unwrap();
    print(writer, line.as_slice())
}

/// Carries out a get: what a channel sends is printed as it comes, in one line.
pub(crate) fn print_get<M: Steady, W: Write, T: Watches>(
    drive: &mut Hosted<M>,
    writer: &mut W,
    watcher: &mut T,
    channel: u8,
    most: u32,
) -> Result<(), RunFault>
    requires request { IsInRange (Get channel most) }
    requires moment { drive.old.moment < 2 ^ 58 }
    ensures printed { HasPrinted M.seen result (W.contents writer.old) (W.contents writer.new) drive.old drive.new
        (printed_by drive.old.pace (Get channel most)) }
    ensures drive { GoesOnHosting M.seen drive.old drive.new }
{
    let mut performer = drive.ask(Request::Get(channel, most));
    let Some((byte, is_last)) = drive.take(&mut performer, watcher) else {
        return print_head(writer, channel, b" none\n");
    };
    print_head(writer, channel, b" ")?;
    print_byte(writer, byte, is_last)?;
    print_bytes(drive, &mut performer, writer, watcher)?;
    print(writer, b"\n")
}
