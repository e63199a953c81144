//! A script of line changes on a drive whose machine may be any.
ghost use Rattle.std.specs.Prelude.{◌≡◌, ◌≤◌, ◌<◌, ◌^◌, None};

use super::cable::Cable;
use crate::fault::RunFault;
use crate::numbered::next_line;
use crate::output::{flush, print};
use crate::wires::{Timed, is_skipped, timed_from};
use arrayvec::ArrayVec;
use bus_traces::{Source, event_text};
use cbm_drive::{Change, Player, Watches, Who};
use std::io::{Read, Write};

/// The host changes a line: the reactions that are due before come first, and all is printed, and told.
fn change<C: Cable, W: Write, T: Watches>(
    cable: &mut C,
    player: &mut Player,
    change: Change,
    writer: &mut W,
    watcher: &mut T,
) -> Result<(), RunFault>
    requires { change.moment < 2 ^ 59 }
{
    if player.waits() || player.offer(change).is_err() {
        return Ok(());
    }
    for _ in 0..u64::MAX {
        let Some(event) = cable.change(player, change.moment) else {
            break;
        };
        print(writer, event_text(event).as_slice())?;
        watcher.event(event);
        if let Who::Host = event.who {
            return Ok(());
        }
    }
    Ok(())
}

/// The reactions that are due up to an end, in microseconds, happen and are printed, and told.
fn end<C: Cable, W: Write, T: Watches>(
    cable: &mut C,
    player: &mut Player,
    end: u64,
    writer: &mut W,
    watcher: &mut T,
) -> Result<(), RunFault>
    requires { end < 2 ^ 59 }
{
    for _ in 0..u64::MAX {
        let Some(event) = cable.change(player, end) else {
            break;
        };
        print(writer, event_text(event).as_slice())?;
        watcher.event(event);
    }
    Ok(())
}

/// The lines after the end, from line `first` on: all of them are skipped.
fn read_after_end<R: Read>(
    lines: &mut Source<R>,
    bytes: &mut ArrayVec<u8, 1000>,
    first: u32,
) -> Result<(), RunFault>
    requires { first ≤ 1000001 }
{
    for number in first..=LINES {
        if !next_line(lines, bytes, number)? {
            break;
        }
        if !is_skipped(bytes.as_slice()) {
            return Err(RunFault::Script(number));
        }
    }
    Ok(())
}

/// The number of the line that is one too many.
const LINES: u32 = 1_000_001;

/// Plays a script of line changes, after its first line, and gives the drive's medium back with what came of it. It prints each change.
pub(crate) fn change_direct<C: Cable + Drop, R: Read, W: Write, T: Watches>(
    cable: C,
    lines: &mut Source<R>,
    writer: &mut W,
    watcher: &mut T,
) -> Result<C::Medium, RunFault> {
    let mut cable = cable;
    let mut player = Player::new();
    let mut bytes = ArrayVec::new();
    let mut from = 0;
    for number in 2..=LINES {
        if !next_line(lines, &mut bytes, number)? {
            return Err(RunFault::Script(number));
        }
        match timed_from(bytes.as_slice(), from) {
            None => return Err(RunFault::Script(number)),
            Some(Timed::Skipped) => {}
            Some(Timed::Changes(at)) => {
                change(&mut cable, &mut player, at, writer, watcher)?;
                flush(writer)?;
                from = at.moment;
            }
            Some(Timed::Ends(moment)) => {
                read_after_end(lines, &mut bytes, number + 1)?;
                end(&mut cable, &mut player, moment, writer, watcher)?;
                flush(writer)?;
                return Ok(cable.into_medium());
            }
        }
    }
    Err(RunFault::Script(LINES))
}
