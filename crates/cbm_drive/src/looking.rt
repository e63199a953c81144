//! Looking ahead: whether a drive changes a line before a limit.

ghost use Rattle.std.specs.Prelude.{◌≡◌, ◌<◌, ◌≤◌, ◌^◌, Option, List, length, None};
ghost use Rattle.cbm_drive.specs.Playback.{Shown, Playback, IsPlayedBack, played_says, played_step};
ghost use Rattle.cbm_drive.specs.Seats.{AreCarried};
ghost use Rattle.cbm_drive.specs.Silence.{Foretold};
ghost use Rattle.cbm_drive.specs.Turning.{ForetellsSeats, FirstIsShown, IsFirstShown};

use crate::drive::Drive;
use crate::drives::{Answer, first_due, react};
use cbm_iec::{Lines, Machine, Port};

/// Whether a port with this byte to say changes a line before a limit. What is due may change none; then it goes on with
/// what is due after that.
pub(crate) fn shows(mut port: Port, peek: Option<(u8, bool)>, limit: u64) -> bool
    requires limit { limit < 2 ^ 60 }
    requires device { port.party.device < 31 }
    requires reaction { 1 ≤ port.party.reaction }
    ensures { Foretold limit peek result port }
{
    let Some(moment) = port.next_due() else {
        return false;
    };
    if moment >= limit {
        return false;
    }
    let reaction = port.due(moment, peek);
    !reaction.changes.is_empty() || shows(port, peek, limit)
}

/// Whether one of these drives changes a line before a limit, if the host changes nothing (`recorded`: whatever the machines
/// represent, of those that play back what they show).
pub(crate) fn any_shows<D: Machine>(drives: &[Drive<D>], limit: u64) -> bool
    requires { limit < 2 ^ 60 }
    ensures says { ForetellsSeats _ D.State D.stands D.step D.says drives.now limit result }
    ensures recorded { (later : List Shown) →
        ForetellsSeats _ Playback (IsPlayedBack D.shows later) played_step played_says drives.now limit result }
{
    let Some((first, rest)) = drives.split_first() else {
        return false;
    };
    first.shows_before(limit) || any_shows(rest, limit)
}

/// The first reaction before a limit that changes a line, and its moment. Those before it, which change none, happen.
#[inline(always)]
pub(crate) fn first_shown<D: Machine>(
    drives: &mut [Drive<D>],
    host: Lines,
    limit: u64,
) -> Option<(u64, Answer)>
    requires few { length drives.old ≤ 4 }
    requires limit { limit < 2 ^ 60 }
    ensures shown { FirstIsShown _ D.State D.stands D.step D.says D.failures D.shows (length drives.old) host limit
        drives.old drives.new result }
    ensures first { IsFirstShown limit drives.old drives.new result }
    ensures same { length drives.new ≡ length drives.old }
    ensures carried { AreCarried D.lasting D.failures drives.old drives.new }
{
    while let Some((place, moment)) = first_due(drives) {
        if moment >= limit {
            return None;
        }
        let answer = react(drives, host, place, moment)?;
        if !answer.changes.is_empty() {
            return Some((moment, answer));
        }
    }
    None
}
