//! A script of line changes, from its second line to its end or its first bad line.
ghost use Rattle.std.specs.Prelude.{◌≡◌, ◌≤◌, ◌∷◌, [], ℕ, false, List, Option, codes, length, IfOk, IfErr, OnErr};
ghost use Rattle.bus_traces.specs.Lines.{source_bytes_left, TakesLine};
ghost use Rattle.cbm_drive.specs.Desks.{desk_shows};
ghost use Rattle.cbm_host.specs.Hosted.{party_of};
ghost use Rattle.cbm_medium.specs.Seen.{Seen};
ghost use Rattle.cbm_program.specs.Outcome.{IsTracedTo, IsTracedPart, PlaysScript};
ghost use Rattle.cbm_program.specs.Output.{AppendsMore};
ghost use Rattle.cbm_program.specs.Running.{EndsAs, IsOfScript};
ghost use Rattle.cbm_drive.specs.Players.{IsOpen};
ghost use Rattle.cbm_program.specs.Staging.{IsBorne, IsFresh, IsDriveSwitchedOn, StandsOn, tracks_of_drives};
ghost use Rattle.cbm_program.specs.Starts.{IsDevice, StartsFrom, KeptBy};
ghost use Rattle.cbm_program.specs.TimedReading.{TimedRead, AfterEndRead};
ghost use Rattle.cbm_program.specs.Traces.{WritesTrace};

use super::staging::Stage;
use super::timed::{Timed, is_skipped, timed_from};
use crate::fault::RunFault;
use crate::numbered::next_line;
use crate::output::flush;
use arrayvec::ArrayVec;
use bus_traces::Source;
use cbm_drive::{Pace, Watches};
use cbm_medium::Steady;
use std::io::{Read, Write};

/// Reads line `number`, which follows a moment, in microseconds. The end must come before the script's own.
fn read_timed<R: Read>(
    lines: &mut Source<R>,
    bytes: &mut ArrayVec<u8, 1000>,
    number: u32,
    from: u64,
) -> Result<Timed, RunFault>
    ensures { TimedRead (source_bytes_left R.remaining lines.old) (source_bytes_left R.remaining lines.new) number from result }
{
    if !next_line(lines, bytes, number)? {
        return Err(RunFault::Script(number));
    }
    timed_from(bytes.as_slice(), from).ok_or(RunFault::Script(number))
}

/// Reads the lines after the end, from line `first` on: all of them are skipped.
fn read_after_end<R: Read>(
    lines: &mut Source<R>,
    bytes: &mut ArrayVec<u8, 1000>,
    first: u32,
) -> Result<(), RunFault>
    requires { first ≤ 1000001 }
    ensures { AfterEndRead (source_bytes_left R.remaining lines.old) first result }
{
    let mut number = first;
    'lines: while next_line(lines, bytes, number)? {
        if !is_skipped(bytes.as_slice()) {
            return Err(RunFault::Script(number));
        }
        number += 1;
    }
    Ok(())
}

/// Plays a script on a drive at power up, after its first line: a change is made and printed, with what comes before it,
/// before the next line is read; what comes of the last one is printed when the end and the lines after it were read. Up to
/// the script's end or its first bad line its trace was written, and the drive is in the state after it, whatever it
/// represents; at a fault a beginning of that was written.
fn play_on<M: Steady, R: Read, W: Write, T: Watches>(
    stage: &mut Stage<M>,
    device: u8,
    pace: Pace,
    lines: &mut Source<R>,
    writer: &mut W,
    watcher: &mut T,
) -> Result<(), RunFault>
    requires open { IsOpen stage.old.player 0 }
    requires one { length (tracks_of_drives M.seen stage.old.bus) ≡ 1 }
    requires device { IsDevice device }
    ensures ended { (input : Option (List ℕ)) → TakesLine input (source_bytes_left R.remaining lines.old) (codes "lines") →
        EndsAs result (IsTracedTo (party_of pace device) false input (W.contents writer.old) (W.contents writer.new)
        (IsDriveSwitchedOn M.seen (party_of pace device) stage.old.player stage.old.bus) (IsBorne M.seen stage.new.bus)) }
    ensures fault { (input : Option (List ℕ)) → TakesLine input (source_bytes_left R.remaining lines.old) (codes "lines") →
        OnErr result (IsTracedPart (party_of pace device) false input (W.contents writer.old) (W.contents writer.new)
        (IsDriveSwitchedOn M.seen (party_of pace device) stage.old.player stage.old.bus)) }
    ensures tracks { tracks_of_drives M.seen stage.new.bus ≡ tracks_of_drives M.seen stage.old.bus }
    ensures wrote { (input : Option (List ℕ)) → IsFresh desk_shows (party_of pace device) stage.old.player stage.old.bus →
        TakesLine input (source_bytes_left R.remaining lines.old) (codes "lines") → EndsAs result
        (WritesTrace (party_of pace device) input (W.contents writer.old) (W.contents writer.new)) }
    ensures grows { AppendsMore (W.contents writer.old) (W.contents writer.new) }
    ensures cause { IfErr result IsOfScript }
{
    let mut bytes = ArrayVec::new();
    let mut number = 2;
    let mut from = 0;
    'lines: loop {
        match read_timed(lines, &mut bytes, number, from)? {
            Timed::Skipped => {}
            Timed::Changes(change) => {
                stage.change(change, writer, watcher)?;
                flush(writer)?;
                from = change.moment;
            }
            Timed::Ends(end) => {
                read_after_end(lines, &mut bytes, number + 1)?;
                stage.end(end, writer, watcher)?;
                flush(writer)?;
                return Ok(());
            }
        }
        number += 1;
    }
}

/// Plays a script of line changes, after its first line, on a drive of this pace that stands at power up, with a device number
/// from 8 to 11, and gives its medium back with what came of it. Each event on the bus is told as it is printed.
pub(crate) fn run_changes<M: Steady + Drop, R: Read, W: Write, T: Watches>(
    stage: Stage<M>,
    device: u8,
    pace: Pace,
    lines: &mut Source<R>,
    writer: &mut W,
    watcher: &mut T,
) -> Result<M, RunFault>
    requires open { IsOpen stage.player 0 }
    requires one { length (tracks_of_drives M.seen stage.bus) ≡ 1 }
    requires device { IsDevice device }
    ensures played { (shows : Seen) (input : Option (List ℕ)) →
        StandsOn M.seen shows (party_of pace device) stage.player stage.bus →
        TakesLine input (source_bytes_left R.remaining lines.old) (codes "lines") → PlaysScript result (StartsFrom shows)
        (λ after. KeptBy (M.seen after)) (party_of pace device) false input (W.contents writer.old) (W.contents writer.new) }
    // Whatever the drive represents:
    ensures wrote { (input : Option (List ℕ)) → IsFresh desk_shows (party_of pace device) stage.player stage.bus →
        TakesLine input (source_bytes_left R.remaining lines.old) (codes "lines") → EndsAs result
        (WritesTrace (party_of pace device) input (W.contents writer.old) (W.contents writer.new)) }
    ensures grows { AppendsMore (W.contents writer.old) (W.contents writer.new) }
    ensures same_tracks { IfOk result (λ after. (M.seen after).tracks ∷ [] ≡ tracks_of_drives M.seen stage.bus) }
    ensures cause { IfErr result IsOfScript }
{
    let mut stage = stage;
    play_on(&mut stage, device, pace, lines, writer, watcher)?;
    Ok(stage.into_medium())
}
