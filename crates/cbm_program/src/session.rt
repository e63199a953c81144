//! A script of requests, from its first line to its last or its first bad one.
ghost use Rattle.std.specs.Prelude.{◌≡◌, ◌∷◌, [], ℕ, false, List, Option, Ok, IfSome, IfOk, IfErr, OnErr};
ghost use Rattle.bus_traces.specs.Lines.{source_bytes_left};
ghost use Rattle.cbm_host.specs.Hosted.{Rests, tracks_on};
ghost use Rattle.cbm_medium.specs.Seen.{Seen};
ghost use Rattle.cbm_program.specs.Outcome.{IsServedTo, IsServedPart, ServesScript};
ghost use Rattle.cbm_program.specs.Output.{AppendsMore};
ghost use Rattle.cbm_program.specs.Performing.{RestsOn};
ghost use Rattle.cbm_program.specs.Running.{LineRead, LineIsInRange, EndsAs, IsOfScript};
ghost use Rattle.cbm_program.specs.Starts.{StartsFrom, KeptBy};

use crate::fault::RunFault;
use crate::line::{ScriptLine, parse};
use crate::numbered::next_line;
use crate::performing::perform_line;
use arrayvec::ArrayVec;
use bus_traces::Source;
use cbm_drive::Watches;
use cbm_host::Hosted;
use cbm_medium::Steady;
use std::io::{Read, Write};

/// Reads line `number`, if there is one.
fn read_line<R: Read>(
    lines: &mut Source<R>,
    bytes: &mut ArrayVec<u8, 1000>,
    number: u32,
) -> Result<Option<ScriptLine>, RunFault>
    ensures { LineRead (source_bytes_left R.remaining lines.old) (source_bytes_left R.remaining lines.new) number result }
{
    if !next_line(lines, bytes, number)? {
        return Ok(None);
    }
    match parse(bytes.as_slice()) {
        Some(line) => Ok(Some(line)),
        None => Err(RunFault::Script(number)),
    }
}

/// Runs a script on a drive, after its first line: carries a line out, and prints what comes of it before the next line
/// is read.
fn run_on<M: Steady, R: Read, W: Write, T: Watches>(
    drive: &mut Hosted<M>,
    lines: &mut Source<R>,
    first: Option<ScriptLine>,
    writer: &mut W,
    watcher: &mut T,
) -> Result<(), RunFault>
    requires first { IfSome first LineIsInRange }
    requires moment { drive.old.moment ≡ 1000 }
    // Up to its end or its first bad line the script prints what was written, and the drive is in the state after it.
    ensures ended { (input : Option (List ℕ)) → LineRead input (source_bytes_left R.remaining lines.old) 1 (Ok first) →
        EndsAs result (IsServedTo drive.old.pace false input (W.contents writer.old) (W.contents writer.new)
        (Rests M.seen drive.old) (Rests M.seen drive.new)) }
    // At a fault a beginning of that was written.
    ensures fault { (input : Option (List ℕ)) → LineRead input (source_bytes_left R.remaining lines.old) 1 (Ok first) →
        OnErr result (IsServedPart drive.old.pace false input (W.contents writer.old) (W.contents writer.new)
        (Rests M.seen drive.old)) }
    ensures tracks { tracks_on M.seen drive.new ≡ tracks_on M.seen drive.old }
    ensures grows { AppendsMore (W.contents writer.old) (W.contents writer.new) }
    ensures cause { IfErr result IsOfScript }
{
    let mut bytes = ArrayVec::new();
    let mut number = 1;
    let mut next = first;
    'lines: while let Some(line) = next {
        perform_line(drive, writer, watcher, &line)?;
        number += 1;
        next = read_line(lines, &mut bytes, number)?;
    }
    Ok(())
}

/// Runs a script of requests, after its first line, on a drive that rests at power up, and gives its medium back with what
/// the script wrote. Each event on the bus is told as it comes.
pub(crate) fn run_requests<M: Steady + Drop, R: Read, W: Write, T: Watches>(
    drive: Hosted<M>,
    lines: &mut Source<R>,
    first: Option<ScriptLine>,
    writer: &mut W,
    watcher: &mut T,
) -> Result<M, RunFault>
    requires first { IfSome first LineIsInRange }
    requires moment { drive.moment ≡ 1000 }
    ensures served { (shows : Seen) (input : Option (List ℕ)) → RestsOn M.seen shows drive →
        LineRead input (source_bytes_left R.remaining lines.old) 1 (Ok first) → ServesScript result (StartsFrom shows)
        (λ after. KeptBy (M.seen after)) drive.pace false input (W.contents writer.old) (W.contents writer.new) }
    ensures grows { AppendsMore (W.contents writer.old) (W.contents writer.new) }
    ensures same_tracks { IfOk result (λ after. (M.seen after).tracks ∷ [] ≡ tracks_on M.seen drive) }
    ensures cause { IfErr result IsOfScript }
{
    let mut drive = drive;
    run_on(&mut drive, lines, first, writer, watcher)?;
    Ok(drive.into_medium())
}
