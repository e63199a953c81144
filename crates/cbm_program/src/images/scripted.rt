//! Scripts on the disk of an image.
ghost use Rattle.std.specs.Prelude.{◌≡◌, ◌≤◌, ℕ, false, List, Option, Ok, codes, IfSome, IfOk, IfErr};
ghost use Rattle.bus_traces.specs.Lines.{source_bytes_left, TakesLine};
ghost use Rattle.cbm_host.specs.Hosted.{party_of};
ghost use Rattle.cbm_image.specs.AnyDisks.{any_seen};
ghost use Rattle.cbm_program.specs.Outcome.{ServesScript, PlaysScript};
ghost use Rattle.cbm_program.specs.Output.{AppendsMore};
ghost use Rattle.cbm_program.specs.Running.{LineRead, LineIsInRange, EndsAs, IsOfScript};
ghost use Rattle.cbm_program.specs.Starts.{IsDevice, StartsFrom, KeptBy};
ghost use Rattle.cbm_program.specs.Traces.{WritesTrace};

use crate::fault::RunFault;
use crate::line::ScriptLine;
use crate::session::run_requests;
use crate::station::Station;
use crate::wires::{Stage, run_changes};
use bus_traces::Source;
use cbm_drive::Watches;
use cbm_host::Hosted;
use cbm_image::AnyDisk;
use std::io::{Read, Write};

/// Plays a script of line changes, after its first line, on a drive at power up with this disk, and gives the disk back with what
/// came of it. Errors: `Script`, `Reading` or `Writing`.
pub(crate) fn play<R: Read, W: Write, T: Watches>(
    disk: AnyDisk,
    station: Station,
    lines: &mut Source<R>,
    writer: &mut W,
    watcher: &mut T,
) -> Result<AnyDisk, RunFault>
    requires { IsDevice station.device }
    ensures played { (input : Option (List ℕ)) → TakesLine input (source_bytes_left R.remaining lines.old) (codes "lines") →
        PlaysScript result (StartsFrom (any_seen disk)) (λ after. KeptBy (any_seen after)) (party_of station.pace station.device) false
        input (W.contents writer.old) (W.contents writer.new) }
    // Whatever the drive represents:
    ensures wrote { (input : Option (List ℕ)) → TakesLine input (source_bytes_left R.remaining lines.old) (codes "lines") →
        EndsAs result (WritesTrace (party_of station.pace station.device) input (W.contents writer.old) (W.contents writer.new)) }
    ensures grows { AppendsMore (W.contents writer.old) (W.contents writer.new) }
    ensures same_tracks { IfOk result (λ after. (any_seen after).tracks ≡ (any_seen disk).tracks) }
    ensures cause { IfErr result IsOfScript }
{
    let Station {
        device,
        pace,
        channels,
    } = station;
    let stage = Stage::new(disk, channels, device, pace);
    run_changes(stage, device, pace, lines, writer, watcher)
}

/// Carries out a script of requests, after its first line, in the same way.
pub(crate) fn serve<R: Read, W: Write, T: Watches>(
    disk: AnyDisk,
    station: Station,
    lines: &mut Source<R>,
    first: Option<ScriptLine>,
    writer: &mut W,
    watcher: &mut T,
) -> Result<AnyDisk, RunFault>
    requires first { IfSome first LineIsInRange }
    requires device { IsDevice station.device }
    ensures served { (input : Option (List ℕ)) → LineRead input (source_bytes_left R.remaining lines.old) 1 (Ok first) →
        ServesScript result (StartsFrom (any_seen disk)) (λ after. KeptBy (any_seen after)) station.pace false input
        (W.contents writer.old) (W.contents writer.new) }
    ensures grows { AppendsMore (W.contents writer.old) (W.contents writer.new) }
    ensures same_tracks { IfOk result (λ after. (any_seen after).tracks ≡ (any_seen disk).tracks) }
    ensures cause { IfErr result IsOfScript }
{
    let Station {
        device,
        pace,
        channels,
    } = station;
    let hosted = Hosted::with_pace(disk, channels, device, pace);
    run_requests(hosted, lines, first, writer, watcher)
}
