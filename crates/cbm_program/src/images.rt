//! Running a script on the disk of an image.
ghost use Rattle.std.specs.Prelude.{◌≡◌, true, false, Err, IfSome, IfOk, IfErr};
ghost use Rattle.cbm_host.specs.Hosted.{party_of};
ghost use Rattle.cbm_image.specs.AnyDisks.{any_seen, IsDiskOfImage};
ghost use Rattle.cbm_image.specs.Images.{kind_of, image_fault, IsOf};
ghost use Rattle.cbm_program.specs.Checking.{IsCheckedFirst};
ghost use Rattle.cbm_program.specs.Outcome.{IsRun, RunsRequests, RunsChanges, IsOutcome};
ghost use Rattle.cbm_program.specs.Running.{EndsAs, IsOfScript};
ghost use Rattle.cbm_program.specs.Starts.{IsDevice, StartsFrom, KeptBy, IsRunRefusal};
ghost use Rattle.cbm_program.specs.Traces.{KeepTraces, KeepTracesLoosely};

use crate::fault::RunFault;
use crate::numbered::{Beginning, read_first};
use crate::station::Station;
use bus_traces::Source;
use cbm_drive::{Channels, Pace, Unwatched, Watches};
use cbm_image::{AnyDisk, ImageFault, kind_of};
use cbm_volume::Volume;
use std::alloc::Global;
use std::io::{Read, Write};

mod checking;
mod directly;
mod scripted;

use checking::print_check;
pub use directly::{DirectOptions, run_direct};
use scripted::{play, serve};

/// How a run is made.
#[derive(Clone, Copy, Debug, PartialEq, Eq)]
pub struct Options {
    /// The drive's number on the bus, 8 to 11. What a script of requests prints doesn't depend on it.
    pub device: u8,
    /// The pace that the drive keeps on the bus.
    pub pace: Pace,
    /// The disk refuses to be written.
    pub protected: bool,
    /// Whether the disk is sound is printed before the script runs.
    pub check: bool,
}

/// Runs a script on a drive of this pace at power up with this disk, and gives the disk back with what the script wrote.
/// Its first line says whether it asks for files or changes lines.
fn run_script<R: Read + Drop, W: Write, T: Watches>(
    disk: AnyDisk,
    station: Station,
    reader: R,
    writer: &mut W,
    watcher: &mut T,
) -> Result<AnyDisk, RunFault>
    requires { IsDevice station.device }
    ensures run { IsRun result (StartsFrom (any_seen disk)) (λ after. KeptBy (any_seen after)) station.pace station.device false
        (R.remaining reader) (W.contents writer.old) (W.contents writer.new) }
    ensures same_tracks { IfOk result (λ after. (any_seen after).tracks ≡ (any_seen disk).tracks) }
    ensures cause { IfErr result IsOfScript }
{
    let mut lines = Source::new(reader);
    match read_first(&mut lines)? {
        Beginning::Requests(first) => serve(disk, station, &mut lines, first, writer, watcher),
        Beginning::Changes => play(disk, station, &mut lines, writer, watcher),
    }
}

/// Runs a script on a drive at power up with this disk, after the line of its check if one is asked for, and gives the disk
/// back with what the script wrote.
fn run_with<R: Read + Drop, W: Write, T: Watches>(
    disk: AnyDisk,
    station: Station,
    checks: bool,
    reader: R,
    writer: &mut W,
    watcher: &mut T,
) -> Result<AnyDisk, RunFault>
    requires { IsDevice station.device }
    ensures run { IsRun result (StartsFrom (any_seen disk)) (λ after. KeptBy (any_seen after)) station.pace station.device checks
        (R.remaining reader) (W.contents writer.old) (W.contents writer.new) }
    // Of any disk the line of the check is printed first, where one is asked for.
    ensures checked { checks ≡ true → EndsAs result (λ bad. IsCheckedFirst (any_seen disk).tracks (any_seen disk).content
        (W.contents writer.old) (W.contents writer.new)) }
    ensures same_tracks { IfOk result (λ after. (any_seen after).tracks ≡ (any_seen disk).tracks) }
    ensures cause { IfErr result IsOfScript }
{
    let volume = Volume::open(disk);
    print_check(&volume, checks, writer)?;
    run_script(volume.into_medium(), station, reader, writer, watcher)
}

/// The disk of an image. Errors: `Image` with the number of the format's first fault, or `Memory`.
fn opened(alloc: Global, image: &[u8], protected: bool) -> Result<AnyDisk, RunFault>
    ensures ok { IfOk result (IsDiskOfImage (kind_of image.now) image.now protected) }
    ensures refused { IfSome (image_fault (kind_of image.now) image.now) (λ n. result ≡ Err (RunFault.Image n)) }
    ensures cause { IfErr result (IsRunRefusal (image_fault (kind_of image.now) image.now)) }
{
    match AnyDisk::open(alloc, image, protected) {
        Ok(disk) => Ok(disk),
        Err(ImageFault::Format(number)) => Err(RunFault::Image(number)),
        Err(ImageFault::Memory) => Err(RunFault::Memory),
    }
}

/// Memory for the channels of a drive. The one error is `Memory`.
fn channels_of(alloc: Global) -> Result<Channels, RunFault>
    ensures { IfErr result (λ fault. fault ≡ RunFault.Memory) }
{
    match Channels::new(alloc) {
        Ok(channels) => Ok(channels),
        Err(_) => Err(RunFault::Memory),
    }
}

/// The image after a run: of a protected disk, to which nothing was written, the one that was given; else the disk's as it is
/// now. The one error is `Memory`.
fn image_after(
    alloc: Global,
    disk: &AnyDisk,
    image: &[u8],
    protected: bool,
) -> Result<Vec<u8>, RunFault>
    ensures given { protected ≡ true → IfOk result (λ v. v.items ≡ image.now) }
    ensures written { protected ≡ false → IfOk result (λ v. IsOf (kind_of image.now) v.items (any_seen disk.now)) }
    ensures err { IfErr result (λ fault. fault ≡ RunFault.Memory) }
{
    if protected {
        return Vec::from_slice(alloc, image).map_err(|_| RunFault::Memory);
    }
    disk.save(alloc, kind_of(image))
        .map_err(|_| RunFault::Memory)
}

/// Runs a script on the disk of an image, as `run_watched` does.
// (A call of its own, so that what `run_watched` promises of each trace is proved at its one exit, not at each of these.)
fn run_image<R: Read + Drop, W: Write, T: Watches>(
    alloc: Global,
    reader: R,
    writer: &mut W,
    watcher: &mut T,
    image: &[u8],
    options: &Options,
) -> Result<Vec<u8>, RunFault>
    requires { IsDevice options.now.device }
    ensures requests { RunsRequests result (λ v. v.items) image.now options.now.protected options.now.check
        (R.remaining reader) (W.contents writer.old) (W.contents writer.new) options.now.pace }
    ensures changes { RunsChanges result (λ v. v.items) image.now options.now.protected options.now.check
        (R.remaining reader) (W.contents writer.old) (W.contents writer.new) (party_of options.now.pace options.now.device) }
    ensures outcome { IsOutcome result (λ v. v.items) image.now options.now.protected options.now.check
        (R.remaining reader) (W.contents writer.old) (W.contents writer.new) }
{
    let disk = opened(alloc, image, options.protected)?;
    let channels = channels_of(alloc)?;
    let station = Station {
        device: options.device,
        pace: options.pace,
        channels,
    };
    let disk = run_with(disk, station, options.check, reader, writer, watcher)?;
    image_after(alloc, &disk, image, options.protected)
}

/// Runs a script on the disk of an image, and gives the image as it is then, with all that the script wrote: of the
/// same format, and with as many tracks. Of a protected disk it gives the same bytes.
///
/// The image is tested before the script is read, and if a check is asked for, its line is printed first. The script is
/// read a line at a time, and what a line prints is written before the next one is read. Takes memory for the disk, the drive
/// and the image.
///
/// Errors: `Image` with the number of the format's first fault, before anything is read or written; `Script` with the
/// number of the first bad line, after all that the lines before it print; `Memory`, `Reading` or `Writing`.
pub fn run<R: Read + Drop, W: Write>(
    alloc: Global,
    reader: R,
    writer: &mut W,
    image: &[u8],
    options: &Options,
) -> Result<Vec<u8>, RunFault>
    requires { IsDevice options.now.device }
    ensures requests { RunsRequests result (λ v. v.items) image.now options.now.protected options.now.check
        (R.remaining reader) (W.contents writer.old) (W.contents writer.new) options.now.pace }
    ensures changes { RunsChanges result (λ v. v.items) image.now options.now.protected options.now.check
        (R.remaining reader) (W.contents writer.old) (W.contents writer.new) (party_of options.now.pace options.now.device) }
    ensures outcome { IsOutcome result (λ v. v.items) image.now options.now.protected options.now.check
        (R.remaining reader) (W.contents writer.old) (W.contents writer.new) }
    // Of a script of line changes, under a host that keeps the bus's timing:
    ensures kept { KeepTraces (party_of options.now.pace options.now.device) }
    // And under one that keeps it loosely, as a computer's KERNAL does:
    ensures loosely { KeepTracesLoosely (party_of options.now.pace options.now.device) }
{
    run_watched(alloc, reader, writer, &mut Unwatched, image, options)
}

/// The same, and a watcher is told each event on the bus as it comes. Errors: those of `run`.
pub fn run_watched<R: Read + Drop, W: Write, T: Watches>(
    alloc: Global,
    reader: R,
    writer: &mut W,
    watcher: &mut T,
    image: &[u8],
    options: &Options,
) -> Result<Vec<u8>, RunFault>
    requires { IsDevice options.now.device }
    ensures requests { RunsRequests result (λ v. v.items) image.now options.now.protected options.now.check
        (R.remaining reader) (W.contents writer.old) (W.contents writer.new) options.now.pace }
    ensures changes { RunsChanges result (λ v. v.items) image.now options.now.protected options.now.check
        (R.remaining reader) (W.contents writer.old) (W.contents writer.new) (party_of options.now.pace options.now.device) }
    ensures outcome { IsOutcome result (λ v. v.items) image.now options.now.protected options.now.check
        (R.remaining reader) (W.contents writer.old) (W.contents writer.new) }
    // Of a script of line changes, under a host that keeps the bus's timing:
    ensures kept { KeepTraces (party_of options.now.pace options.now.device) }
    // And under one that keeps it loosely, as a computer's KERNAL does:
    ensures loosely { KeepTracesLoosely (party_of options.now.pace options.now.device) }
{
    run_image(alloc, reader, writer, watcher, image, options)
}
