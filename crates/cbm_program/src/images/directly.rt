//! Running a script on a drive with direct access.
ghost use Rattle.std.specs.Prelude.{◌≡◌, true, IfOk};
ghost use Rattle.cbm_program.specs.Starts.{IsDevice};

use super::{Options, channels_of, image_after, opened, print_check};
use crate::direct::{Bench, DirectCable, change_direct, serve_direct};
use crate::fault::RunFault;
use crate::numbered::{Beginning, read_first};
use crate::station::Station;
use bus_traces::Source;
use cbm_direct_desk::Access;
use cbm_drive::Watches;
use cbm_image::AnyDisk;
use cbm_volume::Volume;
use std::alloc::Global;
use std::io::{Read, Write};

/// How a run on a drive with direct access is made.
#[derive(Clone, Copy, Debug, PartialEq, Eq)]
pub struct DirectOptions {
    /// Which sectors the drive may write.
    pub access: Access,
    /// The drive's number and pace, and what is done with the disk.
    pub options: Options,
}

/// Runs a script as `run_watched` does, on a drive with direct access. What it prints and saves is tested; that the disk stays sound if it was, and
/// not any sector may be written, is proved of the drive (`DirectDesk`).
pub fn run_direct<R: Read + Drop, W: Write, T: Watches>(
    alloc: Global,
    reader: R,
    writer: &mut W,
    watcher: &mut T,
    image: &[u8],
    direct: &DirectOptions,
) -> Result<Vec<u8>, RunFault>
    requires { IsDevice direct.now.options.device }
    ensures given { direct.now.options.protected ≡ true → IfOk result (λ v. v.items ≡ image.now) }
{
    let options = direct.options;
    let disk = opened(alloc, image, options.protected)?;
    let channels = channels_of(alloc)?;
    let station = Station {
        device: options.device,
        pace: options.pace,
        channels,
    };
    let volume = Volume::open(disk);
    print_check(&volume, options.check, writer)?;
    let disk = direct_script(
        volume.into_medium(),
        station,
        direct.access,
        reader,
        writer,
        watcher,
    )?;
    image_after(alloc, &disk, image, options.protected)
}

/// Runs a script on a drive with direct access.
fn direct_script<R: Read + Drop, W: Write, T: Watches>(
    disk: AnyDisk,
    station: Station,
    access: Access,
    reader: R,
    writer: &mut W,
    watcher: &mut T,
) -> Result<AnyDisk, RunFault>
    requires { IsDevice station.device }
{
    let (device, pace) = (station.device, station.pace);
    let cable = DirectCable::new(disk, station, access);
    let mut lines = Source::new(reader);
    match read_first(&mut lines)? {
        Beginning::Requests(first) => {
            let bench = Bench::new(cable, device, pace);
            serve_direct(bench, &mut lines, first, writer, watcher)
        }
        Beginning::Changes => change_direct(cable, &mut lines, writer, watcher),
    }
}
