// The whole state of a drive as bytes, and a drive of them.
ghost use Rattle.std.specs.Prelude.{◌≡◌, ◌++◌, OnOk};
ghost use Rattle.cbm_device.specs.Snapshots.{kind_number as number_of_kind, kind_by as kind_with};

use crate::device::Device;
use crate::image_disk::ImageDisk;
use crate::image_disk::saving::parts_at;
use crate::refusal::DeviceRefusal;
use crate::room::given;
use cbm_drive::{Channels, Drive};
use cbm_image::Kind;
use cbm_saved::{eight_at, opened, put_eight, sealed};
use std::alloc::{AllocError, Global};

/// The version of the bytes.
const VERSION: u8 = 1;

/// The number of a format, 0 for none.
fn kind_number(kind: Option<Kind>) -> u8
    ensures { result ≡ number_of_kind kind }
{
    match kind {
        None => 0,
        Some(Kind::D64) => 1,
        Some(Kind::G64) => 2,
    }
}

/// The format of a number.
fn kind_by(number: u8) -> Option<Kind>
    ensures { result ≡ kind_with number }
{
    match number {
        1 => Some(Kind::D64),
        2 => Some(Kind::G64),
        _ => None,
    }
}

impl Device {
    ghost use Rattle.std.specs.Prelude.{◌≡◌, ◌++◌, IfOk, IfErr, OnOk};
    ghost use Rattle.cbm_drive.specs.Saved.{MaySit};
    ghost use Rattle.cbm_device.specs.Answers.{answer, GivesBytes};
    ghost use Rattle.cbm_device.specs.Making.{IsWantOfMemory};
    ghost use Rattle.cbm_device.specs.ImageDisks.{counted_seen};
    ghost use Rattle.cbm_device.specs.Snapshots.{IsSnapshot, IsRestoredFrom, IsStateOf, IsKeptState, IsLoadRefusal};

    /// Adds the state: the format, the latest moment, the disk and the drive.
    fn keep(&self, alloc: Global, out: &mut Vec<u8>) -> Result<(), AllocError>
        ensures kept { OnOk result (IsKeptState self.now out.old.items out.new.items) }
        ensures again { OnOk result (MaySit (counted_seen self.now.seat.machine.dos.medium).tracks self.now.seat) }
    {
        out.extend_from_slice(&[kind_number(self.kind)])?;
        put_eight(out, self.latest)?;
        self.disk().keep(alloc, out)?;
        self.drive.save(out)
    }

    /// The whole state as bytes. The one error is `Memory`.
    fn snapshot(&self, alloc: Global) -> Result<Vec<u8>, DeviceRefusal>
        ensures ok { IfOk result (λ v. IsSnapshot self.now v.items) }
        ensures err { IfErr result IsWantOfMemory }
    {
        let mut state = Vec::new(alloc);
        match self.keep(alloc, &mut state) {
            Ok(()) => {}
            Err(_) => return Err(DeviceRefusal::Memory),
        }
        if state.len() > u32::MAX as usize {
            return Err(DeviceRefusal::Memory);
        }
        match sealed(alloc, VERSION, state.as_slice()) {
            Ok(bytes) => Ok(bytes),
            Err(_) => Err(DeviceRefusal::Memory),
        }
    }

    /// The whole state as bytes goes to the caller's room, and how many they are is reported. Errors: `Memory`, `NoRoom`.
    pub fn save(
        &self,
        alloc: Global,
        out: &mut [u8],
        needed: &mut usize,
    ) -> Result<(), DeviceRefusal>
        ensures { GivesBytes (answer result) out.old out.new needed.old needed.new (IsSnapshot self.now) IsWantOfMemory }
    {
        given(self.snapshot(alloc), out, needed)
    }

    /// The drive of a state's bytes. Errors: `NoImage` if they are none of this version, or broken; `Memory`.
    pub fn restored(alloc: Global, bytes: &[u8]) -> Result<Device, DeviceRefusal>
        ensures ok { IfOk result (IsRestoredFrom bytes.now) }
        ensures err { IfErr result IsLoadRefusal }
    {
        match opened(VERSION, bytes) {
            Some(body) => Device::of_state(alloc, body),
            None => Err(DeviceRefusal::NoImage),
        }
    }

    /// The drive of what is under the seal.
    fn of_state(alloc: Global, state: &[u8]) -> Result<Device, DeviceRefusal>
        ensures ok { IfOk result (IsStateOf state.now) }
        ensures err { IfErr result IsLoadRefusal }
    {
        let Some((kind, rest)) = state.split_first() else {
            return Err(DeviceRefusal::NoImage);
        };
        let Some((latest, rest)) = eight_at(rest) else {
            return Err(DeviceRefusal::NoImage);
        };
        let Some((parts, rest)) = parts_at(rest) else {
            return Err(DeviceRefusal::NoImage);
        };
        let disk = ImageDisk::with_parts(alloc, &parts)?;
        let channels = Channels::new(alloc)?;
        let Some((drive, left)) = Drive::load(disk, channels, rest) else {
            return Err(DeviceRefusal::NoImage);
        };
        if !left.is_empty() {
            return Err(DeviceRefusal::NoImage);
        }
        let others = drive.others();
        Ok(Device {
            drive,
            kind: kind_by(*kind),
            others,
            latest,
        })
    }
}
