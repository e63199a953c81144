//! The whole state of a handle's drive as bytes, and a drive of them.
ghost use Rattle.std.specs.Prelude.{◌≡◌, None, IfErr, IfOk};
ghost use Rattle.cbm_device.specs.Snapshots.{IsRestoredFrom, IsLoadRefusal};
ghost use Rattle.yellowadze1541.specs.AnyDevices.{IsPlainDrive};
ghost use Rattle.yellowadze1541.specs.Drives.{Acts};
ghost use Rattle.yellowadze1541.specs.Snapshots.{Restores, SavesNoState, SavesState};

use crate::any_device::AnyDevice;
use crate::drives::boxed;
use crate::handle::{Handle, back, empty, of};
use crate::inner::Inner;
use cbm_device::{Device, DeviceRefusal};
use std::alloc::Global;
use std::mem::replace;

/// The whole state of the drive, with its disk, as bytes, while the drive goes on; `Invalid` of one with direct access.
#[unsafe(no_mangle)]
pub extern "C" fn y1541_save(
    alloc: Global,
    d: &mut Handle,
    out: &mut [u8],
    needed: &mut usize,
) -> i32
    ensures saves { Acts d.old.value d.new.value result (SavesState result out.old out.new needed.old needed.new)
        (SavesNoState result out.old out.new needed.old needed.new) }
    ensures none { d.old.value ≡ None → (out.new ≡ out.old) × (needed.new ≡ needed.old) }
{
    let Some(inner) = back(alloc, replace(d, empty())) else {
        return DeviceRefusal::NoDrive.number();
    };
    let done = inner.device.save(alloc, out, needed);
    *d = of(inner);
    done
}

/// A drive of a state's bytes, for a handle. Errors: `NoImage`, `Memory`.
fn restored(alloc: Global, bytes: &[u8]) -> Result<Box<Inner>, DeviceRefusal>
    ensures ok { IfOk result (λ b. IsPlainDrive (IsRestoredFrom bytes.now) b.value.device) }
    ensures err { IfErr result IsLoadRefusal }
{
    let device = Device::restored(alloc, bytes)?;
    match Box::new(alloc, device) {
        Ok(device) => boxed(alloc, AnyDevice::Plain(device)),
        Err(_) => Err(DeviceRefusal::Memory),
    }
}

/// The handle holds the drive whose state these bytes are, whatever it held before; bytes that are none of this version, or broken,
/// change nothing.
#[unsafe(no_mangle)]
pub extern "C" fn y1541_restore(alloc: Global, d: &mut Handle, bytes: &[u8]) -> i32
    ensures { Restores d.old.value d.new.value result bytes.now }
{
    match restored(alloc, bytes) {
        Ok(inner) => {
            let _gone = back(alloc, replace(d, of(inner)));
            0
        }
        Err(refusal) => refusal.number(),
    }
}
