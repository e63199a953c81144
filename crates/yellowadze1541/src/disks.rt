//! The disk in the drive of a handle: its image, and another one in its place.
ghost use Rattle.std.specs.Prelude.{◌≡◌, ◌≢◌, None, pos, MatchOption};
ghost use Rattle.cbm_device.specs.Answers.{fine, answer_number};
ghost use Rattle.cbm_device.specs.Devices.{IsRestarted, GivesImage};
ghost use Rattle.cbm_direct_device.specs.DirectDevices.{IsRestartedDirect, GivesImageDirect};
ghost use Rattle.yellowadze1541.specs.AnyDevices.{disk_of, number_of_status, OfEither};
ghost use Rattle.yellowadze1541.specs.Drives.{is_set, Acts, Ejects, Inserts};
ghost use Rattle.yellowadze1541.specs.DirectDrives.{EjectsDirect, InsertsDirect};

use crate::handle::{Handle, back, empty, of};
use cbm_device::DeviceRefusal;
use std::alloc::Global;
use std::mem::replace;

/// The drive is switched off and on with its disk.
#[unsafe(no_mangle)]
pub extern "C" fn y1541_reset(alloc: Global, d: &mut Handle) -> i32
    ensures restarts { Acts d.old.value d.new.value result IsRestarted IsRestartedDirect }
    ensures fine { d.old.value ≢ None → result ≡ fine }
{
    let Some(mut inner) = back(alloc, replace(d, empty())) else {
        return DeviceRefusal::NoDrive.number();
    };
    inner.device.reset();
    *d = of(inner);
    0
}

/// The image of the disk that is in the drive, which goes on; a file that is being written stands in it as on the disk, not closed.
#[unsafe(no_mangle)]
pub extern "C" fn y1541_image(
    alloc: Global,
    d: &mut Handle,
    out: &mut [u8],
    needed: &mut usize,
) -> i32
    ensures kept { d.new.value ≡ d.old.value }
    ensures shows { MatchOption d.old.value
        ((result ≡ answer_number DeviceRefusal.NoDrive) × (out.new ≡ out.old) × (needed.new ≡ needed.old))
        (λ inner. OfEither (GivesImage result out.old out.new needed.old needed.new)
        (GivesImageDirect result out.old out.new needed.old needed.new) inner.device) }
{
    let Some(inner) = back(alloc, replace(d, empty())) else {
        return DeviceRefusal::NoDrive.number();
    };
    let said = inner.device.image(alloc, out, needed);
    *d = of(inner);
    said
}

/// How often a sector of the disk in the drive was written, or all were at once, since it was put in: up to 2^64 - 1, if it
/// stays. 0 if there is no drive.
#[unsafe(no_mangle)]
pub extern "C" fn y1541_writes(alloc: Global, d: &mut Handle) -> u64
    ensures kept { d.new.value ≡ d.old.value }
    ensures writes { MatchOption d.old.value (result ≡ 0)
        (λ inner. result ≡ (disk_of inner.device).writes) }
{
    let Some(inner) = back(alloc, replace(d, empty())) else {
        return 0;
    };
    let writes = inner.device.writes();
    *d = of(inner);
    writes
}

/// The disk is taken out, and given as its image, while the drive goes on. If it isn't given, it stays in the drive.
#[unsafe(no_mangle)]
pub extern "C" fn y1541_eject(
    alloc: Global,
    d: &mut Handle,
    out: &mut [u8],
    needed: &mut usize,
) -> i32
    ensures ejects { Acts d.old.value d.new.value result (Ejects result out.old out.new needed.old needed.new)
        (EjectsDirect result out.old out.new needed.old needed.new) }
    ensures none { d.old.value ≡ None → (out.new ≡ out.old) × (needed.new ≡ needed.old) }
{
    let Some(mut inner) = back(alloc, replace(d, empty())) else {
        return DeviceRefusal::NoDrive.number();
    };
    let said = inner.device.eject(alloc, out, needed);
    *d = of(inner);
    said
}

/// The disk of another image, of which the drive makes a copy, is put in, while the drive goes on.
#[unsafe(no_mangle)]
pub extern "C" fn y1541_insert(alloc: Global, d: &mut Handle, image: &[u8], protected: u8) -> i32
    ensures { Acts d.old.value d.new.value result (Inserts result image.now (is_set protected))
        (InsertsDirect result image.now (is_set protected)) }
{
    let Some(mut inner) = back(alloc, replace(d, empty())) else {
        return DeviceRefusal::NoDrive.number();
    };
    let said = inner.device.insert(alloc, image, protected != 0);
    *d = of(inner);
    said
}

/// The number of the status that channel 15 reports; nothing of it is taken.
#[unsafe(no_mangle)]
pub extern "C" fn y1541_status(alloc: Global, d: &mut Handle) -> i32
    ensures kept { d.new.value ≡ d.old.value }
    ensures status { MatchOption d.old.value (result ≡ answer_number DeviceRefusal.NoDrive)
        (λ inner. result ≡ pos (number_of_status inner.device)) }
{
    let Some(inner) = back(alloc, replace(d, empty())) else {
        return DeviceRefusal::NoDrive.number();
    };
    let status = inner.device.status();
    *d = of(inner);
    status as i32
}
