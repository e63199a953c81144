//! A drive on lines, by its handle. Each call takes the drive from its handle, and gives it back there.
ghost use Rattle.std.specs.Prelude.{◌≡◌, ◌≢◌, ◌⊎◌, ◌<◌, ◌≤◌, ◌-◌, ◌^◌, None, Some, IfErr, IfOk, MatchBool, MatchOption, MatchResult};
ghost use Rattle.cbm_iec.specs.Ports.{port_due};
ghost use Rattle.cbm_device.specs.Answers.{fine, answer_number};
ghost use Rattle.cbm_device.specs.Devices.{IsUnfitParty, IsSwitchedOn};
ghost use Rattle.cbm_device.specs.ImageDisks.{IsOpenRefusal};
ghost use Rattle.cbm_direct.specs.declared.access.Access.TheVariants.{Guarded, Raw};
ghost use Rattle.cbm_direct_device.specs.DirectDevices.{IsSwitchedOnDirect};
ghost use Rattle.yellowadze1541.specs.AnyDevices.{port_of, IsPlainDrive, IsDirectDrive};
ghost use Rattle.yellowadze1541.specs.Drives.{is_set, lines_from_flags, moment_or_never, pace_of, party_from, Acts, Hears, IsHeldAs, Opens, Reacts};
ghost use Rattle.yellowadze1541.specs.DirectDrives.{HearsDirect, ReactsDirect};

use crate::any_device::AnyDevice;
use crate::handle::{Handle, back, empty, of};
use crate::inner::Inner;
use crate::shapes::{Pulls, Reacted, flag};
use cbm_device::{Device, DeviceRefusal};
use cbm_direct::Access;
use cbm_direct_device::DirectDevice;
use cbm_drive::{Held, Lines, Pace, Party};
use std::alloc::Global;
use std::mem::replace;

/// No reaction is due.
const NEVER: u64 = u64::MAX;

/// A drive for a handle. The one error is `Memory`.
pub(crate) fn boxed(alloc: Global, device: AnyDevice) -> Result<Box<Inner>, DeviceRefusal>
    ensures ok { IfOk result (λ b. b.value.device ≡ device) }
    ensures err { IfErr result (λ r. r ≡ DeviceRefusal.Memory) }
{
    match Box::new(alloc, Inner { device }) {
        Ok(inner) => Ok(inner),
        Err(_) => Err(DeviceRefusal::Memory),
    }
}

/// A drive without direct access for a handle. Errors: `Invalid`, `NoImage`, `Memory`.
fn opened(
    alloc: Global,
    image: &[u8],
    protected: bool,
    party: Party,
) -> Result<Box<Inner>, DeviceRefusal>
    ensures ok { IfOk result (λ b. IsPlainDrive (IsSwitchedOn image.now protected party) b.value.device) }
    ensures err { IfErr result (λ r. ((r ≡ DeviceRefusal.Invalid) × IsUnfitParty party) ⊎ ((r ≡ DeviceRefusal.Memory) ⊎ IsOpenRefusal image.now r)) }
{
    let device = Device::open(alloc, image, protected, party)?;
    match Box::new(alloc, device) {
        Ok(device) => boxed(alloc, AnyDevice::Plain(device)),
        Err(_) => Err(DeviceRefusal::Memory),
    }
}

/// A drive with direct access for a handle. Errors: `Invalid`, `NoImage`, `Memory`.
// (two calls share it: inlined, and with `?`, each would have one copy of the drive more on its stack)
#[inline(never)]
fn opened_direct(
    alloc: Global,
    image: &[u8],
    protected: bool,
    party: Party,
    access: Access,
) -> Result<Box<Inner>, DeviceRefusal>
    ensures ok { IfOk result (λ b. IsDirectDrive (IsSwitchedOnDirect image.now protected party access) b.value.device) }
    ensures err { IfErr result (λ r. ((r ≡ DeviceRefusal.Invalid) × IsUnfitParty party) ⊎ ((r ≡ DeviceRefusal.Memory) ⊎ IsOpenRefusal image.now r)) }
{
    match DirectDevice::open(alloc, image, protected, party, access) {
        Ok(device) => match Box::new(alloc, device) {
            Ok(device) => boxed(alloc, AnyDevice::Direct(device)),
            Err(_) => Err(DeviceRefusal::Memory),
        },
        Err(refusal) => Err(refusal),
    }
}

/// Whether a handle holds a drive.
fn holds(alloc: Global, d: &mut Handle) -> bool
    ensures kept { d.new.value ≡ d.old.value }
    ensures holds { MatchBool result (d.old.value ≢ None) (d.old.value ≡ None) }
{
    match back(alloc, replace(d, empty())) {
        Some(inner) => {
            *d = of(inner);
            true
        }
        None => false,
    }
}

/// The party that a drive is to be for an empty handle. Errors: `NoDrive` if the handle holds a drive, `Invalid` if the pace is
/// none.
fn party_for(
    alloc: Global,
    d: &mut Handle,
    device: u8,
    reaction: u8,
    pace: u8,
) -> Result<Party, DeviceRefusal>
    ensures kept { d.new.value ≡ d.old.value }
    ensures ok { IfOk result (λ b. (b ≡ party_from device reaction pace) × (pace ≤ 1) × (d.old.value ≡ None)) }
    ensures err { IfErr result (λ r. ((r ≡ DeviceRefusal.NoDrive) × (d.old.value ≢ None)) ⊎ ((r ≡ DeviceRefusal.Invalid) × (1 < pace))) }
{
    if holds(alloc, d) {
        return Err(DeviceRefusal::NoDrive);
    }
    if pace > 1 {
        return Err(DeviceRefusal::Invalid);
    }
    Ok(Party {
        device,
        reaction,
        pace: pace_with(pace),
    })
}

/// A handle is given a drive, if there is one.
fn hold(d: &mut Handle, made: Result<Box<Inner>, DeviceRefusal>) -> i32
    ensures { MatchResult made (λ b. (result ≡ fine) × (d.new.value ≡ Some b.value))
        (λ why. (result ≡ answer_number why) × (d.new.value ≡ d.old.value)) }
{
    match made {
        Ok(inner) => {
            *d = of(inner);
            0
        }
        Err(refusal) => refusal.number(),
    }
}

/// A drive is switched on with the disk of an image, of which it makes a copy: its number is 8 to 11, its reaction 1 to 60, its pace
/// 0 for hosts that keep the bus profile, or 1 for the KERNAL of a C64 or VIC-20. The handle holds none before.
#[unsafe(no_mangle)]
pub extern "C" fn y1541_open(
    alloc: Global,
    d: &mut Handle,
    image: &[u8],
    protected: u8,
    device: u8,
    reaction: u8,
    pace: u8,
) -> i32
    ensures { Opens d.old.value d.new.value result image.now (party_from device reaction pace) pace
        (IsPlainDrive (IsSwitchedOn image.now (is_set protected) (party_from device reaction pace))) }
{
    match party_for(alloc, d, device, reaction, pace) {
        Ok(party) => hold(d, opened(alloc, image, protected != 0, party)),
        Err(refusal) => refusal.number(),
    }
}

/// The same, but with direct access: the drive reads single blocks, and writes those that are nobody's, where one that `y1541_open` made
/// answers 31 and 70.
#[unsafe(no_mangle)]
pub extern "C" fn y1541_open_direct(
    alloc: Global,
    d: &mut Handle,
    image: &[u8],
    protected: u8,
    device: u8,
    reaction: u8,
    pace: u8,
) -> i32
    ensures { Opens d.old.value d.new.value result image.now (party_from device reaction pace) pace
        (IsDirectDrive (IsSwitchedOnDirect image.now (is_set protected) (party_from device reaction pace) Guarded)) }
{
    match party_for(alloc, d, device, reaction, pace) {
        Ok(party) => hold(
            d,
            opened_direct(alloc, image, protected != 0, party, Access::Guarded),
        ),
        Err(refusal) => refusal.number(),
    }
}

/// The same, but any block may be written: nothing is promised of the disk then but that no other block of it changes.
#[unsafe(no_mangle)]
pub extern "C" fn y1541_open_raw(
    alloc: Global,
    d: &mut Handle,
    image: &[u8],
    protected: u8,
    device: u8,
    reaction: u8,
    pace: u8,
) -> i32
    ensures { Opens d.old.value d.new.value result image.now (party_from device reaction pace) pace
        (IsDirectDrive (IsSwitchedOnDirect image.now (is_set protected) (party_from device reaction pace) Raw)) }
{
    match party_for(alloc, d, device, reaction, pace) {
        Ok(party) => hold(
            d,
            opened_direct(alloc, image, protected != 0, party, Access::Raw),
        ),
        Err(refusal) => refusal.number(),
    }
}

/// The pace of a number.
pub(crate) fn pace_with(number: u8) -> Pace
    ensures { result ≡ pace_of number }
{
    match number {
        0 => Pace::Profile,
        _ => Pace::Kernal,
    }
}

/// The drive is gone, and its memory given back; the handle holds none.
#[unsafe(no_mangle)]
pub extern "C" fn y1541_close(alloc: Global, d: &mut Handle)
    ensures { d.new.value ≡ None }
{
    let _gone = back(alloc, replace(d, empty()));
}

/// From this moment on all others together hold these lines low; ATN changes first, then CLOCK, then DATA.
#[unsafe(no_mangle)]
pub extern "C" fn y1541_lines(
    alloc: Global,
    d: &mut Handle,
    moment: u64,
    atn_low: u8,
    clock_low: u8,
    data_low: u8,
) -> i32
    ensures { let lines = lines_from_flags atn_low clock_low data_low in
        Acts d.old.value d.new.value result (Hears moment lines result) (HearsDirect moment lines result) }
{
    let Some(mut inner) = back(alloc, replace(d, empty())) else {
        return DeviceRefusal::NoDrive.number();
    };
    let lines = Lines {
        atn_low: atn_low != 0,
        clock_low: clock_low != 0,
        data_low: data_low != 0,
    };
    let said = inner.device.lines(moment, lines);
    *d = of(inner);
    said
}

/// When the drive reacts next, in microseconds; the greatest number if it waits for a line, or there is none.
#[unsafe(no_mangle)]
pub extern "C" fn y1541_next_due(alloc: Global, d: &mut Handle) -> u64
    ensures kept { d.new.value ≡ d.old.value }
    ensures due { MatchOption d.old.value (result ≡ 2 ^ 64 - 1)
        (λ inner. result ≡ moment_or_never (port_due (port_of inner.device))) }
{
    let Some(inner) = back(alloc, replace(d, empty())) else {
        return NEVER;
    };
    let due = inner.device.next_due();
    *d = of(inner);
    match due {
        Some(moment) => moment,
        None => NEVER,
    }
}

/// The reaction that is due by a moment happens, when it is due.
#[unsafe(no_mangle)]
pub extern "C" fn y1541_due(
    alloc: Global,
    d: &mut Handle,
    moment: u64,
    reacted: &mut Reacted,
) -> i32
    ensures reacts { Acts d.old.value d.new.value result (Reacts moment result reacted.old reacted.new)
        (ReactsDirect moment result reacted.old reacted.new) }
    ensures none { d.old.value ≡ None → reacted.new ≡ reacted.old }
{
    let Some(mut inner) = back(alloc, replace(d, empty())) else {
        return DeviceRefusal::NoDrive.number();
    };
    let said = inner.device.due(moment, reacted);
    *d = of(inner);
    said
}

/// The lines that a drive holds, for C.
fn shown(held: Held) -> Pulls
    ensures { IsHeldAs held result }
{
    Pulls {
        clock_low: flag(held.clock_low),
        data_low: flag(held.data_low),
    }
}

/// The lines that the drive holds low now.
#[unsafe(no_mangle)]
pub extern "C" fn y1541_pulls_now(alloc: Global, d: &mut Handle, pulls: &mut Pulls) -> i32
    ensures kept { d.new.value ≡ d.old.value }
    ensures held { MatchOption d.old.value ((result ≡ answer_number DeviceRefusal.NoDrive) × (pulls.new ≡ pulls.old))
        (λ inner. (result ≡ fine) × IsHeldAs (port_of inner.device).own pulls.new) }
{
    let Some(inner) = back(alloc, replace(d, empty())) else {
        return DeviceRefusal::NoDrive.number();
    };
    *pulls = shown(inner.device.pulls());
    *d = of(inner);
    0
}
