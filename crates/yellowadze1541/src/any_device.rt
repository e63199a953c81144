//! A drive without direct access, or with it: each call on it, as a number for C.
ghost use Rattle.std.specs.Prelude.{◌≡◌, ◌++◌, ◌⊎◌, drop, length, MatchResult};
ghost use Rattle.cbm_iec.specs.Ports.{port_due};
ghost use Rattle.cbm_device.specs.Answers.{fine, answer_number};
ghost use Rattle.cbm_device.specs.Channels.{opening_acts, writing_acts, closing_acts};
ghost use Rattle.cbm_device.specs.Devices.{IsRestarted, GivesImage};
ghost use Rattle.cbm_direct_device.specs.DirectDevices.{IsRestartedDirect, GivesImageDirect};
ghost use Rattle.yellowadze1541.specs.AnyDevices.{port_of, disk_of, number_of_status, OfEither, ActsOn};
ghost use Rattle.yellowadze1541.specs.Channels.{TellsActs, TellsActsDirect, Reads, ReadsDirect};
ghost use Rattle.yellowadze1541.specs.Looks.{flag as flag_of};
ghost use Rattle.yellowadze1541.specs.Drives.{Hears, IsTold, Reacts, Ejects, Inserts};
ghost use Rattle.yellowadze1541.specs.DirectDrives.{HearsDirect, ReactsDirect, EjectsDirect, InsertsDirect};
ghost use Rattle.yellowadze1541.specs.Snapshots.{GivesState, GivesNoState};

use crate::shapes::{Reacted, flag};
use cbm_device::{Came, Device, DeviceReaction, DeviceRefusal, number};
use cbm_direct_device::DirectDevice;
use cbm_drive::{Held, Lines};
use std::alloc::Global;

/// A drive on lines. (It stands in a box of its own: made of either kind in its caller's frame it would take stack as long as two.)
#[derive(Drop)]
pub enum AnyDevice {
    /// Without direct access.
    Plain(Box<Device>),
    /// With direct access.
    Direct(Box<DirectDevice>),
}

/// What C is told of a reaction.
fn told(reaction: DeviceReaction) -> Reacted
    ensures { IsTold reaction result }
{
    let was = reaction.was;
    let now = reaction.now;
    Reacted {
        moment: reaction.moment,
        clock_low: flag(now.clock_low),
        data_low: flag(now.data_low),
        clock_changed: flag(was.clock_low != now.clock_low),
        data_changed: flag(was.data_low != now.data_low),
    }
}

/// What C is told where a reaction was due, or none was.
fn report(done: Result<DeviceReaction, DeviceRefusal>, reacted: &mut Reacted) -> i32
    ensures { MatchResult done (λ r. (result ≡ fine) × IsTold r reacted.new)
        (λ why. (result ≡ answer_number why) × (reacted.new ≡ reacted.old)) }
{
    match done {
        Ok(reaction) => {
            *reacted = told(reaction);
            0
        }
        Err(refusal) => refusal.number(),
    }
}

/// What C is told where bytes came from a channel, or none could.
fn report_came(done: Result<Came, DeviceRefusal>, got: &mut usize, last: &mut u8) -> i32
    ensures { MatchResult done (λ came. (result ≡ fine) × (got.new ≡ came.count) × (last.new ≡ flag_of came.marked))
        (λ why. (result ≡ answer_number why) × (got.new ≡ got.old) × (last.new ≡ last.old)) }
{
    match done {
        Ok(came) => {
            *got = came.count;
            *last = flag(came.marked);
            0
        }
        Err(refusal) => refusal.number(),
    }
}

impl AnyDevice {
    /// From this moment on all others together hold these lines.
    pub fn lines(&mut self, moment: u64, others: Lines) -> i32
        ensures { ActsOn (Hears moment others result) (HearsDirect moment others result) self.old self.new }
    {
        match self {
            AnyDevice::Plain(device) => number(device.lines(moment, others)),
            AnyDevice::Direct(device) => number(device.lines(moment, others)),
        }
    }

    /// When the next reaction is due, in microseconds; None if nothing is due.
    pub fn next_due(&self) -> Option<u64>
        ensures { result ≡ port_due (port_of self.now) }
    {
        match self {
            AnyDevice::Plain(device) => device.next_due(),
            AnyDevice::Direct(device) => device.next_due(),
        }
    }

    /// The reaction that is due by a moment happens, when it is due.
    pub fn due(&mut self, moment: u64, reacted: &mut Reacted) -> i32
        ensures { ActsOn (Reacts moment result reacted.old reacted.new) (ReactsDirect moment result reacted.old reacted.new)
            self.old self.new }
    {
        match self {
            AnyDevice::Plain(device) => report(device.due(moment), reacted),
            AnyDevice::Direct(device) => report(device.due(moment), reacted),
        }
    }

    /// The lines that the drive holds.
    pub fn pulls(&self) -> Held
        ensures { result ≡ (port_of self.now).own }
    {
        match self {
            AnyDevice::Plain(device) => device.pulls(),
            AnyDevice::Direct(device) => device.pulls(),
        }
    }

    /// The number of the status, which channel 15 reports; nothing of it is taken.
    pub fn status(&self) -> u8
        ensures { result ≡ number_of_status self.now }
    {
        match self {
            AnyDevice::Plain(device) => device.status(),
            AnyDevice::Direct(device) => device.status(),
        }
    }

    /// The drive is switched off and on with its disk.
    pub fn reset(&mut self)
        ensures { ActsOn IsRestarted IsRestartedDirect self.old self.new }
    {
        match self {
            AnyDevice::Plain(device) => device.reset(),
            AnyDevice::Direct(device) => device.reset(),
        }
    }

    /// The image of the disk that is in the drive, in the format in which it was put in.
    pub fn image(&self, alloc: Global, out: &mut [u8], needed: &mut usize) -> i32
        ensures { OfEither (GivesImage result out.old out.new needed.old needed.new)
            (GivesImageDirect result out.old out.new needed.old needed.new) self.now }
    {
        match self {
            AnyDevice::Plain(device) => number(device.image(alloc, out, needed)),
            AnyDevice::Direct(device) => number(device.image(alloc, out, needed)),
        }
    }

    /// How often a sector of the disk in the drive was written, or all were at once, since it was put in; it stops at 2^64 - 1.
    pub fn writes(&self) -> u64
        ensures { result ≡ (disk_of self.now).writes }
    {
        match self {
            AnyDevice::Plain(device) => device.writes(),
            AnyDevice::Direct(device) => device.writes(),
        }
    }

    /// The disk of another image is put in, while the drive goes on.
    pub fn insert(&mut self, alloc: Global, image: &[u8], protected: bool) -> i32
        ensures { ActsOn (Inserts result image.now protected) (InsertsDirect result image.now protected) self.old self.new }
    {
        match self {
            AnyDevice::Plain(device) => number(device.insert(alloc, image, protected)),
            AnyDevice::Direct(device) => number(device.insert(alloc, image, protected)),
        }
    }

    /// The disk is taken out, while the drive goes on, and given as its image.
    pub fn eject(&mut self, alloc: Global, out: &mut [u8], needed: &mut usize) -> i32
        ensures { ActsOn (Ejects result out.old out.new needed.old needed.new)
            (EjectsDirect result out.old out.new needed.old needed.new) self.old self.new }
    {
        match self {
            AnyDevice::Plain(device) => number(device.eject(alloc, out, needed)),
            AnyDevice::Direct(device) => number(device.eject(alloc, out, needed)),
        }
    }

    /// The whole state of the drive as bytes, while it goes on; that of a drive with direct access isn't given.
    pub fn save(&self, alloc: Global, out: &mut [u8], needed: &mut usize) -> i32
        ensures { OfEither (GivesState result out.old out.new needed.old needed.new)
            (GivesNoState result out.old out.new needed.old needed.new) self.now }
    {
        match self {
            AnyDevice::Plain(device) => number(device.save(alloc, out, needed)),
            AnyDevice::Direct(_) => DeviceRefusal::Invalid.number(),
        }
    }

    /// OPEN of a channel with a text, or on 15 a command.
    pub fn open_channel(&mut self, channel: u8, text: &[u8]) -> i32
        ensures { ActsOn (TellsActs channel (λ device. opening_acts device channel text.now) result)
            (TellsActsDirect channel (λ device. opening_acts device channel text.now) result) self.old self.new }
    {
        match self {
            AnyDevice::Plain(device) => number(device.open_channel(channel, text)),
            AnyDevice::Direct(device) => number(device.open_channel(channel, text)),
        }
    }

    /// Bytes for a channel.
    pub fn write_channel(&mut self, channel: u8, bytes: &[u8]) -> i32
        ensures { ActsOn (TellsActs channel (λ device. writing_acts device channel bytes.now) result)
            (TellsActsDirect channel (λ device. writing_acts device channel bytes.now) result) self.old self.new }
    {
        match self {
            AnyDevice::Plain(device) => number(device.write_channel(channel, bytes)),
            AnyDevice::Direct(device) => number(device.write_channel(channel, bytes)),
        }
    }

    /// Bytes of a channel, as many as there is room for.
    pub fn read_channel(
        &mut self,
        channel: u8,
        out: &mut [u8],
        got: &mut usize,
        last: &mut u8,
    ) -> i32
        ensures { ActsOn (Reads channel result out.old out.new got.old got.new last.old last.new)
            (ReadsDirect channel result out.old out.new got.old got.new last.old last.new) self.old self.new }
    {
        match self {
            AnyDevice::Plain(device) => report_came(device.read_channel(channel, out), got, last),
            AnyDevice::Direct(device) => report_came(device.read_channel(channel, out), got, last),
        }
    }

    /// CLOSE of a channel.
    pub fn close_channel(&mut self, channel: u8) -> i32
        ensures { ActsOn (TellsActs channel (λ device. closing_acts device channel) result)
            (TellsActsDirect channel (λ device. closing_acts device channel) result) self.old self.new }
    {
        match self {
            AnyDevice::Plain(device) => number(device.close_channel(channel)),
            AnyDevice::Direct(device) => number(device.close_channel(channel)),
        }
    }
}
