//! A drive on lines, with the disk of an image.
ghost use Rattle.std.specs.Prelude.{◌≡◌, ◌≤◌, ◌<◌, ◌^◌, ◌⊎◌, None, Err, OnOk, OnErr, IfOk, IfErr, MatchBool};
ghost use Rattle.cbm_machine.specs.Codes.{code_number};
ghost use Rattle.cbm_machine.specs.Machines.{Machine};
ghost use Rattle.cbm_iec.specs.Machines.{acted};
ghost use Rattle.cbm_iec.specs.Ports.{port_due, resting, told, told_act, reacted, reaction_act};
ghost use Rattle.cbm_session.specs.Following.{IsInTime};
ghost use Rattle.cbm_drive.specs.Afresh.{switched_on};
ghost use Rattle.cbm_drive.specs.Desks as desks;
ghost use Rattle.cbm_drive.specs.Desks.{desk_says, desk_shows, desk_step, DeskStands};
ghost use Rattle.cbm_drive.specs.Playback.{IsActed};
ghost use Rattle.cbm_drive.specs.Seats.{Seated};
ghost use Rattle.cbm_device.specs.Answers.{answer};
ghost use Rattle.cbm_device.specs.ImageDisks.{no_disk, counted_seen, IsOpenRefusal};
ghost use Rattle.cbm_device.specs.Devices.{tell_in_turn, react_at, IsUnfitParty, IsSwitchedOn, IsOnTime, IsOutOfTime, IsDueBefore, HasHeard, DeviceHasReacted, HasNothingDue, IsRestarted, IsExchanged, HasAnotherDisk, GivesImage, StandsFor, LeadsDesk, StandsPowered};

mod calls;
mod saving;

use crate::image_disk::ImageDisk;
use crate::refusal::DeviceRefusal;
use crate::room::given;
use cbm_drive::{Channels, Desk, Drive, Held, Lines, Party};
use cbm_iec::{DEVICES, SLOWEST_REACTION};
use cbm_image::{Kind, kind_of};
use std::alloc::Global;
use std::marker::Model;

/// Moments come before this one, in microseconds.
const LAST: u64 = 1 << 60;

/// What a reaction did.
#[derive(Clone, Copy, Debug, PartialEq, Eq)]
pub struct DeviceReaction {
    /// When, in microseconds.
    pub moment: u64,
    /// The lines that the drive held before.
    pub was: Held,
    /// Those that it holds since.
    pub now: Held,
}

/// A drive on lines with the disk of an image. It keeps the format of that image, what all others hold, and when anything last
/// happened.
#[derive(Drop)]
pub struct Device {
    drive: Drive<Desk<ImageDisk>>,
    kind: Option<Kind>,
    others: Lines,
    latest: u64,
}

impl Model for Device {
    ghost use Rattle.std.specs.Prelude.{◌≡◌};
    ghost use Rattle.cbm_device.specs.Devices.{OnLines};

    ghost Value = { OnLines };

    ghost view = { λ d. record { seat = d.drive; kind = d.kind; latest = d.latest } };

    ghost invariant = { λ d. d.others ≡ d.drive.port.others };
}

/// A drive that is switched on with this disk.
fn powered(disk: ImageDisk, channels: Channels, party: Party) -> Drive<Desk<ImageDisk>>
    requires device { party.device < 31 }
    requires reaction { 1 ≤ party.reaction }
    ensures port { result.port ≡ resting party }
    ensures machine { result.machine ≡ switched_on party.device party.pace disk }
    ensures stands { StandsPowered disk party result.machine }
{
    let desk = Desk::at_power_up(disk, channels, party.device).with_pace(party.pace);
    Drive::new(desk, party)
}

impl Device {
    /// A drive that is switched on with the disk of an image. Errors: `Invalid` if the device number isn't 8 to 11 or the
    /// reaction not 1 to 60, `NoImage`, `Memory`.
    pub fn open(
        alloc: Global,
        image: &[u8],
        protected: bool,
        party: Party,
    ) -> Result<Device, DeviceRefusal>
        ensures ok { IfOk result (IsSwitchedOn image.now protected party) }
        ensures outside { IsUnfitParty party → result ≡ Err DeviceRefusal.Invalid }
        ensures err { IfErr result (λ r. ((r ≡ DeviceRefusal.Invalid) × IsUnfitParty party) ⊎ IsOpenRefusal image.now r) }
    {
        if party.device < DEVICES.0
            || party.device > DEVICES.1
            || party.reaction < 1
            || party.reaction > SLOWEST_REACTION
        {
            return Err(DeviceRefusal::Invalid);
        }
        let disk = ImageDisk::open(alloc, image, protected)?;
        let channels = Channels::new(alloc)?;
        Ok(Device {
            drive: powered(disk, channels, party),
            kind: Some(kind_of(image)),
            others: Lines::FREE,
            latest: 0,
        })
    }

    /// The others hold these lines from a moment on.
    #[inline(always)]
    fn hear(&mut self, moment: u64, others: Lines)
        requires { moment < 2 ^ 60 }
        ensures port { self.new.seat.port ≡ told moment others self.old.seat.port }
        ensures machine { LeadsDesk (told_act others self.old.seat.port) self.old.seat.machine self.new.seat.machine }
        ensures acted { IsActed desk_shows (told_act others self.old.seat.port) self.old.seat.machine self.new.seat.machine }
        ensures latest { self.new.latest ≡ self.old.latest }
        ensures kind { self.new.kind ≡ self.old.kind }
    {
        self.drive.line(moment, others);
        self.others = others;
    }

    /// Whether a reaction is due before a moment.
    fn is_due_before(&self, moment: u64) -> bool
        ensures { let due = port_due self.now.seat.port in MatchBool result (IsDueBefore moment due) (IsInTime moment due) }
    {
        match self.drive.next_due() {
            Some(due) => due < moment,
            None => false,
        }
    }

    /// From this moment on all others together hold these lines. If several change, ATN does first, then CLOCK, then DATA. The
    /// one error is `Invalid`: something happened later already, a reaction is due before, or the moment is none.
    pub fn lines(&mut self, moment: u64, others: Lines) -> Result<(), DeviceRefusal>
        ensures in_time { OnOk result (IsOnTime moment self.old) }
        ensures told { OnOk result (HasHeard moment others self.old self.new) }
        ensures stands { (s : Seated (desks.Desk Machine)) → StandsFor self.old.seat s →
            OnOk result (StandsFor self.new.seat (tell_in_turn moment self.old.seat.port.others others s)) }
        ensures err { IfErr result (λ r. (r ≡ DeviceRefusal.Invalid) × IsOutOfTime moment self.old × (self.new ≡ self.old)) }
    {
        if moment >= LAST || moment < self.latest || self.is_due_before(moment) {
            return Err(DeviceRefusal::Invalid);
        }
        let was = self.others;
        let after_atn = Lines {
            atn_low: others.atn_low,
            clock_low: was.clock_low,
            data_low: was.data_low,
        };
        let after_clock = Lines {
            atn_low: others.atn_low,
            clock_low: others.clock_low,
            data_low: was.data_low,
        };
        self.hear(moment, after_atn);
        self.hear(moment, after_clock);
        self.hear(moment, others);
        self.latest = moment;
        Ok(())
    }

    /// When the next reaction is due, in microseconds; None if nothing is due.
    #[inline(always)]
    pub fn next_due(&self) -> Option<u64>
        ensures { result ≡ port_due self.now.seat.port }
    {
        self.drive.next_due()
    }

    /// The reaction that is due happens.
    #[inline(always)]
    fn react(&mut self, moment: u64)
        requires { moment < 2 ^ 60 }
        ensures port { self.new.seat.port ≡ reacted moment (desk_shows self.old.seat.machine) self.old.seat.port }
        ensures acted { let shown = desk_shows self.old.seat.machine in
            IsActed desk_shows (reaction_act shown self.old.seat.port) self.old.seat.machine self.new.seat.machine }
        ensures says { (m : desks.Desk Machine) → DeskStands counted_seen self.old.seat.machine m →
            self.new.seat.port ≡ reacted moment (desk_says m) self.old.seat.port }
        ensures machine { (m : desks.Desk Machine) → DeskStands counted_seen self.old.seat.machine m →
            DeskStands counted_seen self.new.seat.machine
            (acted (desks.Desk Machine) desk_step (reaction_act (desk_says m) self.old.seat.port) m) }
        ensures latest { self.new.latest ≡ self.old.latest }
        ensures kind { self.new.kind ≡ self.old.kind }
    {
        let _changes = self.drive.due(moment);
    }

    /// The reaction that is due by a moment happens, when it is due. The one error is `Absent`: none is due by then.
    pub fn due(&mut self, moment: u64) -> Result<DeviceReaction, DeviceRefusal>
        ensures ok { IfOk result (λ r. (r.moment ≤ moment) × DeviceHasReacted r self.old self.new) }
        ensures stands { (s : Seated (desks.Desk Machine)) → StandsFor self.old.seat s →
            IfOk result (λ r. StandsFor self.new.seat (react_at r.moment s)) }
        ensures err { IfErr result (λ r. (r ≡ DeviceRefusal.Absent) × HasNothingDue moment self.old × (self.new ≡ self.old)) }
    {
        let Some(due) = self.drive.next_due() else {
            return Err(DeviceRefusal::Absent);
        };
        if due > moment || due >= LAST {
            return Err(DeviceRefusal::Absent);
        }
        let was = self.drive.own();
        self.react(due);
        self.latest = due;
        Ok(DeviceReaction {
            moment: due,
            was,
            now: self.drive.own(),
        })
    }

    /// The lines that the drive holds.
    pub fn pulls(&self) -> Held
        ensures { result ≡ self.now.seat.port.own }
    {
        self.drive.own()
    }

    /// The number of the status, which channel 15 reports; nothing of it is taken.
    pub fn status(&self) -> u8
        ensures value { result ≡ code_number self.now.seat.machine.dos.told.status.code }
        ensures code { (d : desks.Desk Machine) → DeskStands counted_seen self.now.seat.machine d →
            result ≡ code_number d.dos.status.code }
    {
        self.drive.machine().dos().status_code()
    }

    /// The drive is switched off and on with its disk: its lines are free, no channel is open, and what was being written isn't
    /// closed. It takes all lines for free until it is told of them.
    pub fn reset(&mut self)
        ensures { IsRestarted self.old self.new }
    {
        self.drive.restart();
        self.others = Lines::FREE;
    }

    /// The disk that is in the drive.
    fn disk(&self) -> &ImageDisk
        ensures { result.now ≡ self.now.seat.machine.dos.medium }
    {
        self.drive.machine().dos().medium()
    }

    /// The image of the disk that is in the drive, in the format in which it was put in, goes to the
    /// caller's room, and how many bytes it has is reported; a file that is being written stands in it as on the disk, not closed.
    /// Errors: `Memory`, `NoRoom`, `Absent` if there is no disk.
    pub fn image(
        &self,
        alloc: Global,
        out: &mut [u8],
        needed: &mut usize,
    ) -> Result<(), DeviceRefusal>
        ensures { GivesImage (answer result) out.old out.new needed.old needed.new self.now }
    {
        match self.kind {
            Some(kind) => given(self.disk().save(alloc, kind), out, needed),
            None => Err(DeviceRefusal::Absent),
        }
    }

    /// How often a sector of the disk in the drive was written, or all were at once, since it was put in; it stops at 2^64 - 1.
    pub fn writes(&self) -> u64
        ensures { result ≡ self.now.seat.machine.dos.medium.writes }
    {
        self.disk().writes()
    }

    /// The disk of another image is put in, while the drive goes on: no channel is open, what was being written isn't closed, and
    /// its lines and the status stay. Errors: `NoImage`, `Memory`, and then nothing has happened.
    pub fn insert(
        &mut self,
        alloc: Global,
        image: &[u8],
        protected: bool,
    ) -> Result<(), DeviceRefusal>
        ensures ok { OnOk result (HasAnotherDisk image.now protected self.old self.new) }
        ensures err { IfErr result (λ r. IsOpenRefusal image.now r × (self.new ≡ self.old)) }
    {
        let disk = ImageDisk::open(alloc, image, protected)?;
        self.drive.insert(disk);
        self.kind = Some(kind_of(image));
        Ok(())
    }

    /// The disk is taken out, while the drive goes on, and its image goes to the caller's room. Errors: `Memory`, `NoRoom`, `Absent`
    /// if there is none; then nothing has happened.
    pub fn eject(
        &mut self,
        alloc: Global,
        out: &mut [u8],
        needed: &mut usize,
    ) -> Result<(), DeviceRefusal>
        ensures given { GivesImage (answer result) out.old out.new needed.old needed.new self.old }
        ensures ok { OnOk result (IsExchanged no_disk None self.old self.new) }
        ensures err { OnErr result (self.new ≡ self.old) }
    {
        self.image(alloc, out, needed)?;
        self.drive.insert(ImageDisk::blank());
        self.kind = None;
        Ok(())
    }
}
