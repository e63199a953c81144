//! A drive alone on a cable with a host, and the host's requests to it, byte by byte.
ghost use Rattle.std.specs.Prelude.{◌≡◌, ◌∷◌, []};
ghost use Rattle.cbm_channel.specs.Standing.{Kept};
ghost use Rattle.cbm_drive.specs.Desks as desks;
ghost use Rattle.cbm_drive.specs.Seats.{Seated};

use crate::performer::Performer;
use crate::request::Request;
use cbm_drive::{Bus, Channels, Desk, Drive, Pace, Party, Watches};
use cbm_medium::Medium;
use std::marker::Model;

/// How long the drive takes to react, in microseconds.
const REACTION: u8 = 20;

/// When the first request begins, in microseconds.
const FIRST: u64 = 1000;

/// A drive with its DOS alone on a cable with a host. Between the host's requests it rests; the next one begins when the
/// last one was over.
///
/// What a call promises of the machine of named files holds if the medium didn't fail by itself in it (`HasNotFailed`).
#[derive(Drop)]
pub struct Hosted<M: Medium> {
    bus: Bus<Desk<M>, 1>,
    device: u8,
    pace: Pace,
    moment: u64,
}

impl<M: Medium> Model for Hosted<M> {
    ghost use Rattle.std.specs.Prelude.{◌≡◌, ◌≤◌, length};
    ghost use Rattle.cbm_channel.specs.Standing.{Kept};
    ghost use Rattle.cbm_host.specs.Hosted.{Hosting};

    ghost Value = { Hosting (Kept M) };

    ghost view = { λ h. record { bus = h.bus; device = h.device; pace = h.pace; moment = h.moment } };

    ghost invariant = { λ h. (8 ≤ h.device) × (h.device ≤ 11) × (length h.bus.drives ≡ 1) };
}

impl<M: Medium> Hosted<M> {
    ghost use Rattle.std.specs.Prelude.{◌≡◌, ◌+◌, ◌∷◌, ◌<◌, ◌≤◌, ◌^◌, [], ℕ, None, Some, IfSome, MatchOption};
    ghost use Rattle.cbm_machine.specs.Machines.{Machine};
    ghost use Rattle.cbm_volume.specs.Holding.{HoldsDisk};
    ghost use Rattle.cbm_host.specs.declared.request.Request.{Request};
    ghost use Rattle.cbm_host.specs.Engines.{channel_of};
    ghost use Rattle.cbm_host.specs.Hosted.{Rests, TakesNext, tracks_on, hosted_failures, HasNotFailed};
    ghost use Rattle.cbm_host.specs.Progress.{left_of};
    ghost use Rattle.cbm_host.specs.Requests.{longest};
    ghost use Rattle.cbm_iec.specs.declared.pace.Pace.TheVariants.{Profile};
    ghost use Rattle.cbm_host.specs.Served.{served, MovesFew};
    ghost use Rattle.cbm_drive.specs.Desks.{desk_shows};
    ghost use Rattle.cbm_host.specs.AnyDisk.{IsPoweredUp, RequestBegins, IsUnderWayAnyway, IsOverAnyway, RestsAnyway};

    /// A drive at power up with this medium and a device number from 8 to 11, at the profile's pace.
    pub fn new(medium: M, channels: Channels, device: u8) -> Hosted<M>
        requires low { 8 ≤ device }
        requires high { device ≤ 11 }
        ensures { IsPoweredUp M.seen result medium Profile }
    {
        Hosted::with_pace(medium, channels, device, Pace::Profile)
    }

    /// The same at this pace.
    pub fn with_pace(medium: M, channels: Channels, device: u8, pace: Pace) -> Hosted<M>
        requires low { 8 ≤ device }
        requires high { device ≤ 11 }
        ensures { IsPoweredUp M.seen result medium pace }
    {
        let desk = Desk::at_power_up(medium, channels, device).with_pace(pace);
        let party = Party {
            device,
            reaction: REACTION,
            pace,
        };
        Hosted {
            bus: Bus::new([Drive::new(desk, party)]),
            device,
            pace,
            moment: FIRST,
        }
    }

    /// A request to the drive that rests; its first change comes when the last request was over.
    pub fn ask<'a>(&self, request: Request<'a>) -> Performer<'a>
        requires moment { self.now.moment < 2 ^ 58 }
        requires channel { channel_of request ≤ 15 }
        ensures { RequestBegins M.seen self.now result request.entry }
    {
        Performer::with_pace(self.moment, self.device, request, self.pace)
    }

    /// Goes on with a request to the next byte that the host takes, and answers it and whether it carries EOI. None if the
    /// request is over, and then the drive rests again; so it is on any disk (`anyway`). Whatever the drive represents, less is
    /// left to come after a byte. Each event on the bus is told as it comes.
    pub fn take<T: Watches>(
        &mut self,
        performer: &mut Performer,
        watcher: &mut T,
    ) -> Option<(u8, bool)>
        ensures taken { TakesNext M.seen self.old self.new performer.old performer.new result }
        ensures anyway { (request : Request) (start : ℕ) → channel_of request ≤ 15 →
            IsUnderWayAnyway desk_shows self.old.pace self.old.device start self.old.bus performer.old request →
            MatchOption result
            (IsOverAnyway desk_shows self.new.pace self.new.device start self.new.bus self.new.moment request)
            (λ x. IsUnderWayAnyway desk_shows self.new.pace self.new.device start self.new.bus performer.new request) }
        ensures device { self.new.device ≡ self.old.device }
        ensures pace { self.new.pace ≡ self.old.pace }
        ensures fewer { IfSome result (λ x. left_of performer.new self.new.bus < left_of performer.old self.old.bus) }
        ensures limit { performer.new.limit ≡ performer.old.limit }
        ensures moment { MatchOption result (self.new.moment ≤ performer.old.limit)
            (λ x. self.new.moment ≡ self.old.moment) }
        ensures tracks { tracks_on M.seen self.new ≡ tracks_on M.seen self.old }
        ensures counted { hosted_failures M.seen self.old ≤ hosted_failures M.seen self.new }
    {
        match performer.next_byte(&mut self.bus, watcher) {
            Some(said) => {
                performer.begins(&self.bus);
                Some(said)
            }
            None => {
                performer.carries_out(&self.bus);
                self.moment = performer.over();
                None
            }
        }
    }

    /// Carries out a request: an OPEN or a command, bytes put, a CLOSE, or a get or a status, of which it lets go what the drive
    /// says. If at most 200,000 bytes are moved, the drive then rests for the machine that the request leads to; on any disk it
    /// rests again, and the next request doesn't begin before this one.
    pub fn carry_out<T: Watches>(&mut self, request: Request, watcher: &mut T)
        requires moment { self.old.moment < 2 ^ 58 }
        requires channel { channel_of request ≤ 15 }
        ensures rests { HasNotFailed M.seen self.old self.new →
            (m : Machine) → MovesFew request.entry → Rests M.seen self.old m →
            Rests M.seen self.new (served self.old.pace request.entry m).machine }
        ensures anyway { MovesFew request.entry → RestsAnyway desk_shows self.old → RestsAnyway desk_shows self.new }
        ensures later { MovesFew request.entry → RestsAnyway desk_shows self.old → self.old.moment ≤ self.new.moment }
        ensures soon { self.new.moment ≤ self.old.moment + longest self.old.pace }
        ensures pace { self.new.pace ≡ self.old.pace }
        ensures tracks { tracks_on M.seen self.new ≡ tracks_on M.seen self.old }
        ensures counted { hosted_failures M.seen self.old ≤ hosted_failures M.seen self.new }
    {
        request.sends_bytes();
        let mut performer = self.ask(request);
        'bytes: while let Some(_said) = self.take(&mut performer, watcher) {}
    }

    /// The medium, with all that was written to it.
    pub fn into_medium(self) -> M
        ensures disk { (m : Machine) → Rests M.seen self m →
            HoldsDisk (M.seen result).tracks (M.seen result).content m.disk }
        ensures tracks { (M.seen result).tracks ∷ [] ≡ tracks_on M.seen self }
    {
        let Hosted { bus, .. } = self;
        medium_of(bus)
    }
}

/// The medium of the one drive of a bus.
fn medium_of<M: Medium>(bus: Bus<Desk<M>, 1>) -> M
    ensures { (x : Seated (desks.Desk (Kept M))) → bus.drives ≡ x ∷ [] → result ≡ x.machine.dos.medium }
{
    let [drive] = bus.into_drives();
    drive.into_machine().into_medium()
}
