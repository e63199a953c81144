//! A host and drives on one cable.

use crate::drive::Drive;
use crate::drives::{Answer, all_rest, first_due, react, tell_all};
use crate::fault::{PlayFault, first_fault};
use crate::half::Half;
use crate::looking::{any_shows, first_shown};
use crate::playing::play_on;
use cbm_iec::{Change, Event, Lines, Machine};
use std::marker::Model;

/// Drives on one cable with a host. Of several whose reactions are due at one moment the one that is listed first answers
/// first.
///
/// What a call promises of the states that the machines represent holds if none of them failed in it (`Unfailed`).
#[derive(Drop)]
pub struct Bus<D: Machine, const N: usize> {
    drives: [Drive<D>; N],
    host: Lines,
}

impl<D: Machine, const N: usize> Model for Bus<D, N> {
    ghost use Rattle.std.specs.Prelude.{◌≤◌, length};
    ghost use Rattle.cbm_drive.specs.Cables.{Cabled};

    ghost Value = { Cabled D };

    ghost view = { λ b. record { host = b.host; drives = b.drives } };

    ghost invariant = { λ b. length b.drives ≤ 4 };
}

impl<D: Machine, const N: usize> Bus<D, N> {
    ghost use Rattle.std.specs.Prelude.{◌≡◌, ◌↔◌, ◌+◌, ◌^◌, ◌<◌, ◌≤◌, true, List, length, is_some, Some, None, Err, IfErr, OnOk, MatchOption};
    ghost use Rattle.cbm_drive.specs.Seats.{AreIdle, AreInTime, AreResting, AreCarried};
    ghost use Rattle.cbm_drive.specs.Cables.{all_free, IsDueFirst};
    ghost use Rattle.cbm_drive.specs.Halves.{half_alone, SaysHalfAlone};
    ghost use Rattle.cbm_drive.specs.Ordered.{fault_of};
    ghost use Rattle.cbm_drive.specs.declared.fault.PlayFault.{PlayFault};
    ghost use Rattle.cbm_drive.specs.declared.fault.PlayFault.TheVariants.{Memory};
    ghost use Rattle.cbm_drive.specs.Turning.{ForetellsShown, ReactsFirst, ChangeIsTold, FirstIsShown, IsFirstShown, PlaysList, HandsToEach, PlaysSessions, PlaysLoosely};
    ghost use Rattle.cbm_drive.specs.Playback.{Shown, Playback, IsPlayedBack, played_says, played_step};
    ghost use Rattle.cbm_drive.specs.Progress.{AreKept, IsNearer};

    /// Drives on a cable of which the host holds no line, in the order in which they answer at equal moments.
    pub fn new(drives: [Drive<D>; N]) -> Bus<D, N>
        requires { length drives ≤ 4 }
        ensures drives { result.drives ≡ drives }
        ensures host { result.host ≡ all_free }
    {
        Bus {
            drives,
            host: Lines::FREE,
        }
    }

    /// The drives, in that order.
    pub fn into_drives(self) -> [Drive<D>; N]
        ensures { result ≡ self.drives }
    {
        let Bus { drives, .. } = self;
        drives
    }

    /// Whether all rests, as when it was switched on: the host holds no line, and no drive has a role, a reaction that is due, or
    /// another's line that it last saw pulled.
    pub fn at_rest(&self) -> bool
        ensures { (result ≡ true) ↔ ((self.now.host ≡ all_free) × AreResting self.now.drives) }
    {
        let Lines {
            atn_low,
            clock_low,
            data_low,
        } = self.host;
        let is_free = !atn_low && !clock_low && !data_low;
        is_free && all_rest(self.drives.as_slice())
    }

    /// When the next reaction is due, in microseconds; None if no drive's is.
    pub fn next_due(&self) -> Option<u64>
        ensures { MatchOption result (AreIdle self.now.drives) (IsDueFirst self.now.drives) }
    {
        let (_, moment) = first_due(self.drives.as_slice())?;
        Some(moment)
    }

    /// The host changes a line: each drive sees it, with what all others hold then.
    #[inline(always)]
    pub fn line(&mut self, change: Change)
        requires { change.moment < 2 ^ 60 }
        ensures tells { ChangeIsTold _ D.State D.stands D.step D.says D.failures D.shows N self.old.host self.new.host change
            self.old.drives self.new.drives }
        // What was due is still due, or something later, or nothing, whatever the machines represent.
        ensures kept { AreKept change.moment self.old.drives self.new.drives }
        ensures carried { AreCarried D.lasting D.failures self.old.drives self.new.drives }
    {
        self.host = tell_all(self.drives.as_mut_slice(), self.host, change);
    }

    /// The reaction that is due first happens, to be called at the moment that `next_due` answers: all other drives see
    /// each line that the drive changes, with what is held then. None if no reaction is due. One reaction less is due at this
    /// moment then, and none before it, also on disks that aren't sound.
    pub fn due(&mut self, moment: u64) -> Option<Answer>
        requires { moment < 2 ^ 60 }
        ensures reacted { ReactsFirst _ D.State D.stands D.step D.says D.failures self.old self.new moment result }
        ensures nearer { IsDueFirst self.old.drives moment → IsNearer moment self.old.drives self.new.drives }
        ensures none { result ≡ None → AreIdle self.old.drives × (self.new ≡ self.old) }
        ensures idle { AreIdle self.old.drives → result ≡ None }
        ensures host { self.new.host ≡ self.old.host }
        ensures carried { AreCarried D.lasting D.failures self.old.drives self.new.drives }
    {
        let (place, _) = first_due(self.drives.as_slice())?;
        react(self.drives.as_mut_slice(), self.host, place, moment)
    }

    /// Whether a drive changes a line before a limit, if the host changes none.
    #[inline(always)]
    pub fn shows_before(&self, limit: u64) -> bool
        requires { limit < 2 ^ 60 }
        ensures says { ForetellsShown _ D.State D.stands D.step D.says self.now limit result }
        // Whatever the machines represent: so it is of those that play back what they show.
        ensures recorded { (later : List Shown) →
            ForetellsShown _ Playback (IsPlayedBack D.shows later) played_step played_says self.now limit result }
    {
        any_shows(self.drives.as_slice(), limit)
    }

    /// The first reaction before a limit that changes a line, and its moment. Those before it, which change none, happen.
    #[inline(always)]
    pub(crate) fn first_shown(&mut self, limit: u64) -> Option<(u64, Answer)>
        requires { limit < 2 ^ 60 }
        ensures shown { FirstIsShown _ D.State D.stands D.step D.says D.failures D.shows N self.old.host limit
            self.old.drives self.new.drives result }
        ensures first { IsFirstShown limit self.old.drives self.new.drives result }
        ensures host { self.new.host ≡ self.old.host }
        ensures carried { AreCarried D.lasting D.failures self.old.drives self.new.drives }
    {
        first_shown(self.drives.as_mut_slice(), self.host, limit)
    }

    /// The quick way of `first_shown` if a drive alone on the cable says half of a bit before a limit. None if there are
    /// more drives, or something else is due, or nothing, and then nothing has changed.
    #[inline(always)]
    pub(crate) fn half(&mut self, limit: u64) -> Option<Half>
        requires { limit < 2 ^ 60 }
        ensures comes { is_some result ≡ half_alone limit self.old.drives }
        ensures said { MatchOption result (self.new ≡ self.old) (SaysHalfAlone limit self.old self.new) }
        ensures carried { AreCarried D.lasting D.failures self.old.drives self.new.drives }
    {
        let (drive, others) = self.drives.as_mut_slice().split_first_mut()?;
        if !others.is_empty() {
            return None;
        }
        drive.half(limit)
    }

    /// Plays these changes of the host up to an end, in microseconds: all events, the host's and the drives', come one after
    /// the other, the reactions that are due at the end too. Errors: the first change that goes back in time or comes after
    /// the end, and then nothing was played; or want of memory, before a step: the events are all that happened.
    #[tactic(auto, using(crate::proofs::Ordered::in_order))]
    pub fn play(
        &mut self,
        changes: &[Change],
        end: u64,
        events: &mut Vec<Event>,
    ) -> Result<(), PlayFault>
        requires { end < 2 ^ 59 }
        ensures fault { (f : PlayFault) → fault_of 0 0 end changes.now ≡ Some f →
            (result ≡ Err f) × (self.new ≡ self.old) × (events.new ≡ events.old) }
        ensures memory { fault_of 0 0 end changes.now ≡ None → IfErr result (λ f. f ≡ Memory) }
        ensures settled { OnOk result (AreInTime (end + 1) self.new.drives) }
        ensures carried { AreCarried D.lasting D.failures self.old.drives self.new.drives }
        ensures played { PlaysList _ D.State D.stands D.step D.says D.failures self.old self.new end events.old.items
            events.new.items changes.now result }
        // From rest, whether or not the host keeps any timing; where it keeps the bus's; and where it does so loosely:
        ensures handed { HandsToEach _ D.State D.stands D.step D.says D.failures self.old self.new end events.old.items
            events.new.items changes.now result }
        ensures kept { PlaysSessions _ D.State D.stands D.step D.says D.failures self.old self.new end events.old.items
            events.new.items changes.now result }
        ensures loosely { PlaysLoosely _ D.State D.stands D.step D.says D.failures self.old self.new end
            events.old.items events.new.items changes.now result }
    {
        if let Some(fault) = first_fault(changes, 0, 0, end) {
            return Err(fault);
        }
        match play_on(self, changes, end, events) {
            Ok(()) => Ok(()),
            Err(_) => Err(PlayFault::Memory),
        }
    }
}
