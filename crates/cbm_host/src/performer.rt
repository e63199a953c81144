//! A request played on the bus, event by event.

ghost use Rattle.std.specs.Prelude.{◌≡◌, ◌≤◌};
ghost use Rattle.cbm_host.specs.Requests.{longest};

use crate::due::Due;
use crate::engine::Engine;
use crate::request::Request;
use cbm_drive::{Bus, Change, Event, Half, Machine, Pace, Player, Watches, Who};
use std::marker::Model;

/// How long a request to a drive of this pace takes at most, in microseconds.
fn longest(pace: Pace) -> u64
    ensures value { result ≡ longest pace }
    ensures bound { result ≤ 320000000 }
{
    match pace {
        Pace::Profile => 250_000_000,
        Pace::Kernal => 320_000_000,
    }
}

/// Plays a request of the host on a bus with one drive, and gives the events one by one; it takes no memory. What a call
/// promises of the states that the machine represents holds if it didn't fail in it (`Unfailed`).
#[derive(Drop)]
pub struct Performer<'a> {
    player: Player,
    engine: Engine<'a>,
    byte: Option<(u8, bool)>,
    limit: u64,
}

impl<'a> Model for Performer<'a> {
    ghost use Rattle.std.specs.Prelude.{◌-◌, ◌^◌, ◌<◌};
    ghost use Rattle.cbm_host.specs.Performers.{Performing};

    ghost Value = { Performing };

    ghost view = { λ p. record { player = p.player; engine = p.engine; byte = p.byte; limit = p.limit } };

    ghost invariant = { λ p. p.limit < 2 ^ 59 - 1 };
}

impl<'a> Performer<'a> {
    ghost use Rattle.std.specs.Prelude.{◌≡◌, ◌+◌, ◌^◌, ◌<◌, ◌≤◌, ◌⊎◌, ℕ, Bool, List, ◌∷◌, [], None, IfSome, is_some};
    ghost use Rattle.cbm_session.specs.Playing.{at_rest};
    ghost use Rattle.cbm_session.specs.Sessions.{IsDrive};
    ghost use Rattle.cbm_iec.specs.declared.party.Party.{Party};
    ghost use Rattle.cbm_host.specs.Requests.{longest};
    ghost use Rattle.cbm_host.specs.Begun.{IsRequestBegun};
    ghost use Rattle.cbm_host.specs.CarriedOut.{IsShort};
    ghost use Rattle.cbm_host.specs.Performed.{IsPerforming};
    ghost use Rattle.cbm_host.specs.declared.request.Request.{Request};
    ghost use Rattle.cbm_drive.specs.Halves.{IsHalfEvent};
    ghost use Rattle.cbm_drive.specs.Seats.{AreCarried};
    ghost use Rattle.cbm_host.specs.Progress.{left_of, FallsBy, HasAsked, HasHeeded};
    ghost use Rattle.cbm_host.specs.Hosted.{TakesOn, TakesNextByte};
    ghost use Rattle.cbm_host.specs.Engines.{channel_of, engine_at, engine_due, stage_end};
    ghost use Rattle.cbm_host.specs.Performers.{half_comes, IsBeforeEvents, KeepsEngine, HandsOn, GoesOnPerforming, GoesUpTo, GoesToNext, PlaysChange, ComesBefore, engine_after, byte_with};
    ghost use Rattle.cbm_iec.specs.declared.event.Event.{Event};
    ghost use Rattle.cbm_iec.specs.declared.lines.Change.{Change};
    ghost use Rattle.cbm_host.specs.declared.due.Due.TheVariants.{Makes, Waits, Hears};
    ghost use Rattle.cbm_host.specs.Requested.{EndsCarriedOut};
    ghost use Rattle.cbm_host.specs.Recorded.{GoesUpToRecorded, GoesOnRecorded, PlaysRecorded, ComesRecorded, NextRecorded, TakesRecorded, TakesOnRecorded};

    /// Before the first event of a request to the drive with this device number, at the profile's pace; its first change comes
    /// at the start.
    pub fn new(start: u64, device: u8, request: Request<'a>) -> Performer<'a>
        requires start { start < 2 ^ 58 }
        requires device { device < 31 }
        requires channel { channel_of request ≤ 15 }
        ensures { IsBeforeEvents result (engine_at start device request.entry) (start + 250000000) }
    {
        Performer::with_pace(start, device, request, Pace::Profile)
    }

    /// The same of a request to a drive of this pace: the host does not give it up as long as such a drive may take.
    pub fn with_pace(start: u64, device: u8, request: Request<'a>, pace: Pace) -> Performer<'a>
        requires start { start < 2 ^ 58 }
        requires device { device < 31 }
        requires channel { channel_of request ≤ 15 }
        ensures { IsBeforeEvents result (engine_at start device request.entry) (start + longest pace) }
    {
        Performer {
            player: Player::new(),
            engine: Engine::new(start, device, request),
            byte: None,
            limit: start + longest(pace),
        }
    }

    /// The next event, the host's or the drive's. None if the request is over. On any disk the same holds for a machine that
    /// plays back what the drive showed; and whatever the machine represents, less is left to come after an event.
    #[inline(always)]
    pub fn next<D: Machine, const N: usize>(&mut self, bus: &mut Bus<D, N>) -> Option<Event>
        requires one { N ≡ 1 }
        ensures next { GoesToNext _ D.State D.stands D.step D.says D.failures self.old self.new bus.old bus.new result }
        ensures recorded { NextRecorded D.shows self.old self.new bus.old bus.new result }
        ensures fewer { IfSome result (λ e. left_of self.new bus.new < left_of self.old bus.old) }
        ensures within { IfSome result (λ e. e.change.moment ≤ self.old.limit) }
        ensures limit { self.new.limit ≡ self.old.limit }
        ensures carried { AreCarried D.lasting D.failures bus.old.drives bus.new.drives }
    {
        let event = self.event(bus)?;
        if event.change.moment > self.limit {
            return None;
        }
        self.tell(event);
        Some(event)
    }

    /// Goes on to the next byte that the host takes, and answers it and whether it carries EOI. None if the request is
    /// over. On any disk the same holds for a machine that plays back what the drive showed. Each event is told as it comes.
    #[inline(always)]
    pub fn next_byte<D: Machine, T: Watches, const N: usize>(
        &mut self,
        bus: &mut Bus<D, N>,
        watcher: &mut T,
    ) -> Option<(u8, bool)>
        requires one { N ≡ 1 }
        ensures taken { TakesNextByte _ D.State D.stands D.step D.says D.failures self.old self.new bus.old bus.new result }
        ensures recorded { TakesRecorded D.shows self.old self.new bus.old bus.new result }
        ensures fewer { IfSome result (λ x. left_of self.new bus.new < left_of self.old bus.old) }
        ensures limit { self.new.limit ≡ self.old.limit }
        ensures carried { AreCarried D.lasting D.failures bus.old.drives bus.new.drives }
    {
        'events: while let Some(event) = self.next(bus) {
            watcher.event(event);
            if let Some(said) = self.byte() {
                return Some(said);
            }
            self.gather(bus, watcher);
        }
        None
    }

    /// The byte of the drive that the last event accepted, and whether it is the last one (EOI); None if it accepted
    /// none.
    pub fn byte(&self) -> Option<(u8, bool)>
        ensures { result ≡ self.now.byte }
    {
        self.byte
    }

    /// When the request was over, in microseconds; None before.
    pub fn end(&self) -> Option<u64>
        ensures { result ≡ stage_end self.now.engine.stage }
    {
        self.engine.end()
    }

    /// When the request was over, in microseconds; if it was given up, the latest moment at which it could have been.
    pub fn over(&self) -> u64
        ensures limit { result ≤ self.now.limit }
        ensures end { (t : ℕ) → stage_end self.now.engine.stage ≡ Some t → t ≤ self.now.limit → result ≡ t }
        ensures late { (t : ℕ) → stage_end self.now.engine.stage ≡ Some t → self.now.limit < t → result ≡ self.now.limit }
        ensures given_up { stage_end self.now.engine.stage ≡ None → result ≡ self.now.limit }
    {
        match self.engine.end() {
            Some(end) if end <= self.limit => end,
            _ => self.limit,
        }
    }

    /// A law, and nothing is done: if no event is left to come of a request to a drive at rest, of either pace, the request was
    /// carried out, and its end is reported.
    pub fn carries_out<D: Machine, const N: usize>(&self, bus: &Bus<D, N>)
        ensures { EndsCarriedOut _ D.State D.stands D.step D.says self.now bus.now }
    {}

    /// A law, and nothing is done: while a request to a drive at rest is under way, the bytes so far are the first of those
    /// that the drive says in it, and with EOI they are all of them.
    pub fn begins<D: Machine, const N: usize>(&self, bus: &Bus<D, N>)
        ensures { (b : Party) (ms : ℕ → D.State) (start : ℕ) (request : Request) (old new : List Event)
            (bytes : List ℕ) (last : Bool) → IsDrive b → channel_of request ≤ 15 →
            IsShort D.State D.step D.says b.device (ms b.device) request →
            IsPerforming _ D.State D.stands D.step D.says (engine_at start b.device request) (start + longest b.pace)
            self.now bus.now old new bytes last (at_rest D.State D.step D.says ms (b ∷ [])) →
            IsRequestBegun D.State D.step D.says b.device (ms b.device) request bytes last }
    {}

    /// The engine is told an event.
    #[inline(always)]
    fn tell(&mut self, event: Event)
        requires { event.change.moment < 2 ^ 60 }
        ensures player { self.new.player ≡ self.old.player }
        ensures limit { self.new.limit ≡ self.old.limit }
        ensures engine { self.new.engine ≡ engine_after event.who event.change self.old.engine }
        ensures byte { self.new.byte ≡ byte_with event.who self.old.engine }
    {
        match event.who {
            Who::Host => {
                self.byte = self.engine.taken();
                self.engine.made(event.change.moment);
            }
            Who::Drive(_) => {
                self.byte = None;
                self.engine.seen(event.change);
            }
        }
    }

    /// The halves of bits that the drive says next, one after the other, while the host waits for them. So a byte is taken much
    /// sooner than event by event. On any disk the same holds for a machine that plays back what the drive shows later.
    #[inline(always)]
    fn gather<D: Machine, T: Watches, const N: usize>(
        &mut self,
        bus: &mut Bus<D, N>,
        watcher: &mut T,
    )
        ensures taken { TakesOn _ D.State D.stands D.step D.says self.old self.new bus.old bus.new }
        ensures recorded { TakesOnRecorded D.shows self.old self.new bus.old bus.new }
        ensures fewer { left_of self.new bus.new ≤ left_of self.old bus.old }
        ensures limit { self.new.limit ≡ self.old.limit }
        ensures carried { AreCarried D.lasting D.failures bus.old.drives bus.new.drives }
    {
        'halves: while let Some(half) = self.next_half(bus) {
            watcher.half(half);
        }
    }

    /// The next half of a bit that the drive says, if the host waits for it: two events at once. None if something else comes, or
    /// nothing, and then nothing has changed. On any disk the same holds for a machine that plays back what the drive shows later.
    #[inline(always)]
    pub fn next_half<D: Machine, const N: usize>(&mut self, bus: &mut Bus<D, N>) -> Option<Half>
        ensures comes { is_some result ≡ half_comes self.old bus.old }
        ensures taken { TakesOn _ D.State D.stands D.step D.says self.old self.new bus.old bus.new }
        ensures recorded { TakesOnRecorded D.shows self.old self.new bus.old bus.new }
        ensures half { IsHalfEvent self.old.player self.new.player bus.old bus.new self.old.limit result ⊎ (result ≡ None) }
        ensures fewer { IfSome result (λ h. left_of self.new bus.new < left_of self.old bus.old) }
        ensures same { result ≡ None → (self.new ≡ self.old) × (bus.new ≡ bus.old) }
        ensures limit { self.new.limit ≡ self.old.limit }
        ensures carried { AreCarried D.lasting D.failures bus.old.drives bus.new.drives }
    {
        if !self.engine.gathers() {
            return None;
        }
        let Some(half) = self.player.half(bus, self.limit) else {
            return None;
        };
        self.engine.heard(half);
        Some(half)
    }

    /// The event that comes next.
    #[inline(always)]
    fn event<D: Machine, const N: usize>(&mut self, bus: &mut Bus<D, N>) -> Option<Event>
        ensures come { GoesOnPerforming _ D.State D.stands D.step D.says D.failures self.old self.new bus.old bus.new result }
        ensures recorded { N ≡ 1 → GoesOnRecorded D.shows self.old self.new bus.old bus.new result }
        ensures fewer { IfSome result (λ e. FallsBy e.who self.old self.new bus.old bus.new) }
        ensures limit { self.new.limit ≡ self.old.limit }
        ensures carried { AreCarried D.lasting D.failures bus.old.drives bus.new.drives }
    {
        match self.engine.due() {
            Due::Makes(change) => self.play(bus, change),
            Due::Waits(until) => self.wait(bus, until),
            Due::Hears => self.hear(bus),
            Due::Over(_) => None,
        }
    }

    /// What comes up to a moment, if the host does nothing else than what it has handed on.
    #[inline(always)]
    fn ask<D: Machine, const N: usize>(&mut self, bus: &mut Bus<D, N>, upto: u64) -> Option<Event>
        requires { upto ≤ self.old.limit }
        ensures come { GoesUpTo _ D.State D.stands D.step D.says D.failures upto self.old self.new bus.old bus.new result }
        ensures recorded { N ≡ 1 → GoesUpToRecorded D.shows upto self.old self.new bus.old bus.new result }
        ensures asked { HasAsked self.old self.new bus.old bus.new result }
        ensures carried { AreCarried D.lasting D.failures bus.old.drives bus.new.drives }
    {
        self.player.next(bus, upto)
    }

    /// What the drive does up to a moment, if no change of the host is due.
    #[inline(always)]
    fn heed<D: Machine, const N: usize>(&mut self, bus: &mut Bus<D, N>, upto: u64) -> Option<Event>
        requires upto { upto ≤ self.old.limit }
        requires none { (change : Change) → engine_due self.old.engine ≡ Makes change → ⊥ }
        ensures come { GoesUpTo _ D.State D.stands D.step D.says D.failures upto self.old self.new bus.old bus.new result }
        ensures recorded { N ≡ 1 → GoesUpToRecorded D.shows upto self.old self.new bus.old bus.new result }
        ensures heeded { HasHeeded self.old self.new bus.old bus.new result }
        ensures carried { AreCarried D.lasting D.failures bus.old.drives bus.new.drives }
    {
        let event = self.ask(bus, upto)?;
        match event.who {
            Who::Drive(_) => Some(event),
            Who::Host => None,
        }
    }

    /// What the drive does, as long as the host doesn't give up.
    #[inline(always)]
    fn hear<D: Machine, const N: usize>(&mut self, bus: &mut Bus<D, N>) -> Option<Event>
        requires due { engine_due self.old.engine ≡ Hears }
        ensures come { GoesOnPerforming _ D.State D.stands D.step D.says D.failures self.old self.new bus.old bus.new result }
        ensures recorded { N ≡ 1 → GoesOnRecorded D.shows self.old self.new bus.old bus.new result }
        ensures fewer { IfSome result (λ e. FallsBy e.who self.old self.new bus.old bus.new) }
        ensures limit { self.new.limit ≡ self.old.limit }
        ensures carried { AreCarried D.lasting D.failures bus.old.drives bus.new.drives }
    {
        let limit = self.limit;
        self.heed(bus, limit)
    }

    /// The host's change that is due, or what the drive does before it.
    #[inline(always)]
    fn play<D: Machine, const N: usize>(
        &mut self,
        bus: &mut Bus<D, N>,
        change: Change,
    ) -> Option<Event>
        requires due { engine_due self.old.engine ≡ Makes change }
        ensures come { PlaysChange _ D.State D.stands D.step D.says D.failures change self.old self.new bus.old bus.new result }
        ensures recorded { N ≡ 1 → PlaysRecorded D.shows change self.old self.new bus.old bus.new result }
        ensures fewer { IfSome result (λ e. FallsBy e.who self.old self.new bus.old bus.new) }
        ensures keeps { KeepsEngine self.old self.new }
        ensures carried { AreCarried D.lasting D.failures bus.old.drives bus.new.drives }
    {
        if change.moment > self.limit || !self.hand_on(change) {
            return None;
        }
        self.ask(bus, change.moment)
    }

    /// Hands the host's change that is due to the player, if it isn't pending there already. False if the player
    /// refuses it, and then nothing has changed.
    #[inline(always)]
    fn hand_on(&mut self, change: Change) -> bool
        requires moment { change.moment ≤ self.old.limit }
        requires due { engine_due self.old.engine ≡ Makes change }
        ensures { HandsOn change self.old self.new result }
    {
        self.player.waits() || self.player.offer(change).is_ok()
    }

    /// What the drive does before a moment, or what the host does then if it does nothing.
    #[inline(always)]
    fn wait<D: Machine, const N: usize>(&mut self, bus: &mut Bus<D, N>, until: u64) -> Option<Event>
        requires due { engine_due self.old.engine ≡ Waits until }
        ensures come { GoesOnPerforming _ D.State D.stands D.step D.says D.failures self.old self.new bus.old bus.new result }
        ensures recorded { N ≡ 1 → GoesOnRecorded D.shows self.old self.new bus.old bus.new result }
        ensures fewer { IfSome result (λ e. FallsBy e.who self.old self.new bus.old bus.new) }
        ensures limit { self.new.limit ≡ self.old.limit }
        ensures carried { AreCarried D.lasting D.failures bus.old.drives bus.new.drives }
    {
        if let Some(event) = self.before(bus, until) {
            return Some(event);
        }
        if until > self.limit {
            return None;
        }
        self.engine.passed();
        match self.engine.due() {
            Due::Makes(change) => self.play(bus, change),
            _ => None,
        }
    }

    /// What the drive does before a moment at which the host goes on by itself.
    #[inline(always)]
    fn before<D: Machine, const N: usize>(
        &mut self,
        bus: &mut Bus<D, N>,
        until: u64,
    ) -> Option<Event>
        requires due { engine_due self.old.engine ≡ Waits until }
        ensures come { ComesBefore _ D.State D.stands D.step D.says D.failures until self.old self.new bus.old bus.new result }
        ensures recorded { N ≡ 1 → ComesRecorded D.shows until self.old self.new bus.old bus.new result }
        ensures fewer { IfSome result (λ e. FallsBy e.who self.old self.new bus.old bus.new) }
        ensures keeps { KeepsEngine self.old self.new }
        ensures carried { AreCarried D.lasting D.failures bus.old.drives bus.new.drives }
    {
        let upto = until.min(self.limit + 1).checked_sub(1)?;
        self.heed(bus, upto)
    }
}
