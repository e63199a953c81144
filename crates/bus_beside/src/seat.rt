//! A drive under both hosts.

ghost use Rattle.std.specs.Prelude.{◌≡◌, ◌<◌, ◌≤◌, ◌^◌, Some, IfSome, true};
ghost use Rattle.cbm_iec.specs.Machines.{acted};
ghost use Rattle.cbm_iec.specs.Ports.{port_due};
ghost use Rattle.cbm_iec.specs.declared.machine.Act.{Act as ThisAct};
ghost use Rattle.cbm_session.specs.Following.{IsInTime};
ghost use Rattle.cbm_session.specs.Playing.{Station, IsLaterDue};
ghost use Rattle.cbm_session.specs.Loosely.{HeedsAlike, Heeds, HeedsAfter, MayMake};
ghost use Rattle.bus_beside.specs.Moves.{MayGo, HasMoved, HasGone};
ghost use Rattle.bus_beside.specs.declared.moves.Move.TheVariants.{Both, Strays, Tidies, Hears};
ghost use Rattle.bus_beside.specs.Reactions.{ReactsTheSame};
ghost use Rattle.bus_beside.specs.Seats.{station, Sits, IsPortAtRest, GoesAlone};

use crate::answer::Answer;
use crate::heeding::{heeds_alike, ignores, may_stray};
use crate::moves::Move;
use crate::wired::Wired;
use cbm_iec::{Act, Change, Held, Line, Lines, Machine, Party, Way};
use std::marker::Model;

/// A drive under the host as it is, and under the tidy one: what happens to it is the same, and so it has one machine.
#[derive(Drop)]
pub struct Seat<D: Machine> {
    real: Wired,
    tidy: Wired,
    machine: D,
}

impl<D: Machine> Model for Seat<D> {
    ghost use Rattle.bus_beside.specs.Seats.{SeatedTwice};

    ghost Value = { SeatedTwice D };

    ghost view = { λ d. record { real = d.real; tidy = d.tidy; machine = d.machine } };
}

/// The same act, or none.
fn same_act(one: Option<Act>, other: Option<Act>) -> bool
    ensures { result ≡ true → other ≡ one }
{
    match (one, other) {
        (None, None) => true,
        (Some(one), Some(other)) => one == other,
        _ => false,
    }
}

/// The same lines.
fn same_held(one: Held, other: Held) -> bool
    ensures { result ≡ true → other ≡ one }
{
    one == other
}

impl<D: Machine> Seat<D> {
    /// A drive as it is switched on, with its machine.
    pub fn new(machine: D, party: Party) -> Seat<D>
        ensures real { IsPortAtRest result.real party }
        ensures tidy { IsPortAtRest result.tidy party }
        ensures machine { result.machine ≡ machine }
    {
        Seat {
            real: Wired::new(party),
            tidy: Wired::new(party),
            machine,
        }
    }

    /// What it heeds of two hosts' lines is alike.
    fn heeds(&self, host: Lines, tidy: Lines) -> bool
        ensures { result ≡ true → HeedsAlike self.now.real.port.party.pace self.now.real.others.clocks host tidy self.now.real.port.side self.now.tidy.port.side }
    {
        let Wired { port, others } = self.real;
        heeds_alike(
            port.party.pace,
            others.clocks,
            host,
            tidy,
            port.side,
            self.tidy.port.side,
        )
    }

    /// What it heeds is alike under both hosts.
    fn heeds_both(&self) -> bool
        ensures { result ≡ true → (m : D.State) → Heeds D.State D.step D.says (station self.now.real m) (station self.now.tidy m) }
    {
        self.heeds(self.real.others.host, self.tidy.others.host)
    }

    /// The same after a change that both hosts make.
    fn heeds_after(&self, change: Change) -> bool
        ensures { result ≡ true → (m : D.State) → HeedsAfter D.State D.step D.says change.line change.way (station self.now.real m) (station self.now.tidy m) }
    {
        let real = self.real.others.after_host(change);
        let tidy = self.tidy.others.after_host(change);
        self.heeds(real.host, tidy.host)
    }

    /// Whether both hosts may make a change.
    fn may_make(&self, change: Change) -> bool
        ensures { result ≡ true → (m : D.State) → MayMake D.State D.step D.says change.line change.way (station self.now.real m) (station self.now.tidy m) }
    {
        let (host, tidy) = (self.real.others.host, self.tidy.others.host);
        match (change.line, change.way) {
            (Line::Atn, Way::Pull) => true,
            (Line::Atn, Way::Free) => host.clock_low == tidy.clock_low && self.heeds_both(),
            _ => self.heeds_both() && self.heeds_after(change),
        }
    }

    /// Whether a change may come so.
    fn may_go(&self, go: Move, change: Change) -> bool
        ensures { result ≡ true → (m : D.State) → MayGo D.State D.step D.says go change (station self.now.real m) (station self.now.tidy m) }
    {
        let Change { line, way, .. } = change;
        let (side, tidy) = (self.real.port.side, self.tidy.port.side);
        match go {
            Move::Both => self.may_make(change),
            Move::Strays => may_stray(line, way, self.real.others.host.clock_low, side, tidy),
            Move::Tidies => ignores(line, self.tidy.others.host.clock_low, tidy),
            Move::Hears => self.heeds_both(),
        }
    }

    /// The machine is told an act, or none.
    fn act(&mut self, act: Option<Act>)
        ensures machine { D.failures self.new.machine ≤ D.failures self.old.machine → (m : D.State) →
            D.stands self.old.machine m → D.stands self.new.machine (acted D.State D.step act m) }
        ensures counted { D.failures self.old.machine ≤ D.failures self.new.machine }
        ensures real { self.new.real ≡ self.old.real }
        ensures tidy { self.new.tidy ≡ self.old.tidy }
    {
        if let Some(act) = act {
            self.machine.act(act);
        }
    }

    /// Both hosts make a change.
    fn both(&mut self, change: Change) -> bool
        requires { change.moment < 2 ^ 60 }
        ensures { result ≡ true → GoesAlone D.failures self.old self.new (HasMoved D D.State D.stands D.step D.says Both change self.old self.new) }
    {
        let real = self.real.tell(change);
        let tidy = self.tidy.tell(change);
        if !same_act(real, tidy) {
            return false;
        }
        self.act(real);
        true
    }

    /// The host as it is makes a change alone: no act may count with it.
    fn strays(&mut self, change: Change) -> bool
        requires { change.moment < 2 ^ 60 }
        ensures { result ≡ true → GoesAlone D.failures self.old self.new (HasMoved D D.State D.stands D.step D.says Strays change self.old self.new) }
    {
        self.real.tell(change).is_none()
    }

    /// The tidy host makes a change alone: no act may count with it.
    fn tidies(&mut self, change: Change) -> bool
        requires { change.moment < 2 ^ 60 }
        ensures { result ≡ true → GoesAlone D.failures self.old self.new (HasMoved D D.State D.stands D.step D.says Tidies change self.old self.new) }
    {
        self.tidy.tell(change).is_none()
    }

    /// Another drive makes a change.
    fn hears(&mut self, change: Change) -> bool
        requires { change.moment < 2 ^ 60 }
        ensures { result ≡ true → GoesAlone D.failures self.old self.new (HasMoved D D.State D.stands D.step D.says Hears change self.old self.new) }
    {
        let Some(real) = self.real.hear(change) else {
            return false;
        };
        let Some(tidy) = self.tidy.hear(change) else {
            return false;
        };
        if !same_act(real, tidy) {
            return false;
        }
        self.act(real);
        true
    }

    /// A change comes so, if it may.
    pub(crate) fn go(&mut self, go: Move, change: Change) -> bool
        requires { change.moment < 2 ^ 60 }
        ensures { result ≡ true → GoesAlone D.failures self.old self.new (HasGone D D.State D.stands D.step D.says go change self.old self.new) }
    {
        if !self.may_go(go, change) {
            return false;
        }
        match go {
            Move::Both => self.both(change),
            Move::Strays => self.strays(change),
            Move::Tidies => self.tidies(change),
            Move::Hears => self.hears(change),
        }
    }

    /// When its next reaction is due, in microseconds.
    pub(crate) fn next_due(&self) -> Option<u64>
        ensures { result ≡ port_due self.now.real.port }
    {
        self.real.port.next_due()
    }

    /// Nothing is due to it before a moment.
    pub(crate) fn is_from(&self, moment: u64) -> bool
        ensures { result ≡ true → IsInTime moment (port_due self.now.real.port) }
    {
        match self.next_due() {
            Some(due) => moment <= due,
            None => true,
        }
    }

    /// Nothing is due to it at a moment or before it.
    pub(crate) fn is_later(&self, moment: u64) -> bool
        ensures { result ≡ true → IsLaterDue moment (port_due self.now.real.port) }
    {
        match self.next_due() {
            Some(due) => moment < due,
            None => true,
        }
    }

    /// Its reaction is due at a moment, what it heeds is alike, and so are the lines that it holds.
    fn is_alike(&self, moment: u64) -> bool
        ensures due { result ≡ true → port_due self.now.real.port ≡ Some moment }
        ensures heeds { result ≡ true → (m : D.State) → Heeds D.State D.step D.says (station self.now.real m) (station self.now.tidy m) }
        ensures own { result ≡ true → self.now.tidy.port.own ≡ self.now.real.port.own }
        ensures device { result ≡ true → (self.now.real.port.party.device < 31) × (self.now.tidy.port.party.device < 31) }
    {
        let (real, tidy) = (self.real.port, self.tidy.port);
        let is_due = matches!(real.next_due(), Some(due) if due == moment);
        let is_drive = real.party.device < 31 && tidy.party.device < 31;
        is_due && is_drive && same_held(real.own, tidy.own) && self.heeds_both()
    }

    /// Its reaction that is due at a moment happens under both hosts, if it is the same.
    pub(crate) fn react(&mut self, moment: u64) -> Option<Answer>
        requires { moment < 2 ^ 60 }
        ensures { IfSome result (λ a. GoesAlone D.failures self.old self.new ((s t : Station D.State) → Sits _ D.State D.stands self.old s t
            → ReactsTheSame _ D.State D.stands D.step D.says moment a.device a.changes.items self.new s t)) }
    {
        if !self.is_alike(moment) {
            return None;
        }
        let device = self.real.port.party.device;
        let said = self.machine.peek();
        let reaction = self.real.port.due(moment, said);
        let tidied = self.tidy.port.due(moment, said);
        if !same_held(self.real.port.own, self.tidy.port.own)
            || !same_act(reaction.act, tidied.act)
        {
            return None;
        }
        self.act(reaction.act);
        let changes = reaction.changes;
        Some(Answer { device, changes })
    }
}
