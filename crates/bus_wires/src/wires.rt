//! Reads the changes of the wires, and gives the events of the parties that have exactly these wires.

ghost use Rattle.std.specs.Prelude.{is_some, ◌≡◌, ◌<◌, ◌≤◌, ◌+◌, ◌-◌, ◌^◌, [], ◌++◌, ◌∷◌, None, Some, true, false, length, IfSome, IfNone, IfErr, OnOk, OnErr};
ghost use Rattle.cbm_iec.specs.Changes.{lines_changed};
ghost use Rattle.bus_wires.specs.Cable.{parties_of, parties_after, wire_low, low, Shows};
ghost use Rattle.bus_wires.specs.Looks.{WiresStand, HaveWires, AreWiresSettled, IsLookWhole, IsSameLook, NoneBefore, IsUnread, and_read, and_given, last_look, last_known, look_at, present, OfWires};

use crate::drive::{LIMIT, Now};
use crate::hands::{Hands, low};
use crate::looks::{Look, Looks, says_a_byte};
use crate::playing::{Move, Playing};
use cbm_iec::{Change, Event, Line, Lines, Party, Way, Who};
use thiserror::Error;

/// So many changes are known ahead before a moment is looked at: those of the moment itself, and of what a talker says next.
const KNOWN: usize = 10;

/// Why a change of a wire isn't read.
#[derive(Clone, Copy, Debug, PartialEq, Eq, Drop, Error)]
pub enum Unread {
    /// Sixteen changes wait: the events that are known are to be taken first.
    #[error("the events of the changes that were read come first")]
    Full,
    /// It comes before a change that was read.
    #[error("a change comes before the one before")]
    Early,
    /// Its moment is too great: from 2^50 microseconds (35 years) on.
    #[error("the moment is too great")]
    Far,
    /// The trace has ended.
    #[error("the trace has ended")]
    Ended,
}

/// The wires of a bus. What they show is told as events of the parties: the change that a drive owes at a moment is that
/// drive's, any other is the host's.
#[derive(Drop)]
pub struct Wires {
    hands: Hands,
    playing: Playing,
    /// The present moment, and the wires then.
    moment: u64,
    wires: Lines,
    /// A talker that pulls CLOCK at the present moment says a byte.
    says: bool,
    ahead: Looks,
    /// When the trace ends, once that is known.
    end: Option<u64>,
}

impl Wires {
    /// The wires of a bus of these drives, in the order of ties; None if they are more than four. All lines are free, and
    /// nothing was read.
    pub fn new(parties: &[Party]) -> Option<Wires>
        ensures stands { IfSome result (λ w. WiresStand parties.now w [] []) }
        ensures few { IfSome result (λ _. length parties.now ≤ 4) }
        ensures many { IfNone result (4 < length parties.now) }
    {
        if parties.len() > 4 {
            return None;
        }
        Some(Wires {
            hands: Hands::free(parties),
            playing: Playing::new(parties),
            moment: 0,
            wires: Lines::FREE,
            says: false,
            ahead: Looks::new(),
            end: None,
        })
    }

    /// Reads the next change of a wire. Errors, and then nothing has changed: `Full`, `Early`, `Far`, `Ended`.
    pub fn read(&mut self, change: Change) -> Result<(), Unread>
        ensures stands { OfWires self.old (λ bs cs es. OnOk result (WiresStand bs self.new (and_read cs change) es)) }
        ensures same { OnErr result (self.new ≡ self.old) }
        ensures refused { IfErr result (IsUnread self.old change) }
    {
        if self.end.is_some() {
            return Err(Unread::Ended);
        }
        if change.moment >= LIMIT {
            return Err(Unread::Far);
        }
        self.look(change)
    }

    /// The trace ends at a moment: nothing else will be read.
    pub fn finish(&mut self, moment: u64)
        ensures stands { OfWires self.old (λ bs cs es. WiresStand bs self.new cs es) }
        ensures ended { self.new.end ≡ Some moment }
    {
        self.end = Some(moment);
    }

    /// The next event. None if more has to be read before one is known; or, if the trace has ended, if all events
    /// up to its end were given.
    pub fn next(&mut self) -> Option<Event>
        ensures given { OfWires self.old (λ bs cs es. IfSome result (λ e. WiresStand bs self.new cs (and_given es e))) }
        ensures shown { OfWires self.old (λ bs cs es. IfNone result (WiresStand bs self.new cs es)) }
        ensures exact { OfWires self.old (λ bs cs es. IfNone result (self.new.ahead.items ≡ [] → HaveWires bs es cs)) }
        ensures over { OfWires self.old (λ bs cs es. is_some self.old.end ≡ true → IfNone result (self.new.ahead.items ≡ [])) }
    {
        'moments: loop {
            if let Some(event) = self.event() {
                return Some(event);
            }
            if !self.turn() {
                return None;
            }
        }
    }

    /// Adds what a change makes of the wires to what is ahead.
    fn look(&mut self, change: Change) -> Result<(), Unread>
        ensures added { OnOk result (self.new.ahead.items ≡ self.old.ahead.items ++ (look_at self.old change ∷ [])) }
        ensures later { OnOk result ((last_known self.old).moment ≤ change.moment) }
        ensures hands { self.new.hands ≡ self.old.hands }
        ensures now { present self.new ≡ present self.old }
        ensures same { OnErr result (self.new ≡ self.old) }
        ensures refused { IfErr result (IsUnread self.old change) }
    {
        let last = last_look(self.now(), &self.ahead);
        if change.moment < last.moment {
            return Err(Unread::Early);
        }
        let look = Look {
            moment: change.moment,
            wires: last.wires.after(change),
        };
        match self.ahead.try_push(look) {
            Ok(()) => Ok(()),
            Err(_) => Err(Unread::Full),
        }
    }

    /// The present moment, and its wires.
    fn now(&self) -> Look
        ensures { result ≡ present self.now }
    {
        Look {
            moment: self.moment,
            wires: self.wires,
        }
    }

    /// Whether more of the present moment is ahead.
    fn is_parted(&self) -> bool
        ensures { result ≡ true → IsLookWhole self.now → ⊥ }
    {
        match self.ahead.as_slice() {
            [look, ..] => look.moment <= self.moment,
            [] => false,
        }
    }

    /// The next event of the present moment. None if the parties pull what the wires show, or more of the moment is
    /// ahead.
    fn event(&mut self) -> Option<Event>
        ensures moment { IfSome result (λ e. e.change.moment ≡ self.old.moment) }
        ensures given { IfSome result (λ e. parties_of self.new.hands ≡ parties_after e (parties_of self.old.hands)) }
        ensures settled { IfNone result (AreWiresSettled self.new) }
        ensures kept { IfNone result (parties_of self.new.hands ≡ parties_of self.old.hands) }
        ensures alike { IsSameLook self.new self.old }
    {
        if self.is_parted() {
            return None;
        }
        let now = Now {
            moment: self.moment,
            wires: self.wires,
            says: self.says,
        };
        let moved = match self.playing.next(&self.hands, now) {
            Some(moved) => moved,
            None => self.unsettled()?,
        };
        let event = moved.event(self.moment);
        self.hands.change(event);
        self.playing.tell(&self.hands, self.moment);
        Some(event)
    }

    /// What a party does with a line for the wire to be as it was read.
    fn amiss(&self, line: Line) -> Option<Move>
        ensures { result ≡ None → wire_low line (parties_of self.now.hands) ≡ low line self.now.wires }
    {
        let (who, way) = match (self.hands.wire(line), low(self.wires, line)) {
            (false, true) => (self.playing.unseen(self.wires, line), Way::Pull),
            (true, false) => (self.hands.puller(line), Way::Free),
            _ => return None,
        };
        Some(Move { who, line, way })
    }

    /// The same for the first line of which that isn't so.
    fn unsettled(&self) -> Option<Move>
        ensures { result ≡ None → Shows (parties_of self.now.hands) self.now.wires }
    {
        if let Some(moved) = self.amiss(Line::Atn) {
            return Some(moved);
        }
        if let Some(moved) = self.amiss(Line::Clock) {
            return Some(moved);
        }
        self.amiss(Line::Data)
    }

    /// The first reaction after the present moment and before another.
    fn due_before(&self, limit: u64) -> Option<u64>
        ensures later { IfSome result (λ due. self.now.moment < due) }
        ensures before { IfSome result (λ due. due < limit) }
        ensures near { IfSome result (λ due. due < 2 ^ 50) }
    {
        match self.playing.next_due(self.moment) {
            Some(due) if self.moment < due && due < limit && due < LIMIT => Some(due),
            _ => None,
        }
    }

    /// The moment begins, with the wires that it has.
    fn begin(&mut self)
        ensures alike { IsSameLook self.new self.old }
        ensures hands { self.new.hands ≡ self.old.hands }
    {
        self.says = says_a_byte(self.wires, &self.ahead);
        self.playing.begin(&self.hands, self.wires);
    }

    /// Goes on to a reaction, if one is due before a moment; no wire is known to change before it.
    fn react(&mut self, limit: u64) -> bool
        requires { NoneBefore limit self.old.ahead.items }
        ensures end { self.new.end ≡ self.old.end }
        ensures stands { OfWires self.old (λ bs cs es. AreWiresSettled self.old → result ≡ true → WiresStand bs self.new cs es) }
        ensures less { result ≡ true → (2 ^ 50 - self.new.moment) + length self.new.ahead.items < (2 ^ 50 - self.old.moment) + length self.old.ahead.items }
        ensures same { result ≡ false → self.new ≡ self.old }
    {
        let Some(due) = self.due_before(limit) else {
            return false;
        };
        self.moment = due;
        self.begin();
        true
    }

    /// Goes on to the first moment that is ahead.
    fn take(&mut self) -> bool
        ensures end { self.new.end ≡ self.old.end }
        ensures left { OfWires self.old (λ bs cs es. result ≡ false → self.old.ahead.items ≡ []) }
        ensures stands { OfWires self.old (λ bs cs es. AreWiresSettled self.old → result ≡ true → WiresStand bs self.new cs es) }
        ensures less { result ≡ true → (2 ^ 50 - self.new.moment) + length self.new.ahead.items < (2 ^ 50 - self.old.moment) + length self.old.ahead.items }
        ensures same { result ≡ false → self.new ≡ self.old }
    {
        let [look, ..] = self.ahead.as_slice() else {
            return false;
        };
        let Look { moment, wires } = *look;
        if moment < self.moment {
            return false;
        }
        self.ahead.remove(0);
        self.moment = moment;
        self.wires = wires;
        self.begin();
        true
    }

    /// Goes on to the next moment at which a wire changes or a drive reacts. False if none is known yet, or the trace has
    /// ended; then nothing has changed.
    fn turn(&mut self) -> bool
        ensures end { self.new.end ≡ self.old.end }
        ensures left { OfWires self.old (λ bs cs es. is_some self.old.end ≡ true → result ≡ false → self.old.ahead.items ≡ []) }
        ensures stands { OfWires self.old (λ bs cs es. AreWiresSettled self.old → result ≡ true → WiresStand bs self.new cs es) }
        ensures less { result ≡ true → (2 ^ 50 - self.new.moment) + length self.new.ahead.items < (2 ^ 50 - self.old.moment) + length self.old.ahead.items }
        ensures same { result ≡ false → self.new ≡ self.old }
    {
        match (self.ahead.as_slice(), self.end) {
            ([], None) => false,
            ([], Some(end)) => self.react(end.saturating_add(1)),
            ([_, ..], None) if self.ahead.len() < KNOWN => false,
            ([look, ..], _) => {
                let limit = look.moment;
                self.react(limit) || self.take()
            }
        }
    }
}

/// The last of these looks, or the one before them.
fn last_look(before: Look, looks: &[Look]) -> Look
    ensures { result ≡ last_look before looks.now }
{
    match looks {
        [] => before,
        [look, rest @ ..] => last_look(*look, rest),
    }
}
