//! What the host does: each change of a wire that no drive owes at that moment, and what its profile has there unseen.

use crate::drive::Now;
use crate::hands::Hands;
use crate::playing::{Move, Playing, Turned};
use cbm_iec::{Line, Way, Who};

impl Playing {
    /// What the host does at a place in the order of its changes at one moment: ATN is pulled before CLOCK and DATA change, and
    /// freed after DATA was pulled.
    pub(crate) fn host(&self, hands: &Hands, now: Now, place: u8) -> Option<Move> {
        let (line, way) = match (self.turned, place) {
            (Turned::Pulled, 0) => (Line::Clock, self.clock_before(hands)),
            (Turned::Released, 0) => (Line::Data, self.data_way(hands, now)),
            (_, 0) => return None,
            (_, 1) => (Line::Atn, self.turned.way()),
            (_, 2) => (Line::Clock, self.clock_way(hands, now)),
            (Turned::Released, _) => return None,
            (_, _) => (Line::Data, self.data_way(hands, now)),
        };
        way.map(|way| Move {
            who: Who::Host,
            line,
            way,
        })
    }

    /// CLOCK, if ATN is pulled and nobody had a role: it was freed before, at that moment at the latest.
    fn clock_before(&self, hands: &Hands) -> Option<Way> {
        let frees = hands.host.clock_low && !self.has_roles();
        frees.then_some(Way::Free)
    }

    /// CLOCK: free if it is free on the wire; pulled with ATN, or if no drive pulls it.
    fn clock_way(&self, hands: &Hands, now: Now) -> Option<Way> {
        if !now.wires.clock_low {
            return hands.host.clock_low.then_some(Way::Free);
        }
        if hands.host.clock_low {
            return None;
        }
        let pulls = self.turned == Turned::Pulled || !self.is_drives(hands, now, Line::Clock);
        pulls.then_some(Way::Pull)
    }

    /// DATA: free if it is free on the wire, and unseen with ATN's pull, if a drive pulls it, too; pulled with ATN's
    /// release to a talker, or if no drive pulls it.
    fn data_way(&self, hands: &Hands, now: Now) -> Option<Way> {
        if !now.wires.data_low {
            return hands.host.data_low.then_some(Way::Free);
        }
        let is_pulled = self.turned == Turned::Pulled;
        if hands.host.data_low {
            let frees = is_pulled && hands.any_drive(Line::Data);
            return frees.then_some(Way::Free);
        }
        let turns = self.turned == Turned::Released && self.is_turnaround();
        let pulls = turns || !self.is_drives(hands, now, Line::Data);
        pulls.then_some(Way::Pull)
    }
}
