//! Where the session stands.

use crate::judge::scene::{Due, Scene, Turn, turn_of_piece, turn_of_place};
use crate::judge::{Judge, LIMIT};
use crate::whole::Whole;

impl Judge {
    /// Where the session stands that was seen so far.
    pub fn scene(&self) -> Scene {
        let next = match self.due() {
            None => None,
            Some(step) => Some(Due {
                event: step.event,
                is_known: step.moment() < LIMIT,
                latest: step.moment(),
            }),
        };
        Scene {
            turn: self.turn(next),
            bit: self.bit(),
            next,
        }
    }

    /// What the bus is about; after a piece, what stands after it.
    fn turn(&self, next: Option<Due>) -> Turn {
        match (&self.whole, next) {
            (None, _) => turn_of_place(self.point.place),
            (Some(whole), Some(_)) => turn_of_piece(whole),
            (Some(whole), None) => match self.point.after(whole) {
                Ok(point) => turn_of_place(point.place),
                Err(_) => turn_of_piece(whole),
            },
        }
    }

    /// Which bit of a byte is under way.
    fn bit(&self) -> Option<u8> {
        let bits = match self.whole? {
            Whole::Command(_) | Whole::Byte { .. } => self.counts.host_clocks,
            Whole::Talk { .. } => self.counts.drive_clocks,
            _ => return None,
        };
        let bit = bits.checked_sub(2)? / 2;
        (bit < 8).then_some(bit.saturating_add(1))
    }
}
