//! The pieces that an event may belong to. What didn't come yet is put off as far as it may be: a guess is checked
//! before it is taken, so a wrong one loses a session, and never makes one.

use crate::fits::HOST_PULSE;
use crate::frame::{Cell, LATEST_ACCEPT, LATEST_START, Sent, Told};
use crate::seat::{after, has_listener, has_talker, talker_of};
use crate::whole::{Place, Point, Whole};
use Line::*;
use Way::*;
use cbm_iec::{Change, EOI_WAIT, Event, Line, Party, Way, Who};

/// Moments from here on did not come: 2^55 microseconds.
pub const FAR: u64 = 1 << 55;

/// The host has asked for the last byte this long after it freed DATA, at the earliest.
const EOI_END: u64 = EOI_WAIT + HOST_PULSE;

/// How many changes of the piece under way have come: of CLOCK and DATA by the host, of CLOCK by the talker.
#[derive(Clone, Copy, Debug, Default, PartialEq, Eq, Drop)]
pub struct Counts {
    pub host_clocks: u8,
    pub host_datas: u8,
    pub drive_clocks: u8,
}

/// The pieces to try, in this order.
pub type Guesses = [Option<Whole>; 2];

const NONE: Guesses = [None, None];

fn one(whole: Whole) -> Guesses {
    [Some(whole), None]
}

impl Counts {
    /// One more event of the piece.
    pub fn count(&mut self, event: Event) {
        let counted = match (event.who, event.change.line) {
            (Who::Host, Line::Clock) => &mut self.host_clocks,
            (Who::Host, Line::Data) => &mut self.host_datas,
            (Who::Drive(_), Line::Clock) => &mut self.drive_clocks,
            _ => return,
        };
        *counted = counted.saturating_add(1);
    }

    /// Which bit of a frame of the host is under way, and whether it is shown.
    fn cell(&self) -> (usize, bool) {
        let past = self.host_clocks.saturating_sub(2);
        ((past / 2) as usize, past % 2 == 1)
    }

    /// Which bit of a frame of the talker is under way.
    fn bit(&self) -> usize {
        (self.drive_clocks.saturating_sub(2) / 2) as usize
    }
}

/// A frame of the host of which nothing but ready came; all bits are 1.
fn unsent(ready: u64, start: u64) -> Sent {
    let mut cells = [Cell::default(); 8];
    let mut set = start;
    let mut free = FAR;
    for cell in cells.iter_mut() {
        *cell = Cell {
            bit: true,
            set,
            free,
            pull: after(free, 20),
        };
        set = after(free, 20);
        free = after(free, 40);
    }
    Sent {
        ready,
        start,
        cells,
    }
}

/// A frame of the talker of which nothing came; all bits are 1, and it may be the last.
fn untold(talker: Party) -> Told {
    Told {
        bits: [true; 8],
        free: FAR,
        signal: Some((after(FAR, EOI_WAIT), after(FAR, EOI_END))),
        accept: 0,
    }
    .put_off(talker)
}

impl Told {
    /// The same, accepted as late as may be.
    fn put_off(self, talker: Party) -> Told {
        Told {
            accept: after(self.end(talker), LATEST_ACCEPT),
            ..self
        }
    }
}

/// The frame with a change of the host.
fn sent_with(frame: &Sent, counts: Counts, change: Change) -> Option<Sent> {
    let mut frame = *frame;
    let moment = change.moment;
    let (place, is_shown) = counts.cell();
    match (change.line, change.way) {
        (Clock, Pull) if counts.host_clocks == 1 => {
            frame.start = moment;
            frame.cells.get_mut(0)?.set = moment;
        }
        (Clock, Pull) if is_shown => {
            frame.cells.get_mut(place)?.pull = moment;
            if let Some(next) = frame.cells.get_mut(place + 1) {
                next.set = moment;
            }
        }
        (Clock, Free) if counts.host_clocks > 1 => frame.cells.get_mut(place)?.free = moment,
        (Data, _) if counts.host_clocks > 1 => flip(&mut frame, place, moment)?,
        _ => return None,
    }
    Some(frame)
}

/// DATA was changed for a bit: it and those that didn't come yet are the other way.
fn flip(frame: &mut Sent, place: usize, moment: u64) -> Option<()> {
    let cell = frame.cells.get_mut(place)?;
    cell.set = moment;
    let bit = !cell.bit;
    for cell in frame.cells.iter_mut().skip(place) {
        cell.bit = bit;
    }
    Some(())
}

/// The frame with a change of the host.
fn taken_with(talker: Party, counts: Counts, frame: &Told, change: Change) -> Option<Told> {
    let moment = change.moment;
    let far = after(FAR, EOI_END);
    let told = match (change.way, counts.host_datas, frame.signal) {
        (Free, 0, _) => Told {
            free: moment,
            ..*frame
        },
        (Pull, 1, Some(_)) => Told {
            signal: Some((moment, far)),
            ..*frame
        },
        (Free, 2, Some((pull, _))) => Told {
            signal: Some((pull, moment)),
            ..*frame
        },
        (Pull, 1, None) | (Pull, 3, Some(_)) => {
            return Some(Told {
                accept: moment,
                ..*frame
            });
        }
        _ => return None,
    };
    Some(told.put_off(talker))
}

/// The frame with a change of the talker: its bits begin, so the byte isn't the last; or a bit changes DATA.
fn told_with(talker: Party, counts: Counts, frame: &Told, change: Change) -> Option<Told> {
    let mut told = *frame;
    match change.line {
        Clock if counts.host_datas == 1 => {
            told.signal = None;
            Some(told.put_off(talker))
        }
        Data => {
            let place = counts.bit();
            let bit = !*frame.bits.get(place)?;
            for other in told.bits.iter_mut().skip(place) {
                *other = bit;
            }
            Some(told)
        }
        _ => None,
    }
}

fn host_guesses(point: &Point, whole: &Whole, counts: Counts, change: Change) -> Guesses {
    let moment = change.moment;
    match (whole, change.line, change.way) {
        (Whole::Command(frame), _, _) => [
            sent_with(frame, counts, change).map(Whole::Command),
            None,
        ],
        (Whole::Byte { frame, eoi }, _, _) => {
            let Some(frame) = sent_with(frame, counts, change) else {
                return NONE;
            };
            if counts.host_clocks > 1 {
                return one(Whole::Byte { eoi: *eoi, frame });
            }
            [
                Some(Whole::Byte { eoi: false, frame }),
                Some(Whole::Byte { eoi: true, frame }),
            ]
        }
        (Whole::ToNobody { at, .. }, Clock, Free) => one(Whole::ToNobody {
            at: *at,
            clock: moment,
        }),
        (Whole::Nothing { at, .. }, Clock, Free) => one(Whole::Nothing {
            at: *at,
            clock: moment,
            freed: None,
        }),
        (Whole::Nothing { at, clock, .. }, Data, Free) => one(Whole::Nothing {
            at: *at,
            clock: *clock,
            freed: Some(moment),
        }),
        (Whole::Talk { at, frame }, Data, _) => {
            let talker = talker_of(&point.seats);
            let told = taken_with(talker, counts, frame, change);
            [told.map(|frame| Whole::Talk { at: *at, frame }), None]
        }
        _ => NONE,
    }
}

/// What the piece under way may be, if it isn't what was guessed before this event.
pub fn guesses(point: &Point, whole: &Whole, counts: Counts, event: Event) -> Guesses {
    match (event.who, whole) {
        (Who::Host, _) => host_guesses(point, whole, counts, event.change),
        (_, Whole::Nothing { at, clock, .. }) => one(Whole::ToTalker {
            at: *at,
            clock: *clock,
        }),
        (_, Whole::Talk { at, frame }) => {
            let talker = talker_of(&point.seats);
            let told = told_with(talker, counts, frame, event.change);
            [told.map(|frame| Whole::Talk { at: *at, frame }), None]
        }
        _ => NONE,
    }
}

/// The frame that a drive leads with, of which nothing came.
pub fn offer(point: &Point) -> Option<Whole> {
    match point.place {
        Place::Leading(at) => Some(Whole::Talk {
            at,
            frame: untold(talker_of(&point.seats)),
        }),
        _ => None,
    }
}

/// A frame of the host that begins at a moment.
fn ready(point: &Point, moment: u64) -> Option<Whole> {
    match point.place {
        Place::Commanding(_) => {
            let wire = unsent(moment, 0).wire(&point.seats);
            Some(Whole::Command(unsent(moment, after(wire, LATEST_START))))
        }
        Place::Listening => Some(Whole::Byte {
            eoi: true,
            frame: unsent(moment, FAR - 100),
        }),
        _ => None,
    }
}

/// The piece that begins with an event.
pub fn beginning(point: &Point, event: Event) -> Option<Whole> {
    let at = event.change.moment;
    if event.who != Who::Host {
        return None;
    }
    match (event.change.line, event.change.way) {
        (Atn, Pull) => Some(Whole::PullPiece { at }),
        (Atn, Free) if has_listener(&point.seats) => Some(Whole::ToListener { at }),
        (Atn, Free) if has_talker(&point.seats) => Some(Whole::ToTalker { at, clock: FAR }),
        (Atn, Free) => Some(Whole::ToNobody { at, clock: FAR }),
        (Clock, Free) => ready(point, at),
        (Data, Pull) => Some(Whole::Nothing {
            at,
            clock: FAR,
            freed: None,
        }),
        _ => None,
    }
}
