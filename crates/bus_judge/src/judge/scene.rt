//! Where a session stands, for the words of a verdict.

use crate::breach::{line_name, way_name};
use crate::whole::{Place, Whole};
use cbm_iec::{Event, Who};
use std::fmt;

/// What the bus is about.
#[derive(Clone, Copy, Debug, PartialEq, Eq, Drop)]
pub enum Turn {
    /// No drive listens or talks on.
    Rest,
    /// Attention, before a byte or between two.
    Attention,
    /// A byte in attention.
    Command,
    /// The host is to send a byte, or to pull ATN.
    Listening,
    /// A byte of the host to those that listen.
    Byte,
    /// ATN's release.
    Release,
    /// The turnaround to a talker.
    Turnaround,
    /// A byte of the talker.
    Talk,
}

/// Where a session stands.
#[derive(Clone, Copy, Debug, PartialEq, Eq, Drop)]
pub struct Scene {
    /// What the bus is about.
    pub turn: Turn,
    /// Which bit of a byte is under way, from 1 on.
    pub bit: Option<u8>,
    /// The change that comes next, with its moment in microseconds if that is known.
    pub next: Option<Due>,
}

/// A change that comes next.
#[derive(Clone, Copy, Debug, PartialEq, Eq, Drop)]
pub struct Due {
    /// The change; its moment counts if `is_known`.
    pub event: Event,
    /// Whether its moment is known.
    pub is_known: bool,
    /// Until when it may come, in microseconds.
    pub latest: u64,
}

/// Of a byte what follows its number.
impl fmt::Display for Turn {
    fn fmt<W: fmt::Write>(&self, f: &mut fmt::Formatter<W>) -> fmt::Result {
        let words = match self {
            Turn::Rest => "at rest",
            Turn::Attention => "in attention",
            Turn::Command => "in attention",
            Turn::Listening => "before a byte of the host",
            Turn::Byte => "of the host",
            Turn::Release => "at ATN's release",
            Turn::Turnaround => "at the turnaround",
            Turn::Talk => "of the talker",
        };
        f.write_str(words)
    }
}

/// As `drive 8 data free at 1420`; the host's by its latest moment.
impl fmt::Display for Due {
    fn fmt<W: fmt::Write>(&self, f: &mut fmt::Formatter<W>) -> fmt::Result {
        let change = self.event.change;
        let (line, way) = (line_name(change.line), way_name(change.way));
        let (moment, latest) = (change.moment, self.latest);
        match self.event.who {
            Who::Host => write!(f, "host {line} {way}")?,
            Who::Drive(device) => write!(f, "drive {device} {line} {way}")?,
        }
        if !self.is_known {
            return Ok(());
        }
        match self.event.who {
            Who::Host => write!(f, " by {latest}"),
            Who::Drive(_) if moment < latest => write!(f, " at {moment} to {latest}"),
            Who::Drive(_) => write!(f, " at {moment}"),
        }
    }
}

impl Turn {
    /// Whether it is a byte.
    pub fn is_byte(self) -> bool {
        matches!(self, Turn::Command | Turn::Byte | Turn::Talk)
    }
}

pub(crate) fn turn_of_place(place: Place) -> Turn {
    match place {
        Place::Open => Turn::Rest,
        Place::Commanding(_) | Place::Cutting(_) => Turn::Attention,
        Place::Listening => Turn::Listening,
        Place::Leading(_) => Turn::Talk,
    }
}

pub(crate) fn turn_of_piece(whole: &Whole) -> Turn {
    match whole {
        Whole::PullPiece { .. } => Turn::Attention,
        Whole::Command(_) => Turn::Command,
        Whole::Byte { .. } => Turn::Byte,
        Whole::ToListener { .. } | Whole::ToNobody { .. } => Turn::Release,
        Whole::ToTalker { .. } | Whole::Nothing { .. } => Turn::Turnaround,
        Whole::Talk { .. } => Turn::Talk,
    }
}
