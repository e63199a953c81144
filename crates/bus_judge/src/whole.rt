//! The pieces of a session, and what stands before and after one.

use crate::frame::{Sent, Told};
use crate::seat::Seats;
use cbm_iec::Held;

/// A piece of a session that isn't cut. All moments are in microseconds.
#[derive(Clone, Copy, Debug, PartialEq, Eq, Drop)]
pub enum Whole {
    /// The part of an attention up to its first byte: ATN's pull.
    PullPiece {
        at: u64,
    },
    /// A frame of the host in attention.
    Command(Sent),
    /// A frame of the host to listeners, with EOI or without.
    Byte {
        eoi: bool,
        frame: Sent,
    },
    /// ATN's release, with a listener.
    ToListener {
        at: u64,
    },
    /// ATN's release with neither, and CLOCK freed then.
    ToNobody {
        at: u64,
        clock: u64,
    },
    /// ATN's release with a talker, and CLOCK freed then: up to its lead.
    ToTalker {
        at: u64,
        clock: u64,
    },
    /// The same with nothing to say; the host may free DATA.
    Nothing {
        at: u64,
        clock: u64,
        freed: Option<u64>,
    },
    /// A frame of the drive, which frees CLOCK at that moment.
    Talk {
        at: u64,
        frame: Told,
    },
}

/// What kind of piece may come next.
#[derive(Clone, Copy, Debug, PartialEq, Eq, Drop)]
pub enum Place {
    /// From rest, and after a talk is over.
    Open,
    /// In attention, after a byte or before the first.
    Commanding(bool),
    Listening,
    /// The drive frees CLOCK at that moment for its next frame.
    Leading(u64),
    /// A pull of ATN at that moment comes next.
    Cutting(u64),
}

/// What the next piece reads of the past.
#[derive(Drop)]
pub struct Point {
    pub place: Place,
    pub seats: Seats,
    pub host: Held,
    /// ATN's last pull, and its release if no drive talks.
    pub pulled: u64,
    pub released: Option<u64>,
    /// The accept of the last byte that the host sent.
    pub accepted: u64,
    /// No pull comes before.
    pub since: u64,
}

impl Whole {
    /// Whether it is a piece of a drive that talks, which a pull of ATN may cut.
    pub fn is_talk(&self) -> bool {
        matches!(
            self,
            Whole::ToTalker { .. } | Whole::Nothing { .. } | Whole::Talk { .. }
        )
    }
}
