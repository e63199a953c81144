//! Who holds which lines of the cable.

ghost use Rattle.std.specs.Prelude.{◌≡◌, ◌≤◌, ◌<◌, ◌+◌, ◌^◌, length};
ghost use Rattle.cbm_session.specs.Among.{Rest, wires_of, counted};
ghost use Rattle.cbm_drive.specs.Seats.{pulls_counted, wires_held_by, IsWithout};
ghost use Rattle.cbm_drive.specs.Reactions.{after_a_change};

use crate::drive::Drive;
use cbm_iec::{Change, Held, Line, Lines, Machine, Way};

/// What the host holds, and how many drives hold CLOCK and DATA.
#[derive(Clone, Copy, Drop)]
pub(crate) struct Wires {
    pub(crate) host: Lines,
    pub(crate) clocks: usize,
    pub(crate) datas: usize,
}

/// One party that holds a line, or none.
fn bit(low: bool) -> usize
    ensures value { result ≡ pulls_counted low }
    ensures most { result ≤ 1 }
{
    if low { 1 } else { 0 }
}

impl Wires {
    /// What the host and these drives hold.
    pub(crate) fn of<D: Machine>(host: Lines, drives: &[Drive<D>]) -> Wires
        ensures value { result ≡ wires_held_by host drives.now }
        ensures clocks { result.clocks ≤ length drives.now }
        ensures datas { result.datas ≤ length drives.now }
    {
        let mut clocks = 0;
        let mut datas = 0;
        for drive in drives {
            let own = drive.own();
            clocks += bit(own.clock_low);
            datas += bit(own.data_low);
        }
        Wires {
            host,
            clocks,
            datas,
        }
    }

    /// What all others hold than a drive that holds these lines itself.
    pub(crate) fn without(&self, own: Held) -> Lines
        ensures { (r : Rest) → IsWithout self.now own r → result ≡ wires_of r }
    {
        Lines {
            atn_low: self.host.atn_low,
            clock_low: self.clocks > bit(own.clock_low) || self.host.clock_low,
            data_low: self.datas > bit(own.data_low) || self.host.data_low,
        }
    }

    /// What is held after a change of a drive.
    pub(crate) fn after(self, line: Line, way: Way) -> Wires
        requires clocks { self.clocks < 2 ^ 60 }
        requires datas { self.datas < 2 ^ 60 }
        ensures value { result ≡ after_a_change line way self }
        ensures clocks { result.clocks ≤ self.clocks + 1 }
        ensures datas { result.datas ≤ self.datas + 1 }
    {
        match line {
            Line::Atn => self,
            Line::Clock => Wires {
                clocks: counted(way, self.clocks),
                ..self
            },
            Line::Data => Wires {
                datas: counted(way, self.datas),
                ..self
            },
        }
    }
}

/// One more holds a line after its pull, one less after its release.
fn counted(way: Way, count: usize) -> usize
    requires { count < 2 ^ 60 }
    ensures value { result ≡ counted way count }
    ensures most { result ≤ count + 1 }
{
    match way {
        Way::Pull => count + 1,
        Way::Free => count.saturating_sub(1),
    }
}
