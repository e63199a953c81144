//! What all others hold, as a drive counts it.

ghost use Rattle.std.specs.Prelude.{◌≡◌, IfSome};
ghost use Rattle.cbm_session.specs.Among.{wires_of, after_the_host, after_another, counted};
ghost use Rattle.cbm_session.specs.Playing.{nobody};
ghost use Rattle.bus_beside.specs.Rests.{rest_by};

use cbm_iec::{Change, Line, Lines, Way};

/// The host's lines, and how many other drives hold CLOCK, and how many DATA.
#[derive(Clone, Copy, Drop)]
pub(crate) struct Others {
    pub(crate) host: Lines,
    pub(crate) clocks: u64,
    pub(crate) datas: u64,
}

/// One more holds a line after its pull, one less after its release. None if the count is too great.
fn counted(way: Way, count: u64) -> Option<u64>
    ensures { IfSome result (λ n. n ≡ counted way count) }
{
    match way {
        Way::Pull => count.checked_add(1),
        Way::Free => Some(count.saturating_sub(1)),
    }
}

impl Others {
    /// Nobody holds a line.
    pub(crate) fn nobody() -> Others
        ensures { rest_by result ≡ nobody }
    {
        Others {
            host: Lines::FREE,
            clocks: 0,
            datas: 0,
        }
    }

    /// Which lines are low.
    pub(crate) fn wires(&self) -> Lines
        ensures { result ≡ wires_of (rest_by self.now) }
    {
        Lines {
            atn_low: self.host.atn_low,
            clock_low: self.clocks > 0 || self.host.clock_low,
            data_low: self.datas > 0 || self.host.data_low,
        }
    }

    /// After a change of the host.
    pub(crate) fn after_host(self, change: Change) -> Others
        ensures { rest_by result ≡ after_the_host change.line change.way (rest_by self) }
    {
        Others {
            host: self.host.after(change),
            ..self
        }
    }

    /// After a change of another drive. None if the count is too great.
    pub(crate) fn after_drive(self, change: Change) -> Option<Others>
        ensures { IfSome result (λ o. rest_by o ≡ after_another change.line change.way (rest_by self)) }
    {
        match change.line {
            Line::Atn => Some(self),
            Line::Clock => {
                let clocks = counted(change.way, self.clocks)?;
                Some(Others { clocks, ..self })
            }
            Line::Data => {
                let datas = counted(change.way, self.datas)?;
                Some(Others { datas, ..self })
            }
        }
    }
}
