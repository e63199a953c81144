//! A drive's port under one of the two hosts.

ghost use Rattle.std.specs.Prelude.{◌≡◌, ◌<◌, ◌^◌, MatchOption, IfSome, true};
ghost use Rattle.cbm_iec.specs.Ports.{resting, told, told_act};
ghost use Rattle.cbm_session.specs.Among.{wires_of, after_the_host, after_another};
ghost use Rattle.cbm_session.specs.Playing.{nobody};
ghost use Rattle.bus_beside.specs.Rests.{rest_by, ToldBy};

use crate::others::Others;
use cbm_iec::{Act, Change, Party, Port};

/// A drive's port, and what all others hold.
#[derive(Clone, Copy, Drop)]
pub(crate) struct Wired {
    pub(crate) port: Port,
    pub(crate) others: Others,
}

impl Wired {
    /// A drive as it is switched on, and nobody holds a line.
    pub(crate) fn new(party: Party) -> Wired
        ensures port { result.port ≡ resting party }
        ensures others { rest_by result.others ≡ nobody }
    {
        Wired {
            port: Port::new(party),
            others: Others::nobody(),
        }
    }

    /// The host changes a line. Answers the act that counts with it.
    pub(crate) fn tell(&mut self, change: Change) -> Option<Act>
        requires { change.moment < 2 ^ 60 }
        ensures { ToldBy change.moment (after_the_host change.line change.way (rest_by self.old.others)) self.old self.new result }
    {
        let others = self.others.after_host(change);
        self.told(change.moment, others)
    }

    /// Another drive changes a line. Answers the act that counts with it; None if there are too many drives.
    pub(crate) fn hear(&mut self, change: Change) -> Option<Option<Act>>
        requires { change.moment < 2 ^ 60 }
        ensures { IfSome result (λ act. ToldBy change.moment (after_another change.line change.way (rest_by self.old.others)) self.old self.new act) }
    {
        let others = self.others.after_drive(change)?;
        Some(self.told(change.moment, others))
    }

    /// All others hold these lines from a moment on.
    fn told(&mut self, moment: u64, others: Others) -> Option<Act>
        requires { moment < 2 ^ 60 }
        ensures { ToldBy moment (rest_by others) self.old self.new result }
    {
        let wires = others.wires();
        self.others = others;
        self.port.line(moment, wires)
    }
}
