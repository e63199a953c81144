//! What the host is at on the wires.

ghost use Rattle.std.specs.Prelude.{◌≡◌, ◌^◌, ◌<◌};
ghost use Rattle.cbm_host.specs.Stages.{commanding, releasing, leaving, pull_change, after_a_pull, release_change, released, stage_due, stage_made, stage_seen, stage_passed};

use crate::commands::Commands;
use crate::due::Due;
use crate::frame::Frame;
use crate::take::Take;
use crate::waits::{ANSWER, PHASE, READY, SILENCE, TURN};
use cbm_iec::attention::UNTALK;
use cbm_iec::{Change, Line, Way};

/// What follows an attention.
#[derive(Clone, Copy, Drop)]
pub(crate) enum Errand {
    /// The drive listens: bytes are sent to it.
    Sends,
    /// The drive talks: bytes are taken from it.
    Takes,
    /// Nobody listens or talks: the request is over.
    Leaves,
}

/// The bytes of an attention that are still to be sent, and what follows it.
#[derive(Clone, Copy, Drop)]
pub(crate) struct Sequence {
    pub(crate) commands: Commands,
    pub(crate) errand: Errand,
}

/// What follows a byte.
#[derive(Clone, Copy, Drop)]
pub(crate) enum Afterwards {
    /// The bytes of an attention, if any, and what follows it.
    Commanded(Option<Commands>, Errand),
    /// Bytes for the listener.
    Listened,
}

/// ATN's pull, and what goes with it.
#[derive(Clone, Copy, Drop)]
pub(crate) enum Pulls {
    /// ATN is pulled; whether the host holds CLOCK and DATA.
    PullAtn { clock_low: bool, data_low: bool },
    /// CLOCK is pulled; whether the host holds DATA.
    PullClock { data_low: bool },
    /// DATA is freed.
    FreeData,
}

/// ATN's release, and what goes with it.
#[derive(Clone, Copy, Drop)]
pub(crate) enum Release {
    /// To nobody: ATN is freed.
    AtnToNobody,
    /// To nobody: CLOCK is freed after it.
    ClockToNobody,
    /// To a talker: DATA is pulled.
    DataToTalker,
    /// To a talker: ATN is freed after it.
    AtnToTalker,
    /// To a talker: CLOCK is freed after that.
    ClockToTalker,
    /// The talker had nothing to say: DATA is freed.
    DataToSilent,
}

/// What the host is at, and the moment of its next change, in microseconds.
#[derive(Clone, Copy, Drop)]
pub(crate) enum Stage {
    /// ATN is pulled.
    Attending {
        at: u64,
        pull: Pulls,
        attention: Sequence,
    },
    /// A byte is sent.
    Framing {
        frame: Frame,
        afterwards: Afterwards,
    },
    /// ATN is freed to a listener.
    Calling(u64),
    /// ATN is freed to nobody or to a talker.
    Releasing {
        at: u64,
        release: Release,
    },
    /// The talker is to pull CLOCK; if it hasn't by then it has nothing to say.
    Turning(u64),
    /// A byte is taken.
    Taking(Take),
    /// All lines are free, and the request is over then.
    Ending(u64),
    /// It was over then.
    Done(u64),
}

impl Pulls {
    /// The change that comes next, at a moment.
    fn change(self, moment: u64) -> Change
        ensures { result ≡ pull_change moment self }
    {
        let (line, way) = match self {
            Pulls::PullAtn { .. } => (Line::Atn, Way::Pull),
            Pulls::PullClock { .. } => (Line::Clock, Way::Pull),
            Pulls::FreeData => (Line::Data, Way::Free),
        };
        Change { moment, line, way }
    }

    /// What is still to be changed after it: only what isn't so already.
    fn afterwards(self) -> Option<Pulls>
        ensures { result ≡ after_a_pull self }
    {
        match self {
            Pulls::PullAtn {
                clock_low: false,
                data_low,
            } => Some(Pulls::PullClock { data_low }),
            Pulls::PullAtn { data_low: true, .. } => Some(Pulls::FreeData),
            Pulls::PullClock { data_low: true } => Some(Pulls::FreeData),
            Pulls::PullAtn { .. } | Pulls::PullClock { .. } | Pulls::FreeData => None,
        }
    }
}

impl Release {
    /// The change that comes next, at a moment.
    fn change(self, moment: u64) -> Change
        ensures { result ≡ release_change moment self }
    {
        let (line, way) = match self {
            Release::AtnToNobody | Release::AtnToTalker => (Line::Atn, Way::Free),
            Release::ClockToNobody | Release::ClockToTalker => (Line::Clock, Way::Free),
            Release::DataToTalker => (Line::Data, Way::Pull),
            Release::DataToSilent => (Line::Data, Way::Free),
        };
        Change { moment, line, way }
    }

    /// What comes after it.
    fn made(self, moment: u64) -> Stage
        requires { moment < 2 ^ 60 }
        ensures { result ≡ released moment self }
    {
        let at = moment;
        match self {
            Release::AtnToNobody => Stage::Releasing {
                at,
                release: Release::ClockToNobody,
            },
            Release::ClockToNobody => Stage::Ending(moment + READY),
            Release::DataToTalker => Stage::Releasing {
                at,
                release: Release::AtnToTalker,
            },
            Release::AtnToTalker => Stage::Releasing {
                at: moment + PHASE,
                release: Release::ClockToTalker,
            },
            Release::ClockToTalker => Stage::Turning(moment + SILENCE),
            Release::DataToSilent => { Stage::leave(moment + ANSWER, UNTALK, false, false) }
        }
    }
}

impl Stage {
    /// The next byte of an attention, after ATN's pull or an accept.
    pub(crate) fn command(moment: u64, attention: Sequence) -> Stage
        requires { moment < 2 ^ 60 }
        ensures { result ≡ commanding moment attention }
    {
        Stage::Framing {
            frame: Frame::Readying {
                at: moment + READY,
                byte: attention.commands.first(),
                eoi: false,
            },
            afterwards: Afterwards::Commanded(attention.commands.rest(), attention.errand),
        }
    }

    /// ATN's release after the last accept of an attention.
    pub(crate) fn release(moment: u64, errand: Errand) -> Stage
        requires { moment < 2 ^ 60 }
        ensures { result ≡ releasing moment errand }
    {
        let at = moment + TURN;
        let release = match errand {
            Errand::Sends => return Stage::Calling(at),
            Errand::Takes => Release::DataToTalker,
            Errand::Leaves => Release::AtnToNobody,
        };
        Stage::Releasing { at, release }
    }

    /// The last attention of a request; whether the host holds CLOCK and DATA before it.
    pub(crate) fn leave(at: u64, byte: u8, clock_low: bool, data_low: bool) -> Stage
        ensures { result ≡ leaving at byte clock_low data_low }
    {
        Stage::Attending {
            at,
            pull: Pulls::PullAtn {
                clock_low,
                data_low,
            },
            attention: Sequence {
                commands: Commands::One(byte),
                errand: Errand::Leaves,
            },
        }
    }

    /// What the host does next.
    #[inline(always)]
    pub(crate) fn due(&self) -> Due
        ensures { result ≡ stage_due self.now }
    {
        match *self {
            Stage::Attending { at, pull, .. } => Due::Makes(pull.change(at)),
            Stage::Calling(moment) => Due::Makes(Change {
                moment,
                line: Line::Atn,
                way: Way::Free,
            }),
            Stage::Releasing { at, release } => Due::Makes(release.change(at)),
            Stage::Framing { ref frame, .. } => Due::of(frame.change()),
            Stage::Taking(Take::Listening(until)) => Due::Waits(until),
            Stage::Taking(ref take) => Due::of(take.change()),
            Stage::Turning(until) | Stage::Ending(until) => Due::Waits(until),
            Stage::Done(at) => Due::Over(at),
        }
    }

    /// After the host's change that was due. What comes of a release to a listener, and of
    /// an accept, is the caller's.
    pub(crate) fn made(self, moment: u64) -> Stage
        requires { moment < 2 ^ 60 }
        ensures { result ≡ stage_made moment self }
    {
        match self {
            Stage::Attending {
                pull,
                attention,
                ..
            } => {
                match pull.afterwards() {
                    Some(pull) => Stage::Attending {
                        at: moment,
                        pull,
                        attention,
                    },
                    None => Stage::command(moment, attention),
                }
            }
            Stage::Framing {
                mut frame,
                afterwards,
            } => {
                frame.make(moment);
                Stage::Framing { frame, afterwards }
            }
            Stage::Releasing { release, .. } => release.made(moment),
            Stage::Taking(take) => Stage::Taking(take.made(moment)),
            other => other,
        }
    }

    /// After a change of the drive. What comes of its accept is the caller's.
    pub(crate) fn seen(self, change: Change) -> Stage
        requires { change.moment < 2 ^ 60 }
        ensures { result ≡ stage_seen change self }
    {
        match (self, change.line, change.way) {
            (Stage::Framing { frame, afterwards }, _, _) => Stage::Framing {
                frame: frame.seen(change),
                afterwards,
            },
            (Stage::Turning(_), Line::Clock, Way::Pull) => Stage::Taking(Take::Awaiting),
            // It let go of CLOCK, and now of DATA: it has nothing to say.
            (Stage::Taking(Take::Freeing(at)), Line::Data, Way::Free) => Stage::Releasing {
                at,
                release: Release::DataToSilent,
            },
            (Stage::Taking(take), _, _) => Stage::Taking(take.seen(change)),
            (other, _, _) => other,
        }
    }

    /// The drive changed nothing for as long as the host waits.
    pub(crate) fn passed(self) -> Stage
        ensures { result ≡ stage_passed self }
    {
        match self {
            Stage::Turning(at) => Stage::Releasing {
                at,
                release: Release::DataToSilent,
            },
            Stage::Taking(Take::Listening(at)) => Stage::Taking(Take::Marking(at)),
            Stage::Ending(at) => Stage::Done(at),
            other => other,
        }
    }
}
