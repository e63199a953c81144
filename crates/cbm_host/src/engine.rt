//! A request on the wires: what the host does next, by what came.

use crate::commands::Commands;
use crate::due::Due;
use crate::frame::Frame;
use crate::left::Left;
use crate::request::Request;
use crate::stage::{Afterwards, Errand, Pulls, Sequence, Stage};
use crate::take::Take;
use crate::waits::{ANSWER, READY, TURN};
use cbm_drive::Half;
use cbm_iec::attention::{CLOSE, DATA, LISTEN, OPEN, TALK, UNLISTEN, UNTALK};
use cbm_iec::{Change, Line, Way};
use std::marker::Model;

/// A request under way: what the host is at, the bytes that it still has to send, and how many it still takes.
#[derive(Drop)]
pub(crate) struct Engine<'a> {
    stage: Stage,
    left: Left<'a>,
    most: u32,
}

impl<'a> Model for Engine<'a> {
    ghost use Rattle.cbm_host.specs.Engines.{Engined};
    ghost use Rattle.cbm_host.specs.Left.{bytes_left};

    ghost Value = { Engined };

    ghost view = { λ e. record { stage = e.stage; left = bytes_left e.left; most = e.most } };
}

impl<'a> Engine<'a> {
    ghost use Rattle.std.specs.Prelude.{◌≡◌, ◌^◌, ◌<◌, ◌≤◌, true, not, MatchBool};
    ghost use Rattle.cbm_drive.specs.Halves.{half_lines};
    ghost use Rattle.cbm_host.specs.Engines.{engine_at, engine_due, stage_taken, stage_end, engine_made, engine_seen, engine_heard, engine_passed, stage_gathers, accepted, sending_on, taking_on, channel_of};

    /// A request to the drive with a device number, before its first change, which comes at this moment.
    pub(crate) fn new(start: u64, device: u8, request: Request<'a>) -> Engine<'a>
        requires device { device < 31 }
        requires channel { channel_of request ≤ 15 }
        ensures { result ≡ engine_at start device request.entry }
    {
        let attention = Sequence::of(device, request);
        let pull = Pulls::PullAtn {
            clock_low: false,
            data_low: false,
        };
        Engine {
            stage: Stage::Attending {
                at: start,
                pull,
                attention,
            },
            left: request.sends(),
            most: request.most(),
        }
    }

    /// What the host does next.
    #[inline(always)]
    pub(crate) fn due(&self) -> Due
        ensures { result ≡ engine_due self.now }
    {
        self.stage.due()
    }

    /// The byte of the talker that the host's next change accepts, and whether it is the last.
    pub(crate) fn taken(&self) -> Option<(u8, bool)>
        ensures { result ≡ stage_taken self.now.stage }
    {
        match self.stage {
            Stage::Taking(Take::Accepting { byte, last, .. }) => Some((byte, last)),
            _ => None,
        }
    }

    /// When the request was over, in microseconds.
    pub(crate) fn end(&self) -> Option<u64>
        ensures { result ≡ stage_end self.now.stage }
    {
        match self.stage {
            Stage::Done(at) => Some(at),
            _ => None,
        }
    }

    /// The host's change that was due was made, at this moment.
    pub(crate) fn made(&mut self, moment: u64)
        requires { moment < 2 ^ 60 }
        ensures { self.new ≡ engine_made moment self.old }
    {
        if self.make(moment) {
            return;
        }
        match self.stage {
            Stage::Calling(_) => self.send(moment, READY),
            Stage::Taking(Take::Accepting { last, .. }) => self.take(moment, last),
            stage => self.stage = stage.made(moment),
        }
    }

    /// The quick way of `made` for a frame's change, in place. False at another stage, and then nothing has changed.
    #[inline(always)]
    fn make(&mut self, moment: u64) -> bool
        requires { moment < 2 ^ 60 }
        ensures { MatchBool result (self.new ≡ engine_made moment self.old) (self.new ≡ self.old) }
    {
        match &mut self.stage {
            Stage::Framing { frame, .. } => {
                frame.make(moment);
                true
            }
            _ => false,
        }
    }

    /// The drive changed a line.
    pub(crate) fn seen(&mut self, change: Change)
        requires { change.moment < 2 ^ 60 }
        ensures { self.new ≡ engine_seen change self.old }
    {
        match (self.stage, change.line, change.way) {
            (
                Stage::Framing {
                    frame: Frame::Sent,
                    afterwards,
                },
                Line::Data,
                Way::Pull,
            ) => self.accepted(change.moment, afterwards),
            (stage, _, _) => self.stage = stage.seen(change),
        }
    }

    /// Whether bits of the drive come, one of them at least.
    #[inline(always)]
    pub(crate) fn gathers(&self) -> bool
        ensures { result ≡ stage_gathers self.now.stage }
    {
        match self.stage {
            Stage::Taking(Take::Gathering(came)) => came.count < 8,
            _ => false,
        }
    }

    /// The drive said half of such a bit.
    #[inline(always)]
    pub(crate) fn heard(&mut self, half: Half)
        requires gathers { stage_gathers self.old.stage ≡ true }
        requires clock { half.now.clock_low ≡ not half.was.clock_low }
        ensures { self.new ≡ engine_heard (half_lines half) self.old }
    {
        if let Stage::Taking(Take::Gathering(came)) = &mut self.stage {
            came.half(half);
        }
    }

    /// The drive changed nothing for as long as the host waits.
    pub(crate) fn passed(&mut self)
        ensures { self.new ≡ engine_passed self.old }
    {
        self.stage = self.stage.passed();
    }

    /// A byte of the host was accepted.
    fn accepted(&mut self, moment: u64, afterwards: Afterwards)
        requires { moment < 2 ^ 60 }
        ensures { self.new ≡ accepted moment afterwards self.old }
    {
        match afterwards {
            Afterwards::Commanded(Some(commands), errand) => {
                self.stage = Stage::command(moment, Sequence { commands, errand });
            }
            Afterwards::Commanded(None, errand) => self.stage = Stage::release(moment, errand),
            Afterwards::Listened => self.send(moment, TURN),
        }
    }

    /// The next byte to the listener; if none is left UNLISTEN comes after a wait.
    fn send(&mut self, moment: u64, wait: u64)
        requires moment { moment < 2 ^ 60 }
        requires wait { wait ≤ 100 }
        ensures { self.new ≡ sending_on moment wait self.old.most self.old.left }
    {
        let Some(byte) = self.left.next() else {
            self.stage = Stage::leave(moment + wait, UNLISTEN, true, false);
            return;
        };
        self.stage = Stage::Framing {
            frame: Frame::Readying {
                at: moment + READY,
                byte,
                eoi: self.left.is_empty(),
            },
            afterwards: Afterwards::Listened,
        };
    }

    /// A byte of the talker was accepted: the next one is awaited, or UNTALK comes.
    fn take(&mut self, moment: u64, last: bool)
        requires { moment < 2 ^ 60 }
        ensures { self.new ≡ taking_on moment last self.old }
    {
        if last || self.most <= 1 {
            self.stage = Stage::leave(moment + ANSWER, UNTALK, false, true);
            return;
        }
        self.most -= 1;
        self.stage = Stage::Taking(Take::Awaiting);
    }
}

impl Sequence {
    ghost use Rattle.std.specs.Prelude.{◌≡◌, ◌<◌, ◌≤◌};
    ghost use Rattle.cbm_host.specs.Engines.{attention_of, channel_of};

    /// The first attention of a request to a device, and what follows it.
    fn of(device: u8, request: Request) -> Sequence
        requires device { device < 31 }
        requires channel { channel_of request ≤ 15 }
        ensures { result ≡ attention_of device request.entry }
    {
        let listen = LISTEN + device;
        let talk = TALK + device;
        let (commands, errand) = match request {
            Request::Open(channel, _) => (Commands::Two(listen, OPEN + channel), Errand::Sends),
            Request::Put(channel, _) | Request::Fill(channel, _, _) => {
                (Commands::Two(listen, DATA + channel), Errand::Sends)
            }
            Request::Get(channel, _) => (Commands::Two(talk, DATA + channel), Errand::Takes),
            Request::Close(channel) => {
                let commands = Commands::Three(listen, CLOSE + channel, UNLISTEN);
                (commands, Errand::Leaves)
            }
            Request::Status => (Commands::Two(talk, DATA + 15), Errand::Takes),
        };
        Sequence { commands, errand }
    }
}
