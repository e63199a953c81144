//! A script of requests whose events are handed on.
ghost use Rattle.std.specs.Prelude.{◌<◌, ◌≤◌, ◌^◌, IfSome};
ghost use Rattle.cbm_host.specs.Engines.{channel_of};
ghost use Rattle.cbm_program.specs.Running.{IsInRange, LineIsInRange};

use super::cable::Cable;
use super::printing::Printing;
use crate::fault::RunFault;
use crate::line::{ScriptLine, parse};
use crate::numbered::next_line;
use crate::output::flush;
use crate::request::ScriptRequest;
use arrayvec::ArrayVec;
use bus_traces::Source;
use cbm_drive::{Pace, Watches};
use cbm_host::{self, Performer};
use std::io::{Read, Write};

/// When the first request begins, in microseconds.
const FIRST: u64 = 1000;

/// The number of the line that is one too many.
const LINES: u32 = 1_000_001;

/// No request begins later, in microseconds: a million of them, each of at most 320 seconds, end long before.
const LATEST: u64 = 100_000_000_000_000_000;

/// A drive alone on a cable with a host, and when the host's next request begins.
#[derive(Drop)]
pub(crate) struct Bench<C: Cable> {
    cable: C,
    device: u8,
    pace: Pace,
    moment: u64,
    ghost device_fits: { device ≤ 11 },
}

/// What the host asks of the drive.
fn asked(request: &ScriptRequest) -> cbm_host::Request<'_>
    requires { IsInRange request.now }
    ensures { channel_of result ≤ 15 }
{
    match request {
        ScriptRequest::Open(channel, text) => cbm_host::Request::Open(*channel, text.as_slice()),
        ScriptRequest::Put(channel, bytes) => cbm_host::Request::Put(*channel, bytes.as_slice()),
        ScriptRequest::Fill(channel, count, byte) => cbm_host::Request::Fill(
            *channel, *count, *byte,
        ),
        ScriptRequest::Get(channel, most) => cbm_host::Request::Get(*channel, *most),
        ScriptRequest::Close(channel) => cbm_host::Request::Close(*channel),
        ScriptRequest::Status => cbm_host::Request::Status,
    }
}

impl<C: Cable> Bench<C> {
    /// A drive of this pace and device number at power up, on its cable.
    pub(crate) fn new(cable: C, device: u8, pace: Pace) -> Bench<C>
        requires { device ≤ 11 }
    {
        Bench {
            cable,
            device,
            pace,
            moment: FIRST,
        }
    }

    /// Carries out a request, tells its events, and prints what it prints. Error: `Writing`.
    fn perform<W: Write, T: Watches>(
        &mut self,
        request: &ScriptRequest,
        writer: &mut W,
        watcher: &mut T,
    ) -> Result<(), RunFault>
        requires { IsInRange request.now }
    {
        let start = self.moment.min(LATEST);
        let mut performer = Performer::with_pace(start, self.device, asked(request), self.pace);
        let mut printing = Printing::of(request);
        for _ in 0..u64::MAX {
            let Some(event) = self.cable.next(&mut performer) else {
                break;
            };
            watcher.event(event);
            match performer.byte() {
                Some((byte, is_last)) => printing.byte(writer, byte, is_last)?,
                None => self.gather(&mut performer, watcher),
            }
        }
        self.moment = performer.over();
        printing.end(writer)
    }

    /// The halves of bits that the drive says next, as long as the host waits for them.
    fn gather<T: Watches>(&mut self, performer: &mut Performer, watcher: &mut T) {
        for _ in 0..u64::MAX {
            let Some(half) = self.cable.half(performer) else {
                return;
            };
            watcher.half(half);
        }
    }

    /// Carries out a line, and sends on what it prints. Error: `Writing`.
    fn line<W: Write, T: Watches>(
        &mut self,
        line: &ScriptLine,
        writer: &mut W,
        watcher: &mut T,
    ) -> Result<(), RunFault>
        requires { LineIsInRange line.now }
    {
        match line {
            ScriptLine::Skipped => Ok(()),
            ScriptLine::Asks(request) => {
                self.perform(request, writer, watcher)?;
                flush(writer)
            }
        }
    }

    /// The medium, with all that was written to it.
    fn into_medium(self) -> C::Medium {
        let Bench { cable, .. } = self;
        cable.into_medium()
    }
}

/// Carries out a script of requests, after its first line, on a drive at power up, hands on each event as it comes, and gives the
/// drive's medium back with what came of it. It prints what a run prints that isn't watched. Errors: `Script`, `Reading` or `Writing`.
pub(crate) fn serve_direct<C: Cable + Drop, R: Read, W: Write, T: Watches>(
    bench: Bench<C>,
    lines: &mut Source<R>,
    first: Option<ScriptLine>,
    writer: &mut W,
    watcher: &mut T,
) -> Result<C::Medium, RunFault>
    requires { IfSome first LineIsInRange }
{
    let mut bench = bench;
    let Some(first) = first else {
        return Ok(bench.into_medium());
    };
    bench.line(&first, writer, watcher)?;
    let mut bytes = ArrayVec::new();
    for number in 2..=LINES {
        if !next_line(lines, &mut bytes, number)? {
            break;
        }
        let Some(line) = parse(bytes.as_slice()) else {
            return Err(RunFault::Script(number));
        };
        bench.line(&line, writer, watcher)?;
    }
    Ok(bench.into_medium())
}
