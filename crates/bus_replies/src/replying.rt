//! A talk, line by line.

ghost use Rattle.std.specs.Prelude.{◌≡◌, ◌≤◌, IfOk, IfSome, None, OnOk};
ghost use Rattle.std.specs.Io.KnownBytes.{Keeps};
ghost use Rattle.bus_replies.specs.Replies.{IsReplyInRange, IsReplyInTime, HaveAnswered};

use crate::carrying::carry_out;
use crate::clock::Clock;
use crate::fault::{ReplyFault, ReplyRefusal};
use crate::lines::LineReader;
use crate::plays::Plays;
use crate::request::{LONGEST, ReplyRequest};
use std::io::{Read, Write};

/// Sends on all that was written.
fn send_on<W: Write>(writer: &mut W) -> Result<(), ReplyFault>
    ensures { Keeps (W.contents writer.old) (W.contents writer.new) }
{
    writer.flush().map_err(|_| ReplyFault::Writing)
}

/// What the next line asks for, if there is one; all that was written is sent on before the reader is waited for. Each read gives
/// a byte at least, so no line needs more of them than it may have bytes.
fn next_request<R: Read, W: Write>(
    lines: &mut LineReader<R>,
    writer: &mut W,
) -> Result<Option<Result<ReplyRequest, ReplyRefusal>>, ReplyFault>
    ensures range { IfOk result (λ next. IfSome next (λ asked. IfOk asked IsReplyInRange)) }
    ensures kept { OnOk result (Keeps (W.contents writer.old) (W.contents writer.new)) }
{
    'reads: for _ in 0..=LONGEST {
        if let Some(asked) = lines.take() {
            return Ok(Some(asked));
        }
        if lines.is_long() {
            return Ok(Some(Err(ReplyRefusal::Long)));
        }
        send_on(writer)?;
        if !lines.fill().map_err(|_| ReplyFault::Reading)? {
            return Ok(lines.take_rest());
        }
    }
    Ok(Some(Err(ReplyRefusal::Long)))
}

/// What a line asks for, if that can be done now.
fn in_time(
    asked: Result<ReplyRequest, ReplyRefusal>,
    clock: &Clock,
) -> Result<ReplyRequest, ReplyRefusal>
    requires { IfOk asked IsReplyInRange }
    ensures { IfOk result (IsReplyInTime clock.now.moment clock.now.from) }
{
    let request = asked?;
    match clock.refuses(request) {
        Some(refusal) => Err(refusal),
        None => Ok(request),
    }
}

/// Writes why a line is refused.
fn refuse<W: Write>(number: u64, refusal: ReplyRefusal, writer: &mut W) -> ReplyFault {
    let written = writeln!(writer, "error {number}: {refusal}");
    if written.is_err() || writer.flush().is_err() {
        return ReplyFault::Writing;
    }
    ReplyFault::Line(number, refusal)
}

/// Answers the lines of a host, each before the next one is waited for, up to `end` or to the end of what it says. Each line is
/// answered by the events that come of it, and by `ready MOMENT DUE`.
///
/// Errors: `Line` with the number of a line that is refused and why, which is also written, as `error NUMBER: WHY`; or `Reading` or
/// `Writing`. The bus is then as the lines before left it, and nothing is read on.
pub fn reply<B: Plays, R: Read, W: Write>(
    bus: &mut B,
    lines: &mut LineReader<R>,
    writer: &mut W,
) -> Result<(), ReplyFault>
    requires none { B.waiting bus.old ≡ None }
    requires start { B.from bus.old ≡ 0 }
    ensures answered { OnOk result (HaveAnswered B.gave B.due (W.contents writer.old) (W.contents writer.new) bus.old bus.new) }
{
    let mut clock = Clock::new();
    'lines: for number in 1..u64::MAX {
        let Some(asked) = next_request(lines, writer)? else {
            return Ok(());
        };
        let request = match in_time(asked, &clock) {
            Ok(request) => request,
            Err(refusal) => return Err(refuse(number, refusal, writer)),
        };
        carry_out(bus, &mut clock, request, writer)?;
        if let ReplyRequest::End(_) = request {
            return send_on(writer);
        }
    }
    Ok(())
}
