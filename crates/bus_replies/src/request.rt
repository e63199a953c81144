//! What a line of the host asks for.
ghost use Rattle.std.specs.Prelude.{◌≡◌, ◌<◌, Err, length, IfOk, IfSome};
ghost use Rattle.bus_replies.specs.Replies.{IsReplyInRange};

use crate::fault::ReplyRefusal;
use bus_traces::{host_event_of, moment_of};
use cbm_iec::Change;

/// What a line of the host asks for.
#[derive(Clone, Copy, Debug, PartialEq, Eq, Drop)]
pub enum ReplyRequest {
    /// It is empty, or begins with `;`.
    Nothing,
    /// The host changes a line.
    Change(Change),
    /// All that comes up to this moment, in microseconds.
    Until(u64),
    /// The same, and the talk ends.
    End(u64),
}

/// `MOMENT LINE WAY`.
fn change(line: &[u8]) -> Option<ReplyRequest>
    ensures { IfSome result IsReplyInRange }
{
    let event = host_event_of(line)?;
    Some(ReplyRequest::Change(event.change))
}

/// What the words of a line ask for, if they ask for something.
fn request_in(line: &[u8]) -> Option<ReplyRequest>
    ensures { IfSome result IsReplyInRange }
{
    match line {
        [] | [b';', ..] => Some(ReplyRequest::Nothing),
        [b'u', b'n', b't', b'i', b'l', b' ', moment @ ..] => Some(ReplyRequest::Until(moment_of(
            moment,
        )?)),
        [b'e', b'n', b'd', b' ', moment @ ..] => Some(ReplyRequest::End(moment_of(moment)?)),
        _ => change(line),
    }
}

/// A line without the carriage return that it may end with.
fn without_return(line: &[u8]) -> &[u8] {
    match line {
        [rest @ .., b'\r'] => rest,
        _ => line,
    }
}

/// What a line without its end asks for. Errors: `Long` for more than 1,000 bytes, then `Words`.
pub fn request_of(line: &[u8]) -> Result<ReplyRequest, ReplyRefusal>
    ensures range { IfOk result IsReplyInRange }
    ensures long { 1000 < length line.now → result ≡ Err ReplyRefusal.Long }
{
    if line.len() > LONGEST {
        return Err(ReplyRefusal::Long);
    }
    request_in(without_return(line)).ok_or(ReplyRefusal::Words)
}

/// The most bytes of a line.
pub(crate) const LONGEST: usize = 1000;
