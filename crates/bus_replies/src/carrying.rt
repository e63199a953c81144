//! What the host asks for is carried out.

ghost use Rattle.std.specs.Prelude.{◌≡◌, ◌+◌, ◌-◌, ◌^◌, ◌<◌, ◌≤◌, ◌∷◌, [], None, OnOk};
ghost use Rattle.std.specs.Io.KnownBytes.{Appends};
ghost use Rattle.bus_traces.specs.Events.{event_text};
ghost use Rattle.bus_replies.specs.Ready.{ready_text};
ghost use Rattle.bus_replies.specs.Plays.{HasGivenEvents};
ghost use Rattle.bus_replies.specs.Replies.{HasAnswered, IsReplyInTime, IsReady, changes_in, reply_moment_after};

use crate::clock::Clock;
use crate::fault::ReplyFault;
use crate::plays::Plays;
use crate::ready::ready_text;
use crate::request::ReplyRequest;
use bus_traces::event_text;
use cbm_iec::{Change, Event, Who};
use std::io::Write;

fn write_event<W: Write>(writer: &mut W, event: Event) -> Result<(), ReplyFault>
    ensures { OnOk result (Appends (W.contents writer.old) (W.contents writer.new) (event_text event)) }
{
    writer
        .write_all(event_text(event).as_slice())
        .map_err(|_| ReplyFault::Writing)
}

/// Writes the mark that ends what comes of a line.
fn write_mark<W: Write>(writer: &mut W, moment: u64, due: Option<u64>) -> Result<(), ReplyFault>
    ensures { OnOk result (Appends (W.contents writer.old) (W.contents writer.new) (ready_text moment due)) }
{
    writer
        .write_all(ready_text(moment, due).as_slice())
        .map_err(|_| ReplyFault::Writing)
}

/// The host changes a line: the reactions that are due before it come first, and all is written.
fn change<B: Plays, W: Write>(bus: &mut B, change: Change, writer: &mut W) -> Result<(), ReplyFault>
    requires none { B.waiting bus.old ≡ None }
    requires from { B.from bus.old ≤ change.moment }
    requires moment { change.moment < 2 ^ 59 - 1 }
    ensures given { OnOk result (HasGivenEvents B.gave (W.contents writer.old) (W.contents writer.new) (change ∷ []) bus.old bus.new) }
    ensures waiting { OnOk result (B.waiting bus.new ≡ None) }
    ensures from { OnOk result (B.from bus.new ≡ change.moment) }
{
    bus.offer(change);
    'events: while let Some(event) = bus.next(change.moment) {
        write_event(writer, event)?;
        if let Who::Host = event.who {
            return Ok(());
        }
    }
    Ok(())
}

/// All comes that is due up to a moment, and is written.
fn play<B: Plays, W: Write>(bus: &mut B, upto: u64, writer: &mut W) -> Result<(), ReplyFault>
    requires none { B.waiting bus.old ≡ None }
    requires from { B.from bus.old ≤ upto + 1 }
    requires upto { upto < 2 ^ 59 - 1 }
    ensures given { OnOk result (HasGivenEvents B.gave (W.contents writer.old) (W.contents writer.new) [] bus.old bus.new) }
    ensures waiting { OnOk result (B.waiting bus.new ≡ None) }
    ensures from { OnOk result (B.from bus.new ≤ upto + 1) }
{
    'events: while let Some(event) = bus.finish(upto) {
        write_event(writer, event)?;
    }
    Ok(())
}

/// What comes of a request is written.
fn give<B: Plays, W: Write>(
    bus: &mut B,
    clock: &mut Clock,
    request: ReplyRequest,
    writer: &mut W,
) -> Result<(), ReplyFault>
    requires ready { IsReady B.waiting B.from bus.old clock.old }
    requires request { IsReplyInTime clock.old.moment clock.old.from request }
    ensures given { OnOk result (HasGivenEvents B.gave (W.contents writer.old) (W.contents writer.new) (changes_in request) bus.old bus.new) }
    ensures ready { OnOk result (IsReady B.waiting B.from bus.new clock.new) }
    ensures moment { clock.new.moment ≡ reply_moment_after clock.old.moment request }
{
    match request {
        ReplyRequest::Nothing => Ok(()),
        ReplyRequest::Change(asked) => {
            clock.changed(asked.moment);
            change(bus, asked, writer)
        }
        ReplyRequest::Until(moment) | ReplyRequest::End(moment) => {
            clock.played(moment);
            play(bus, moment, writer)
        }
    }
}

/// Carries out a request that the clock doesn't refuse, and writes what comes of it and the mark that ends it.
pub(crate) fn carry_out<B: Plays, W: Write>(
    bus: &mut B,
    clock: &mut Clock,
    request: ReplyRequest,
    writer: &mut W,
) -> Result<(), ReplyFault>
    requires ready { IsReady B.waiting B.from bus.old clock.old }
    requires request { IsReplyInTime clock.old.moment clock.old.from request }
    ensures answered { OnOk result (HasAnswered B.gave B.due (W.contents writer.old) (W.contents writer.new) clock.old.moment request bus.old bus.new) }
    ensures ready { OnOk result (IsReady B.waiting B.from bus.new clock.new) }
    ensures moment { clock.new.moment ≡ reply_moment_after clock.old.moment request }
{
    give(bus, clock, request, writer)?;
    write_mark(writer, clock.moment(), bus.next_due())
}
