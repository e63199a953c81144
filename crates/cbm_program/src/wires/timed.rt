//! What a line of a script of line changes asks for.
ghost use Rattle.std.specs.Prelude.{◌≡◌, ◌≤◌, option_map, IfSome};
ghost use Rattle.bus_traces.specs.Events.{host_event_of};
ghost use Rattle.cbm_program.specs.Timed.{timed_change, timed_end, timed_of, timed_after, is_skipped, IsTimed, latest_timed};

use bus_traces::{host_event_of, moment_of, split_word};
use cbm_drive::Change;

/// What a line of a script of line changes is.
#[derive(Clone, Copy, Debug, Drop)]
pub(crate) enum Timed {
    /// It is empty, or begins with `;`.
    Skipped,
    /// The host changes a line.
    Changes(Change),
    /// The script ends at this moment, in microseconds.
    Ends(u64),
}

fn change(bytes: &[u8]) -> Option<Timed>
    ensures value { result ≡ timed_change (host_event_of bytes.now) }
    ensures moment { IfSome result IsTimed }
{
    let event = host_event_of(bytes)?;
    Some(Timed::Changes(event.change))
}

fn end(rest: Option<&[u8]>) -> Option<Timed>
    ensures value { result ≡ timed_end (option_map (λ word. word.now) rest.entry) }
{
    Some(Timed::Ends(moment_of(rest?)?))
}

/// What a line of a script asks for: nothing if it is empty or begins with `;`, and None if it is refused.
fn parse_timed(bytes: &[u8]) -> Option<Timed>
    ensures value { result ≡ timed_of bytes.now }
    ensures moment { IfSome result IsTimed }
{
    match bytes.first() {
        None | Some(b';') => return Some(Timed::Skipped),
        Some(_) => {}
    }
    let (first, rest) = split_word(bytes);
    if first == b"end".as_slice() {
        end(rest)
    } else {
        change(bytes)
    }
}

/// The same of a line that comes after a moment: what it asks for doesn't come before it.
pub(crate) fn timed_from(bytes: &[u8], from: u64) -> Option<Timed>
    ensures value { result ≡ timed_after from (timed_of bytes.now) }
    ensures moment { IfSome result (λ timed. IsTimed timed × (from ≤ latest_timed from timed)) }
{
    match parse_timed(bytes)? {
        Timed::Skipped => Some(Timed::Skipped),
        Timed::Changes(change) if change.moment >= from => Some(Timed::Changes(change)),
        Timed::Ends(end) if end >= from => Some(Timed::Ends(end)),
        _ => None,
    }
}

/// Whether a line is skipped.
pub(crate) fn is_skipped(bytes: &[u8]) -> bool
    ensures { result ≡ is_skipped (timed_after 0 (timed_of bytes.now)) }
{
    match timed_from(bytes, 0) {
        Some(Timed::Skipped) => true,
        Some(Timed::Changes(_)) | Some(Timed::Ends(_)) | None => false,
    }
}
