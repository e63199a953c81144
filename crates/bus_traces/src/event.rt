//! An event as a line: `MOMENT WHO LINE WAY`.
ghost use Rattle.std.specs.Prelude.{◌≡◌, ◌≤◌, ◌+◌, ◌++◌, ℕ, List, Some, IfSome, codes, decimal, length, option_map};
ghost use Rattle.arrayvec.specs.ArrayVec.{array_vec_len};
ghost use Rattle.bus_traces.specs.Words.{first_word, after_word, number_upto};
ghost use Rattle.bus_traces.specs.Events.{who_text, line_text, way_text, event_text, event_words, who_called, line_called, way_called, event_with, event_of_change, event_of_party, event_read, host_event_of, trace_text, IsOfTrace};
ghost use Rattle.bus_traces.specs.Records.{events_recorded};
ghost use Rattle.bus_traces.specs.declared.cable.Cable.{Cable};
ghost use Rattle.bus_traces.specs.declared.recorder.TraceForm.TheVariants.{Lines};
ghost use Rattle.bus_traces.specs.Reading.{trace_of, AreOfTrace};
ghost use Rattle.cbm_iec.specs.declared.event.Event.{Event};

use crate::text::{number_upto, split_word};
use arrayvec::ArrayVec;
use cbm_iec::{Change, Event, Line, Way, Who};
use itoa::Buffer;

/// The greatest moment of a trace, in microseconds.
pub(crate) const LATEST: u64 = 1_000_000_000_000_000;

/// The greatest number of a drive.
const GREATEST: u64 = 30;

/// ` LINE WAY`, and the end of a line.
fn change_text(change: Change) -> &'static [u8]
    ensures text { result.now ≡ codes " " ++ line_text change.line ++ codes " " ++ way_text change.way ++ codes "\n" }
    ensures short { length result.now ≤ 12 }
{
    match (change.line, change.way) {
        (Line::Atn, Way::Pull) => b" atn pull\n",
        (Line::Atn, Way::Free) => b" atn free\n",
        (Line::Clock, Way::Pull) => b" clock pull\n",
        (Line::Clock, Way::Free) => b" clock free\n",
        (Line::Data, Way::Pull) => b" data pull\n",
        (Line::Data, Way::Free) => b" data free\n",
    }
}

/// Puts the digits of a moment after a text that has room for them: at most 20 bytes.
pub(crate) fn put_moment<const N: usize>(text: &mut ArrayVec<u8, N>, moment: u64)
    requires { array_vec_len text.old + 20 ≤ N }
    ensures text { text.new.items ≡ text.old.items ++ decimal moment }
    ensures short { array_vec_len text.new ≤ array_vec_len text.old + 20 }
{
    let mut buffer = Buffer::new();
    text.try_extend_from_slice(buffer.format(moment).as_bytes())
        .unwrap();
}

/// Puts a drive's number after a text that has room for it: at most 3 bytes.
pub(crate) fn put_device<const N: usize>(text: &mut ArrayVec<u8, N>, device: u8)
    requires { array_vec_len text.old + 3 ≤ N }
    ensures text { text.new.items ≡ text.old.items ++ decimal device }
    ensures short { array_vec_len text.new ≤ array_vec_len text.old + 3 }
{
    let mut buffer = Buffer::new();
    text.try_extend_from_slice(buffer.format(device).as_bytes())
        .unwrap();
}

/// ` WHO` of a drive with one of the numbers that a 1541 can be set to; None of any other drive.
fn drive_text(device: u8) -> Option<&'static [u8]>
    ensures text { IfSome result (λ text. text.now ≡ codes " " ++ decimal device) }
    ensures short { IfSome result (λ text. length text.now ≤ 3) }
{
    match device {
        8 => Some(b" 8"),
        9 => Some(b" 9"),
        10 => Some(b" 10"),
        11 => Some(b" 11"),
        _ => None,
    }
}

/// Puts ` WHO` after a text that has room for it: at most 5 bytes.
fn put_party<const N: usize>(text: &mut ArrayVec<u8, N>, who: Who)
    requires { array_vec_len text.old + 5 ≤ N }
    ensures text { text.new.items ≡ text.old.items ++ codes " " ++ who_text who }
    ensures short { array_vec_len text.new ≤ array_vec_len text.old + 5 }
{
    match who {
        Who::Host => text.try_extend_from_slice(b" host").unwrap(),
        Who::Drive(device) => match drive_text(device) {
            Some(party) => text.try_extend_from_slice(party).unwrap(),
            None => {
                text.push(b' ');
                put_device(text, device);
            }
        },
    }
}

/// Puts an event as a line with its end, as `20 8 data pull`, after a text that has room for it: at most 37 bytes.
pub(crate) fn put_event<const N: usize>(text: &mut ArrayVec<u8, N>, event: Event)
    requires { array_vec_len text.old + 37 ≤ N }
    ensures { text.new.items ≡ text.old.items ++ event_text event }
{
    put_moment(text, event.change.moment);
    put_party(text, event.who);
    text.try_extend_from_slice(change_text(event.change))
        .unwrap();
}

/// An event as a line with its end, as `20 8 data pull`: at most 37 bytes.
pub fn event_text(event: Event) -> ArrayVec<u8, 48>
    ensures { result.items ≡ event_text event }
{
    let mut text = ArrayVec::new();
    put_event(&mut text, event);
    text
}

fn who_called(word: &[u8]) -> Option<Who>
    ensures { result ≡ who_called word.now }
{
    match word {
        b"host" => Some(Who::Host),
        _ => {
            let device = number_upto(GREATEST, word)?;
            Some(Who::Drive(device as u8))
        }
    }
}

fn line_called(word: &[u8]) -> Option<Line>
    ensures { result ≡ line_called word.now }
{
    match word {
        b"atn" => Some(Line::Atn),
        b"clock" => Some(Line::Clock),
        b"data" => Some(Line::Data),
        _ => None,
    }
}

fn way_called(word: &[u8]) -> Option<Way>
    ensures { result ≡ way_called word.now }
{
    match word {
        b"pull" => Some(Way::Pull),
        b"free" => Some(Way::Free),
        _ => None,
    }
}

/// `LINE WAY` after a moment and a party.
fn event_of_change(moment: Option<u64>, who: Option<Who>, rest: Option<&[u8]>) -> Option<Event>
    ensures { result ≡ event_of_change moment who (option_map (λ words. words.now) rest.entry) }
{
    let (name, rest) = split_word(rest?);
    Some(Event {
        who: who?,
        change: Change {
            moment: moment?,
            line: line_called(name)?,
            way: way_called(rest?)?,
        },
    })
}

/// `WHO LINE WAY` after a moment.
fn event_of_party(moment: Option<u64>, rest: Option<&[u8]>) -> Option<Event>
    ensures { result ≡ event_of_party moment (option_map (λ words. words.now) rest.entry) }
{
    let (name, rest) = split_word(rest?);
    event_of_change(moment, who_called(name), rest)
}

/// The event of a line without its end; None if the line is none.
pub fn event_of(bytes: &[u8]) -> Option<Event>
    ensures { result ≡ event_read bytes.now }
{
    let (first, rest) = split_word(bytes);
    event_of_party(number_upto(LATEST, first), rest)
}

/// The host's event of a line `MOMENT LINE WAY` without its end; None if the line is none.
pub fn host_event_of(bytes: &[u8]) -> Option<Event>
    ensures { result ≡ host_event_of bytes.now }
{
    let (first, rest) = split_word(bytes);
    event_of_change(number_upto(LATEST, first), Some(Who::Host), rest)
}

/// The moment of a word of digits, in microseconds; None if it is none, or above 10^15.
pub fn moment_of(word: &[u8]) -> Option<u64>
    ensures value { result ≡ number_upto 1000000000000000 word.now }
    ensures within { IfSome result (λ moment. moment ≤ 1000000000000000) }
{
    number_upto(LATEST, word)
}

/// A law, and nothing is done: an event that is written as a line is read back from it, and a trace from its lines, also as a
/// recorder writes them.
pub fn what_is_written_reads_back()
    ensures event { (e : Event) → IsOfTrace e → event_read (event_words e) ≡ Some e }
    ensures trace { (es : List Event) → AreOfTrace 0 es → trace_of (trace_text es) ≡ Some es }
    ensures recorded { (last : ℕ) (cable : Cable) (es : List Event) → AreOfTrace 0 es →
        trace_of (events_recorded Lines last cable es) ≡ Some es }
{}
