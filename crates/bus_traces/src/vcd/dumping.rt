//! What a VCD has of a trace.
ghost use Rattle.std.specs.Prelude.{◌≡◌, ◌≤◌, ◌+◌, ◌++◌, ◌∷◌, [], codes};
ghost use Rattle.arrayvec.specs.ArrayVec.{array_vec_len};
ghost use Rattle.bus_traces.specs.Cables.{after};
ghost use Rattle.bus_traces.specs.Dumps.{line_code, level_text, time_text, own_text, wire_text, dump_event};

use crate::cable::Cable;
use crate::event::{put_device, put_moment};
use arrayvec::ArrayVec;
use cbm_iec::{Event, Line, Who};

/// A line's letter, which is its variable's code, or its end.
fn line_code(line: Line) -> u8
    ensures { result ∷ [] ≡ line_code line }
{
    match line {
        Line::Atn => b'a',
        Line::Clock => b'c',
        Line::Data => b'd',
    }
}

/// A value: 0 is pulled.
fn level(is_low: bool) -> u8
    ensures { result ∷ [] ≡ level_text is_low }
{
    if is_low { b'0' } else { b'1' }
}

/// Puts a moment, if it isn't the last one, after a text that has room for it: at most 22 bytes.
pub(crate) fn put_time<const N: usize>(text: &mut ArrayVec<u8, N>, last: u64, moment: u64)
    requires { array_vec_len text.old + 22 ≤ N }
    ensures text { text.new.items ≡ text.old.items ++ time_text last moment }
    ensures short { array_vec_len text.new ≤ array_vec_len text.old + 22 }
{
    if last != moment {
        text.push(b'#');
        put_moment(text, moment);
        text.push(b'\n');
    }
}

/// Puts a line's letter and the end of a line after a text that has room for them: 2 bytes.
fn put_code<const N: usize>(text: &mut ArrayVec<u8, N>, line: Line)
    requires { array_vec_len text.old + 2 ≤ N }
    ensures text { text.new.items ≡ text.old.items ++ line_code line ++ codes "\n" }
    ensures short { array_vec_len text.new ≡ array_vec_len text.old + 2 }
{
    text.push(line_code(line));
    text.push(b'\n');
}

/// Puts the party's own line after a text that has room for it: at most 6 bytes.
fn put_own<const N: usize>(text: &mut ArrayVec<u8, N>, event: Event)
    requires { array_vec_len text.old + 6 ≤ N }
    ensures text { text.new.items ≡ text.old.items ++ own_text event }
    ensures short { array_vec_len text.new ≤ array_vec_len text.old + 6 }
{
    text.push(level(event.change.way.is_pull()));
    match event.who {
        Who::Host => text.push(b'h'),
        Who::Drive(device) => put_device(text, device),
    }
    put_code(text, event.change.line);
}

/// Puts the wire, if it changes, after a text that has room for it: at most 3 bytes.
fn put_wire<const N: usize>(text: &mut ArrayVec<u8, N>, line: Line, was: bool, is: bool)
    requires { array_vec_len text.old + 3 ≤ N }
    ensures text { text.new.items ≡ text.old.items ++ wire_text line was is }
{
    if was != is {
        text.push(level(is));
        put_code(text, line);
    }
}

/// Puts an event after those of a moment, if the cable was so, after a text that has room for it: at most 31 bytes. The cable is
/// then as the event leaves it.
pub(crate) fn dump_event<const N: usize>(
    text: &mut ArrayVec<u8, N>,
    last: u64,
    cable: &mut Cable,
    event: Event,
)
    requires { array_vec_len text.old + 31 ≤ N }
    ensures text { text.new.items ≡ text.old.items ++ dump_event last cable.old event }
    ensures cable { cable.new ≡ after event cable.old }
{
    let line = event.change.line;
    let was = cable.is_low(line);
    cable.change(event);
    let is = cable.is_low(line);
    put_time(text, last, event.change.moment);
    put_own(text, event);
    put_wire(text, line, was, is);
}
