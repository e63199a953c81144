//! What a VCD's scopes and variables are called.

use crate::text::number_upto;
use arrayvec::ArrayVec;
use cbm_iec::{Line, Who};

/// The greatest number of a drive.
const GREATEST: u64 = 30;

/// What a variable is.
#[derive(Clone, Copy, Debug, Default, PartialEq, Eq, Drop)]
pub(crate) enum Role {
    /// Nothing of the bus's three lines.
    #[default]
    Other,
    /// A wire of the cable.
    Wire(Line),
    /// A line as a party holds it.
    Party(Who, Line),
}

/// The party that a scope is called after: `host`, or `drive` and its number.
pub(crate) fn party_called(name: &[u8]) -> Option<Who> {
    if name == b"host".as_slice() {
        return Some(Who::Host);
    }
    let device = number_upto(GREATEST, name.strip_prefix(b"drive".as_slice())?)?;
    u8::try_from(device).ok().map(Who::Drive)
}

/// The line of a name.
fn line_called(name: &[u8]) -> Option<Line> {
    match name {
        b"atn" => Some(Line::Atn),
        b"clk" | b"clock" => Some(Line::Clock),
        b"data" => Some(Line::Data),
        _ => None,
    }
}

/// A name in small letters.
pub(crate) fn lowered(name: &[u8]) -> ArrayVec<u8, 64> {
    let mut low = ArrayVec::new();
    for byte in name {
        let _ = low.try_push(byte.to_ascii_lowercase());
    }
    low
}

/// What stands before the last point or low line, and after it.
fn split_last(name: &[u8]) -> (&[u8], &[u8]) {
    match name.iter().rposition(|b| *b == b'.' || *b == b'_') {
        Some(at) => (
            name.get(..at).unwrap_or(&[]),
            name.get(at.saturating_add(1)..).unwrap_or(&[]),
        ),
        None => (&[], name),
    }
}

/// What a variable of this name, in small letters, is in a scope: `host_atn`, `host.atn`, or `atn` in the scope `host`, is the
/// host's ATN.
pub(crate) fn role_called(name: &[u8], scope: Option<Who>) -> Role {
    let (path, last) = split_last(name);
    let Some(line) = line_called(last) else {
        return Role::Other;
    };
    let (_, party) = split_last(path);
    match party_called(party).or(scope) {
        Some(who) => Role::Party(who, line),
        None => Role::Wire(line),
    }
}
