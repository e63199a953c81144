//! The frames: one byte from the host to those who hear, and one byte of the talker.

ghost use Rattle.std.specs.Prelude.{◌≡◌, ◌+◌, ◌*◌, map, IfSome, IfOk};
ghost use Rattle.cbm_session.specs.Bits as bits;
ghost use Rattle.cbm_iec.specs.Profile.{half_bit};
ghost use Rattle.cbm_session.specs.Frames as spec;
ghost use Rattle.bus_judge.specs.Views.{IsSum, bit_cell_of, seats_of, sent_of, told_of};

use crate::seat::{Seat, after, fastest, longest, slowest};
use crate::step::{Unmade, later};
use cbm_iec::{EOI_WAIT, Party};

/// One bit of a frame of the host: when DATA is set, where it changes, and else the pull before; then CLOCK is freed
/// and pulled.
#[derive(Clone, Copy, Debug, Default, PartialEq, Eq, Drop)]
pub struct Cell {
    pub bit: bool,
    pub set: u64,
    pub free: u64,
    pub pull: u64,
}

/// A frame of the host: ready, start and eight bits, the lowest first.
#[derive(Clone, Copy, Debug, PartialEq, Eq, Drop)]
pub struct Sent {
    pub ready: u64,
    pub start: u64,
    pub cells: [Cell; 8],
}

/// A frame of a drive: when the host frees DATA, its answer to a last byte (pull, free), and its accept.
#[derive(Clone, Copy, Debug, PartialEq, Eq, Drop)]
pub struct Told {
    pub bits: [bool; 8],
    pub free: u64,
    pub signal: Option<(u64, u64)>,
    pub accept: u64,
}

/// The host: without EOI its first bit begins at most so long after DATA was first free on the wire.
pub const LATEST_START: u64 = 199;

/// The host: it accepts a byte 1 to so long after its eighth bit.
pub const LATEST_ACCEPT: u64 = 1000;

/// The number of these bits, the lowest first; None if it is above a byte.
fn number_of(told: &[bool]) -> Option<u8>
    ensures { IfSome result (λ n. n ≡ bits.number_of told.now) }
{
    match told {
        [] => Some(0),
        [bit, rest @ ..] => {
            let high = number_of(rest)?;
            high.checked_mul(2)?.checked_add(u8::from(*bit))
        }
    }
}

/// The same of the bits of a frame of the host.
fn byte_of(cells: &[Cell]) -> Option<u8>
    ensures { IfSome result (λ n. n ≡ bits.byte_in_cells (map bit_cell_of cells.now)) }
{
    match cells {
        [] => Some(0),
        [cell, rest @ ..] => {
            let high = byte_of(rest)?;
            high.checked_mul(2)?.checked_add(u8::from(cell.bit))
        }
    }
}

/// Whether the host holds DATA after these bits.
pub fn held_after(held: bool, cells: &[Cell]) -> bool
    ensures { result ≡ bits.held_after held (map bit_cell_of cells.now) }
{
    match cells {
        [] => held,
        [cell, rest @ ..] => held_after(!cell.bit, rest),
    }
}

/// The last pull of CLOCK.
fn last_pull(pull: u64, cells: &[Cell]) -> u64
    ensures { result ≡ bits.last_pull pull (map bit_cell_of cells.now) }
{
    match cells {
        [] => pull,
        [cell, rest @ ..] => last_pull(cell.pull, rest),
    }
}

fn made(byte: Option<u8>) -> Result<u8, Unmade>
    ensures { IfOk result (λ n. byte ≡ Some n) }
{
    match byte {
        Some(byte) => Ok(byte),
        None => Err(Unmade::Far),
    }
}

impl Sent {
    /// T, when DATA is free on the wire: the slowest has freed it.
    pub fn wire(&self, hearers: &[Seat]) -> u64
        ensures { IsSum (spec.wire (seats_of hearers.now) (sent_of self.now)) result }
    {
        after(self.ready, slowest(hearers))
    }

    /// When the pulse for EOI has ended on the wire.
    pub fn quiet(&self, hearers: &[Seat]) -> u64
        ensures { IsSum (spec.quiet (seats_of hearers.now) (sent_of self.now)) result }
    {
        after(after(self.wire(hearers), EOI_WAIT), longest(hearers))
    }

    /// The last pull of CLOCK, at which DATA is freed.
    pub fn end(&self) -> u64
        ensures { result ≡ spec.end_of (sent_of self.now) }
    {
        last_pull(self.start, &self.cells)
    }

    /// The accept: DATA pulled on the wire by the fastest.
    pub fn accept(&self, hearers: &[Seat]) -> Result<u64, Unmade>
        ensures { IfOk result (λ t. t ≡ spec.accept_of (seats_of hearers.now) (sent_of self.now)) }
    {
        later(self.end(), fastest(hearers))
    }

    pub fn byte(&self) -> Result<u8, Unmade>
        ensures { IfOk result (λ n. n ≡ bits.byte_in_cells (sent_of self.now).cells) }
    {
        made(byte_of(&self.cells))
    }
}

impl Told {
    pub fn is_last(&self) -> bool
        ensures { result ≡ spec.is_last (told_of self.now) }
    {
        self.signal.is_some()
    }

    /// When the first bit begins.
    pub fn first_bit(&self, talker: Party) -> u64
        ensures { IsSum (spec.first_bit talker (told_of self.now)) result }
    {
        let freed = match self.signal {
            None => self.free,
            Some((_, again)) => again,
        };
        after(freed, talker.reaction as u64)
    }

    /// When the eighth bit has ended.
    pub fn end(&self, talker: Party) -> u64
        ensures { IsSum (spec.first_bit talker (told_of self.now) + 16 * half_bit talker.pace) result }
    {
        after(self.first_bit(talker), 16 * talker.pace.half_bit() as u64)
    }

    pub fn byte(&self) -> Result<u8, Unmade>
        ensures { IfOk result (λ n. n ≡ bits.number_of self.now.bits) }
    {
        made(number_of(&self.bits))
    }
}
