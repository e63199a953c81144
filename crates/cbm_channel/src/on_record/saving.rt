// An open relative file as bytes, and of bytes.
ghost use Rattle.std.specs.Prelude.{◌≡◌, ◌≤◌, ◌++◌, length, OnOk, IfSome, option_map};
ghost use Rattle.cbm_channel.specs.Saved.{saved_waiting};
ghost use Rattle.cbm_channel.specs.Placed.{record_of};
ghost use Rattle.cbm_channel.specs.Loaded.{may_wait as may_wait_at, record_of_bytes, loaded_record as record_in, waiting_at as waiting_in, waiting_by as waiting_of_kind};

use crate::on_record::{OnRecord, Waiting};
use cbm_saved::{put_text, text_at};
use cbm_volume::Record;
use std::alloc::AllocError;

/// Adds what waits at a record's place.
fn save_waiting(out: &mut Vec<u8>, waiting: &Waiting) -> Result<(), AllocError>
    ensures saved { OnOk result (out.new.items ≡ out.old.items ++ saved_waiting waiting.now) }
    ensures short { OnOk result (IfSome (record_of waiting.now) (λ bytes. length bytes ≤ 254)) }
{
    match waiting {
        Waiting::Record(record) => {
            prove!(record.len() <= 254);
            out.extend_from_slice(&[0])?;
            put_text(out, record.as_slice())
        }
        Waiting::Absent => out.extend_from_slice(&[1]),
        Waiting::Broken => out.extend_from_slice(&[2]),
    }
}

/// The record of these bytes; None if there are more than 254.
fn record_with(bytes: &[u8]) -> Option<Waiting>
    ensures { result ≡ record_of_bytes bytes.now }
{
    if bytes.len() > 254 {
        return None;
    }
    let mut record = Record::new();
    record.try_extend_from_slice(bytes).unwrap();
    Some(Waiting::Record(record))
}

/// The record that begins some bytes, and what follows it; None if it is none.
fn record_at(bytes: &[u8]) -> Option<(Waiting, &[u8])>
    ensures { option_map (λ x. (x.0, x.1.now)) result ≡ record_in bytes.now }
{
    let (text, rest) = text_at(bytes)?;
    let waiting = record_with(text)?;
    Some((waiting, rest))
}

/// What waits, by its kind, and what follows it; None if it is no kind.
fn waiting_by(kind: u8, rest: &[u8]) -> Option<(Waiting, &[u8])>
    ensures { option_map (λ x. (x.0, x.1.now)) result ≡ waiting_of_kind kind rest.now }
{
    match kind {
        0 => record_at(rest),
        1 => Some((Waiting::Absent, rest)),
        2 => Some((Waiting::Broken, rest)),
        _ => None,
    }
}

/// What waits at a record's place, and what follows it; None if it is none.
fn waiting_at(bytes: &[u8]) -> Option<(Waiting, &[u8])>
    ensures { option_map (λ x. (x.0, x.1.now)) result ≡ waiting_in bytes.now }
{
    let (kind, rest) = bytes.split_first()?;
    waiting_by(*kind, rest)
}

/// Whether this may wait at the record of a number.
fn may_wait(number: u32, waiting: &Waiting) -> bool
    ensures { result ≡ may_wait_at number waiting.now }
{
    match waiting {
        Waiting::Record(_) => number < 262144,
        Waiting::Absent | Waiting::Broken => number < 16777216,
    }
}

impl OnRecord {
    ghost use Rattle.std.specs.Prelude.{◌≡◌, ◌≤◌, ◌++◌, length, OnOk, IfSome, option_map};
    ghost use Rattle.cbm_channel.specs.Saved.{saved_records, CanWait};
    ghost use Rattle.cbm_channel.specs.Loaded.{placed_of, placed_at};

    /// Adds this file.
    pub fn save(&self, out: &mut Vec<u8>) -> Result<(), AllocError>
        ensures saved { OnOk result (out.new.items ≡ out.old.items ++ saved_records self.now) }
        ensures again { CanWait self.now }
        ensures short { OnOk result (IfSome (record_of self.now.waiting) (λ bytes. length bytes ≤ 254)) }
    {
        out.extend_from_slice(&[
            5,
            self.slot,
            self.length,
            self.position,
            (self.number % 256) as u8,
            (self.number / 256 % 256) as u8,
            (self.number / 65536) as u8,
        ])?;
        save_waiting(out, &self.waiting)
    }

    /// The file of these parts; None if its number is too great.
    fn of_parts(
        slot: u8,
        length: u8,
        number: u32,
        position: u8,
        waiting: Waiting,
    ) -> Option<OnRecord>
        ensures { result ≡ placed_of slot length number position waiting }
    {
        if !may_wait(number, &waiting) {
            return None;
        }
        Some(OnRecord {
            slot,
            length,
            number,
            position,
            waiting,
        })
    }

    /// The file that begins some bytes, after its kind, and what follows it; None if it is none.
    pub fn at(bytes: &[u8]) -> Option<(OnRecord, &[u8])>
        ensures { option_map (λ x. (x.0, x.1.now)) result ≡ placed_at bytes.now }
    {
        let [slot, length, position, low, middle, high, rest @ ..] = bytes else {
            return None;
        };
        let (waiting, rest) = waiting_at(rest)?;
        let number = *low as u32 + 256 * *middle as u32 + 65536 * *high as u32;
        let placed = OnRecord::of_parts(*slot, *length, number, *position, waiting)?;
        Some((placed, rest))
    }
}
