ghost use Rattle.std.specs.Prelude.{◌≡◌, ◌≢◌, ◌≤◌, ◌<◌, ◌-◌, ◌^◌, ◌==◌, true, false, None, length, is_some, option_map, slice_index_or, IfOk, IfErr, IsOkAnd};
ghost use Rattle.std.specs.List.{list_all};
ghost use Rattle.cbm_volume.specs.RecordFaults.{HidesSlot};
ghost use Rattle.cbm_channel.specs.Placed.{is_last_filled, is_broken, record_of};
ghost use Rattle.cbm_channel.specs.PlaceCalls.{ReadsRecord};

mod saving;

use cbm_medium::codes::ENDLESS_CHAIN;
use cbm_volume::{Medium, Record, Trouble, Volume, WrittenRecord};
use std::marker::Model;

/// What waits on a channel that has the records of a relative file open.
#[derive(Drop)]
pub enum Waiting {
    /// The record of its place.
    Record(Record),
    /// That record isn't there.
    Absent,
    /// The medium didn't read it.
    Broken,
}

/// A relative file that is open: its slot, the length of its records, and the place, which is a record and a byte of
/// it, both counted from 1. What the place has is read as soon as it is reached.
#[derive(Drop)]
pub struct OnRecord {
    slot: u8,
    length: u8,
    number: u32,
    position: u8,
    waiting: Waiting,
}

impl Model for OnRecord {
    ghost use Rattle.std.specs.Prelude.{◌≡◌, ◌≤◌, ◌<◌, ◌^◌, true, is_some};
    ghost use Rattle.cbm_channel.specs.Placed.{Placed, record_of};

    ghost Value = { Placed };

    ghost view = { λ r. record { slot = r.slot; width = r.length; number = r.number; position = r.position; waiting = r.waiting } };

    ghost invariant = { λ r. (is_some (record_of r.waiting) ≡ true → r.number < 2 ^ 18) × (r.number < 2 ^ 24) };
}

/// Whether these are only zeros.
fn are_zeros(bytes: &[u8]) -> bool
    ensures { result ≡ list_all (λ c. c == 0) bytes.now }
{
    bytes.iter().all(|byte| *byte == 0)
}

/// Whether only zeros stand after a position.
fn is_last(bytes: &[u8], position: u8) -> bool
    ensures value { result ≡ is_last_filled bytes.now position }
    ensures more { result ≡ false → position < length bytes.now }
{
    let place = position as usize;
    if place >= bytes.len() {
        return true;
    }
    are_zeros(&bytes[place..])
}

/// The byte at a position, counted from 1, and 0 past the end.
fn byte_at(bytes: &[u8], position: u8) -> u8
    ensures { result ≡ slice_index_or bytes.now (position - 1) 0 }
{
    let place = position.saturating_sub(1) as usize;
    if place < bytes.len() { bytes[place] } else { 0 }
}

/// What waits if this was read.
fn waiting_of(read: Option<Record>) -> Waiting
    ensures same { record_of result ≡ option_map (λ r. r.items) read }
    ensures whole { is_broken result ≡ false }
{
    match read {
        Some(record) => Waiting::Record(record),
        None => Waiting::Absent,
    }
}

/// What waits at a record of the file in a slot. Errors: why it can't be read.
fn waiting_at<M: Medium>(volume: &Volume<M>, slot: u8, number: u32) -> Result<Waiting, Trouble>
    requires { number < 2 ^ 24 }
    ensures means { ReadsRecord (M.seen volume.now) slot number result }
    ensures whole { IfOk result (λ x. is_broken x ≡ false) }
    ensures few { IfOk result (λ x. is_some (record_of x) ≡ true → number ≤ 195072) }
    ensures cause { IfErr result (HidesSlot (M.seen volume.now) slot) }
    ensures never_26 { IfErr result (λ t. t.code ≢ 26) }
{
    if number == 0 {
        return Ok(Waiting::Absent);
    }
    Ok(waiting_of(volume.read_record(slot, number)?))
}

/// A record that was made isn't there, or the medium holds no disk.
fn lost_again() -> Trouble
    ensures { result ≡ (record { code = 71; track = 18; sector = 0 }) }
{
    Trouble {
        code: ENDLESS_CHAIN,
        track: 18,
        sector: 0,
    }
}

impl OnRecord {
    ghost use Rattle.std.specs.Prelude.{◌≡◌, ◌≢◌, ◌≤◌, ◌<◌, ◌+◌, ◌^◌, false, None, IfOk, IfErr, OnOk, OnErr, IsOkAnd};
    ghost use Rattle.cbm_medium.specs.Seen.{Seen};
    ghost use Rattle.cbm_volume.specs.RecordWrites.{IsRecordCall};
    ghost use Rattle.cbm_relfile.specs.Written.{IsRecordWrite};
    ghost use Rattle.cbm_channel.specs.ChannelCalls.{KeepsElse, OfPlaced};
    ghost use Rattle.cbm_channel.specs.declared.on_record.Waiting.TheVariants.{Broken};
    ghost use Rattle.cbm_channel.specs.Placed.{IsOnRecord, IsPlacedAt, IsMoved, shown_at, is_absent, is_broken};
    ghost use Rattle.cbm_channel.specs.PlaceCalls.{ReachesRecord, WasRead, TakesRecordByte, GrowsToPlace, StoresText, ReadsAfter, EndsText, KeepsRestPlaced, StoresUnprotected, IsRecordsCall};
    ghost use Rattle.cbm_channel.specs.Recorded.{OfClosedRecords};

    /// The first byte of the first record of the file in a slot, whose records have this length. Errors: why that
    /// record can't be read.
    pub(crate) fn begin<M: Medium>(
        volume: &Volume<M>,
        slot: u8,
        length: u8,
    ) -> Result<OnRecord, Trouble>
        ensures place { IfOk result
            (λ r. (r.slot ≡ slot) × ((r.width ≡ length) × ((r.number ≡ 1) × (r.position ≡ 1)))) }
        ensures means { OfClosedRecords (M.seen volume.now) slot length (λ d. IsOkAnd result (IsOnRecord d)) }
        ensures cause { IfErr result (HidesSlot (M.seen volume.now) slot) }
        ensures never_26 { IfErr result (λ t. t.code ≢ 26) }
    {
        let waiting = waiting_at(volume, slot, 1)?;
        Ok(OnRecord {
            slot,
            length,
            number: 1,
            position: 1,
            waiting,
        })
    }

    /// The number of the file's slot.
    pub(crate) fn slot(&self) -> u8
        ensures { result ≡ self.now.slot }
    {
        self.slot
    }

    /// The length of the file's records.
    pub(crate) fn length(&self) -> u8
        ensures { result ≡ self.now.width }
    {
        self.length
    }

    /// Whether the record of the place isn't there.
    pub(crate) fn is_absent(&self) -> bool
        ensures { result ≡ is_absent self.now.waiting }
    {
        matches!(self.waiting, Waiting::Absent)
    }

    /// The byte that waits, and whether it is the last: only zeros follow it in its record. A record that isn't there
    /// shows a return, and one that doesn't read nothing.
    pub(crate) fn peek(&self) -> Option<(u8, bool)>
        ensures { result ≡ shown_at self.now.waiting self.now.position }
    {
        match &self.waiting {
            Waiting::Record(record) => {
                let bytes = record.as_slice();
                Some((byte_at(bytes, self.position), is_last(bytes, self.position)))
            }
            Waiting::Absent => Some((b'\r', true)),
            Waiting::Broken => None,
        }
    }

    /// Goes to another place. Errors: why its record can't be read, of which nothing waits then.
    pub(crate) fn go<M: Medium>(
        &mut self,
        volume: &Volume<M>,
        number: u32,
        position: u8,
    ) -> Result<(), Trouble>
        requires { number < 2 ^ 24 }
        ensures place { IsPlacedAt self.old self.new number position }
        ensures well { ReachesRecord (M.seen volume.now) self.old self.new result }
        ensures whole { OnOk result (is_broken self.new.waiting ≡ false) }
        ensures broken { OnErr result (self.new.waiting ≡ Broken) }
        ensures cause { IfErr result (HidesSlot (M.seen volume.now) self.old.slot) }
        ensures never_26 { IfErr result (λ t. t.code ≢ 26) }
    {
        self.number = number;
        self.position = position;
        self.waiting = Waiting::Broken;
        self.waiting = waiting_at(volume, self.slot, number)?;
        Ok(())
    }

    /// Goes to the next record's first byte, if that record was read already. Errors: why it can't be read; nothing
    /// waits then.
    fn go_on(&mut self, next: Result<Option<Record>, Trouble>) -> Result<(), Trouble>
        requires number { self.old.number ≤ 195072 }
        requires never_26 { IfErr next (λ t. t.code ≢ 26) }
        ensures place { IsPlacedAt self.old self.new (self.old.number + 1) 1 }
        ensures well { (now : Seen) → WasRead now self.old.slot self.old.number next →
            ReachesRecord now self.old self.new result }
        ensures whole { OnOk result (is_broken self.new.waiting ≡ false) }
        ensures broken { OnErr result (self.new.waiting ≡ Broken) }
        ensures handed { IfErr result (λ t. next ≡ Err t) }
        ensures never_26 { IfErr result (λ t. t.code ≢ 26) }
    {
        self.number += 1;
        self.position = 1;
        self.waiting = Waiting::Broken;
        self.waiting = waiting_of(next?);
        Ok(())
    }

    /// The byte that waits was taken: the next one of the record waits, or the next record's first one. If no record
    /// waits nothing happens. Errors: why the next record can't be read, of which nothing waits then.
    pub(crate) fn taken<M: Medium>(&mut self, volume: &Volume<M>) -> Result<(), Trouble>
        ensures moved { IsMoved self.old.waiting self.old self.new result }
        ensures cause { IfErr result (HidesSlot (M.seen volume.now) self.old.slot) }
        ensures slot { self.new.slot ≡ self.old.slot }
        ensures well { TakesRecordByte (M.seen volume.now) self.old self.new result }
    {
        let Waiting::Record(record) = &self.waiting else {
            return Ok(());
        };
        if is_last(record.as_slice(), self.position) {
            return self.go(volume, self.number + 1, 1);
        }
        self.position += 1;
        Ok(())
    }

    /// Writes these bytes into the record of the place, from its position on. Answers whether some bytes didn't fit, or
    /// None if the record isn't there: nothing has changed then. Errors: why a write was refused.
    fn write<M: Medium>(
        &self,
        volume: &mut Volume<M>,
        bytes: &[u8],
    ) -> Result<Option<WrittenRecord>, Trouble>
        ensures put { let old = M.seen volume.old in let new = M.seen volume.new in let r = self.now in
            OfPlaced old r (λ d uses b s rs.
            IsRecordCall result old new d uses r.slot r.width b s rs r.number r.position bytes.now) }
        ensures write { IsRecordWrite result (M.seen volume.old) (M.seen volume.new) self.now.number }
        ensures only { KeepsElse result (M.seen volume.old) (M.seen volume.new) }
        ensures rest { KeepsRestPlaced (M.seen volume.old) (M.seen volume.new) self.now }
    {
        // No record has the number 0, and no byte of one.
        if self.number == 0 || self.position == 0 {
            return Ok(None);
        }
        volume.write_record(self.slot, self.number, self.position, bytes)
    }

    /// The file grows until the record of the place is there. False if it would be too large: nothing has changed
    /// then. Errors: why a write was refused.
    fn grow<M: Medium>(&self, volume: &mut Volume<M>) -> Result<bool, Trouble>
        ensures grown { GrowsToPlace (M.seen volume.old) (M.seen volume.new) self.now result }
        ensures call { IsRecordsCall result false (M.seen volume.old) (M.seen volume.new) }
        ensures rest { KeepsRestPlaced (M.seen volume.old) (M.seen volume.new) self.now }
    {
        if self.number == 0 {
            return Ok(false);
        }
        volume.grow_records(self.slot, self.number)
    }

    /// As `write`, if a record that isn't there is made: None says that the file would be too large, and nothing has
    /// changed then.
    fn store<M: Medium>(
        &self,
        volume: &mut Volume<M>,
        bytes: &[u8],
    ) -> Result<Option<WrittenRecord>, Trouble>
        ensures put { StoresText result (λ x. x.cut) (M.seen volume.old) (M.seen volume.new) self.now bytes.now }
        ensures next { ReadsAfter result (λ x. x.next) (M.seen volume.old) (M.seen volume.new) self.now }
        ensures write { IsRecordWrite result (M.seen volume.old) (M.seen volume.new) self.now.number }
        ensures medium { KeepsElse result (M.seen volume.old) (M.seen volume.new) }
        ensures rest { KeepsRestPlaced (M.seen volume.old) (M.seen volume.new) self.now }
    {
        if let Some(written) = self.write(volume, bytes)? {
            return Ok(Some(written));
        }
        if !self.grow(volume)? {
            return Ok(None);
        }
        match self.write(volume, bytes)? {
            Some(written) => Ok(Some(written)),
            None => Err(lost_again()),
        }
    }

    /// A text is one write of the record of the place, which is made if it isn't there; after it the place is the
    /// next record's first byte. Answers whether some bytes didn't fit, or None if the file would be too large: nothing
    /// has changed then. Errors: why a write was refused, of which the record may have a beginning; the place stays, and
    /// is read again. Or why the next record can't be read, of which nothing waits then.
    pub(crate) fn write_record<M: Medium>(
        &mut self,
        volume: &mut Volume<M>,
        bytes: &[u8],
    ) -> Result<Option<bool>, Trouble>
        ensures put { EndsText result (M.seen volume.old) (M.seen volume.new) self.old self.new bytes.now }
        ensures file { (self.new.slot ≡ self.old.slot) × (self.new.width ≡ self.old.width) }
        ensures allowed { StoresUnprotected result (M.seen volume.old) }
        ensures call { IsRecordsCall result None (M.seen volume.old) (M.seen volume.new) }
        ensures rest { KeepsRestPlaced (M.seen volume.old) (M.seen volume.new) self.old }
    {
        match self.store(volume, bytes) {
            Ok(Some(written)) => {
                let WrittenRecord { cut, next } = written;
                self.go_on(next)?;
                Ok(Some(cut))
            }
            Ok(None) => Ok(None),
            Err(trouble) => {
                let _ = self.go(volume, self.number, self.position);
                Err(trouble)
            }
        }
    }
}
