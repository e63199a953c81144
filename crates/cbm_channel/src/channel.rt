ghost use Rattle.std.specs.Prelude.{◌≡◌, ◌≤◌, ◌*◌, ◌⊎◌, true, false, length, sum_by};
ghost use Rattle.std.specs.List.{list_any, All};
ghost use Rattle.cbm_channel.specs.Shown.{is_channel_open, cost_on, writes_on, uses_on};
ghost use Rattle.cbm_channel.specs.Standing.{FitsTracks};
ghost use Rattle.cbm_channel.specs.Loosely.{IsSparedOn, IsOnChannel, IsOnOne};
ghost use Rattle.cbm_medium.specs.Place.{Place};
ghost use Rattle.cbm_bam.specs.Marks.{is_marked};
ghost use Rattle.cbm_file.specs.Waiting.{next_shown};
ghost use Rattle.cbm_channel.specs.declared.channel.Channel.TheVariants.{Closed};

pub(crate) mod loading;
pub(crate) mod saving;

use crate::on_record::OnRecord;
use cbm_listing::Listing;
use cbm_machine::Code;
use cbm_volume::{ChainReader, FileWriter, Medium, SectorSet, Trouble, Volume};

/// What a channel costs of the drive's buffers if a file or a listing is open.
pub(crate) const FILE_COST: usize = 1;

/// The same if records are.
pub(crate) const RECORDS_COST: usize = 2;

/// What all open channels cost at most.
pub(crate) const MOST_COST: usize = 3;

/// A channel from 0 to 14.
#[derive(Drop)]
pub enum Channel {
    /// Nothing is open.
    Closed,
    /// A listing, as it was when the channel was opened.
    Listing(Listing),
    /// A file that is read: the number of its slot, and what is left of its chain.
    File(u8, ChainReader),
    /// A file that is written, and whether the disk was full.
    Writing(FileWriter, bool),
    /// A file whose writing the medium refused: the number of its slot.
    Stopped(u8),
    /// A relative file whose records are open.
    Records(OnRecord),
}

/// The first of these bytes, and whether it is the last.
fn first_of(bytes: &[u8]) -> Option<(u8, bool)>
    ensures { result ≡ next_shown bytes.now }
{
    let (byte, rest) = bytes.split_first()?;
    Some((*byte, rest.is_empty()))
}

/// What the channels cost that are open: two if records are, else one.
pub(crate) fn open_count(channels: &[Channel]) -> usize
    ensures value { result ≡ sum_by cost_on channels.now }
    ensures few { result ≤ 2 * length channels.now }
{
    match channels.split_first() {
        None => 0,
        Some((first, rest)) => first.cost() + open_count(rest),
    }
}

/// Whether a channel has a slot open for writing.
pub(crate) fn any_writes(channels: &[Channel], slot: u8) -> bool
    ensures { result ≡ list_any (writes_on slot) channels.now }
{
    match channels.split_first() {
        None => false,
        Some((first, rest)) => first.writes(slot) || any_writes(rest, slot),
    }
}

/// Whether a channel has a slot open.
pub(crate) fn any_uses(channels: &[Channel], slot: u8) -> bool
    ensures { result ≡ list_any (uses_on slot) channels.now }
{
    match channels.split_first() {
        None => false,
        Some((first, rest)) => first.uses(slot) || any_uses(rest, slot),
    }
}

/// Whether a channel is open.
pub(crate) fn any_open(channels: &[Channel]) -> bool
    ensures { result ≡ list_any is_channel_open channels.now }
{
    channels.iter().any(|channel| !channel.is_closed())
}

/// Puts the sectors into a set that channels have to themselves.
pub(crate) fn spare_all<M: Medium>(channels: &[Channel], volume: &Volume<M>, spared: &mut SectorSet)
    requires { All (FitsTracks (M.seen volume.now).tracks) channels.now }
    ensures spares { (p : Place) → is_marked spared.new p ≡ false → All (IsSparedOn (M.seen volume.now).content p) channels.now }
    ensures keeps { (p : Place) → is_marked spared.new p ≡ false → is_marked spared.old p ≡ false }
    ensures only { (p : Place) → is_marked spared.new p ≡ true → (is_marked spared.old p ≡ true) ⊎
        IsOnOne (M.seen volume.now).content p channels.now }
{
    if let Some((first, rest)) = channels.split_first() {
        first.spare(volume, spared);
        spare_all(rest, volume, spared);
    }
}

impl Channel {
    ghost use Rattle.std.specs.Prelude.{◌≡◌, ◌≤◌, ◌<◌, ◌^◌, true, false, Some, None, IsOk, IfOk, IfErr, OnOk, OnErr, replicate};
    ghost use Rattle.cbm_channel.specs.ChannelCalls.{KeepsElse, OfChannel, TakesOnChannel, PlacesOn, PutsByte, FinishesFile, DoesNothing, KeepsFile, KeepsSlot};
    ghost use Rattle.cbm_machine.specs.Machines as machine;
    ghost use Rattle.cbm_machine.specs.Codes.{code_number};
    ghost use Rattle.cbm_channel.specs.Grounds.{HidesRecords, is_fault_number};
    ghost use Rattle.cbm_channel.specs.Standing.{FitsTracks, ChannelStands};
    ghost use Rattle.cbm_channel.specs.Shown.{is_channel_closed, talk_refused, is_written, is_writing, has_records, writes_on, uses_on, cost_on, shown_on};
    ghost use Rattle.cbm_channel.specs.Written.{is_unbegun, IsBeingWritten};
    ghost use Rattle.cbm_channel.specs.Taken.{IsTakenBy};
    ghost use Rattle.cbm_channel.specs.BytesMeant.{PutMeant, FinishMeant, is_file_empty};
    ghost use Rattle.cbm_channel.specs.PlaceCalls.{StoresUnprotected, IsRecordsCall, PutsText, KeepsRestRecords};

    /// Whether nothing is open.
    pub(crate) fn is_closed(&self) -> bool
        ensures { result ≡ is_channel_closed self.now }
    {
        matches!(self, Channel::Closed)
    }

    /// What it costs of the three that may be open.
    fn cost(&self) -> usize
        ensures value { result ≡ cost_on self.now }
        ensures few { result ≤ 2 }
    {
        match self {
            Channel::Closed => 0,
            Channel::Records(_) => RECORDS_COST,
            _ => FILE_COST,
        }
    }

    /// What it refuses if it is asked to talk: 61 if it isn't open for reading, 50 if its record isn't there.
    pub(crate) fn talk_refused(&self) -> Option<Code>
        ensures { result ≡ talk_refused self.now }
    {
        match self {
            Channel::Listing(_) | Channel::File(_, _) => None,
            Channel::Closed | Channel::Writing(_, _) | Channel::Stopped(_) => {
                Some(Code::FileNotOpen)
            }
            Channel::Records(on) => {
                if on.is_absent() {
                    Some(Code::NoRecord)
                } else {
                    None
                }
            }
        }
    }

    /// Whether it has records open.
    pub(crate) fn has_records(&self) -> bool
        ensures { result ≡ has_records self.now }
    {
        matches!(self, Channel::Records(_))
    }

    /// Whether it is open for writing.
    pub(crate) fn is_written(&self) -> bool
        ensures { result ≡ is_written self.now }
    {
        matches!(
            self,
            Channel::Writing(_, _) | Channel::Stopped(_) | Channel::Records(_)
        )
    }

    /// Whether it has this slot open for writing.
    pub(crate) fn writes(&self, slot: u8) -> bool
        ensures { result ≡ writes_on slot self.now }
    {
        match self {
            Channel::Closed | Channel::Listing(_) | Channel::File(_, _) => false,
            Channel::Writing(writer, _) => writer.slot() == slot,
            Channel::Stopped(at) => *at == slot,
            Channel::Records(on) => on.slot() == slot,
        }
    }

    /// Whether it has this slot open.
    pub(crate) fn uses(&self, slot: u8) -> bool
        ensures { result ≡ uses_on slot self.now }
    {
        match self {
            Channel::Closed | Channel::Listing(_) => false,
            Channel::Writing(writer, _) => writer.slot() == slot,
            Channel::File(at, _) | Channel::Stopped(at) => *at == slot,
            Channel::Records(on) => on.slot() == slot,
        }
    }

    /// Puts the sectors into a set that it has to itself: those that it still has to read, or the blocks that it writes.
    fn spare<M: Medium>(&self, volume: &Volume<M>, spared: &mut SectorSet)
        requires { FitsTracks (M.seen volume.now).tracks self.now }
        ensures spares { (p : Place) → is_marked spared.new p ≡ false → IsSparedOn (M.seen volume.now).content p self.now }
        ensures keeps { (p : Place) → is_marked spared.new p ≡ false → is_marked spared.old p ≡ false }
        ensures only { (p : Place) → is_marked spared.new p ≡ true → (is_marked spared.old p ≡ true) ⊎
            IsOnChannel (M.seen volume.now).content p self.now }
    {
        match self {
            Channel::File(_, reader) => volume.spare_read(reader, spared),
            Channel::Writing(writer, _) => volume.spare_written(writer, spared),
            _ => {}
        }
    }

    /// The byte that waits, and whether it is the last.
    pub(crate) fn peek(&self) -> Option<(u8, bool)>
        ensures { result ≡ shown_on self.now }
    {
        match self {
            Channel::Closed | Channel::Writing(_, _) | Channel::Stopped(_) => None,
            Channel::Listing(listing) => first_of(listing.left()),
            Channel::File(_, reader) => reader.peek(),
            Channel::Records(on) => on.peek(),
        }
    }

    /// Goes to the next byte. Errors: why the chain cannot be followed past that byte, which thereby becomes its last;
    /// or why the next record can't be read, of which nothing waits then.
    pub(crate) fn taken<M: Medium>(&mut self, volume: &Volume<M>) -> Result<(), Trouble>
        requires { FitsTracks (M.seen volume.now).tracks self.old }
        ensures fits { FitsTracks (M.seen volume.now).tracks self.new }
        ensures taken { IsTakenBy (M.seen volume.now).content self.old self.new result }
        ensures cause { has_records self.old ≡ true → IfErr result (HidesRecords (M.seen volume.now)) }
        ensures well { TakesOnChannel (M.seen volume.now) self.old self.new result }
    {
        match self {
            Channel::Listing(listing) => {
                listing.next_byte();
            }
            Channel::File(_, reader) => volume.read_on(reader)?,
            Channel::Records(on) => on.taken(volume)?,
            _ => {}
        }
        Ok(())
    }

    /// P: a channel with records goes to a place, and answers the status: 70 nothing is open, 64 it has no records, 51
    /// the place lies after the record's end, 50 the record isn't there, else 00. Errors: why the record can't be read.
    pub(crate) fn place<M: Medium>(
        &mut self,
        volume: &Volume<M>,
        number: u32,
        position: u8,
    ) -> Result<Code, Trouble>
        requires fits { FitsTracks (M.seen volume.now).tracks self.old }
        requires number { number < 2 ^ 24 }
        ensures file { KeepsFile (M.seen volume.now).tracks self.old self.new }
        ensures own { IfOk result (λ code. is_fault_number (code_number code) ≡ false) }
        ensures well { PlacesOn number position (M.seen volume.now) self.old self.new result }
        ensures cause { IfErr result (HidesRecords (M.seen volume.now)) }
    {
        match self {
            Channel::Closed => Ok(Code::NoChannel),
            Channel::Records(on) => {
                if position > on.length() {
                    return Ok(Code::RecordOverflow);
                }
                on.go(volume, number, position)?;
                Ok(if on.is_absent() {
                    Code::NoRecord
                } else {
                    Code::Fine
                })
            }
            _ => Ok(Code::WrongType),
        }
    }

    /// Adds a byte to a file that is written; false if it is the first for which no block is free, and from then on
    /// bytes are dropped. On a channel that isn't written it is dropped. Errors: why a write was refused; the channel
    /// takes no bytes then.
    pub(crate) fn put<M: Medium>(
        &mut self,
        volume: &mut Volume<M>,
        byte: u8,
    ) -> Result<bool, Trouble>
        requires { FitsTracks (M.seen volume.old).tracks self.old }
        ensures fits { FitsTracks (M.seen volume.new).tracks self.new }
        ensures call { PutsByte byte (M.seen volume.old) (M.seen volume.new) self.old self.new result }
        ensures led { IfOk result (PutMeant (M.seen volume.old) (M.seen volume.new) byte self.old self.new) }
        ensures quiet { is_writing self.old ≡ false → DoesNothing result true self.old self.new volume.old volume.new }
        ensures cut { OnErr result (is_writing self.new ≡ false) }
        ensures slot { KeepsSlot self.old self.new }
        ensures only { KeepsElse result (M.seen volume.old) (M.seen volume.new) }
    {
        let Channel::Writing(writer, full) = self else {
            return Ok(true);
        };
        if *full {
            return Ok(true);
        }
        match volume.store(writer, byte) {
            Ok(stored) => {
                *full = !stored;
                Ok(stored)
            }
            Err(trouble) => {
                *self = Channel::Stopped(writer.slot());
                Err(trouble)
            }
        }
    }

    /// A text for the records that it has open is one write of the record of its place. Answers whether some bytes
    /// didn't fit, or None if the file would be too large: nothing has changed then. On a channel without records
    /// nothing becomes of the text. Errors: why a write was refused, or why the next record can't be read.
    pub(crate) fn write_record<M: Medium>(
        &mut self,
        volume: &mut Volume<M>,
        bytes: &[u8],
    ) -> Result<Option<bool>, Trouble>
        requires { FitsTracks (M.seen volume.old).tracks self.old }
        ensures file { KeepsFile (M.seen volume.new).tracks self.old self.new }
        ensures put { PutsText (M.seen volume.old) (M.seen volume.new) self.old self.new bytes.now result }
        ensures quiet { has_records self.old ≡ false →
            DoesNothing result (Some false) self.old self.new volume.old volume.new }
        ensures allowed { has_records self.old ≡ true → StoresUnprotected result (M.seen volume.old) }
        ensures call { IsRecordsCall result None (M.seen volume.old) (M.seen volume.new) }
        ensures rest { KeepsRestRecords (M.seen volume.old) (M.seen volume.new) self.old }
    {
        match self {
            Channel::Records(on) => on.write_record(volume, bytes),
            _ => Ok(Some(false)),
        }
    }

    /// Whether it writes a file that has no byte yet.
    pub(crate) fn is_empty<M: Medium>(&self, volume: &Volume<M>) -> bool
        ensures value { OfChannel (M.seen volume.now) self.now (λ d uses ch x. result ≡ is_unbegun x) }
        ensures holds { result ≡ is_file_empty self.now }
    {
        match self {
            Channel::Writing(writer, _) => volume.is_empty(writer),
            _ => false,
        }
    }

    /// Finishes the file that it writes; a replacement after the disk was full is given up. Errors: why a write was
    /// refused; the slot has the file from before or the one from after.
    fn finish_file<M: Medium>(&self, volume: &mut Volume<M>) -> Result<(), Trouble>
        requires { FitsTracks (M.seen volume.old).tracks self.now }
        ensures call { FinishesFile (M.seen volume.old) (M.seen volume.new) self.now result }
        ensures led { OnOk result (FinishMeant (M.seen volume.old) (M.seen volume.new) self.now) }
        ensures wrote { (x : machine.Channel) → ChannelStands self.now x → OnErr result (IsBeingWritten x) }
        ensures quiet { is_writing self.now ≡ false → IsOk result × (volume.new ≡ volume.old) }
        ensures only { KeepsElse result (M.seen volume.old) (M.seen volume.new) }
    {
        let Channel::Writing(writer, full) = self else {
            return Ok(());
        };
        if !writer.replaces() {
            return volume.finish(writer);
        }
        if *full {
            volume.give_up(writer)
        } else {
            volume.finish_replacement(writer)
        }
    }

    /// CLOSE: the file that it writes is finished, and the channel is closed. Errors: why a write was refused.
    pub(crate) fn finish<M: Medium>(&mut self, volume: &mut Volume<M>) -> Result<(), Trouble>
        requires { FitsTracks (M.seen volume.old).tracks self.old }
        ensures is_closed { self.new ≡ Closed }
        ensures call { FinishesFile (M.seen volume.old) (M.seen volume.new) self.old result }
        ensures led { OnOk result (FinishMeant (M.seen volume.old) (M.seen volume.new) self.old) }
        ensures wrote { (x : machine.Channel) → ChannelStands self.old x → OnErr result (IsBeingWritten x) }
        ensures quiet { is_writing self.old ≡ false → IsOk result × (volume.new ≡ volume.old) }
        ensures only { KeepsElse result (M.seen volume.old) (M.seen volume.new) }
    {
        let finished = self.finish_file(volume);
        *self = Channel::Closed;
        finished
    }
}
