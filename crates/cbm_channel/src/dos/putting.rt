ghost use Rattle.std.specs.Prelude.{◌≡◌};
ghost use Rattle.cbm_machine.specs.Calls.{without_return};

use crate::dos::Dos;
use crate::gathered::{Gathered, gather};
use cbm_command::{Command, parse_command};
use cbm_machine::{Code, Status};
use cbm_volume::Medium;

/// A text without one return at its end.
fn without_return(text: &[u8]) -> &[u8]
    ensures { result.now ≡ without_return text.now }
{
    match text.split_last() {
        None => text,
        Some((last, front)) => { if *last == b'\r' { front } else { text } }
    }
}

impl<M: Medium> Dos<M> {
    ghost use Rattle.std.specs.Prelude.{◌≡◌, ◌≢◌, ◌≤◌, ◌<◌, ◌⊎◌, ℕ, List, [], ◌∷◌, false, Some, IfSome, MatchOption};
    ghost use Rattle.cbm_machine.specs.Machines.{answered};
    ghost use Rattle.cbm_machine.specs.Closing.{without_text};
    ghost use Rattle.cbm_machine.specs.Calls.{put, gather, command};
    ghost use Rattle.cbm_machine.specs.Running.{run};
    ghost use Rattle.cbm_command.specs.declared.command.Command.TheVariants.{Position};
    ghost use Rattle.cbm_channel.specs.Grounds.{KeepsIfRefused};
    ghost use Rattle.cbm_channel.specs.ChannelCalls.{no_slot};
    ghost use Rattle.cbm_channel.specs.Standing.{SameBut, Leads};
    ghost use Rattle.cbm_channel.specs.Shown.{is_writing_on, has_records_on, with_records_by, KeepsMediumAndStatus};
    ghost use Rattle.cbm_channel.specs.Going.{Goes, Went, put_written};
    ghost use Rattle.cbm_channel.specs.Commanded.{IsOfCommandText, changes_disk, commands_change, formats, text_formats, end_formats, validates, text_validates, end_validates, moved_by, text_moves, end_moves, cleared_by, text_clears};
    ghost use Rattle.cbm_channel.specs.Meant.{WasDone, TextWasDone};
    ghost use Rattle.cbm_channel.specs.BytesMeant.{ByteWasPut};
    ghost use Rattle.cbm_channel.specs.Parts.{LeavesDisk, LeavesByCommand, OnlyText, OnlyTells, OnlyTellsFor, CutsOff, KeepsSlotOn, TakesText, WritesText, MovesOne, EndsGathered, EndsQuietly, SparesDisk, changed_by_end};

    /// A byte that the host sends to a channel: on 15 it is gathered for a command, on a channel that has records open
    /// for one of these, and on one that writes a file it goes to the file; on others it is dropped. The first byte for which no block is free sets the status
    /// 72, and it and all later ones are dropped; if the medium refuses a write, its fault becomes the status.
    pub fn put(&mut self, channel: u8, byte: u8)
        requires { channel ≤ 15 }
        ensures goes { Goes M.seen self.old self.new ((channel, put channel byte) ∷ []) }
        // On any disk:
        ensures others { SameBut channel self.old.channels self.new.channels }
        ensures quiet { is_writing_on channel self.old ≡ false → KeepsMediumAndStatus self.old self.new }
        ensures done { channel < 15 → has_records_on channel self.old ≡ false →
            ByteWasPut M.seen channel byte self.old self.new }
        ensures leaves { LeavesDisk M.seen no_slot self.old self.new }
    {
        if channel == 15 {
            self.gather(channel, byte);
        } else if self.channels[channel as usize].has_records() {
            self.gather(channel, byte);
        } else {
            self.store(channel, byte);
        }
    }

    /// A byte goes to the file that is written on a channel from 0 to 14.
    pub(super) fn store(&mut self, channel: u8, byte: u8)
        requires { channel < 15 }
        ensures goes { Went M.seen self.old self.new channel (put_written channel byte) }
        ensures others { SameBut channel self.old.channels self.new.channels }
        ensures quiet { is_writing_on channel self.old ≡ false → KeepsMediumAndStatus self.old self.new }
        ensures done { ByteWasPut M.seen channel byte self.old self.new }
        ensures cut { CutsOff M.seen channel self.old self.new }
        ensures slot { KeepsSlotOn channel self.old self.new }
        ensures leaves { LeavesDisk M.seen no_slot self.old self.new }
    {
        match self.channels[channel as usize].put(&mut self.volume, byte) {
            Ok(true) => {}
            Ok(false) => self.say(Code::DiskFull),
            Err(trouble) => self.set(Status::from(trouble)),
        }
    }

    /// A byte goes to the text that is gathered for a channel.
    fn gather(&mut self, channel: u8, byte: u8)
        ensures leads { Leads M.seen self.old self.new (gather channel byte) }
        ensures only { OnlyText self.old self.new }
    {
        gather(&mut self.text, channel, byte);
    }

    /// Takes the text that is gathered for a channel.
    pub(super) fn take_text(&mut self, channel: u8) -> Option<Gathered>
        ensures leads { Leads M.seen self.old self.new (without_text channel) }
        ensures only { OnlyText self.old self.new }
        ensures text { TakesText M.seen channel self.old result }
        ensures taken { IfSome result (λ t. (self.old.text ≡ Some t) × (t.0 ≡ channel)) }
        ensures none { MatchOption result (IfSome self.old.text (λ t. t.0 ≢ channel)) (λ t. Unit {0}) }
    {
        let text = self.text.take()?;
        if text.channel() == channel {
            return Some(text);
        }
        self.text = Some(text);
        None
    }

    /// The host has sent all (UNLISTEN): the text that was gathered for channel 15 is carried out as a command. One for
    /// a channel that has records open is one write of a record.
    pub fn end_put(&mut self, channel: u8)
        requires { channel ≤ 15 }
        ensures goes { EndsGathered M.seen channel self.old self.new }
        ensures leaves { LeavesByCommand M.seen (end_moves channel self.old.text) (end_validates channel self.old.text)
            (end_formats channel self.old.text) (changed_by_end channel self.old) self.old self.new }
        ensures done { channel ≡ 15 → (text : List ℕ) → self.old.text ≡ Some (15, text) →
            TextWasDone M.seen text self.old self.new }
        ensures quiet { EndsQuietly M.seen channel self.old self.new }
        ensures spares { SparesDisk M.seen channel self.old self.new }
    {
        if let Some(text) = self.take_text(channel) {
            if channel == 15 {
                self.command(text.bytes());
            } else {
                self.write_record(channel, text.bytes());
            }
        }
    }

    /// A text for a channel from 0 to 14 is one write of the record of its place, if it has records open. What becomes
    /// of it is the status: 51 some bytes didn't fit, 52 the file would be too large, or why a write was refused; else
    /// the status stays.
    fn write_record(&mut self, channel: u8, bytes: &[u8])
        requires { channel < 15 }
        ensures goes { WritesText M.seen channel bytes.now self.old self.new }
        ensures moves { MovesOne channel self.old.channels self.new.channels }
        ensures quiet { has_records_on channel self.old ≡ false → self.new ≡ self.old }
        ensures spared { (self.new.told ≡ self.old.told) ⊎ KeepsIfRefused M.seen self.old self.new }
        ensures leaves { LeavesDisk M.seen (with_records_by channel self.old) self.old self.new }
    {
        match self.channels[channel as usize].write_record(&mut self.volume, bytes) {
            Ok(Some(false)) => {}
            Ok(Some(true)) => self.say(Code::RecordOverflow),
            Ok(None) => self.say(Code::FileTooLarge),
            Err(trouble) => self.set(Status::from(trouble)),
        }
    }

    /// Carries a text for channel 15 out; an empty one does nothing.
    #[inline(never)]
    pub(super) fn command(&mut self, text: &[u8])
        ensures goes { Went M.seen self.old self.new 15 (command text.now) }
        ensures leaves { LeavesByCommand M.seen (text_moves text.now) (text_validates text.now) (text_formats text.now)
            (text_clears text.now) self.old self.new }
        ensures done { TextWasDone M.seen text.now self.old self.new }
        ensures quiet { commands_change text.now ≡ false → OnlyTellsFor M.seen self.old self.new }
        ensures spared { KeepsIfRefused M.seen self.old self.new }
    {
        let text = without_return(text);
        if text.is_empty() {
            return;
        }
        match parse_command(text) {
            Ok(command) => self.run(&command),
            Err(refusal) => self.say(Code::from(refusal)),
        }
    }

    /// Carries a command out.
    fn run(&mut self, command: &Command)
        ensures goes { IsOfCommandText command.now → Went M.seen self.old self.new 15
            (λ n. answered n (run command.now n)) }
        ensures leaves { LeavesByCommand M.seen (moved_by command.now) (validates command.now) (formats command.now)
            (cleared_by command.now) self.old self.new }
        ensures done { WasDone command.now self.old.channels (M.seen self.old.medium) (M.seen self.new.medium)
            self.new.told.status }
        ensures quiet { changes_disk command.now ≡ false → OnlyTells M.seen self.old self.new }
        ensures spared { KeepsIfRefused M.seen self.old self.new }
    {
        match command {
            Command::New(title, id) => self.format(title, *id),
            Command::Scratch(patterns) => self.scratch(patterns),
            Command::Rename(new, old) => self.rename(new, old),
            Command::Copy(new, olds) => self.copy(new, olds),
            Command::Validate => self.validate(),
            Command::Initialize => self.say(Code::Fine),
            Command::Position(channel, number, position) => {
                self.place(*channel, *number, *position);
            }
        }
    }

    /// P: a channel that has records open goes to a place. What becomes of it is the status: 70 nothing is open, 64 it
    /// has no records, 51 the place lies after the record's end, 50 the record isn't there, a fault of the medium, or
    /// 00.
    #[inline(never)]
    fn place(&mut self, channel: u8, number: u16, position: u8)
        ensures leads { 1 ≤ number → 1 ≤ position →
            Leads M.seen self.old self.new (λ m. answered m (run (Position channel number position) m)) }
        ensures moves { MovesOne channel self.old.channels self.new.channels }
        ensures tells { OnlyTells M.seen self.old self.new }
    {
        let channels = self.channels.as_slice();
        if channel as usize >= channels.len() {
            self.say(Code::NoChannel);
            return;
        }
        match self.channels[channel as usize].place(&self.volume, number as u32, position) {
            Ok(code) => self.say(code),
            Err(trouble) => self.set(Status::from(trouble)),
        }
    }
}
