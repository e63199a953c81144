// OPEN.

use crate::channel::Channel;
use crate::dos::Dos;
use crate::listing::list;
use crate::on_record::OnRecord;
use crate::plan::Plan;
use cbm_command::{Opening, parse_open};
use cbm_machine::{Code, Status};
use cbm_volume::{Medium, Trouble};

impl<M: Medium> Dos<M> {
    ghost use Rattle.std.specs.Prelude.{◌≡◌, ◌≤◌, ◌<◌, ◌⊎◌, false, slice_index_or, IfOk, IfSome};
    ghost use Rattle.cbm_channel.specs.declared.channel.Channel.TheVariants.{Closed};
    ghost use Rattle.cbm_channel.specs.Meant.{PlanWasDone, OpeningWasDone};
    ghost use Rattle.cbm_channel.specs.ChannelCalls.{KeepsElse, LeavesRest};
    ghost use Rattle.cbm_machine.specs.declared.code.Code.TheVariants.{Fine};
    ghost use Rattle.cbm_channel.specs.Grounds.{IsFromDirectory, KeepsIfRefused};
    ghost use Rattle.cbm_channel.specs.Shown.{appended_by};
    ghost use Rattle.cbm_channel.specs.Standing.{SameBut, FitsTracks};
    ghost use Rattle.cbm_channel.specs.Opening.{OpensRest, OpensFrom, IsClosedUnlessFine, BeginsOpening, ActsOnPlan, OpensByPlan, WritesByPlan, OpensChannel, OpensCommand, OpensUnwritten, LeavesByOpen, IsAllowed};
    ghost use Rattle.cbm_channel.specs.Planned.{IsOfText, IsSized, is_for_writing, plan_writes};
    ghost use Rattle.cbm_channel.specs.Parts.{LeavesMedium, OnlyMedium, OnlyTells, IsClosedOn};

    /// OPEN: on channel 15 the text is a command, on the others it names a file or asks for the listing. A channel that
    /// is open is closed first. A refusal becomes the status and leaves the channel closed.
    pub fn open(&mut self, channel: u8, text: &[u8])
        requires { channel ≤ 15 }
        ensures goes { OpensFrom M.seen channel text.now self.old self.new }
        ensures channel { channel < 15 → OpensChannel M.seen channel text.now self.old self.new }
        ensures command { channel ≡ 15 → OpensCommand M.seen text.now self.old self.new }
        ensures unwritten { OpensUnwritten M.seen channel text.now self.old self.new }
        ensures leaves { LeavesByOpen M.seen channel text.now self.old self.new }
    {
        if channel == 15 {
            self.command(text);
            return;
        }
        self.close_one(channel);
        match parse_open(channel, text) {
            Ok(opening) => self.begin(channel, opening),
            Err(refusal) => self.say(Code::from(refusal)),
        }
    }

    /// Carries out what an OPEN asks for on a closed channel, or sets the status of its refusal.
    #[inline(never)]
    fn begin(&mut self, channel: u8, opening: Opening)
        requires { channel < 15 }
        ensures goes { BeginsOpening M.seen channel opening self.old self.new }
        ensures done { OpeningWasDone M.seen channel opening self.old self.new }
        ensures others { SameBut channel self.old.channels self.new.channels }
        ensures refused { IsClosedOn channel self.old → IsClosedUnlessFine channel self.new }
        ensures quiet { is_for_writing opening ≡ false → OnlyTells M.seen self.old self.new }
        ensures spared { KeepsIfRefused M.seen self.old self.new }
        ensures leaves { LeavesMedium M.seen self.old self.new }
        ensures rest { IsOfText opening → LeavesRest M.seen (λ m. appended_by channel self.new) self.old self.new }
    {
        match self.plan(channel, opening) {
            Ok(plan) => self.act(channel, plan),
            Err(status) => self.set(status),
        }
    }

    /// Does what was planned, on a closed channel.
    fn act(&mut self, channel: u8, plan: Plan)
        requires channel { channel < 15 }
        requires sized { IsSized plan }
        ensures goes { ActsOnPlan M.seen channel plan self.old self.new }
        ensures done { self.new.told.status.code ≡ Fine → PlanWasDone plan (M.seen self.old.medium) (M.seen self.new.medium)
            (slice_index_or self.new.channels channel Closed) }
        ensures others { SameBut channel self.old.channels self.new.channels }
        ensures refused { (self.new.told.status.code ≡ Fine) ⊎ (self.new.channels ≡ self.old.channels) }
        ensures quiet { plan_writes plan ≡ false → IsFromDirectory M.seen self.old.medium plan →
            OnlyTells M.seen self.old self.new }
        ensures spared { IsAllowed M.seen self.old.medium plan → KeepsIfRefused M.seen self.old self.new }
        ensures leaves { LeavesMedium M.seen self.old self.new }
        ensures rest { OpensRest M.seen plan (appended_by channel self.new) self.old self.new }
    {
        match self.opened(plan) {
            Ok(Some(opened)) => {
                self.channels[channel as usize] = opened;
                self.say(Code::Fine);
            }
            Ok(None) => self.say(Code::DiskFull),
            Err(trouble) => self.set(Status::from(trouble)),
        }
    }

    /// The channel that a plan opens; None if the disk has no place for what it writes. Errors: the fault of 18/0,
    /// of the directory or of the file's first block, what is wrong with the side sectors of a relative file or why its
    /// first record can't be read; or why a write was refused.
    fn opened(&mut self, plan: Plan) -> Result<Option<Channel>, Trouble>
        requires { IsSized plan }
        ensures fits { IfOk result (λ o. IfSome o (FitsTracks (M.seen self.new.medium).tracks)) }
        ensures opens { OpensByPlan M.seen plan result self.old self.new }
        ensures writes { WritesByPlan M.seen plan result self.old self.new }
        ensures done { IfOk result (λ o. IfSome o (PlanWasDone plan (M.seen self.old.medium) (M.seen self.new.medium))) }
        ensures only { OnlyMedium self.old self.new }
        ensures medium { KeepsElse result (M.seen self.old.medium) (M.seen self.new.medium) }
    {
        match plan {
            Plan::ReadListing(pattern) => {
                Ok(Some(Channel::Listing(list(&self.volume, &pattern)?)))
            }
            Plan::ReadFile(found) => {
                let reader = self.volume.begin_read(&found.entry)?;
                Ok(Some(Channel::File(found.slot, reader)))
            }
            Plan::WriteFile(kind, name) => {
                let Some(writer) = self.volume.begin_write(kind, name.bytes())? else {
                    return Ok(None);
                };
                Ok(Some(Channel::Writing(writer, false)))
            }
            Plan::AppendFile(found) => {
                let writer = self.volume.begin_append(found.slot, &found.entry)?;
                Ok(Some(Channel::Writing(writer, false)))
            }
            Plan::ReplaceFile(slot) => {
                let Some(writer) = self.volume.begin_replace(slot)? else {
                    return Ok(None);
                };
                Ok(Some(Channel::Writing(writer, false)))
            }
            Plan::OpenRecords(found) => {
                let length = found.entry.record_length();
                self.volume.open_records(&found.entry)?;
                let on = OnRecord::begin(&self.volume, found.slot, length)?;
                Ok(Some(Channel::Records(on)))
            }
            Plan::MakeRecords(name, length) => {
                let Some(slot) = self.volume.make_records(name.bytes(), length)? else {
                    return Ok(None);
                };
                let on = OnRecord::begin(&self.volume, slot, length)?;
                Ok(Some(Channel::Records(on)))
            }
        }
    }
}
