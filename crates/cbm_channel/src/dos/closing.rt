ghost use Rattle.std.specs.Prelude.{◌≡◌, ◌≤◌, ◌<◌, false};

use crate::dos::Dos;
use cbm_machine::Status;
use cbm_volume::Medium;

impl<M: Medium> Dos<M> {
    ghost use Rattle.std.specs.Prelude.{◌≡◌, ◌≤◌, ◌<◌, ℕ, false, length, slice_index_or, slice_set};
    ghost use Rattle.cbm_channel.specs.declared.channel.Channel.TheVariants.{Closed};
    ghost use Rattle.cbm_machine.specs.Closing.{close_one, finish_channel, without_text};
    ghost use Rattle.cbm_channel.specs.Standing.{Stands, SameBut, Leads};
    ghost use Rattle.cbm_channel.specs.Written.{is_unbegun};
    ghost use Rattle.cbm_channel.specs.BytesMeant.{ReturnWasPut, FileWasFinished, ClosingWasDone, ClosingsWereDone, is_file_empty};
    ghost use Rattle.cbm_channel.specs.ChannelCalls.{LeavesRest, no_slot};
    ghost use Rattle.cbm_channel.specs.Shown.{is_writing_on, finished_by, KeepsMediumAndStatus};
    ghost use Rattle.cbm_machine.specs.Machines.{Machine, channel as channel_of};
    ghost use Rattle.cbm_channel.specs.Grounds.{KeepsGrounded};
    ghost use Rattle.cbm_channel.specs.Going.{AreCounted, Goes, Went, some_byte_put, closing, closings, KeepsMedium};
    ghost use Rattle.cbm_channel.specs.Parts.{LeavesDisk, OnlyText, CutsOff, KeepsSlotOn, ClosesOne, ClosesChannels, ClosesQuietly, LeavesByClose, closed_by};

    /// CLOSE: the file that is written on the channel is finished, and the channel is closed; on 15 the channels 0 to
    /// 14 are, in order. If a file can't be finished, the fault becomes the status.
    pub fn close(&mut self, channel: u8)
        requires { channel ≤ 15 }
        ensures goes { Goes M.seen self.old self.new (closing channel) }
        ensures channels { ClosesChannels channel self.old.channels self.new.channels }
        ensures quiet { ClosesQuietly channel self.old self.new }
        ensures leaves { LeavesByClose M.seen channel self.old self.new }
    {
        if channel < 15 {
            self.close_one(channel);
        } else {
            self.close_all();
            self.forget_text(15);
        }
    }

    /// Closes a channel from 0 to 14.
    #[inline(never)]
    pub(super) fn close_one(&mut self, channel: u8)
        requires { channel < 15 }
        ensures goes { Went M.seen self.old self.new channel (close_one channel) }
        ensures closes { ClosesOne channel self.old.channels self.new.channels }
        ensures quiet { is_writing_on channel self.old ≡ false → KeepsMediumAndStatus self.old self.new }
        ensures done { ClosingWasDone M.seen channel self.old self.new }
        ensures leaves { LeavesDisk M.seen (finished_by channel self.old) self.old self.new }
    {
        self.fill(channel);
        self.finish(channel);
        self.forget_text(channel);
    }

    /// A file that has no byte yet gets a return.
    fn fill(&mut self, channel: u8)
        requires { channel < 15 }
        ensures goes { Went M.seen self.old self.new channel (some_byte_put channel) }
        ensures others { SameBut channel self.old.channels self.new.channels }
        ensures quiet { is_writing_on channel self.old ≡ false → self.new ≡ self.old }
        ensures done { ReturnWasPut M.seen channel self.old self.new }
        ensures cut { CutsOff M.seen channel self.old self.new }
        ensures slot { KeepsSlotOn channel self.old self.new }
        ensures leaves { LeavesDisk M.seen no_slot self.old self.new }
    {
        if self.is_empty(channel) {
            self.store(channel, b'\r');
        }
    }

    /// Whether a file is written on the channel that has no byte yet.
    fn is_empty(&self, channel: u8) -> bool
        requires { channel < 15 }
        ensures value { (m : Machine) → Stands M.seen self.now m → result ≡ is_unbegun (channel_of m channel) }
        ensures holds { result ≡ is_file_empty (slice_index_or self.now.channels channel Closed) }
    {
        self.channels[channel as usize].is_empty(&self.volume)
    }

    /// Finishes the file that is written on a channel, and closes the channel.
    fn finish(&mut self, channel: u8)
        requires { channel < 15 }
        ensures goes { Went M.seen self.old self.new channel (finish_channel channel) }
        ensures channels { self.new.channels ≡ slice_set self.old.channels channel Closed }
        ensures count { length self.new.channels ≡ 15 }
        ensures quiet { is_writing_on channel self.old ≡ false → KeepsMediumAndStatus self.old self.new }
        ensures done { FileWasFinished M.seen channel self.old self.new }
        ensures leaves { LeavesDisk M.seen (finished_by channel self.old) self.old self.new }
    {
        if let Err(trouble) = self.channels[channel as usize].finish(&mut self.volume) {
            self.set(Status::from(trouble));
        }
    }

    /// Closes the channels 0 to 14 in order.
    fn close_all(&mut self)
        ensures goes { Goes M.seen self.old self.new closings }
        ensures closed { (k : ℕ) → slice_index_or self.new.channels k Closed ≡ Closed }
        ensures quiet { ((k : ℕ) → is_writing_on k self.old ≡ false) → KeepsMediumAndStatus self.old self.new }
        ensures medium { KeepsMedium false (M.seen self.old.medium) (M.seen self.new.medium) }
        ensures rest { LeavesRest M.seen (λ m. closed_by 15 self.old) self.old self.new }
        ensures counted { AreCounted M.seen 15 self.old self.new }
        ensures done { ClosingsWereDone M.seen 15 self.old self.new }
        ensures grounded { KeepsGrounded M.seen self.old self.new }
    {
        for channel in 0..15 {
            self.close_one(channel);
        }
    }

    /// Drops the text that is gathered for this channel.
    fn forget_text(&mut self, channel: u8)
        ensures leads { Leads M.seen self.old self.new (without_text channel) }
        ensures only { OnlyText self.old self.new }
    {
        self.take_text(channel);
    }
}
