// The DOS of a drive with direct access by calls.
use crate::device::DirectDevice;
use cbm_device::{Came, DeviceRefusal, ImageDisk, call_close, call_open, call_read, call_write};
use cbm_direct_desk::DirectDesk;
use cbm_drive::{Act, Machine, Takes};

/// An act that a desk with direct access is told by a call, and not by its wires.
#[derive(Clone, Copy, Debug, PartialEq, Eq, Drop)]
pub struct DirectCalledAct {
    /// The act.
    pub act: Act,
}

impl From<Act> for DirectCalledAct {
    ghost use Rattle.std.specs.Prelude.{◌≡◌};

    ghost from_gives = { λ act called. called.act ≡ act };

    fn from(act: Act) -> DirectCalledAct {
        DirectCalledAct { act }
    }
}

impl Takes<DirectCalledAct> for DirectDesk<ImageDisk> {
    ghost use Rattle.cbm_direct_device.specs.DirectChannels.{DirectIsTold};

    ghost takes = { λ called old new. DirectIsTold called.act old new };

    fn take(&mut self, called: DirectCalledAct) {
        self.act(called.act);
    }
}

impl DirectDevice {
    ghost use Rattle.std.specs.Prelude.{◌≡◌, ◌++◌, ℕ, List, drop, length, IfErr, IfOk, OnOk};
    ghost use Rattle.cbm_device.specs.Channels.{opening_acts, writing_acts, closing_acts, IsCallable, IsUncallable};
    ghost use Rattle.cbm_direct_device.specs.DirectChannels.{HasBeenToldDirect, HasTalkedDirect};

    /// OPEN of a channel with a text, or on 15 a command, as a computer sends them, but without the wires. The one error is `Invalid`: the
    /// channel is above 15, a line is pulled, or a reaction is due.
    pub fn open_channel(&mut self, channel: u8, text: &[u8]) -> Result<(), DeviceRefusal>
        ensures callable { OnOk result (IsCallable channel self.old.seat.port) }
        ensures told { OnOk result (HasBeenToldDirect (opening_acts self.old.seat.port.party.device channel text.now) self.old self.new) }
        ensures err { IfErr result (λ r. (r ≡ DeviceRefusal.Invalid) × IsUncallable channel self.old.seat.port × (self.new ≡ self.old)) }
    {
        call_open::<DirectCalledAct, DirectDesk<ImageDisk>>(&mut self.drive, channel, text)
    }

    /// Bytes for a channel. The one error is `Invalid`, as for `open_channel`.
    pub fn write_channel(&mut self, channel: u8, bytes: &[u8]) -> Result<(), DeviceRefusal>
        ensures callable { OnOk result (IsCallable channel self.old.seat.port) }
        ensures told { OnOk result (HasBeenToldDirect (writing_acts self.old.seat.port.party.device channel bytes.now) self.old self.new) }
        ensures err { IfErr result (λ r. (r ≡ DeviceRefusal.Invalid) × IsUncallable channel self.old.seat.port × (self.new ≡ self.old)) }
    {
        call_write::<DirectCalledAct, DirectDesk<ImageDisk>>(&mut self.drive, channel, bytes)
    }

    /// Bytes of a channel, as many as there is room for, up to the one that is marked as the last. The one error is `Invalid`, as for
    /// `open_channel`.
    pub fn read_channel(&mut self, channel: u8, out: &mut [u8]) -> Result<Came, DeviceRefusal>
        ensures callable { OnOk result (IsCallable channel self.old.seat.port) }
        ensures talked { IfOk result (λ came. (bytes : List ℕ) × (length bytes ≡ came.count) × (out.new ≡ bytes ++ drop came.count out.old)
            × HasTalkedDirect channel (length out.old) bytes came.marked self.old self.new) }
        ensures err { IfErr result (λ r. (r ≡ DeviceRefusal.Invalid) × IsUncallable channel self.old.seat.port × (self.new ≡ self.old)
            × (out.new ≡ out.old)) }
    {
        call_read::<DirectCalledAct, DirectDesk<ImageDisk>>(&mut self.drive, channel, out)
    }

    /// CLOSE of a channel. The one error is `Invalid`, as for `open_channel`.
    pub fn close_channel(&mut self, channel: u8) -> Result<(), DeviceRefusal>
        ensures callable { OnOk result (IsCallable channel self.old.seat.port) }
        ensures told { OnOk result (HasBeenToldDirect (closing_acts self.old.seat.port.party.device channel) self.old self.new) }
        ensures err { IfErr result (λ r. (r ≡ DeviceRefusal.Invalid) × IsUncallable channel self.old.seat.port × (self.new ≡ self.old)) }
    {
        call_close::<DirectCalledAct, DirectDesk<ImageDisk>>(&mut self.drive, channel)
    }
}
