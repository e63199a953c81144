//! Bytes to a channel of a drive and from it by calls, while its wires are at rest: the drive is told the acts that the wires would bring.
ghost use Rattle.std.specs.Prelude.{◌≡◌, ◌≤◌, ◌++◌, ℕ, List, drop, length, IfErr, IfOk, OnOk};
ghost use Rattle.cbm_device.specs.Channels.{attention_acts, leaving_acts, heard_each, sending_acts, opening_acts, writing_acts, closing_acts, by_call, IsToldAll, Speaks, Talks, IsPeeked, IsCallable, IsUncallable};

use crate::image_disk::ImageDisk;
use crate::refusal::DeviceRefusal;
use cbm_drive::{Act, Desk, Drive, Machine, Takes};
use cbm_iec::attention::{CLOSE, DATA, LISTEN, OPEN, TALK, UNLISTEN, UNTALK};

/// The greatest channel.
const LAST_CHANNEL: u8 = 15;

/// The greatest number of a drive on the bus.
const LAST_DEVICE: u8 = 30;

/// An act that a desk is told by a call, and not by its wires. (It is a type of this crate, so that a desk may take it here; another
/// crate has one of its own for its own desk.)
#[derive(Clone, Copy, Debug, PartialEq, Eq, Drop)]
pub struct CalledAct {
    /// The act.
    pub act: Act,
}

/// What came from a channel.
#[derive(Clone, Copy, Debug, PartialEq, Eq)]
pub struct Came {
    /// How many bytes.
    pub count: usize,
    /// Whether the last of them was marked so, with EOI.
    pub marked: bool,
}

impl From<Act> for CalledAct {
    ghost use Rattle.std.specs.Prelude.{◌≡◌};

    ghost from_gives = { λ act called. called.act ≡ act };

    fn from(act: Act) -> CalledAct {
        CalledAct { act }
    }
}

impl Takes<CalledAct> for Desk<ImageDisk> {
    ghost use Rattle.cbm_device.specs.Channels.{DeskIsTold};

    ghost takes = { λ called old new. DeskIsTold called.act old new };

    fn take(&mut self, called: CalledAct) {
        self.act(called.act);
    }
}

/// A drive is told an act.
fn tell<A: From<Act>, D: Takes<A>>(drive: &mut Drive<D>, act: Act)
    ensures port { drive.new.port ≡ drive.old.port }
    ensures told { by_call A.from_gives D.takes act drive.old.machine drive.new.machine }
{
    drive.put_in(A::from(act));
}

/// Two bytes come in attention.
fn attend<A: From<Act>, D: Takes<A>>(drive: &mut Drive<D>, first: u8, second: u8)
    ensures port { drive.new.port ≡ drive.old.port }
    ensures told { IsToldAll (by_call A.from_gives D.takes) (attention_acts first second) drive.old.machine drive.new.machine }
{
    tell::<A, D>(drive, Act::Pulled);
    tell::<A, D>(drive, Act::Attention(first));
    tell::<A, D>(drive, Act::Attention(second));
    tell::<A, D>(drive, Act::Released);
}

/// The byte comes in attention that ends the drive's role.
fn leave<A: From<Act>, D: Takes<A>>(drive: &mut Drive<D>, byte: u8)
    ensures port { drive.new.port ≡ drive.old.port }
    ensures told { IsToldAll (by_call A.from_gives D.takes) (leaving_acts byte) drive.old.machine drive.new.machine }
{
    tell::<A, D>(drive, Act::Pulled);
    tell::<A, D>(drive, Act::Attention(byte));
    tell::<A, D>(drive, Act::Released);
}

/// Bytes come to the listener, the last with EOI.
fn hear<A: From<Act>, D: Takes<A>>(drive: &mut Drive<D>, bytes: &[u8])
    ensures port { drive.new.port ≡ drive.old.port }
    ensures told { IsToldAll (by_call A.from_gives D.takes) (heard_each bytes.now) drive.old.machine drive.new.machine }
{
    let mut left = bytes.len();
    for byte in bytes {
        left -= 1;
        tell::<A, D>(drive, Act::Heard(*byte, left == 0));
    }
}

/// LISTEN, a secondary address, the bytes, UNLISTEN.
fn send<A: From<Act>, D: Takes<A>>(drive: &mut Drive<D>, second: u8, bytes: &[u8])
    requires { drive.old.port.party.device ≤ 30 }
    ensures port { drive.new.port ≡ drive.old.port }
    ensures told { IsToldAll (by_call A.from_gives D.takes) (sending_acts drive.old.port.party.device second bytes.now) drive.old.machine drive.new.machine }
{
    let listen = LISTEN + drive.device();
    attend::<A, D>(drive, listen, second);
    hear::<A, D>(drive, bytes);
    leave::<A, D>(drive, UNLISTEN);
}

/// The bytes that the talker has to say, as many as there is room for, go there.
fn take_bytes<A: From<Act>, D: Takes<A>>(drive: &mut Drive<D>, out: &mut [u8]) -> Came
    ensures port { drive.new.port ≡ drive.old.port }
    ensures said { (bytes : List ℕ) × (length bytes ≡ result.count) × (out.new ≡ bytes ++ drop result.count out.old)
        × Speaks (by_call A.from_gives D.takes) (IsPeeked D.shows D.stands D.says) (length out.old) bytes result.marked drive.old.machine drive.new.machine }
{
    let room = out.len();
    for count in 0..room {
        let Some((byte, marked)) = drive.machine().peek() else {
            return Came {
                count,
                marked: false,
            };
        };
        out[count] = byte;
        tell::<A, D>(drive, Act::Said(byte, marked));
        if marked {
            return Came {
                count: count + 1,
                marked: true,
            };
        }
    }
    Came {
        count: room,
        marked: false,
    }
}

/// Whether a call may be made on a channel. The one error is `Invalid`: the channel is none, or the wires aren't at rest.
fn require_rest<D: Machine>(drive: &Drive<D>, channel: u8) -> Result<(), DeviceRefusal>
    ensures ok { OnOk result (IsCallable channel drive.now.port) }
    ensures err { IfErr result (λ r. (r ≡ DeviceRefusal.Invalid) × IsUncallable channel drive.now.port) }
{
    if channel > LAST_CHANNEL || drive.device() > LAST_DEVICE || !drive.at_rest() {
        return Err(DeviceRefusal::Invalid);
    }
    Ok(())
}

/// OPEN of a channel with a text, or on 15 a command. The one error is `Invalid`: the channel is none, or the wires aren't at rest.
pub fn call_open<A: From<Act>, D: Takes<A>>(
    drive: &mut Drive<D>,
    channel: u8,
    text: &[u8],
) -> Result<(), DeviceRefusal>
    ensures port { drive.new.port ≡ drive.old.port }
    ensures callable { OnOk result (IsCallable channel drive.old.port) }
    ensures told { OnOk result (IsToldAll (by_call A.from_gives D.takes) (opening_acts drive.old.port.party.device channel text.now) drive.old.machine drive.new.machine) }
    ensures err { IfErr result (λ r. (r ≡ DeviceRefusal.Invalid) × IsUncallable channel drive.old.port × (drive.new ≡ drive.old)) }
{
    require_rest(drive, channel)?;
    send::<A, D>(drive, OPEN + channel, text);
    Ok(())
}

/// Bytes for a channel. The one error is `Invalid`, as for `call_open`.
pub fn call_write<A: From<Act>, D: Takes<A>>(
    drive: &mut Drive<D>,
    channel: u8,
    bytes: &[u8],
) -> Result<(), DeviceRefusal>
    ensures port { drive.new.port ≡ drive.old.port }
    ensures callable { OnOk result (IsCallable channel drive.old.port) }
    ensures told { OnOk result (IsToldAll (by_call A.from_gives D.takes) (writing_acts drive.old.port.party.device channel bytes.now) drive.old.machine drive.new.machine) }
    ensures err { IfErr result (λ r. (r ≡ DeviceRefusal.Invalid) × IsUncallable channel drive.old.port × (drive.new ≡ drive.old)) }
{
    require_rest(drive, channel)?;
    send::<A, D>(drive, DATA + channel, bytes);
    Ok(())
}

/// Bytes of a channel, as many as there is room for, up to the one that is marked as the last. The one error is `Invalid`, as for
/// `call_open`.
pub fn call_read<A: From<Act>, D: Takes<A>>(
    drive: &mut Drive<D>,
    channel: u8,
    out: &mut [u8],
) -> Result<Came, DeviceRefusal>
    ensures port { drive.new.port ≡ drive.old.port }
    ensures callable { OnOk result (IsCallable channel drive.old.port) }
    ensures talked { IfOk result (λ came. (bytes : List ℕ) × (length bytes ≡ came.count) × (out.new ≡ bytes ++ drop came.count out.old)
        × Talks (by_call A.from_gives D.takes) (IsPeeked D.shows D.stands D.says) drive.old.port.party.device channel (length out.old) bytes came.marked
        drive.old.machine drive.new.machine) }
    ensures err { IfErr result (λ r. (r ≡ DeviceRefusal.Invalid) × IsUncallable channel drive.old.port × (drive.new ≡ drive.old)
        × (out.new ≡ out.old)) }
{
    require_rest(drive, channel)?;
    let talk = TALK + drive.device();
    attend::<A, D>(drive, talk, DATA + channel);
    let came = take_bytes::<A, D>(drive, out);
    leave::<A, D>(drive, UNTALK);
    Ok(came)
}

/// CLOSE of a channel. The one error is `Invalid`, as for `call_open`.
pub fn call_close<A: From<Act>, D: Takes<A>>(
    drive: &mut Drive<D>,
    channel: u8,
) -> Result<(), DeviceRefusal>
    ensures port { drive.new.port ≡ drive.old.port }
    ensures callable { OnOk result (IsCallable channel drive.old.port) }
    ensures told { OnOk result (IsToldAll (by_call A.from_gives D.takes) (closing_acts drive.old.port.party.device channel) drive.old.machine drive.new.machine) }
    ensures err { IfErr result (λ r. (r ≡ DeviceRefusal.Invalid) × IsUncallable channel drive.old.port × (drive.new ≡ drive.old)) }
{
    require_rest(drive, channel)?;
    let listen = LISTEN + drive.device();
    tell::<A, D>(drive, Act::Pulled);
    tell::<A, D>(drive, Act::Attention(listen));
    tell::<A, D>(drive, Act::Attention(CLOSE + channel));
    tell::<A, D>(drive, Act::Attention(UNLISTEN));
    tell::<A, D>(drive, Act::Released);
    Ok(())
}
