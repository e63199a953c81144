//! The DOS of a handle's drive by calls, without the wires.
ghost use Rattle.std.specs.Prelude.{◌≡◌, None};
ghost use Rattle.cbm_device.specs.Channels.{opening_acts, writing_acts, closing_acts};
ghost use Rattle.yellowadze1541.specs.Drives.{Acts};
ghost use Rattle.yellowadze1541.specs.Channels.{TellsActs, TellsActsDirect, Reads, ReadsDirect};

use crate::handle::{Handle, back, empty, of};
use cbm_device::DeviceRefusal;
use std::alloc::Global;
use std::mem::replace;

/// OPEN of a channel with a text, or on channel 15 a command, as a computer sends them, but without the wires.
#[unsafe(no_mangle)]
pub extern "C" fn y1541_channel_open(alloc: Global, d: &mut Handle, channel: u8, text: &[u8]) -> i32
    ensures { Acts d.old.value d.new.value result (TellsActs channel (λ device. opening_acts device channel text.now) result)
        (TellsActsDirect channel (λ device. opening_acts device channel text.now) result) }
{
    let Some(mut inner) = back(alloc, replace(d, empty())) else {
        return DeviceRefusal::NoDrive.number();
    };
    let said = inner.device.open_channel(channel, text);
    *d = of(inner);
    said
}

/// Bytes for a channel, the last with EOI.
#[unsafe(no_mangle)]
pub extern "C" fn y1541_channel_write(
    alloc: Global,
    d: &mut Handle,
    channel: u8,
    bytes: &[u8],
) -> i32
    ensures { Acts d.old.value d.new.value result (TellsActs channel (λ device. writing_acts device channel bytes.now) result)
        (TellsActsDirect channel (λ device. writing_acts device channel bytes.now) result) }
{
    let Some(mut inner) = back(alloc, replace(d, empty())) else {
        return DeviceRefusal::NoDrive.number();
    };
    let said = inner.device.write_channel(channel, bytes);
    *d = of(inner);
    said
}

/// Bytes of a channel, as many as there is room for, up to the last one, which comes with EOI.
#[unsafe(no_mangle)]
pub extern "C" fn y1541_channel_read(
    alloc: Global,
    d: &mut Handle,
    channel: u8,
    out: &mut [u8],
    got: &mut usize,
    last: &mut u8,
) -> i32
    ensures reads { Acts d.old.value d.new.value result (Reads channel result out.old out.new got.old got.new last.old last.new)
        (ReadsDirect channel result out.old out.new got.old got.new last.old last.new) }
    ensures none { d.old.value ≡ None → (out.new ≡ out.old) × (got.new ≡ got.old) × (last.new ≡ last.old) }
{
    let Some(mut inner) = back(alloc, replace(d, empty())) else {
        return DeviceRefusal::NoDrive.number();
    };
    let said = inner.device.read_channel(channel, out, got, last);
    *d = of(inner);
    said
}

/// CLOSE of a channel.
#[unsafe(no_mangle)]
pub extern "C" fn y1541_channel_close(alloc: Global, d: &mut Handle, channel: u8) -> i32
    ensures { Acts d.old.value d.new.value result (TellsActs channel (λ device. closing_acts device channel) result)
        (TellsActsDirect channel (λ device. closing_acts device channel) result) }
{
    let Some(mut inner) = back(alloc, replace(d, empty())) else {
        return DeviceRefusal::NoDrive.number();
    };
    let said = inner.device.close_channel(channel);
    *d = of(inner);
    said
}
