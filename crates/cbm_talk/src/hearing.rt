//! Putting bytes to a channel.
ghost use Rattle.std.specs.Prelude.{◌≤◌, ◌==◌, false};
ghost use Rattle.cbm_channel.specs.Standing.{Leads};
ghost use Rattle.cbm_channel.specs.Going.{KeepsMedium};
ghost use Rattle.cbm_talk.specs.Talks.{puts, hear_bytes};

use cbm_channel::Dos;
use cbm_medium::Steady;

/// Puts the bytes one after another.
fn put_each<M: Steady>(dos: &mut Dos<M>, channel: u8, bytes: &[u8])
    requires { channel ≤ 15 }
    ensures leads { Leads M.seen dos.old dos.new (puts channel bytes.now) }
    ensures medium { KeepsMedium false (M.seen dos.old.medium) (M.seen dos.new.medium) }
{
    for byte in bytes {
        dos.put(channel, *byte);
    }
}

/// Sends the bytes to a channel, between LISTEN and UNLISTEN.
pub fn hear<M: Steady>(dos: &mut Dos<M>, channel: u8, bytes: &[u8])
    requires { channel ≤ 15 }
    ensures leads { Leads M.seen dos.old dos.new (hear_bytes channel bytes.now) }
    ensures medium { KeepsMedium (channel == 15) (M.seen dos.old.medium) (M.seen dos.new.medium) }
{
    dos.listen(channel);
    put_each(dos, channel, bytes);
    dos.end_put(channel);
}
