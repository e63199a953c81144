//! The calls of a DOS that may write: if the medium didn't fail by itself in it, each leads to the machine's next state.
ghost use Rattle.std.specs.Prelude.{◌≡◌, ◌≤◌};
ghost use Rattle.cbm_machine.specs.Closing as closing;
ghost use Rattle.cbm_machine.specs.Calls as calls;
ghost use Rattle.cbm_drive.specs.Desks.{LeadsUnfailed};

use cbm_channel::Dos;
use cbm_medium::Medium;

/// OPEN of a channel with a name, or on 15 a command.
pub(crate) fn open<M: Medium>(dos: &mut Dos<M>, channel: u8, name: &[u8])
    requires { channel ≤ 15 }
    ensures leads { LeadsUnfailed M.seen dos.old dos.new (calls.after_open channel name.now) }
    ensures tracks { (M.seen dos.new.medium).tracks ≡ (M.seen dos.old.medium).tracks }
    ensures counted { (M.seen dos.old.medium).failures ≤ (M.seen dos.new.medium).failures }
{
    dos.open(channel, name);
}

/// CLOSE of a channel.
pub(crate) fn close<M: Medium>(dos: &mut Dos<M>, channel: u8)
    requires { channel ≤ 15 }
    ensures leads { LeadsUnfailed M.seen dos.old dos.new (closing.close channel) }
    ensures tracks { (M.seen dos.new.medium).tracks ≡ (M.seen dos.old.medium).tracks }
    ensures counted { (M.seen dos.old.medium).failures ≤ (M.seen dos.new.medium).failures }
{
    dos.close(channel);
}

/// A byte for a channel.
pub(crate) fn put<M: Medium>(dos: &mut Dos<M>, channel: u8, byte: u8)
    requires { channel ≤ 15 }
    ensures leads { LeadsUnfailed M.seen dos.old dos.new (calls.put channel byte) }
    ensures tracks { (M.seen dos.new.medium).tracks ≡ (M.seen dos.old.medium).tracks }
    ensures counted { (M.seen dos.old.medium).failures ≤ (M.seen dos.new.medium).failures }
{
    dos.put(channel, byte);
}

/// The end of the bytes for a channel.
pub(crate) fn end_put<M: Medium>(dos: &mut Dos<M>, channel: u8)
    requires { channel ≤ 15 }
    ensures leads { LeadsUnfailed M.seen dos.old dos.new (calls.end_put channel) }
    ensures tracks { (M.seen dos.new.medium).tracks ≡ (M.seen dos.old.medium).tracks }
    ensures counted { (M.seen dos.old.medium).failures ≤ (M.seen dos.new.medium).failures }
{
    dos.end_put(channel);
}
