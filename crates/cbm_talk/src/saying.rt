//! Taking bytes from a channel.
ghost use Rattle.std.specs.Prelude.{◌≡◌, ◌≤◌, ◌++◌, IfOk, OnOk};
ghost use Rattle.cbm_machine.specs.Machines.{Machine};
ghost use Rattle.cbm_channel.specs.Standing.{Stands};
ghost use Rattle.cbm_talk.specs.Talks.{talked};

use cbm_channel::Dos;
use cbm_medium::Medium;
use std::alloc::{AllocError, Global};

/// What a channel sends, at most `most` bytes; the drive has then sent them, and no sector has changed. The one error is want of
/// memory.
pub fn said<M: Medium>(
    alloc: Global,
    dos: &mut Dos<M>,
    channel: u8,
    most: u32,
) -> Result<Vec<u8>, AllocError>
    requires { channel ≤ 15 }
    ensures bytes { (m : Machine) → Stands M.seen dos.old m →
        IfOk result (λ v. v.items ≡ (talked channel most m).bytes) }
    ensures stands { (m : Machine) → Stands M.seen dos.old m →
        OnOk result (Stands M.seen dos.new (talked channel most m).machine) }
    ensures medium { dos.new.medium ≡ dos.old.medium }
{
    let mut bytes = Vec::new(alloc);
    dos.talk(channel);
    'bytes: for done in 0..most {
        let Some((byte, is_last)) = dos.peek(channel) else {
            return Ok(bytes);
        };
        bytes.push(byte)?;
        dos.taken(channel);
        if is_last {
            return Ok(bytes);
        }
    }
    Ok(bytes)
}
