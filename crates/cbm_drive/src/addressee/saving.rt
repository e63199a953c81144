// Who is addressed, as bytes, and of bytes.
ghost use Rattle.std.specs.Prelude.{◌≡◌, ◌≤◌, IfSome};
ghost use Rattle.cbm_drive.specs.Saved.{channel_byte as number_of_channel};
ghost use Rattle.cbm_drive.specs.Loaded.{channel_with as channel_of};

use crate::addressee::{Addressee, KEPT};
use crate::seated::{pace_by, pace_number, role_by, role_number};
use crate::side::flag;
use arrayvec::ArrayVec;
use cbm_saved::{put_text, text_at};
use std::alloc::AllocError;

/// The channel of a secondary address, and 255 if there is none.
fn channel_number(channel: Option<u8>) -> u8
    ensures { result ≡ number_of_channel channel }
{
    match channel {
        Some(channel) => channel,
        None => 255,
    }
}

/// The channel of a number; above 15 there is none.
fn channel_with(number: u8) -> Option<u8>
    ensures value { result ≡ channel_of number }
    ensures few { IfSome result (λ c. c ≤ 15) }
{
    if number > 15 {
        return None;
    }
    Some(number)
}

impl Addressee {
    ghost use Rattle.std.specs.Prelude.{◌≡◌, ◌++◌, OnOk, option_map};
    ghost use Rattle.cbm_drive.specs.Saved.{saved_addressed, MayBeAddressed};
    ghost use Rattle.cbm_drive.specs.Loaded.{addressed_at};

    /// Adds who is addressed.
    pub fn save(&self, out: &mut Vec<u8>) -> Result<(), AllocError>
        ensures saved { OnOk result (out.new.items ≡ out.old.items ++ saved_addressed self.now) }
        ensures again { OnOk result (MayBeAddressed self.now) }
    {
        prove!(self.name.len() <= 256);
        out.extend_from_slice(&[
            self.device,
            pace_number(self.pace),
            role_number(self.role),
            channel_number(self.channel),
            flag(self.naming),
            flag(self.freed),
        ])?;
        put_text(out, self.name.as_slice())
    }

    /// Who is addressed, in the bytes that begin some others, and what follows; None if they are none of it.
    pub fn load(bytes: &[u8]) -> Option<(Addressee, &[u8])>
        ensures { option_map (λ x. (x.0, x.1.now)) result ≡ addressed_at bytes.now }
    {
        let [device, pace, role, channel, naming, freed, rest @ ..] = bytes else {
            return None;
        };
        let (text, rest) = text_at(rest)?;
        if *device > 30 || text.len() > KEPT {
            return None;
        }
        let mut name = ArrayVec::new();
        name.try_extend_from_slice(text).unwrap();
        let addressee = Addressee {
            device: *device,
            pace: pace_by(*pace),
            role: role_by(*role),
            channel: channel_with(*channel),
            naming: *naming != 0,
            freed: *freed != 0,
            name,
        };
        Some((addressee, rest))
    }
}
