// What a drive keeps beside its disk, as bytes, and a drive of them.

ghost use Rattle.std.specs.Prelude.{◌≡◌, ◌<◌, ◌++◌, length, OnOk, option_map};
ghost use Rattle.cbm_channel.specs.Loaded.{told_at as told_in, told_with};
ghost use Rattle.cbm_channel.specs.Saved.{saved_told};
ghost use Rattle.cbm_machine.specs.Statuses.{status_line};

use crate::channel::saving::save_all;
use crate::channels::Channels;
use crate::dos::Dos;
use crate::gathered::saving::{gathered_at, save_gathered};
use cbm_machine::{Code, Status, Telling};
use cbm_volume::{Medium, Volume};
use std::alloc::AllocError;

/// Adds the status, and how much of it was told.
fn save_told(out: &mut Vec<u8>, telling: &Telling) -> Result<(), AllocError>
    ensures saved { OnOk result (out.new.items ≡ out.old.items ++ saved_told telling.now) }
    ensures again { telling.now.told < length (status_line telling.now.status) }
{
    let status = telling.status();
    out.extend_from_slice(&[
        status.code.number(),
        status.first,
        status.second,
        telling.told(),
    ])
}

/// A status of whose line so many bytes were told.
fn told_of(code: Code, first: u8, second: u8, told: u8) -> Option<Telling>
    ensures { result ≡ told_with code first second told }
{
    let status = Status {
        code,
        first,
        second,
    };
    Telling::resumed(status, told)
}

/// The status that begins some bytes, how much of it was told, and what follows it; None if it is none.
fn told_at(bytes: &[u8]) -> Option<(Telling, &[u8])>
    ensures { option_map (λ x. (x.0, x.1.now)) result ≡ told_in bytes.now }
{
    let [number, first, second, told, rest @ ..] = bytes else {
        return None;
    };
    let code = Code::of_number(*number)?;
    let telling = told_of(code, *first, *second, *told)?;
    Some((telling, rest))
}

impl<M: Medium> Dos<M> {
    ghost use Rattle.std.specs.Prelude.{◌≡◌, ◌++◌, OnOk, option_map};
    ghost use Rattle.cbm_channel.specs.Saved.{saved_dos, MayBeKept};
    ghost use Rattle.cbm_channel.specs.Loaded.{dos_at};

    /// Adds what it keeps beside its disk: the status, the text that is gathered, and the channels. The one error is want of
    /// memory.
    pub fn save(&self, out: &mut Vec<u8>) -> Result<(), AllocError>
        ensures saved { OnOk result (out.new.items ≡ out.old.items ++ saved_dos self.now) }
        // So it can be read again.
        ensures again { OnOk result (MayBeKept (M.seen self.now.medium).tracks self.now) }
    {
        save_told(out, &self.telling)?;
        save_gathered(out, &self.text)?;
        save_all(out, self.channels.as_slice())
    }

    /// The drive with this medium that keeps what begins some bytes, and what follows that; None if it keeps nothing such.
    pub fn load(medium: M, channels: Channels, bytes: &[u8]) -> Option<(Dos<M>, &[u8])>
    where
        M: Drop,
        ensures { option_map (λ x. (x.0, x.1.now)) result ≡ dos_at medium (M.seen medium).tracks bytes.now }
    {
        let (telling, rest) = told_at(bytes)?;
        let (text, rest) = gathered_at(rest)?;
        let (channels, rest) = channels.loaded(medium.tracks(), rest)?;
        let dos = Dos {
            volume: Volume::open(medium),
            channels,
            telling,
            text,
        };
        Some((dos, rest))
    }
}
