// A gathered text as bytes, and of bytes.
ghost use Rattle.std.specs.Prelude.{◌≡◌, ◌++◌, OnOk, option_map};
ghost use Rattle.cbm_channel.specs.Saved.{saved_gathered, IsGathered};
ghost use Rattle.cbm_channel.specs.Loaded.{gathered_of, gathered_at as gathered_in, some_gathered_at};

use crate::gathered::{Gathered, KEPT};
use arrayvec::ArrayVec;
use cbm_saved::{put_text, text_at};
use std::alloc::AllocError;

/// Adds the text that is gathered, if one is.
pub fn save_gathered(out: &mut Vec<u8>, text: &Option<Gathered>) -> Result<(), AllocError>
    ensures saved { OnOk result (out.new.items ≡ out.old.items ++ saved_gathered text.now) }
    ensures again { OnOk result (IsGathered text.now) }
{
    match text {
        None => out.extend_from_slice(&[0]),
        Some(gathered) => gathered.save(out),
    }
}

/// The text that is gathered, if one is, and what follows it; None if the bytes are none of it.
pub fn gathered_at(bytes: &[u8]) -> Option<(Option<Gathered>, &[u8])>
    ensures { option_map (λ x. (x.0, x.1.now)) result ≡ gathered_in bytes.now }
{
    let (kind, rest) = bytes.split_first()?;
    if *kind == 0 {
        return Some((None, rest));
    }
    Gathered::some_at(rest)
}

impl Gathered {
    ghost use Rattle.std.specs.Prelude.{◌≡◌, ◌≤◌, ◌++◌, length, OnOk, option_map, Some};

    /// Adds this text.
    fn save(&self, out: &mut Vec<u8>) -> Result<(), AllocError>
        ensures saved { OnOk result (out.new.items ≡ out.old.items ++ saved_gathered (Some self.now)) }
        ensures again { (1 ≤ length self.now.1) × (length self.now.1 ≤ 256) }
    {
        out.extend_from_slice(&[1, self.channel])?;
        put_text(out, self.bytes())
    }

    /// The text of these bytes for a channel; None if there are none, or more than 256.
    fn of_parts(channel: u8, bytes: &[u8]) -> Option<Gathered>
        ensures { result ≡ gathered_of channel bytes.now }
    {
        if bytes.is_empty() || bytes.len() > KEPT {
            return None;
        }
        let mut kept = ArrayVec::new();
        kept.try_extend_from_slice(bytes).unwrap();
        Some(Gathered {
            channel,
            bytes: kept,
        })
    }

    /// The text that begins some bytes, and what follows it; None if it is none.
    fn some_at(bytes: &[u8]) -> Option<(Option<Gathered>, &[u8])>
        ensures { option_map (λ x. (x.0, x.1.now)) result ≡ some_gathered_at bytes.now }
    {
        let (channel, rest) = bytes.split_first()?;
        let (text, rest) = text_at(rest)?;
        let gathered = Gathered::of_parts(*channel, text)?;
        Some((Some(gathered), rest))
    }
}
