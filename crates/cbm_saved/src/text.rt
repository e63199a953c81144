//! Texts as bytes: how many there are, and they themselves.
ghost use Rattle.std.specs.Prelude.{◌≡◌, ◌<◌, ◌^◌, ◌++◌, length, OnOk, option_map};
ghost use Rattle.cbm_saved.specs.Texts.{front_of as front_in, counted_text, text_at as text_in};

use std::alloc::AllocError;

/// Adds a text of at most 65,535 bytes. The one error is want of memory.
pub fn put_text(out: &mut Vec<u8>, bytes: &[u8]) -> Result<(), AllocError>
    requires { length bytes.now < 2 ^ 16 }
    ensures { OnOk result (out.new.items ≡ out.old.items ++ counted_text bytes.now) }
{
    out.extend_from_slice(&[(bytes.len() % 256) as u8, (bytes.len() / 256) as u8])?;
    out.extend_from_slice(bytes)
}

/// So many bytes from the front, and what follows them; None if they are fewer.
fn front_of(count: usize, bytes: &[u8]) -> Option<(&[u8], &[u8])>
    ensures { option_map (λ x. (x.0.now, x.1.now)) result ≡ front_in count bytes.now }
{
    if bytes.len() < count {
        return None;
    }
    Some(bytes.split_at(count))
}

/// The text that begins some bytes, and what follows it; None if they are too few.
pub fn text_at(bytes: &[u8]) -> Option<(&[u8], &[u8])>
    ensures { option_map (λ x. (x.0.now, x.1.now)) result ≡ text_in bytes.now }
{
    match bytes {
        [low, high, rest @ ..] => front_of(*low as usize + 256 * *high as usize, rest),
        _ => None,
    }
}
