//! Numbers as bytes, the low one first.
ghost use Rattle.std.specs.Prelude.{◌≡◌, ◌++◌, OnOk, option_map};
ghost use Rattle.cbm_saved.specs.Numbers.{number_of_four, eight_bytes, eight_at as eight_in, pair_at as two_in};

use std::alloc::AllocError;

/// The number of four bytes.
pub(crate) fn four_of(a: u8, b: u8, c: u8, d: u8) -> u32
    ensures { result ≡ number_of_four a b c d }
{
    a as u32 + 256 * b as u32 + 65536 * c as u32 + 16777216 * d as u32
}

/// The number of two bytes that begins some bytes, and what follows it; None if they are fewer.
pub fn two_at(bytes: &[u8]) -> Option<(u16, &[u8])>
    ensures { option_map (λ x. (x.0, x.1.now)) result ≡ two_in bytes.now }
{
    match bytes {
        [low, high, rest @ ..] => Some((*low as u16 + 256 * *high as u16, rest)),
        _ => None,
    }
}

/// Adds a number as eight bytes. The one error is want of memory.
pub fn put_eight(out: &mut Vec<u8>, number: u64) -> Result<(), AllocError>
    ensures { OnOk result (out.new.items ≡ out.old.items ++ eight_bytes number) }
{
    out.extend_from_slice(&[
        (number % 256) as u8,
        (number / 256 % 256) as u8,
        (number / 65536 % 256) as u8,
        (number / 16777216 % 256) as u8,
        (number / 4294967296 % 256) as u8,
        (number / 1099511627776 % 256) as u8,
        (number / 281474976710656 % 256) as u8,
        (number / 72057594037927936) as u8,
    ])
}

/// The number of eight bytes that begins some bytes, and what follows it; None if they are fewer.
pub fn eight_at(bytes: &[u8]) -> Option<(u64, &[u8])>
    ensures { option_map (λ x. (x.0, x.1.now)) result ≡ eight_in bytes.now }
{
    match bytes {
        [a, b, c, d, e, f, g, h, rest @ ..] => {
            let low = four_of(*a, *b, *c, *d);
            let high = four_of(*e, *f, *g, *h);
            Some((low as u64 + 4294967296 * high as u64, rest))
        }
        _ => None,
    }
}
