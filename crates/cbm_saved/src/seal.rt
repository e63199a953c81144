//! A seal: a mark with its version, how many bytes follow, and their checksum.
ghost use Rattle.std.specs.Prelude.{◌≡◌, ◌<◌, ◌^◌, length, option_map, IfOk};
ghost use Rattle.cbm_saved.specs.Numbers.{four as four_bytes};
ghost use Rattle.cbm_saved.specs.Seals.{checksum as checksum_of, is_mark as is_mark_of, is_whole as is_whole_with, mixed_with as mixed_so, seal_opened as opened_as, sealed as sealed_as};

use crate::number::four_of;
use std::alloc::{AllocError, Global};

/// One byte more.
fn mixed_with(sum: u64, byte: u8) -> u64
    requires { sum < 4294967291 }
    ensures value { result ≡ mixed_so sum byte }
    ensures small { result < 4294967291 }
{
    (sum * 65599 + byte as u64 + 1) % 4294967291
}

/// The checksum of some bytes.
fn checksum(bytes: &[u8]) -> u32
    ensures { result ≡ checksum_of bytes.now }
{
    let mut sum = 0;
    for byte in bytes {
        sum = mixed_with(sum, *byte);
    }
    sum as u32
}

/// Four bytes of a number, the low one first.
fn four(number: u32) -> [u8; 4]
    ensures { result ≡ four_bytes number }
{
    [
        (number % 256) as u8,
        (number / 256 % 256) as u8,
        (number / 65536 % 256) as u8,
        (number / 16777216) as u8,
    ]
}

/// Some bytes, fewer than 2^32, under the seal of a version. Takes memory for them.
pub fn sealed(alloc: Global, version: u8, body: &[u8]) -> Result<Vec<u8>, AllocError>
    requires { length body.now < 2 ^ 32 }
    ensures { IfOk result (λ v. v.items ≡ sealed_as version body.now) }
{
    let mut out = Vec::new(alloc);
    out.extend_from_slice(b"1541")?;
    out.push(version)?;
    out.extend_from_slice(&four(body.len() as u32))?;
    out.extend_from_slice(&four(checksum(body)))?;
    out.extend_from_slice(body)?;
    Ok(out)
}

/// Whether four bytes are the mark of a seal.
fn is_mark(m: u8, n: u8, o: u8, p: u8) -> bool
    ensures { result ≡ is_mark_of m n o p }
{
    m == b'1' && n == b'5' && o == b'4' && p == b'1'
}

/// Whether the bytes under a seal are those that it was made for.
fn is_whole(count: u32, sum: u32, body: &[u8]) -> bool
    ensures { result ≡ is_whole_with count sum body.now }
{
    body.len() == count as usize && checksum(body) == sum
}

/// What the seal of a version holds; None if it is broken, or another version's.
pub fn opened(version: u8, bytes: &[u8]) -> Option<&[u8]>
    ensures { option_map (λ x. x.now) result ≡ opened_as version bytes.now }
{
    let [m, n, o, p, other, a, b, c, d, e, f, g, h, body @ ..] = bytes else {
        return None;
    };
    if is_mark(*m, *n, *o, *p)
        && *other == version
        && is_whole(four_of(*a, *b, *c, *d), four_of(*e, *f, *g, *h), body)
    {
        Some(body)
    } else {
        None
    }
}
