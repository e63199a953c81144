ghost use Rattle.std.specs.Prelude.{◌≡◌, ℕ, ◌<◌, ◌↔◌, List, Some, IfSome};
ghost use Rattle.cbm_gcr.specs.Code.{code, bits_of, IsFourBytes};

use crate::byte::{byte_of, ten_of};

/// The code of four bytes, as five bytes, by Commodore's table of nibbles (Immers and Neufeld,
/// Inside Commodore DOS).
pub fn encode4(bytes: &[u8; 4]) -> [u8; 5]
    ensures { bits_of result ≡ code bytes.now }
{
    let [a, b, c, d] = *bytes;
    let word = ((ten_of(a) * 1024 + ten_of(b)) * 1024 + ten_of(c)) * 1024 + ten_of(d);
    [
        (word / 0x1_0000_0000) as u8,
        (word / 0x100_0000 % 256) as u8,
        (word / 0x1_0000 % 256) as u8,
        (word / 0x100 % 256) as u8,
        (word % 256) as u8,
    ]
}

/// The four bytes that five are the code of; `None` exactly if they are the code of none.
pub fn decode5(coded: &[u8; 5]) -> Option<[u8; 4]>
    ensures value { (v : List ℕ) → IsFourBytes v → ((result ≡ Some v) ↔ (code v ≡ bits_of coded.now)) }
    ensures block { IfSome result IsFourBytes }
{
    let [a, b, c, d, e] = *coded;
    let word = (((a as u64 * 256 + b as u64) * 256 + c as u64) * 256 + d as u64) * 256 + e as u64;
    Some([
        byte_of(word / 0x4000_0000)?,
        byte_of(word / 0x10_0000 % 1024)?,
        byte_of(word / 0x400 % 1024)?,
        byte_of(word % 1024)?,
    ])
}
