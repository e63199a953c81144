ghost use Rattle.std.specs.Prelude.{◌≡◌, ℕ, ◌<◌, ◌↔◌, Some};
ghost use Rattle.cbm_gcr.specs.Code.{ten_bits};

use crate::nibble::{code_of, high_of, low_of};

/// The ten bits of a byte, the high nibble's five first.
pub(crate) fn ten_of(byte: u8) -> u64
    ensures value { result ≡ ten_bits byte }
    ensures below { result < 1024 }
{
    32 * code_of(byte / 16) as u64 + code_of(byte % 16) as u64
}

/// The byte of ten bits, if they are one's code.
pub(crate) fn byte_of(ten: u64) -> Option<u8>
    requires { ten < 1024 }
    ensures { (b : ℕ) → b < 256 → ((result ≡ Some b) ↔ (ten ≡ ten_bits b)) }
{
    let byte = high_of((ten / 32) as usize) + low_of((ten % 32) as usize);
    if byte < 256 { Some(byte as u8) } else { None }
}
