//! HASH: a sum of an image's sectors.
use crate::view::LookAnswer;
use cbm_image::{Kind, kind_of};
use cbm_shell::ShellFault;
use disk_basics::calls::convert;
use disk_facts::{hex, without_errors};
use sha2::{Digest, Sha256};
use std::alloc::{AllocError, Global};

/// The SHA-256 sum of bytes, in digits. The one error is want of memory.
pub fn digits_of(alloc: Global, bytes: &[u8]) -> Result<String, AllocError> {
    hex(alloc, &Sha256::digest(bytes))
}

/// The SHA-256 sum of an image's sectors, in digits: of a D64 that of its bytes without error bytes, of a G64 that of the D64
/// that is made of it.
pub fn sum_text(alloc: Global, image: &[u8]) -> Result<String, ShellFault> {
    match kind_of(image) {
        Kind::D64 => Ok(digits_of(alloc, without_errors(image))?),
        Kind::G64 => {
            let made = convert(alloc, image)?.image;
            Ok(digits_of(alloc, without_errors(made.as_slice()))?)
        }
    }
}

/// Adds the line of a sum. The one error is want of memory.
pub fn add_sum_line(text: &mut Vec<u8>, sum: &str, name: &str) -> Result<(), AllocError> {
    text.extend_from_slice(sum.as_bytes())?;
    text.extend_from_slice(b"  ")?;
    text.extend_from_slice(name.as_bytes())?;
    text.extend_from_slice(b"\n")
}

/// Adds the sum of an image's sectors, and its name. Errors: `Image`, `Mistaken`, `Memory`.
pub fn add_sum(
    alloc: Global,
    text: &mut Vec<u8>,
    name: &str,
    image: &[u8],
) -> Result<LookAnswer, ShellFault> {
    let sum = sum_text(alloc, image)?;
    add_sum_line(text, sum.as_str(), name)?;
    Ok(LookAnswer::Fine)
}
