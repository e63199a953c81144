//! The checksum of gzip and ZIP, CRC-32.

/// The polynomial, its lowest power first.
const POLYNOMIAL: u32 = 0xedb8_8320;

/// A remainder after a bit more, which is 0.
fn shifted(remainder: u32) -> u32 {
    if remainder % 2 == 1 {
        remainder / 2 ^ POLYNOMIAL
    } else {
        remainder / 2
    }
}

/// A remainder after eight bits more.
fn after_byte(remainder: u32, byte: u8) -> u32 {
    let mut rest = remainder ^ u32::from(byte);
    for _ in 0..8u8 {
        rest = shifted(rest);
    }
    rest
}

/// The checksum of bytes.
pub fn checksum(bytes: &[u8]) -> u32 {
    let mut remainder = u32::MAX;
    for byte in bytes {
        remainder = after_byte(remainder, *byte);
    }
    !remainder
}
