//! The numbers in the words of a line.
ghost use Rattle.std.specs.Prelude.{◌≡◌, ◌≤◌, IfSome};
ghost use Rattle.cbm_program.specs.Words.{number_within, channel_number, count_of, hex_byte};

use crate::text::hex_digit;
use bus_traces::number;

/// A number of 1 to 16 digits, if it lies between these.
fn number_within(low: u64, high: u64, word: &[u8]) -> Option<u64>
    ensures value { result ≡ number_within low high word.now }
    ensures within { IfSome result (λ n. (low ≤ n) × (n ≤ high)) }
{
    let value = number(word)?;
    if low <= value && value <= high {
        Some(value)
    } else {
        None
    }
}

/// A channel, 0 to 15.
pub(crate) fn channel(word: &[u8]) -> Option<u8>
    ensures value { result ≡ channel_number word.now }
    ensures small { IfSome result (λ channel. channel ≤ 15) }
{
    Some(number_within(0, 15, word)? as u8)
}

/// A count, 1 to 200,000.
pub(crate) fn count(word: &[u8]) -> Option<u32>
    ensures value { result ≡ count_of word.now }
    ensures range { IfSome result (λ count. (1 ≤ count) × (count ≤ 200000)) }
{
    Some(number_within(1, 200_000, word)? as u32)
}

/// A byte of two hexadecimal digits.
pub(crate) fn byte(word: &[u8]) -> Option<u8>
    ensures { result ≡ hex_byte word.now }
{
    let (high, rest) = word.split_first()?;
    let (low, rest) = rest.split_first()?;
    if rest.is_empty() {
        Some(16 * hex_digit(*high)? + hex_digit(*low)?)
    } else {
        None
    }
}
