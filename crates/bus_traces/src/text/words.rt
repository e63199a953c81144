//! The words of a line, and the numbers in them.
ghost use Rattle.std.specs.Prelude.{◌≡◌, ◌<◌, ◌≤◌, length, position, option_map, IfSome};
ghost use Rattle.bus_traces.specs.Words.{is_space, first_word, after_word, trace_number, number_upto};

fn space_in(bytes: &[u8]) -> Option<usize>
    ensures at { result ≡ position is_space bytes.now }
    ensures within { IfSome result (λ at. at < length bytes.now) }
{
    bytes.iter().position(|b| *b == b' ')
}

/// The first word, and what follows the space that ends it; None if no space does.
pub fn split_word(bytes: &[u8]) -> (&[u8], Option<&[u8]>)
    ensures word { result.0.now ≡ first_word bytes.now }
    ensures short { IfSome result.1 (λ rest. length rest.now ≤ length bytes.now) }
    ensures after { option_map (λ rest. rest.now) result.1 ≡ after_word bytes.now }
{
    match space_in(bytes) {
        Some(at) => (&bytes[..at], Some(&bytes[at + 1..])),
        None => (bytes, None),
    }
}

/// The number of 1 to 16 digits; None if it is none.
pub fn number(word: &[u8]) -> Option<u64>
    ensures { result ≡ trace_number word.now }
{
    if word.is_empty() || word.len() > 16 {
        return None;
    }
    let mut value = 0;
    for digit in word {
        if !digit.is_ascii_digit() {
            return None;
        }
        value = 10 * value + u64::from(*digit - b'0');
    }
    Some(value)
}

/// The same, if it is at most `high`.
pub(crate) fn number_upto(high: u64, word: &[u8]) -> Option<u64>
    ensures value { result ≡ number_upto high word.now }
    ensures within { IfSome result (λ n. n ≤ high) }
{
    let value = number(word)?;
    if value <= high { Some(value) } else { None }
}
