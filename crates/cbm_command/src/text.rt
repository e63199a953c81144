//! The parts of a text.

ghost use Rattle.std.specs.Prelude.{◌≡◌, ◌+◌, ◌<◌, ◌≤◌, true, length, slice_index_or};
ghost use Rattle.cbm_command.specs.Texts.{holds_byte, before_byte, after_byte, is_digit, is_letter};

/// Whether a byte stands in a text.
pub(crate) fn contains(byte: u8, text: &[u8]) -> bool
    ensures { result ≡ holds_byte byte text.now }
{
    for here in text {
        if *here == byte {
            return true;
        }
    }
    false
}

/// The part of a text before the first such byte; all if there is none.
pub(crate) fn before_first(byte: u8, text: &[u8]) -> &[u8]
    ensures { result.now ≡ before_byte byte text.now }
{
    for i in 0..text.len() {
        if text[i] == byte {
            return &text[..i];
        }
    }
    text
}

/// What follows the first such byte; nothing if there is none.
pub(crate) fn after_the_first(byte: u8, text: &[u8]) -> &[u8]
    ensures value { result.now ≡ after_byte byte text.now }
    ensures short { length result.now ≤ length text.now }
    ensures shorter { holds_byte byte text.now ≡ true → length result.now < length text.now }
{
    let mut rest = text;
    while let Some((first, more)) = rest.split_first() {
        if *first == byte {
            return more;
        }
        rest = more;
    }
    rest
}

/// The first byte, or 0.
pub(crate) fn first_or_zero(text: &[u8]) -> u8
    ensures { result ≡ slice_index_or text.now 0 0 }
{
    text.first().copied().unwrap_or(0)
}

pub(crate) fn is_digit(byte: u8) -> bool
    ensures { result ≡ is_digit byte }
{
    b'0' <= byte && byte <= b'9'
}

pub(crate) fn is_letter(byte: u8) -> bool
    ensures { result ≡ is_letter byte }
{
    b'A' <= byte && byte <= b'Z'
}
