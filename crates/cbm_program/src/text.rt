//! Texts with escapes.
ghost use Rattle.std.specs.Prelude.{◌≡◌, ◌<◌, ◌≤◌, ℕ, List, length, option_map, IfSome, Some, None, if◌then◌else◌};
ghost use Rattle.cbm_program.specs.Texts.{is_hex, hex_value, is_plain, text_of};
ghost use Rattle.bus_traces.specs.Lines.{lines_of};
ghost use Rattle.cbm_program.specs.Spelling.{ended_lines, AreLines, escapes, AreByteValues, ArePlain};

use crate::request::Text;

pub(crate) fn hex_digit(byte: u8) -> Option<u8>
    ensures value { result ≡ (if is_hex byte then Some (hex_value byte) else None) }
    ensures small { IfSome result (λ d. d < 16) }
{
    match byte {
        b'0'..=b'9' => Some(byte - b'0'),
        b'a'..=b'f' => Some(byte - b'a' + 10),
        _ => None,
    }
}

fn is_plain(byte: u8) -> bool
    ensures { result ≡ is_plain byte }
{
    (0x20..=0x7e).contains(&byte)
}

/// The bytes that a text means: each byte itself, or a backslash and two hexadecimal digits. None if a backslash has
/// none, or a byte is no character from $20 to $7E.
pub fn decode(text: &[u8]) -> Option<Text>
    requires { length text.now ≤ 1000 }
    ensures { option_map (λ bytes. bytes.items) result ≡ text_of text.now }
{
    let mut bytes = Text::new();
    let mut rest = text;
    while let Some((first, more)) = rest.split_first() {
        if *first == b'\\' {
            let (high, more) = more.split_first()?;
            let (low, more) = more.split_first()?;
            bytes.push(16 * hex_digit(*high)? + hex_digit(*low)?);
            rest = more;
        } else if is_plain(*first) {
            bytes.push(*first);
            rest = more;
        } else {
            return None;
        }
    }
    Some(bytes)
}

/// Lines that are written each with its end read back, and so do texts, escaped or plain.
pub fn what_is_written_reads_back()
    ensures lines { (lines : List (List ℕ)) → AreLines lines → lines_of (ended_lines lines) ≡ lines }
    ensures escaped { (bytes : List ℕ) → AreByteValues bytes → text_of (escapes bytes) ≡ Some bytes }
    ensures plain { (bytes : List ℕ) → ArePlain bytes → text_of bytes ≡ Some bytes }
{}
