//! The characters of a C64's keys.
ghost use Rattle.std.specs.Prelude.{◌≡◌};
ghost use Rattle.cbm_shell.specs.Petscii.{key_of, typed, code_of};

/// A character set of a C64.
#[derive(Clone, Copy, Debug, PartialEq, Eq)]
pub enum Charset {
    /// That of power up: capital letters and graphics.
    Upper,
    /// The other one: small letters, and capital letters by SHIFT.
    Lower,
}

/// What the tables have for a code that is written by its number, which this begins: control codes, and those that no key
/// types, as they look like others.
pub(crate) const BY_NUMBER: char = '{';

/// Codes that are all written by their numbers.
const NUMBERED: [char; 32] = ['{'; 32];

/// Codes 32 to 63 of both sets: digits and punctuation, as in ASCII.
const DIGITS: [char; 32] = [
    ' ', '!', '"', '#', '$', '%', '&', '\'', '(', ')', '*', '+', ',', '-', '.', '/', '0', '1', '2',
    '3', '4', '5', '6', '7', '8', '9', ':', ';', '<', '=', '>', '?',
];

/// Codes 64 to 95 of the set of power up: the letters.
const LETTERS: [char; 32] = [
    '@', 'A', 'B', 'C', 'D', 'E', 'F', 'G', 'H', 'I', 'J', 'K', 'L', 'M', 'N', 'O', 'P', 'Q', 'R',
    'S', 'T', 'U', 'V', 'W', 'X', 'Y', 'Z', '[', '£', ']', '↑', '←',
];

/// Codes 192 to 223 of the set of power up: lines and suits.
const LINES: [char; 32] = [
    '─',
    '♠',
    '\u{1fb72}',
    '\u{1fb78}',
    '\u{1fb77}',
    '\u{1fb76}',
    '\u{1fb7a}',
    '\u{1fb71}',
    '\u{1fb74}',
    '╮',
    '╰',
    '╯',
    '\u{1fb7c}',
    '╲',
    '╱',
    '\u{1fb7d}',
    '\u{1fb7e}',
    '●',
    '\u{1fb7b}',
    '♥',
    '\u{1fb70}',
    '╭',
    '╳',
    '○',
    '♣',
    '\u{1fb75}',
    '♦',
    '┼',
    '\u{1fb8c}',
    '│',
    'π',
    '◥',
];

/// Codes 160 to 191 of the set of power up: blocks. The first is the space that is typed with SHIFT.
const BLOCKS: [char; 32] = [
    '{',
    '▌',
    '▄',
    '▔',
    '▁',
    '▏',
    '▒',
    '▕',
    '\u{1fb8f}',
    '◤',
    '\u{1fb87}',
    '├',
    '▗',
    '└',
    '┐',
    '▂',
    '┌',
    '┴',
    '┬',
    '┤',
    '▎',
    '▍',
    '\u{1fb88}',
    '\u{1fb82}',
    '\u{1fb83}',
    '▃',
    '\u{1fb7f}',
    '▖',
    '▝',
    '┘',
    '▘',
    '▚',
];

/// Codes 64 to 95 of the set with small letters: these.
const SMALL: [char; 32] = [
    '@', 'a', 'b', 'c', 'd', 'e', 'f', 'g', 'h', 'i', 'j', 'k', 'l', 'm', 'n', 'o', 'p', 'q', 'r',
    's', 't', 'u', 'v', 'w', 'x', 'y', 'z', '[', '£', ']', '↑', '←',
];

/// Codes 160 to 191 of the set with small letters: blocks, a fill and a check mark.
const FILLS: [char; 32] = [
    '{',
    '▌',
    '▄',
    '▔',
    '▁',
    '▏',
    '▒',
    '▕',
    '\u{1fb8f}',
    '\u{1fb99}',
    '\u{1fb87}',
    '├',
    '▗',
    '└',
    '┐',
    '▂',
    '┌',
    '┴',
    '┬',
    '┤',
    '▎',
    '▍',
    '\u{1fb88}',
    '\u{1fb82}',
    '\u{1fb83}',
    '▃',
    '✓',
    '▖',
    '▝',
    '┘',
    '▘',
    '▚',
];

/// Codes 192 to 223 of the set with small letters: the capital letters, lines and fills.
const CAPITALS: [char; 32] = [
    '─',
    'A',
    'B',
    'C',
    'D',
    'E',
    'F',
    'G',
    'H',
    'I',
    'J',
    'K',
    'L',
    'M',
    'N',
    'O',
    'P',
    'Q',
    'R',
    'S',
    'T',
    'U',
    'V',
    'W',
    'X',
    'Y',
    'Z',
    '┼',
    '\u{1fb8c}',
    '│',
    '\u{1fb96}',
    '\u{1fb98}',
];

/// The characters of the PETSCII codes, 32 by 32, as a C64 shows them at power up (Unicode, "Symbols for Legacy Computing",
/// the mapping of the C64's primary set). Of codes that look alike that of the key has the character.
pub const TABLE: [[char; 32]; 8] = [
    NUMBERED, DIGITS, LETTERS, NUMBERED, NUMBERED, BLOCKS, LINES, NUMBERED,
];

/// The same in the set with small letters (the mapping of the alternate set).
pub const LOWER_TABLE: [[char; 32]; 8] = [
    NUMBERED, DIGITS, SMALL, NUMBERED, NUMBERED, FILLS, CAPITALS, NUMBERED,
];

/// How many codes there are.
const CODES: u16 = 256;

/// The character of the key that types a code; `{` where the code is written by its number.
#[tactic(auto, unfolding(crate::specs::Petscii::key_of))]
pub fn key_of(charset: Charset, code: u8) -> char
    ensures { result ≡ key_of charset code }
{
    match charset {
        Charset::Upper => TABLE[code as usize / 32][code as usize % 32],
        Charset::Lower => LOWER_TABLE[code as usize / 32][code as usize % 32],
    }
}

/// The character of the key that is meant by a character that is typed: at power up small letters are letters, too, and `_`
/// is the line at the foot of its cell.
fn typed(charset: Charset, shown: char) -> char
    ensures { result ≡ typed charset shown }
{
    if shown == '_' {
        return '▁';
    }
    match charset {
        Charset::Upper => shown.to_ascii_uppercase(),
        Charset::Lower => shown,
    }
}

/// The code of the key that types a character; None where no key does.
pub fn code_of(charset: Charset, shown: char) -> Option<u8>
    ensures { result ≡ code_of charset shown }
{
    let key = typed(charset, shown);
    for number in 0..CODES {
        let code = number as u8;
        if key_of(charset, code) == key {
            return Some(code);
        }
    }
    None
}
