//! The lines of a Lynx archive's directory.
ghost use Rattle.std.specs.Prelude.{◌≡◌, ◌<◌, ◌≤◌, ◌+◌, ◌-◌, length, slice_index, IfSome};
ghost use Rattle.cbm_file.specs.Types.{is_same_type};
ghost use Rattle.cbm_sources.specs.Lynxes.{line_end, is_numeral, with_digit, spelled_from, number_line, type_of_letter, kind_line, ends_program, text_start, is_numeric, number_end, is_word, is_signature, lynx_header_at, lynx_header, last_byte_line, member_at};

use cbm_file::FileType;

/// The end of a line.
const RETURN: u8 = b'\r';

/// A number that is a line.
#[derive(Clone, Copy, Drop)]
pub(crate) struct Numbered {
    pub(crate) value: u16,
    /// Where the next line begins.
    pub(crate) next: usize,
}

/// A type whose letter begins a line.
#[derive(Clone, Copy, Drop)]
pub(crate) struct Kind {
    pub(crate) kind: FileType,
    /// Where the next line begins.
    pub(crate) next: usize,
}

/// What the first two lines say.
#[derive(Clone, Copy, Drop)]
pub(crate) struct Header {
    /// The blocks of the program and the directory.
    pub(crate) blocks: u16,
    /// The number of files.
    pub(crate) count: u16,
    /// Where the first file's lines begin.
    pub(crate) next: usize,
}

/// What a file's lines say.
#[derive(Clone, Copy, Drop)]
pub(crate) struct Member {
    /// Where its name begins and ends.
    pub(crate) name_from: usize,
    pub(crate) name_to: usize,
    pub(crate) kind: FileType,
    pub(crate) blocks: u16,
    /// The number of the last byte of its last block, where the first two are the link's.
    pub(crate) last: u16,
    /// Where the next file's lines begin.
    pub(crate) next: usize,
}

/// Where the line ends that begins at a place.
fn line_end(bytes: &[u8], at: usize) -> Option<usize>
    ensures value { result ≡ line_end bytes.now at }
    ensures inside { IfSome result (λ end. end < length bytes.now) }
    ensures order { IfSome result (λ end. at ≤ end) }
{
    for place in at..bytes.len() {
        if bytes[place] == RETURN {
            return Some(place);
        }
    }
    None
}

/// A number with one digit more; a space adds none.
fn with_digit(number: u16, byte: u8) -> Option<u16>
    ensures { result ≡ with_digit number byte }
{
    if byte == b' ' {
        return Some(number);
    }
    if !byte.is_ascii_digit() {
        return None;
    }
    u16::try_from(10 * number as u32 + (byte - b'0') as u32).ok()
}

/// The number that digits and spaces spell, below 65536.
fn number(text: &[u8]) -> Option<u16>
    ensures { result ≡ spelled_from 0 text.now }
{
    let mut number = 0;
    for byte in text {
        number = with_digit(number, *byte)?;
    }
    Some(number)
}

/// The number that is the line at a place.
fn number_line(bytes: &[u8], at: usize) -> Option<Numbered>
    ensures { result ≡ number_line bytes.now at }
{
    let end = line_end(bytes, at)?;
    let value = number(&bytes[at..end])?;
    Some(Numbered {
        value,
        next: end + 1,
    })
}

/// The type that a letter means.
fn type_of_letter(letter: u8) -> Option<FileType>
    ensures { result ≡ type_of_letter letter }
{
    match letter {
        b'D' => Some(FileType::Del),
        b'S' => Some(FileType::Seq),
        b'P' => Some(FileType::Prg),
        b'U' => Some(FileType::Usr),
        b'R' => Some(FileType::Rel),
        _ => None,
    }
}

/// The type whose letter begins the line at a place.
fn kind_line(bytes: &[u8], at: usize) -> Option<Kind>
    ensures { result ≡ kind_line bytes.now at }
{
    let end = line_end(bytes, at)?;
    let kind = type_of_letter(bytes[at])?;
    Some(Kind {
        kind,
        next: end + 1,
    })
}

/// Whether the four bytes at a place are zeros that end a program, and a carriage return.
fn ends_program(bytes: &[u8], at: usize) -> bool
    requires { at + 3 < length bytes.now }
    ensures { result ≡ ends_program bytes.now at }
{
    bytes[at] == 0 && bytes[at + 1] == 0 && bytes[at + 2] == 0 && bytes[at + 3] == RETURN
}

/// Where the directory begins: after the zeros that end the program.
fn text_start(bytes: &[u8]) -> Option<usize>
    ensures { result ≡ text_start bytes.now }
{
    for place in 0..bytes.len().saturating_sub(3) {
        if ends_program(bytes, place) {
            return Some(place + 4);
        }
    }
    None
}

/// Whether a byte is a space or a digit.
fn is_numeric(byte: u8) -> bool
    ensures { result ≡ is_numeric byte }
{
    byte == b' ' || byte.is_ascii_digit()
}

/// Where the number ends that begins a line.
fn number_end(bytes: &[u8], at: usize) -> Option<usize>
    ensures value { result ≡ number_end bytes.now at }
    ensures inside { IfSome result (λ end. end < length bytes.now) }
    ensures order { IfSome result (λ end. at ≤ end) }
{
    for place in at..bytes.len() {
        if !is_numeric(bytes[place]) {
            return Some(place);
        }
    }
    None
}

/// Whether the word LYNX stands at a place, maybe after a star.
fn is_signature(bytes: &[u8], at: usize) -> bool
    requires { at < length bytes.now }
    ensures { result ≡ is_signature bytes.now at }
{
    let word = if bytes[at] == b'*' { at + 1 } else { at };
    bytes[word..].starts_with(b"LYNX")
}

/// What the lines at a place say first.
fn header_at(bytes: &[u8], at: usize) -> Option<Header>
    ensures { result ≡ lynx_header_at bytes.now at }
{
    let stop = number_end(bytes, at)?;
    if !is_signature(bytes, stop) {
        return None;
    }
    let blocks = number(&bytes[at..stop])?;
    let end = line_end(bytes, stop)?;
    let count = number_line(bytes, end + 1)?;
    Some(Header {
        blocks,
        count: count.value,
        next: count.next,
    })
}

/// What an archive's directory says first; None if the bytes are no Lynx archive.
pub(crate) fn header_of(bytes: &[u8]) -> Option<Header>
    ensures { result ≡ lynx_header bytes.now }
{
    header_at(bytes, text_start(bytes)?)
}

/// Whether a file is relative.
pub(crate) fn is_relative(kind: FileType) -> bool
    ensures { result ≡ is_same_type kind FileType.Rel }
{
    matches!(kind, FileType::Rel)
}

/// The number of the last byte, in the lines after a file's type: a relative file has a line before it, with the length of its
/// records.
fn last_line(bytes: &[u8], kind: Kind) -> Option<Numbered>
    ensures { result ≡ last_byte_line bytes.now kind }
{
    if !is_relative(kind.kind) {
        return number_line(bytes, kind.next);
    }
    let width = number_line(bytes, kind.next)?;
    number_line(bytes, width.next)
}

/// What the lines of a file say that begin at a place.
pub(crate) fn member_at(bytes: &[u8], at: usize) -> Option<Member>
    ensures value { result ≡ member_at bytes.now at }
    ensures order { IfSome result (λ m. m.name_from ≤ m.name_to) }
    ensures inside { IfSome result (λ m. m.name_to < length bytes.now) }
{
    let name_to = line_end(bytes, at)?;
    let blocks = number_line(bytes, name_to + 1)?;
    let kind = kind_line(bytes, blocks.next)?;
    let last = last_line(bytes, kind)?;
    Some(Member {
        name_from: at,
        name_to,
        kind: kind.kind,
        blocks: blocks.value,
        last: last.value,
        next: last.next,
    })
}
