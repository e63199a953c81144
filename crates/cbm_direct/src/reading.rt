//! Reading the text of a command of direct access.
ghost use Rattle.std.specs.Prelude.{◌≡◌, option_map};
ghost use Rattle.cbm_command.specs.Commands.{command_of};
ghost use Rattle.cbm_machine.specs.Calls.{without_return};
ghost use Rattle.cbm_direct.specs.Asking.{behind_byte, behind_number, first_number, numbers_of, block_in, on_block, sector_in, on_sector, place_from, start_asked, user_asked, block_asked, memory_read, memory_asked, asked_in, is_of_whole_disk, asks_validate, command_asked};
ghost use Rattle.cbm_direct.specs.Spared.{keeps_geos};
ghost use Rattle.cbm_direct.specs.Vouching.{access_of};
ghost use Rattle.cbm_direct.specs.declared.asked.Asked.TheVariants.{Read, ReadCounted, Write, WriteCounted, Allocate, Free};

use crate::asked::{Asked, Block, Sector};
use crate::numbers::{behind_number, first_number};
use crate::vouched::Vouched;
use cbm_command::{Command, parse_command};
use cbm_medium::Medium;

/// The text behind the first such byte.
fn behind_byte(byte: u8, text: &[u8]) -> Option<&[u8]>
    ensures { option_map (λ rest. rest.now) result ≡ behind_byte byte text.now }
{
    match text.split_first() {
        None => None,
        Some((first, rest)) => {
            if *first == byte {
                Some(rest)
            } else {
                behind_byte(byte, rest)
            }
        }
    }
}

/// Where the numbers of a command begin: behind its colon, or if it has none behind this many bytes.
fn numbers_of(bytes: usize, text: &[u8]) -> &[u8]
    ensures { result.now ≡ numbers_of bytes text.now }
{
    match behind_byte(b':', text) {
        Some(rest) => rest,
        None => &text[bytes.min(text.len())..],
    }
}

/// The four numbers of a command on a sector.
fn block_in(text: &[u8]) -> Option<Block>
    ensures { result ≡ block_in text.now }
{
    let second = behind_number(text);
    let third = behind_number(second);
    match (
        first_number(text),
        first_number(second),
        first_number(third),
        first_number(behind_number(third)),
    ) {
        (Some(channel), Some(drive), Some(track), Some(sector)) => Some(Block {
            channel,
            drive,
            track,
            sector,
        }),
        _ => None,
    }
}

/// The three numbers of a command on a sector without a channel.
fn sector_in(text: &[u8]) -> Option<Sector>
    ensures { result ≡ sector_in text.now }
{
    let second = behind_number(text);
    match (
        first_number(text),
        first_number(second),
        first_number(behind_number(second)),
    ) {
        (Some(drive), Some(track), Some(sector)) => Some(Sector {
            drive,
            track,
            sector,
        }),
        _ => None,
    }
}

/// U1 or UA: the sector that is to be read.
fn read_asked(text: &[u8]) -> Asked
    ensures { result ≡ on_block Read (block_in text.now) }
{
    match block_in(text) {
        None => Asked::Unread,
        Some(block) => Asked::Read(block),
    }
}

/// B-R: the same.
fn counted_asked(text: &[u8]) -> Asked
    ensures { result ≡ on_block ReadCounted (block_in text.now) }
{
    match block_in(text) {
        None => Asked::Unread,
        Some(block) => Asked::ReadCounted(block),
    }
}

/// U2 or UB: the sector that is to be written.
fn write_asked(text: &[u8]) -> Asked
    ensures { result ≡ on_block Write (block_in text.now) }
{
    match block_in(text) {
        None => Asked::Unread,
        Some(block) => Asked::Write(block),
    }
}

/// B-W: the same.
fn counted_write_asked(text: &[u8]) -> Asked
    ensures { result ≡ on_block WriteCounted (block_in text.now) }
{
    match block_in(text) {
        None => Asked::Unread,
        Some(block) => Asked::WriteCounted(block),
    }
}

/// B-A: the sector that is to be claimed.
fn allocate_asked(text: &[u8]) -> Asked
    ensures { result ≡ on_sector Allocate (sector_in text.now) }
{
    match sector_in(text) {
        None => Asked::Unread,
        Some(sector) => Asked::Allocate(sector),
    }
}

/// B-F: the sector that is to be given back.
fn free_asked(text: &[u8]) -> Asked
    ensures { result ≡ on_sector Free (sector_in text.now) }
{
    match sector_in(text) {
        None => Asked::Unread,
        Some(sector) => Asked::Free(sector),
    }
}

/// B-P: a channel and a place.
fn seek_asked(text: &[u8]) -> Asked
    ensures { result ≡ place_from (first_number text.now) (first_number (behind_number text.now)) }
{
    match (first_number(text), first_number(behind_number(text))) {
        (Some(channel), Some(place)) => Asked::Seek(channel, place),
        _ => Asked::Unread,
    }
}

/// UI and U9, by what follows: the drive starts again, or with a plus or a minus nothing happens.
fn start_asked(text: &[u8]) -> Asked
    ensures { result ≡ start_asked text.now }
{
    match text.first() {
        Some(b'+') | Some(b'-') => Asked::Nothing,
        _ => Asked::Restart,
    }
}

/// U and a letter, with what follows.
fn user_asked(letter: u8, text: &[u8]) -> Option<Asked>
    ensures { result ≡ user_asked letter text.now }
{
    match letter {
        b'1' | b'A' => Some(read_asked(numbers_of(1, text))),
        b'2' | b'B' => Some(write_asked(numbers_of(1, text))),
        b'J' | b':' => Some(Asked::Restart),
        b'I' | b'9' => Some(start_asked(text)),
        _ => None,
    }
}

/// B and a letter behind a dash.
fn block_asked(text: &[u8], behind_dash: &[u8]) -> Option<Asked>
    ensures { result ≡ block_asked text.now behind_dash.now }
{
    match behind_dash.first() {
        Some(b'R') => Some(counted_asked(numbers_of(2, text))),
        Some(b'W') => Some(counted_write_asked(numbers_of(2, text))),
        Some(b'A') => Some(allocate_asked(numbers_of(2, text))),
        Some(b'F') => Some(free_asked(numbers_of(2, text))),
        Some(b'P') => Some(seek_asked(numbers_of(2, text))),
        _ => None,
    }
}

/// What M-R reads: an address, low byte first, and a count.
fn memory_read(text: &[u8]) -> Asked
    ensures { result ≡ memory_read text.now }
{
    let [low, high, rest @ ..] = text else {
        return Asked::Unread;
    };
    let address = u16::from(*low) + 256 * u16::from(*high);
    let count = rest.first().copied().unwrap_or(0);
    Asked::Memory(address, count.max(1))
}

/// M-R, and what it reads.
fn memory_asked(text: &[u8]) -> Option<Asked>
    ensures { result ≡ memory_asked text.now }
{
    let [dash, letter, rest @ ..] = text else {
        return None;
    };
    if *dash == b'-' && *letter == b'R' {
        return Some(memory_read(rest));
    }
    None
}

/// What the text of a command, without the return at its end, asks of direct access; None if it is for the DOS.
pub fn asked_by(text: &[u8]) -> Option<Asked>
    ensures { result ≡ asked_in text.now }
{
    let (letter, rest) = text.split_first()?;
    match *letter {
        b'B' => block_asked(rest, behind_byte(b'-', rest)?),
        b'M' => memory_asked(rest),
        b'U' => {
            let (second, rest) = rest.split_first()?;
            user_asked(*second, rest)
        }
        _ => None,
    }
}

/// A text without one return at its end.
fn without_return(text: &[u8]) -> &[u8]
    ensures { result.now ≡ without_return text.now }
{
    match text.split_last() {
        None => text,
        Some((last, front)) => { if *last == b'\r' { front } else { text } }
    }
}

/// Whether a command is about the whole disk, as N and V are.
fn is_of_whole_disk(text: &[u8]) -> bool
    ensures { result ≡ is_of_whole_disk (command_of text.now) }
{
    matches!(
        parse_command(text),
        Ok(Command::New(..) | Command::Validate)
    )
}

/// Whether a command is V.
fn asks_validate(text: &[u8]) -> bool
    ensures { result ≡ asks_validate (command_of text.now) }
{
    matches!(parse_command(text), Ok(Command::Validate))
}

/// What the text of a command asks of direct access while so many channels have buffers, without one return at its end; None if it is
/// for the DOS, as one of more than 58 bytes is.
pub(crate) fn command_asked<M: Medium>(
    vouched: &Vouched<M>,
    buffers: usize,
    text: &[u8],
) -> Option<Asked>
    ensures { result ≡ command_asked (keeps_geos (access_of vouched.now.vouch) (M.seen vouched.now.dos.medium)) buffers text.now }
{
    let text = without_return(text);
    if text.len() > 58 {
        return None;
    }
    if buffers > 0 && is_of_whole_disk(text) {
        return Some(Asked::Held);
    }
    if asks_validate(text) && vouched.keeps_geos() {
        return Some(Asked::Denied);
    }
    asked_by(text)
}
