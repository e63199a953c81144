//! Reading the text of an OPEN.

ghost use Rattle.std.specs.Prelude.{◌≡◌, ◌≤◌, ℕ, List, true};
ghost use Rattle.cbm_file.specs.declared.file_type.FileType.{FileType};
ghost use Rattle.cbm_command.specs.declared.opening.Mode.{Mode};
ghost use Rattle.cbm_command.specs.Spelling.{IsPlain, spelled, holds_bytes, usual_file};
ghost use Rattle.cbm_command.specs.Texts.{comma, parts_at};
ghost use Rattle.cbm_command.specs.Openings.{pattern_asked, listing_asked, with_piece, with_pieces, set_kind, set_mode, is_length_piece, by_channel, default_kind, or_default, is_named_whole, file_named, file_asked, headed_file, by_first, opening_of};

use crate::head::{at_in_head, drive_head};
use crate::name::Name;
use crate::opening::{Mode, Opening, Wanted};
use crate::refusal::Refusal;
use crate::text::{after_the_first, before_first, contains, first_or_zero};
use cbm_file::FileType;

/// The most bytes of a text.
pub(crate) const LONGEST: usize = 58;

/// One pattern, and nothing after it.
fn pattern_asked(text: &[u8]) -> Result<Opening, Refusal>
    ensures { result ≡ pattern_asked text.now }
{
    if Name::of(before_first(b',', text)).is_empty() {
        return Err(Refusal::NoName);
    }
    if contains(b',', text) || contains(b'=', text) {
        return Err(Refusal::Syntax);
    }
    Ok(Opening::Listing(Name::of(text)))
}

/// What follows `$`.
fn listing_asked(text: &[u8]) -> Result<Opening, Refusal>
    ensures { result ≡ listing_asked text.now }
{
    drive_head(before_first(b':', text))?;
    if contains(b':', text) {
        pattern_asked(after_the_first(b':', text))
    } else {
        Ok(Opening::Listing(Name::of(b"*")))
    }
}

fn of_kind(kind: FileType, wanted: Wanted) -> Wanted
    ensures { result ≡ set_kind kind wanted }
{
    Wanted {
        kind: Some(kind),
        ..wanted
    }
}

fn in_mode(mode: Mode, wanted: Wanted) -> Wanted
    ensures { result ≡ set_mode mode wanted }
{
    Wanted { mode, ..wanted }
}

/// What a piece adds: a type or a mode.
fn with_piece(piece: &[u8], wanted: Wanted) -> Result<Wanted, Refusal>
    ensures { result ≡ with_piece piece.now wanted }
{
    let Some((byte, _)) = piece.split_first() else {
        return Err(Refusal::Syntax);
    };
    match *byte {
        b'P' => Ok(of_kind(FileType::Prg, wanted)),
        b'S' => Ok(of_kind(FileType::Seq, wanted)),
        b'U' => Ok(of_kind(FileType::Usr, wanted)),
        b'L' => Ok(of_kind(FileType::Rel, wanted)),
        b'R' | b'M' => Ok(in_mode(Mode::Read, wanted)),
        b'W' => Ok(in_mode(Mode::Write, wanted)),
        b'A' => Ok(in_mode(Mode::Append, wanted)),
        _ => Err(Refusal::Syntax),
    }
}

fn is_length_piece(piece: &[u8]) -> bool
    ensures { result ≡ is_length_piece piece.now }
{
    first_or_zero(piece) == b'L'
}

/// The pieces in order. The record length is read from the text, as it may be a comma.
#[tactic(auto, using(crate::proofs::Pieces::pieces_refused, crate::proofs::Pieces::pieces_length, crate::proofs::Pieces::pieces_more, crate::proofs::Pieces::pieces_end))]
fn with_pieces(text: &[u8], wanted: Wanted) -> Result<Wanted, Refusal>
    ensures { result ≡ with_pieces (parts_at comma text.now) wanted }
{
    let piece = before_first(b',', text);
    let wanted = with_piece(piece, wanted)?;
    if is_length_piece(piece) {
        let record_length = first_or_zero(after_the_first(b',', text));
        return Ok(Wanted {
            record_length,
            ..wanted
        });
    }
    if contains(b',', text) {
        with_pieces(after_the_first(b',', text), wanted)
    } else {
        Ok(wanted)
    }
}

/// Channel 0 reads and channel 1 writes, whatever mode is given.
fn by_channel(channel: u8, wanted: Wanted) -> Wanted
    ensures { result ≡ by_channel channel wanted }
{
    match channel {
        0 => in_mode(Mode::Read, wanted),
        1 => in_mode(Mode::Write, wanted),
        _ => wanted,
    }
}

/// The type that is meant if none is given.
fn default_kind(channel: u8, mode: Mode) -> Option<FileType>
    ensures { result ≡ default_kind channel mode }
{
    match mode {
        Mode::Write if channel == 1 => Some(FileType::Prg),
        Mode::Write => Some(FileType::Seq),
        Mode::Read | Mode::Append if channel == 0 => Some(FileType::Prg),
        Mode::Read | Mode::Append => None,
    }
}

fn or_default(channel: u8, wanted: Wanted) -> Wanted
    ensures { result ≡ or_default channel wanted }
{
    if wanted.kind.is_some() {
        return wanted;
    }
    let kind = default_kind(channel, wanted.mode);
    Wanted { kind, ..wanted }
}

/// The file is written, appended to or made, or may be: its name is given whole.
fn is_named_whole(wanted: &Wanted) -> bool
    ensures { result ≡ is_named_whole wanted.now }
{
    match wanted.mode {
        Mode::Write | Mode::Append => true,
        Mode::Read => wanted.kind == Some(FileType::Rel),
    }
}

fn file_named(wanted: Wanted) -> Result<Opening, Refusal>
    ensures { result ≡ file_named wanted }
{
    if is_named_whole(&wanted) && wanted.name.is_wild() {
        return Err(Refusal::WildName);
    }
    Ok(Opening::File(wanted))
}

/// A name, and the pieces after its commas.
fn file_asked(channel: u8, has_at: bool, text: &[u8]) -> Result<Opening, Refusal>
    ensures { result ≡ file_asked channel has_at text.now }
{
    let name = Name::of(before_first(b',', text));
    if name.is_empty() {
        return Err(Refusal::NoName);
    }
    let plain = Wanted {
        has_at,
        name,
        mode: Mode::Read,
        kind: None,
        record_length: 0,
    };
    if !contains(b',', text) {
        return file_named(or_default(channel, by_channel(channel, plain)));
    }
    let wanted = with_pieces(after_the_first(b',', text), plain)?;
    file_named(or_default(channel, by_channel(channel, wanted)))
}

/// Perhaps a head and its colon, which counts only before the first comma.
fn headed_file(channel: u8, text: &[u8]) -> Result<Opening, Refusal>
    ensures { result ≡ headed_file channel text.now }
{
    if !contains(b':', before_first(b',', text)) {
        return file_asked(channel, false, text);
    }
    let has_at = at_in_head(before_first(b':', text))?;
    file_asked(channel, has_at, after_the_first(b':', text))
}

/// The first byte of a text of at most 58 bytes chooses.
fn by_first(channel: u8, text: &[u8]) -> Result<Opening, Refusal>
    ensures { result ≡ by_first channel text.now }
{
    let Some((first, rest)) = text.split_first() else {
        return Err(Refusal::NoName);
    };
    match *first {
        b'#' => Err(Refusal::NoChannel),
        b'$' if channel == 0 => listing_asked(rest),
        b'$' => Err(Refusal::Syntax),
        _ => headed_file(channel, text),
    }
}

/// What the text of an OPEN on a channel from 0 to 14 asks for. The refusals are tested from left to right,
/// after the length of 58 bytes; whether a name is written is known when the whole text was read
/// (the Commodore 1541 User's Guide; the order is this project's).
pub fn parse_open(channel: u8, text: &[u8]) -> Result<Opening, Refusal>
    ensures value { result ≡ opening_of channel text.now }

    // The usual text `name,type,mode` on the channels from 2 on is read as the file that it names.
    ensures usual { (name : List ℕ) (kind : FileType) (mode : Mode) → 2 ≤ channel → IsPlain name →
        holds_bytes kind ≡ true
        → text.now ≡ spelled name kind mode → result ≡ Ok (Opening.File (usual_file name kind mode)) }
{
    if text.len() > LONGEST {
        return Err(Refusal::LongText);
    }
    by_first(channel, text)
}
