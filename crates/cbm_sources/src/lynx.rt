//! A Lynx archive.
ghost use Rattle.std.specs.Prelude.{◌≡◌, ◌≤◌, ◌<◌, ◌^◌, ◌↔◌, ◌⊎◌, length, slice_get, IfOk, IfSome, IsSome, MatchResult, Some, Ok, Err};
ghost use Rattle.cbm_sources.specs.Lynxes.{lynx_header, side_blocks, piece_of, member_entry, members_in, members_of, piece_told, text_missing, lynx_told, lynx_file};

use crate::fault::Fault;
use crate::lines::{Header, Member, header_of, is_relative, member_at};
use cbm_directory::Entry;
use cbm_medium::Link;
use std::alloc::{AllocError, Global};
use std::marker::Model;

/// The bytes of a file in a block of a disk.
const BLOCK: usize = 254;

/// The blocks that a side sector names, and itself.
const SIDE: usize = 121;

/// The longest name.
const NAME: usize = 16;

/// Where a file's bytes stand in the archive, and how many there are.
#[derive(Clone, Copy, Drop)]
pub(crate) struct Piece {
    start: usize,
    size: usize,
}

/// What can be read of an archive's directory.
#[derive(Drop)]
pub(crate) struct Found {
    entries: Vec<Entry>,
    pieces: Vec<Piece>,
    // Where it can't be read any more.
    broken: Option<usize>,
}

/// A Lynx archive, and what can be read of its directory.
#[derive(Drop)]
pub struct Lynx<'a> {
    bytes: &'a [u8],
    found: Found,
}

impl<'a> Model for Lynx<'a> {
    ghost use Rattle.std.specs.Prelude.{◌≡◌, List, ℕ};
    ghost use Rattle.cbm_sources.specs.Lynxes.{members_of};

    ghost Value = { List ℕ };

    ghost view = { λ l. l.bytes.now };

    ghost invariant = { λ l. members_of l.bytes.now
        ≡ (record { entries = l.found.entries.items; pieces = l.found.pieces.items; broken = l.found.broken }) };
}

/// How many side sectors come before the data of a relative file: each names 120 blocks.
fn side_blocks(member: Member) -> usize
    ensures value { result ≡ side_blocks member }
    ensures small { result ≤ member.blocks }
{
    if is_relative(member.kind) {
        (member.blocks as usize + SIDE - 1) / SIDE
    } else {
        0
    }
}

/// Where a file's bytes stand, whose blocks begin at a place.
fn piece_of(start: usize, member: Member) -> Piece
    requires { start < 2 ^ 48 }
    ensures { result ≡ piece_of start member }
{
    let side = side_blocks(member);
    let blocks = member.blocks as usize - side;
    let last = (member.last as usize).min(255).saturating_sub(1);
    let size = if blocks == 0 {
        0
    } else {
        BLOCK * (blocks - 1) + last
    };
    Piece {
        start: start + BLOCK * side,
        size,
    }
}

/// A closed file's entry.
fn entry(bytes: &[u8], member: Member) -> Entry
    requires order { member.name_from ≤ member.name_to }
    requires inside { member.name_to < length bytes.now }
    ensures { result ≡ member_entry bytes.now member }
{
    let name = &bytes[member.name_from..member.name_to];
    let short = &name[..name.len().min(NAME)];
    let nowhere = Link::new(0, 0);
    Entry::fresh(member.kind, short, nowhere).closed(nowhere, member.blocks)
}

/// The files of a directory.
fn members_after(alloc: Global, bytes: &[u8], header: Header) -> Result<Found, AllocError>
    ensures { IfOk result (λ f. members_in bytes.now (Some header)
        ≡ (record { entries = f.entries.items; pieces = f.pieces.items; broken = f.broken })) }
{
    let mut entries = Vec::new(alloc);
    let mut pieces = Vec::new(alloc);
    let mut at = header.next;
    let mut start = BLOCK * header.blocks as usize;
    for number in 0..header.count {
        let Some(member) = member_at(bytes, at) else {
            return Ok(Found {
                entries,
                pieces,
                broken: Some(at),
            });
        };
        entries
            .push(entry(bytes, member))
            .map_err(AllocError::from)?;
        pieces
            .push(piece_of(start, member))
            .map_err(AllocError::from)?;
        at = member.next;
        start += BLOCK * member.blocks as usize;
    }
    Ok(Found {
        entries,
        pieces,
        broken: None,
    })
}

/// The files of an archive.
fn members_of(alloc: Global, bytes: &[u8]) -> Result<Found, AllocError>
    ensures { IfOk result (λ f. members_of bytes.now
        ≡ (record { entries = f.entries.items; pieces = f.pieces.items; broken = f.broken })) }
{
    match header_of(bytes) {
        Some(header) => members_after(alloc, bytes, header),
        None => Ok(Found {
            entries: Vec::new(alloc),
            pieces: Vec::new(alloc),
            broken: None,
        }),
    }
}

/// The bytes of a file.
fn bytes_of(alloc: Global, bytes: &[u8], piece: Piece) -> Result<Vec<u8>, Fault>
    ensures { MatchResult result (λ v. piece_told bytes.now piece ≡ Ok v.items)
        (λ fault. (fault ≡ Fault.Memory) ⊎ (piece_told bytes.now piece ≡ Err fault)) }
{
    if piece.start > bytes.len() || piece.size > bytes.len() - piece.start {
        return Err(Fault::Cut(piece.start));
    }
    match Vec::from_slice(alloc, &bytes[piece.start..piece.start + piece.size]) {
        Ok(file) => Ok(file),
        Err(_) => Err(Fault::Memory),
    }
}

/// Why there is no file: the directory has no more, or can't be read any more.
fn missing(broken: Option<usize>) -> Fault
    ensures { result ≡ text_missing broken }
{
    match broken {
        Some(at) => Fault::Text(at),
        None => Fault::NoFile,
    }
}

/// The bytes of the file of a number among these.
fn file_among(alloc: Global, bytes: &[u8], found: &Found, number: usize) -> Result<Vec<u8>, Fault>
    ensures { let told = lynx_told bytes.now found.now.broken (slice_get found.now.pieces.items number) in
        MatchResult result (λ v. told ≡ Ok v.items) (λ fault. (fault ≡ Fault.Memory) ⊎ (told ≡ Err fault)) }
{
    match found.pieces.as_slice().get(number) {
        Some(piece) => bytes_of(alloc, bytes, *piece),
        None => Err(missing(found.broken)),
    }
}

impl<'a> Lynx<'a> {
    /// The archive of these bytes, None if they are none. The one error is want of memory.
    pub fn of(alloc: Global, bytes: &'a [u8]) -> Result<Option<Lynx<'a>>, AllocError>
        ensures some { IfOk result (λ o. IfSome o (λ l. l ≡ bytes.now)) }
        ensures is { IfOk result (λ o. IsSome o ↔ IsSome (lynx_header bytes.now)) }
    {
        if header_of(bytes).is_none() {
            return Ok(None);
        }
        let found = members_of(alloc, bytes)?;
        Ok(Some(Lynx { bytes, found }))
    }

    /// Its files' entries, and the place where its directory can't be read any more. The one error is want of memory.
    pub fn entries(&self, alloc: Global) -> Result<(Vec<Entry>, Option<usize>), AllocError>
        ensures { let m = members_of self.now in IfOk result (λ r. (r.0.items ≡ m.entries) × (r.1 ≡ m.broken)) }
    {
        let Found {
            entries,
            pieces: _,
            broken,
        } = members_of(alloc, self.bytes)?;
        Ok((entries, broken))
    }

    /// The bytes of the file of a number.
    pub fn file(&self, alloc: Global, number: usize) -> Result<Vec<u8>, Fault>
        ensures { MatchResult result (λ v. lynx_file self.now number ≡ Ok v.items)
            (λ fault. (fault ≡ Fault.Memory) ⊎ (lynx_file self.now number ≡ Err fault)) }
    {
        file_among(alloc, self.bytes, &self.found, number)
    }
}
