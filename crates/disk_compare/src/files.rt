//! What differs between the files of two disks.
use crate::cuts::{Read, cuts};
use crate::moved::moved;
use crate::pairs::{Pair, pairs_of};
use crate::report::{Bytes, Changed, Flags, Kinds, Lone, Numbers};
use crate::side::Side;
use cbm_shell::Salvaged;
use cbm_shell::texts::Charset;
use cbm_volume::Entry;
use disk_basics::calls::name_text;
use disk_facts::{count_files, hex, type_of};
use std::alloc::{AllocError, Global};

/// Two disks, and the character set of their names.
#[derive(Clone, Copy)]
pub struct Sides<'s> {
    /// The first.
    pub first: &'s Side,
    /// The second.
    pub second: &'s Side,
    /// How names are shown.
    pub charset: Charset,
}

/// The files that differ.
#[derive(Drop)]
pub struct Files {
    /// Those of the first disk alone.
    pub only_first: Vec<Lone>,
    /// Those of the second alone.
    pub only_second: Vec<Lone>,
    /// Those of both.
    pub both: Vec<Changed>,
}

/// The type of an entry's file.
fn kind_of(entry: &Entry) -> &'static str {
    type_of(entry).unwrap_or("unknown")
}

/// Two numbers, if they differ.
fn numbers(first: usize, second: usize) -> Option<Numbers> {
    if first == second {
        return None;
    }
    Some(Numbers { first, second })
}

/// What is so of one file alone.
fn flags(first: bool, second: bool) -> Option<Flags> {
    if first == second {
        return None;
    }
    Some(Flags { first, second })
}

/// Two types, if they differ. Unknown ones are alike.
fn kinds(first: &Entry, second: &Entry) -> Option<Kinds> {
    if kind_of(first) == kind_of(second) {
        return None;
    }
    Some(Kinds {
        first: kind_of(first),
        second: kind_of(second),
    })
}

/// The length of an entry's records, 0 of a file that has none.
fn record_of(entry: &Entry) -> usize {
    if entry.is_relative() {
        usize::from(entry.record_length())
    } else {
        0
    }
}

/// How many bytes two files begin with alike.
fn common(first: &[u8], second: &[u8]) -> usize {
    let mut count: usize = 0;
    for (one, other) in first.iter().zip(second.iter()) {
        if one != other {
            return count;
        }
        count = count.saturating_add(1);
    }
    count
}

/// Two files' bytes, if they differ.
fn bytes(first: &[u8], second: &[u8]) -> Option<Bytes> {
    if first == second {
        return None;
    }
    Some(Bytes {
        first: first.len(),
        second: second.len(),
        from: common(first, second),
    })
}

/// How much was read of a file.
fn read_of(salvaged: &Salvaged) -> Read {
    Read {
        count: salvaged.bytes.len(),
        trouble: salvaged.trouble,
    }
}

/// The places of a pair among the files of each directory, from 1 on.
fn places(sides: Sides<'_>, pair: Pair) -> Numbers {
    let before = sides
        .first
        .listed
        .entries
        .as_slice()
        .get(..pair.first)
        .unwrap_or(&[]);
    let others = sides
        .second
        .listed
        .entries
        .as_slice()
        .get(..pair.second)
        .unwrap_or(&[]);
    Numbers {
        first: count_files(before).saturating_add(1),
        second: count_files(others).saturating_add(1),
    }
}

/// What differs between the entries of two files; their bytes are compared elsewhere.
fn entries_changed(
    alloc: Global,
    sides: Sides<'_>,
    pair: Pair,
    first: &Entry,
    second: &Entry,
) -> Result<Changed, AllocError> {
    Ok(Changed {
        name: name_text(alloc, sides.charset, first.name())?,
        petscii: hex(alloc, first.name())?,
        slots: Numbers {
            first: pair.first,
            second: pair.second,
        },
        bytes: None,
        kind: kinds(first, second),
        locked: flags(first.is_locked(), second.is_locked()),
        closed: flags(first.is_closed(), second.is_closed()),
        blocks: numbers(usize::from(first.blocks()), usize::from(second.blocks())),
        record: numbers(record_of(first), record_of(second)),
        place: None,
        cut: None,
    })
}

/// What differs between two files of one name.
fn changed(
    alloc: Global,
    sides: Sides<'_>,
    pair: Pair,
    first: &Entry,
    second: &Entry,
) -> Result<Changed, AllocError> {
    let one = sides.first.disk.salvage(alloc, first)?;
    let other = sides.second.disk.salvage(alloc, second)?;
    let mut changed = entries_changed(alloc, sides, pair, first, second)?;
    changed.bytes = bytes(one.bytes.as_slice(), other.bytes.as_slice());
    changed.cut = cuts(alloc, read_of(&one), read_of(&other))?;
    Ok(changed)
}

/// Adds two files of one name, if they differ or can't be read to their ends.
fn add_changed(
    alloc: Global,
    files: &mut Vec<Changed>,
    sides: Sides<'_>,
    pair: Pair,
    has_moved: bool,
) -> Result<(), AllocError> {
    let first = sides.first.listed.entries.as_slice().get(pair.first);
    let second = sides.second.listed.entries.as_slice().get(pair.second);
    let (Some(first), Some(second)) = (first, second) else {
        return Ok(());
    };
    let mut changed = changed(alloc, sides, pair, first, second)?;
    if has_moved {
        changed.place = Some(places(sides, pair));
    }
    if changed.differ() || changed.cut.is_some() {
        files.push(changed).map_err(AllocError::from)?;
    }
    Ok(())
}

/// The files of both disks that differ.
fn changed_among(
    alloc: Global,
    sides: Sides<'_>,
    pairs: &[Pair],
) -> Result<Vec<Changed>, AllocError> {
    let moved = moved(alloc, pairs)?;
    let mut files = Vec::new(alloc);
    for (pair, has_moved) in pairs.iter().zip(moved.as_slice().iter()) {
        add_changed(alloc, &mut files, sides, *pair, *has_moved)?;
    }
    Ok(files)
}

/// A file of one disk alone.
fn lone(alloc: Global, charset: Charset, slot: usize, entry: &Entry) -> Result<Lone, AllocError> {
    Ok(Lone {
        slot,
        name: name_text(alloc, charset, entry.name())?,
        petscii: hex(alloc, entry.name())?,
        kind: kind_of(entry),
        blocks: entry.blocks(),
    })
}

/// The files in these slots, as files of one disk alone.
fn lones(
    alloc: Global,
    charset: Charset,
    entries: &[Entry],
    slots: &[usize],
) -> Result<Vec<Lone>, AllocError> {
    let mut files = Vec::new(alloc);
    for slot in slots {
        if let Some(entry) = entries.get(*slot) {
            files.push(lone(alloc, charset, *slot, entry)?)?;
        }
    }
    Ok(files)
}

/// The files of two disks that differ. The one error is want of memory.
pub fn files_of(alloc: Global, sides: Sides<'_>) -> Result<Files, AllocError> {
    let first = sides.first.listed.entries.as_slice();
    let second = sides.second.listed.entries.as_slice();
    let pairs = pairs_of(alloc, first, second)?;
    Ok(Files {
        only_first: lones(alloc, sides.charset, first, pairs.first.as_slice())?,
        only_second: lones(alloc, sides.charset, second, pairs.second.as_slice())?,
        both: changed_among(alloc, sides, pairs.both.as_slice())?,
    })
}
