//! Files of the same names.
use cbm_volume::Entry;
use std::alloc::{AllocError, Global};

/// Two files of one name, by their slots.
#[derive(Clone, Copy)]
pub struct Pair {
    /// That of the first disk.
    pub first: usize,
    /// That of the second.
    pub second: usize,
}

/// The files of two directories, by their slots. Of several files of one name the earlier ones are paired first.
#[derive(Drop)]
pub struct Pairs {
    /// Those of both, as the first has them.
    pub both: Vec<Pair>,
    /// Those of the first alone.
    pub first: Vec<usize>,
    /// Those of the second alone.
    pub second: Vec<usize>,
}

/// Whether an entry is that of a file of a name.
fn has_name(entry: &Entry, name: &[u8]) -> bool {
    !entry.is_empty() && entry.name() == name
}

/// How many of these entries are those of files of a name.
fn count_named(entries: &[Entry], name: &[u8]) -> usize {
    let mut count: usize = 0;
    for entry in entries {
        if has_name(entry, name) {
            count = count.saturating_add(1);
        }
    }
    count
}

/// The slot of a file of a name, before which so many others of that name come.
fn slot_after(entries: &[Entry], name: &[u8], before: usize) -> Option<usize> {
    let mut left = before;
    for (slot, entry) in entries.iter().enumerate() {
        if has_name(entry, name) {
            if left == 0 {
                return Some(slot);
            }
            left = left.saturating_sub(1);
        }
    }
    None
}

/// The slot among other entries of the file that goes with one of these.
fn partner(entries: &[Entry], slot: usize, others: &[Entry]) -> Option<usize> {
    let entry = entries.get(slot)?;
    let earlier = entries.get(..slot).unwrap_or(&[]);
    let before = count_named(earlier, entry.name());
    slot_after(others, entry.name(), before)
}

/// Adds the file of a slot of the first directory.
fn add_first(
    pairs: &mut Pairs,
    entries: &[Entry],
    slot: usize,
    others: &[Entry],
) -> Result<(), AllocError> {
    match partner(entries, slot, others) {
        Some(second) => pairs
            .both
            .push(Pair {
                first: slot,
                second,
            })
            .map_err(AllocError::from),
        None => pairs.first.push(slot).map_err(AllocError::from),
    }
}

/// Pairs the files of two directories. The one error is want of memory.
pub fn pairs_of(alloc: Global, first: &[Entry], second: &[Entry]) -> Result<Pairs, AllocError> {
    let mut pairs = Pairs {
        both: Vec::new(alloc),
        first: Vec::new(alloc),
        second: Vec::new(alloc),
    };
    for (slot, entry) in first.iter().enumerate() {
        if !entry.is_empty() {
            add_first(&mut pairs, first, slot, second)?;
        }
    }
    for (slot, entry) in second.iter().enumerate() {
        if !entry.is_empty() && partner(second, slot, first).is_none() {
            pairs.second.push(slot).map_err(AllocError::from)?;
        }
    }
    Ok(pairs)
}
