//! What a change does to a disk, file by file.
use cbm_shell::ShellFault;
use cbm_volume::Entry;
use disk_basics::calls::info;
use disk_facts::type_of;
use std::alloc::{AllocError, Global};

/// The entries of a disk before a change and after it.
#[derive(Clone, Copy)]
pub struct Both<'e> {
    /// Those before.
    pub old: &'e [Entry],
    /// Those after.
    pub new: &'e [Entry],
}

/// What becomes of a file.
#[derive(Clone, Copy)]
pub enum Becoming<'e> {
    /// It comes.
    Added,
    /// It goes.
    Deleted,
    /// It gets the name of this entry.
    Renamed(&'e Entry),
    /// It is locked.
    Locked,
    /// It is freed.
    Unlocked,
    /// It gets another type.
    Retyped,
    /// It gets other blocks.
    Rewritten,
}

/// What becomes of one file.
#[derive(Clone, Copy)]
pub struct Step<'e> {
    /// Its slot.
    pub slot: usize,
    /// Its entry: that before, where it goes or gets another name.
    pub entry: &'e Entry,
    /// What becomes of it.
    pub becoming: Becoming<'e>,
}

/// What a change does to a disk.
#[derive(Drop)]
pub struct Shown<'e> {
    /// What becomes of files, in the order of their slots.
    pub steps: Vec<Step<'e>>,
    /// How many files get another place in the directory.
    pub moved: usize,
    /// The title is another one.
    pub has_title: bool,
    /// The id is another one.
    pub has_id: bool,
}

/// Whether an entry stands in a directory, byte for byte.
fn stands_in(entries: &[Entry], entry: &Entry) -> bool {
    for other in entries {
        if other.bytes().as_slice() == entry.bytes().as_slice() {
            return true;
        }
    }
    false
}

/// The entry of a slot, if it has a file, and this directory doesn't have it, too.
fn lone<'e>(entries: &'e [Entry], slot: usize, others: &[Entry]) -> Option<&'e Entry> {
    match entries.get(slot) {
        Some(entry) if !entry.is_empty() && !stands_in(others, entry) => Some(entry),
        _ => None,
    }
}

/// Whether a slot had a file, and has another one.
fn is_left(both: Both<'_>, slot: usize) -> bool {
    match (both.old.get(slot), both.new.get(slot)) {
        (Some(old), Some(new)) => !old.is_empty()
            && old.bytes().as_slice() != new.bytes().as_slice(),
        _ => false,
    }
}

impl<'e> Shown<'e> {
    /// Adds what becomes of a file.
    fn add(
        &mut self,
        slot: usize,
        entry: &'e Entry,
        becoming: Becoming<'e>,
    ) -> Result<(), AllocError> {
        let step = Step {
            slot,
            entry,
            becoming,
        };
        self.steps.push(step).map_err(AllocError::from)
    }

    /// Adds what differs between two entries of one slot.
    fn add_pair(&mut self, slot: usize, old: &'e Entry, new: &'e Entry) -> Result<(), AllocError> {
        if old.name() != new.name() {
            self.add(slot, old, Becoming::Renamed(new))?;
        }
        if old.is_locked() != new.is_locked() {
            let becoming = if new.is_locked() {
                Becoming::Locked
            } else {
                Becoming::Unlocked
            };
            self.add(slot, new, becoming)?;
        }
        if type_of(old) != type_of(new) {
            self.add(slot, new, Becoming::Retyped)?;
        }
        if old.first_block() != new.first_block() || old.blocks() != new.blocks() {
            self.add(slot, new, Becoming::Rewritten)?;
        }
        Ok(())
    }

    /// Adds what becomes of the file of a slot, or counts it, if it gets another slot.
    fn add_slot(&mut self, both: Both<'e>, slot: usize) -> Result<(), AllocError> {
        match (
            lone(both.old, slot, both.new),
            lone(both.new, slot, both.old),
        ) {
            (Some(old), Some(new)) => self.add_pair(slot, old, new),
            (Some(old), None) => self.add(slot, old, Becoming::Deleted),
            (None, Some(new)) => self.add(slot, new, Becoming::Added),
            (None, None) => {
                if is_left(both, slot) {
                    self.moved = self.moved.saturating_add(1);
                }
                Ok(())
            }
        }
    }
}

/// Whether the title is another one, and the id.
fn label_changes(alloc: Global, old: &[u8], new: &[u8]) -> Result<(bool, bool), ShellFault> {
    let (Some(before), Some(after)) = (info(alloc, old)?.label, info(alloc, new)?.label) else {
        return Ok((false, false));
    };
    let has_title = before.title.as_slice() != after.title.as_slice();
    let has_id = before.mark.as_slice() != after.mark.as_slice();
    Ok((has_title, has_id))
}

/// What a change does to a disk with these entries before and after. Errors: `Image`, `Memory`.
pub fn shown_of<'e>(
    alloc: Global,
    both: Both<'e>,
    old: &[u8],
    new: &[u8],
) -> Result<Shown<'e>, ShellFault> {
    let (has_title, has_id) = label_changes(alloc, old, new)?;
    let mut shown = Shown {
        steps: Vec::new(alloc),
        moved: 0,
        has_title,
        has_id,
    };
    for slot in 0..both.new.len() {
        shown.add_slot(both, slot)?;
    }
    Ok(shown)
}
