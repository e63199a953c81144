ghost use Rattle.std.specs.Prelude.{Bool, List, ℕ, ◌≡◌, ◌≤◌, ◌<◌, ◌+◌, ◌-◌, ◌⊎◌, OnOk, IfErr, Some, [], slice_range};
ghost use Rattle.cbm_directory.specs.Slots.{Answers, Gives, IfGiven, Finds, directory_of, listed_left, most_left};

use crate::entry::Entry;
use cbm_medium::{Geometry, Link, Medium, Trouble, read_linked};
use std::marker::Model;

/// The most sectors that a directory has.
pub(crate) const MOST: u16 = 18;

/// The entries in a sector.
const ENTRIES: u8 = 8;

/// Goes through the slots of the directory in order, a sector read once for its eight.
#[derive(Drop)]
pub struct Slots {
    geometry: Geometry,
    sector: [u8; 256],
    number: u8,
    next: Link,
    left: u16,
}

impl Model for Slots {
    ghost use Rattle.std.specs.Prelude.{Bool, List, ℕ, ◌≡◌, ◌≤◌, ◌-◌, length};
    ghost use Rattle.cbm_directory.specs.Slots.{Cursor, entries_from};

    ghost Value = { Cursor };

    ghost view = { λ s. record {
      tracks = s.geometry;
      entries = entries_from (8 - s.number) s.sector s.number;
      next = s.next;
      left = s.left;
    } };

    ghost invariant = { λ s. (s.number ≤ 8) × (length s.sector ≡ 256) };
}

impl Slots {
    /// Stands before the first slot. It reads nothing.
    #[tactic(auto, unfolding(crate::specs::Slots::listed_left, crate::specs::Slots::directory_of))]
    pub fn begin(geometry: Geometry) -> Slots
        ensures left { (content : _) → listed_left content result ≡ directory_of geometry content }
        ensures tracks { result.tracks ≡ geometry }
        ensures most { most_left result ≡ 144 }
    {
        Slots {
            geometry,
            sector: [0; 256],
            number: ENTRIES,
            next: Link::new(18, 1),
            left: MOST,
        }
    }

    /// Reads the next sector if this one is used up and another follows.
    fn fill<M: Medium>(&mut self, medium: &M) -> Result<(), Trouble>
        requires { self.old.tracks ≤ (M.seen medium.now).tracks }
        ensures left { listed_left (M.seen medium.now).content self.new ≡ listed_left (M.seen medium.now).content self.old }
        ensures ready { OnOk result (self.new.entries ≡ [] → self.new.next.track ≡ 0) }
        ensures err { IfErr result
            (λ t. listed_left (M.seen medium.now).content self.old ≡ record { entries = []; trouble = Some t }) }
        ensures tracks { self.new.tracks ≡ self.old.tracks }
        ensures most { most_left self.new ≡ most_left self.old }
    {
        if self.number < ENTRIES || self.next.is_end() {
            return Ok(());
        }
        let sector = read_linked(medium, self.geometry, self.next, self.left)?;
        self.next = Link::of(&sector);
        self.sector = sector;
        self.number = 0;
        self.left -= 1;
        Ok(())
    }

    /// The entry of the next slot, None past the last. An `Err` is what breaks the directory off there: 66 at
    /// a link to no sector of the disk, 71 at a nineteenth sector, or the medium's fault; and it comes again.
    pub fn next<M: Medium>(&mut self, medium: &M) -> Result<Option<Entry>, Trouble>
        requires { self.old.tracks ≤ (M.seen medium.now).tracks }
        ensures gives { Gives (listed_left (M.seen medium.now).content self.old)
            (listed_left (M.seen medium.now).content self.new) result }
        ensures tracks { self.new.tracks ≡ self.old.tracks }
        ensures most { IfGiven result (most_left self.new + 1 ≡ most_left self.old) }
    {
        self.fill(medium)?;
        if self.number == ENTRIES {
            return Ok(None);
        }
        let entry = Entry::of(&self.sector, self.number);
        self.number += 1;
        Ok(Some(entry))
    }
}

/// The entry of a slot by its number, counted from 0; None past the last. An `Err` is what breaks the directory off
/// before.
pub fn slot<M: Medium>(medium: &M, geometry: Geometry, number: u8) -> Result<Option<Entry>, Trouble>
    requires { geometry ≤ (M.seen medium.now).tracks }
    ensures { Answers (directory_of geometry (M.seen medium.now).content) number result }
{
    let mut slots = Slots::begin(geometry);
    for passed in 0..number {
        if slots.next(medium)?.is_none() {
            return Ok(None);
        }
    }
    slots.next(medium)
}

/// What is looked for among the entries of the directory.
pub trait Wanted {
    /// Whether an entry is it.
    ghost wants: { Self → List ℕ → Bool };

    /// Whether an entry is it.
    fn wants(&self, entry: &Entry) -> bool
        ensures { result ≡ wants self.now entry.now };
}

/// The first entry that is wanted, and the number of its slot; None if none is. An `Err` is what breaks the
/// directory off before one was met.
pub fn find<M: Medium, W: Wanted>(
    medium: &M,
    geometry: Geometry,
    wanted: &W,
) -> Result<Option<(u8, Entry)>, Trouble>
    requires { geometry ≤ (M.seen medium.now).tracks }
    ensures { Finds (W.wants wanted.now) (directory_of geometry (M.seen medium.now).content) result }
{
    let mut slots = Slots::begin(geometry);
    let mut number = 0;
    'slots: while let Some(entry) = slots.next(medium)? {
        if wanted.wants(&entry) {
            return Ok(Some((number, entry)));
        }
        number += 1;
    }
    Ok(None)
}
