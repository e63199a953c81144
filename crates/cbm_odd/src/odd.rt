//! Which entries are odd.
ghost use Rattle.std.specs.Prelude.{◌≡◌, ◌++◌, slice_get, true, IfOk, IfErr, OnOk};
ghost use Rattle.cbm_bam.specs.Map.{geometry_of};
ghost use Rattle.cbm_shell.specs.Flaws.{flaws_of};
ghost use Rattle.cbm_odd.specs.Odd.{counts_none, is_of_entry, are_of_entries, is_of_slot, is_slot_flawed, odd_if, odds_among, is_odd_slot, unless_odd, others_among, AreOddOf, IsFirstFlaw, IsUnreadable, IsNotOddOf};

use cbm_medium::Medium;
use cbm_shell::parts::{entries_or_none, entry_of};
use cbm_shell::{DiskFlaw, ShellFault, Whose, entries_of, flaws_of};
use cbm_volume::{Entry, Volume};
use std::alloc::{AllocError, Global};

/// The number of the flaw that a block is in use, but marked free.
const MARKED_FREE: u8 = 2;

/// An entry with which something is wrong.
#[derive(Drop)]
pub struct Odd {
    /// Its slot in the directory, from 0.
    pub slot: u8,
    /// What stands there.
    pub entry: Entry,
}

/// Whether the entry in a slot counts no block, as art does.
fn counts_none(entries: &[Entry], slot: u16) -> bool
    ensures { result ≡ counts_none (slice_get entries.now slot) }
{
    match entries.get(slot as usize) {
        Some(entry) => entry.blocks() == 0,
        None => false,
    }
}

/// Whether a flaw is one of an entry, or of the chain or the side sectors that it leads to. That one of these is marked free is one only
/// if the entry counts no block: the blocks of any other file are the BAM's fault.
fn is_of_entry(entries: &[Entry], flaw: &DiskFlaw) -> bool
    ensures { result ≡ is_of_entry entries.now flaw.now.whose flaw.now.what.number }
{
    match flaw.whose {
        Whose::Disk | Whose::Directory => false,
        Whose::File(slot) => { flaw.what.number != MARKED_FREE || counts_none(entries, slot) }
    }
}

/// Whether all flaws are.
fn are_of_entries(entries: &[Entry], flaws: &[DiskFlaw]) -> bool
    ensures { result ≡ are_of_entries entries.now flaws.now }
{
    let mut rest = flaws;
    'flaws: while let Some((flaw, more)) = rest.split_first() {
        if !is_of_entry(entries, flaw) {
            return false;
        }
        rest = more;
    }
    true
}

/// Refuses a disk on which more is wrong than its entries, with what is wrong first.
fn require_entries(entries: &[Entry], flaws: &[DiskFlaw]) -> Result<(), ShellFault>
    ensures fine { OnOk result (are_of_entries entries.now flaws.now ≡ true) }
    ensures fault { IfErr result (IsFirstFlaw flaws.now) }
{
    match flaws.first() {
        None => Ok(()),
        Some(_) if are_of_entries(entries, flaws) => Ok(()),
        Some(flaw) => Err(ShellFault::Unsound(flaw.what)),
    }
}

/// Whether a flaw is one of the entry in a slot.
fn is_of_slot(flaw: &DiskFlaw, slot: usize) -> bool
    ensures { result ≡ is_of_slot slot flaw.now.whose }
{
    match flaw.whose {
        Whose::Disk | Whose::Directory => false,
        Whose::File(number) => number as usize == slot,
    }
}

/// Whether one of the flaws is.
fn is_slot_flawed(flaws: &[DiskFlaw], slot: usize) -> bool
    ensures { result ≡ is_slot_flawed flaws.now slot }
{
    let mut rest = flaws;
    'flaws: while let Some((flaw, more)) = rest.split_first() {
        if is_of_slot(flaw, slot) {
            return true;
        }
        rest = more;
    }
    false
}

/// Adds an entry, if it is odd. Errors: want of memory, and of a number for a slot above 255, which no directory has.
fn add_odd(out: &mut Vec<Odd>, is_odd: bool, slot: usize, entry: &Entry) -> Result<(), AllocError>
    ensures { OnOk result (out.new.items ≡ out.old.items ++ odd_if is_odd slot entry.now) }
{
    if is_odd {
        let Ok(slot) = u8::try_from(slot) else {
            return Err(AllocError);
        };
        let entry = entry_of(entry.bytes());
        out.push(Odd { slot, entry }).map_err(AllocError::from)?;
    }
    Ok(())
}

/// The entries among these that have a flaw.
fn odds_among(alloc: Global, flaws: &[DiskFlaw], entries: &[Entry]) -> Result<Vec<Odd>, AllocError>
    ensures { IfOk result (λ v. v.items ≡ odds_among flaws.now 0 entries.now) }
{
    let mut out = Vec::new(alloc);
    let mut slot = 0;
    for entry in entries {
        add_odd(&mut out, is_slot_flawed(flaws, slot), slot, entry)?;
        slot += 1;
    }
    Ok(out)
}

/// Whether one of these odd entries is in a slot.
fn is_odd_slot(odds: &[Odd], slot: usize) -> bool
    ensures { result ≡ is_odd_slot odds.now slot }
{
    let mut rest = odds;
    'odds: while let Some((odd, more)) = rest.split_first() {
        if odd.slot as usize == slot {
            return true;
        }
        rest = more;
    }
    false
}

/// Adds an entry, unless it is odd.
fn add_other(out: &mut Vec<Entry>, is_odd: bool, entry: &Entry) -> Result<(), AllocError>
    ensures { OnOk result (out.new.items ≡ out.old.items ++ unless_odd is_odd entry.now) }
{
    if !is_odd {
        let entry = entry_of(entry.bytes());
        out.push(entry).map_err(AllocError::from)?;
    }
    Ok(())
}

/// The entries among these that aren't odd.
pub(crate) fn others_among(
    alloc: Global,
    odds: &[Odd],
    entries: &[Entry],
) -> Result<Vec<Entry>, AllocError>
    ensures { IfOk result (λ v. v.items ≡ others_among odds.now 0 entries.now) }
{
    let mut out = Vec::new(alloc);
    let mut slot = 0;
    for entry in entries {
        add_other(&mut out, is_odd_slot(odds, slot), entry)?;
        slot += 1;
    }
    Ok(out)
}

/// All that is wrong with a disk. Errors: `Trouble`, if a side sector that did read doesn't any more; `Memory`.
fn all_flaws<M: Medium>(alloc: Global, volume: &Volume<M>) -> Result<Vec<DiskFlaw>, ShellFault>
    ensures all { let now = M.seen volume.now in
        IfOk result (λ v. v.items ≡ flaws_of (geometry_of now.tracks now.content) now.content) }
    ensures fault { IfErr result IsUnreadable }
{
    match flaws_of(alloc, volume) {
        Ok(flaws) => Ok(flaws),
        Err(ShellFault::Trouble(trouble)) => Err(ShellFault::Trouble(trouble)),
        Err(_) => Err(ShellFault::Memory),
    }
}

/// The odd entries of a disk, in order. Errors: `Unsound`, with what is wrong first, if more is wrong than entries; `Trouble`, if a
/// side sector that did read doesn't any more; `Memory`.
pub(crate) fn odds_of<M: Medium>(alloc: Global, volume: &Volume<M>) -> Result<Vec<Odd>, ShellFault>
    ensures odd { let now = M.seen volume.now in
        IfOk result (λ v. AreOddOf (geometry_of now.tracks now.content) now.content v.items) }
    ensures fault { let now = M.seen volume.now in IfErr result (IsNotOddOf (geometry_of now.tracks now.content) now.content) }
{
    let flaws = all_flaws(alloc, volume)?;
    let shown = entries_or_none(alloc, volume)?;
    require_entries(shown.as_slice(), flaws.as_slice())?;
    let entries = entries_of(alloc, volume)?;
    let odds = odds_among(alloc, flaws.as_slice(), entries.as_slice())?;
    Ok(odds)
}
