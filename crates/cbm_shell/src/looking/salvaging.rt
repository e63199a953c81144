//! What can be read of damaged disks.
ghost use Rattle.std.specs.Prelude.{◌≡◌, IfOk};
ghost use Rattle.cbm_bam.specs.Map.{geometry_of};
ghost use Rattle.cbm_directory.specs.Entries.{first_block};
ghost use Rattle.cbm_directory.specs.Slots.{all_entries};
ghost use Rattle.cbm_shell.specs.Salvaging.{salvaged_of, directory_sectors};

use cbm_medium::Medium;
use cbm_salvage::{Listed, Salvaged};
use cbm_volume::{Entry, Volume};
use std::alloc::{AllocError, Global};

/// What can be read of an entry's file, closed or not: the bytes of its chain up to where it breaks off or comes back to a
/// sector of its own, and why it does. The one error is want of memory.
pub fn salvage<M: Medium>(
    alloc: Global,
    volume: &Volume<M>,
    entry: &Entry,
) -> Result<Salvaged, AllocError>
    ensures { let now = M.seen volume.now in
        IfOk result (λ s. salvaged_of (geometry_of now.tracks now.content) now.content (first_block entry.now)
        ≡ (record { bytes = s.bytes.items; trouble = s.trouble })) }
{
    cbm_salvage::salvage(
        alloc,
        volume.medium(),
        volume.geometry(),
        entry.first_block(),
    )
}

/// The entries of a disk's directory, up to where it breaks off or comes back to a sector of its own, and why it does. The one
/// error is want of memory.
pub fn listed_of<M: Medium>(alloc: Global, volume: &Volume<M>) -> Result<Listed, AllocError>
    ensures sectors { let now = M.seen volume.now in
        IfOk result (λ l. directory_sectors (geometry_of now.tracks now.content) now.content
        ≡ (record { blocks = l.sectors.items; trouble = l.trouble })) }
    ensures entries { IfOk result (λ l. l.entries.items ≡ all_entries (M.seen volume.now).content l.sectors.items) }
{
    cbm_salvage::listed_of(alloc, volume.medium(), volume.geometry())
}
