//! The entries of the directory, and their files.
ghost use Rattle.std.specs.Prelude.{◌≡◌, None, IfOk, IfErr};
ghost use Rattle.cbm_directory.specs.Slots.{directory_of};
ghost use Rattle.cbm_bam.specs.Map.{geometry_of};
ghost use Rattle.cbm_shell.specs.Reading.{IsReadFault};

use crate::fault::ShellFault;
use cbm_medium::Medium;
use cbm_volume::{Entry, Volume};
use std::alloc::{AllocError, Global};

/// The entries of a disk's directory in order, those of empty slots too. Errors: `Trouble` where the directory can't be
/// followed to its end, `Memory`.
pub fn entries_of<M: Medium>(alloc: Global, volume: &Volume<M>) -> Result<Vec<Entry>, ShellFault>
    ensures ok { let now = M.seen volume.now in IfOk result (λ v.
        directory_of (geometry_of now.tracks now.content) now.content
        ≡ (record { entries = v.items; trouble = None })) }
    ensures err { let now = M.seen volume.now in
        IfErr result (IsReadFault (directory_of (geometry_of now.tracks now.content) now.content).trouble) }
{
    let mut entries = Vec::new(alloc);
    let mut slots = volume.slots();
    'slots: while let Some(entry) = volume.next_slot(&mut slots)? {
        entries.push(entry).map_err(AllocError::from)?;
    }
    Ok(entries)
}
