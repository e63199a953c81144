//! Where the blocks of a file lie.
ghost use Rattle.std.specs.Prelude.{◌≡◌, IfOk};
ghost use Rattle.cbm_bam.specs.Map.{geometry_of};
ghost use Rattle.cbm_directory.specs.Entries.{first_block};
ghost use Rattle.cbm_shell.specs.Mapping.{chain_of};

use crate::chain::chain_of;
use cbm_medium::{Address, Medium};
use cbm_volume::{Entry, Volume};
use std::alloc::{AllocError, Global};

/// Where the blocks of an entry's file lie, in order, up to where its chain ends or is cut off; a relative file's side sectors aren't
/// among them. The one error is want of memory.
pub fn blocks_of<M: Medium>(
    alloc: Global,
    volume: &Volume<M>,
    entry: &Entry,
) -> Result<Vec<Address>, AllocError>
    ensures { let now = M.seen volume.now in
        IfOk result (λ v. v.items ≡ chain_of (geometry_of now.tracks now.content) now.content (first_block entry.now)) }
{
    let chain = chain_of(
        alloc,
        volume.medium(),
        volume.geometry(),
        entry.first_block(),
    )?;
    Ok(chain.places)
}
