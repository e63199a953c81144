//! The entries of a directory that breaks off.
ghost use Rattle.std.specs.Prelude.{◌≡◌, ◌≤◌, ◌++◌, IfOk, OnOk};
ghost use Rattle.cbm_bam.specs.Marks.{nothing};
ghost use Rattle.cbm_directory.specs.Entries.{first_directory};
ghost use Rattle.cbm_directory.specs.Slots.{entries_from, all_entries};
ghost use Rattle.cbm_salvage.specs.Trails.{follow_once};

use crate::trail::Trail;
use cbm_directory::Entry;
use cbm_medium::{Geometry, Link, Medium, Trouble};
use std::alloc::{AllocError, Global};

/// The most sectors that the drive reads of a directory.
const MOST: u16 = 18;

/// The entries in a sector.
const ENTRIES: u8 = 8;

/// What can be read of a directory.
#[derive(Drop)]
pub struct Listed {
    /// Its sectors, in order, each once.
    pub sectors: Vec<Link>,
    /// Their entries, those of empty slots too.
    pub entries: Vec<Entry>,
    /// Why it breaks off there, 71 where it comes back to a sector of its own or has more sectors; None where it ends.
    pub trouble: Option<Trouble>,
}

/// Adds the entries of a sector.
fn add_entries(entries: &mut Vec<Entry>, sector: &[u8; 256]) -> Result<(), AllocError>
    ensures { OnOk result (entries.new.items ≡ entries.old.items ++ entries_from 8 sector.now 0) }
{
    for number in 0..ENTRIES {
        entries
            .push(Entry::of(sector, number))
            .map_err(AllocError::from)?;
    }
    Ok(())
}

/// The entries of a disk's directory, up to where it breaks off or comes back to a sector of its own. The one error is want of
/// memory.
pub fn listed_of<M: Medium>(
    alloc: Global,
    medium: &M,
    geometry: Geometry,
) -> Result<Listed, AllocError>
    requires { geometry ≤ (M.seen medium.now).tracks }
    ensures sectors { let content = (M.seen medium.now).content in IfOk result (λ l.
        (record { blocks = l.sectors.items; trouble = l.trouble }) ≡ follow_once geometry content 18 nothing first_directory) }
    ensures entries { let content = (M.seen medium.now).content in IfOk result (λ l.
        l.entries.items ≡ all_entries content l.sectors.items) }
{
    let mut trail = Trail::begin(geometry, MOST, Link::new(18, 1));
    let mut sectors = Vec::new(alloc);
    let mut entries = Vec::new(alloc);
    'sectors: while let Some(step) = trail.next(medium) {
        sectors.push(step.at).map_err(AllocError::from)?;
        add_entries(&mut entries, &step.bytes)?;
    }
    Ok(Listed {
        sectors,
        entries,
        trouble: trail.trouble(),
    })
}
