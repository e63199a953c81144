//! The directory of a disk.
ghost use Rattle.std.specs.Prelude.{◌≡◌, ◌++◌, IfOk, OnOk};
ghost use Rattle.cbm_directory.specs.Slots.{entries_from};
ghost use Rattle.cbm_sources.specs.Sources.{disk_listed};
ghost use Rattle.cbm_sources.specs.Directories.{directory_start, used};

use crate::disk::Disk;
use crate::form::Form;
use crate::trail::Trail;
use cbm_directory::Entry;
use cbm_medium::{Link, Trouble};
use std::alloc::{AllocError, Global};

/// The entries in a sector.
const ENTRIES: u8 = 8;

/// What can be read of a disk's directory.
#[derive(Drop)]
pub struct Listed {
    /// The entries that aren't empty, up to where it breaks off.
    pub entries: Vec<Entry>,
    /// Why it breaks off there; None where it ends.
    pub trouble: Option<Trouble>,
}

/// The first sector of the directory: 18/1, or 40/3 of a 1581's disk, whatever the disk's header links to.
fn directory_start(form: Form) -> Link
    ensures { result ≡ directory_start form }
{
    match form {
        Form::D81 => Link::new(40, 3),
        _ => Link::new(18, 1),
    }
}

/// Adds the entries of a sector that aren't empty.
fn add_entries(entries: &mut Vec<Entry>, sector: &[u8; 256]) -> Result<(), AllocError>
    ensures { OnOk result (entries.new.items ≡ entries.old.items ++ used (entries_from 8 sector.now 0)) }
{
    for number in 0..ENTRIES {
        let entry = Entry::of(sector, number);
        if !entry.is_empty() {
            entries.push(entry).map_err(AllocError::from)?;
        }
    }
    Ok(())
}

/// The entries of a disk's directory that aren't empty, up to where it ends or breaks off, or has as many sectors as it may have. The one error is want of memory.
#[tactic(auto, unfolding(crate::specs::Sources::disk_listed))]
pub fn listed_of(alloc: Global, disk: &Disk) -> Result<Listed, AllocError>
    ensures { IfOk result (λ l. disk_listed disk.now ≡ (record { entries = l.entries.items; trouble = l.trouble })) }
{
    let form = disk.form();
    let mut trail = Trail::begin(alloc, form.directory_limit(), directory_start(form));
    let mut entries = Vec::new(alloc);
    'sectors: while let Some(sector) = trail.next(disk)? {
        add_entries(&mut entries, &sector)?;
    }
    Ok(Listed {
        entries,
        trouble: trail.trouble(),
    })
}
