//! The bytes of a file on a disk.
ghost use Rattle.std.specs.Prelude.{◌≡◌, [], IfOk};
ghost use Rattle.cbm_chain.specs.Data.{data_of};
ghost use Rattle.cbm_chain.specs.Reading.{held_in};
ghost use Rattle.cbm_sources.specs.Forms.{form_sectors};
ghost use Rattle.cbm_sources.specs.Sectors.{image_content};
ghost use Rattle.cbm_sources.specs.Chains.{met_once};

use crate::disk::Disk;
use crate::trail::Trail;
use cbm_medium::{Link, Trouble};
use std::alloc::{AllocError, Global};

/// What can be read of a file on a disk.
#[derive(Drop)]
pub struct Held {
    /// Its bytes, up to where its chain breaks off.
    pub bytes: Vec<u8>,
    /// Why it breaks off there; None where it ends.
    pub trouble: Option<Trouble>,
}

/// The data of a sector of a chain (Inside Commodore DOS): in the last one up to the byte that its second byte names.
fn data_of(sector: &[u8; 256]) -> &[u8]
    ensures { result.now ≡ data_of sector.now }
{
    let end = if sector[0] == 0 {
        (sector[1] as usize + 1).max(2)
    } else {
        256
    };
    &sector[2..end]
}

/// What can be read of the chain that begins at a sector: its bytes, up to where it ends or breaks off. The one error is want of
/// memory.
pub fn held_from(alloc: Global, disk: &Disk, first: Link) -> Result<Held, AllocError>
    ensures { let content = image_content disk.now in IfOk result (λ h.
        held_in content (met_once content (form_sectors disk.now.form) [] first)
        ≡ (record { bytes = h.bytes.items; trouble = h.trouble })) }
{
    let mut trail = Trail::begin(alloc, disk.form().sectors(), first);
    let mut bytes = Vec::new(alloc);
    'sectors: while let Some(sector) = trail.next(disk)? {
        bytes.extend_from_slice(data_of(&sector))?;
    }
    Ok(Held {
        bytes,
        trouble: trail.trouble(),
    })
}
