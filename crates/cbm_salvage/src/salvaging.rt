//! What can be read of a file whose chain breaks off.
ghost use Rattle.std.specs.Prelude.{◌≡◌, ◌≤◌, IfOk};
ghost use Rattle.cbm_medium.specs.Place.{sector_count};
ghost use Rattle.cbm_chain.specs.Data.{data_of};
ghost use Rattle.cbm_chain.specs.Reading.{held_in};
ghost use Rattle.cbm_bam.specs.Marks.{nothing};
ghost use Rattle.cbm_salvage.specs.Trails.{follow_once};

use crate::trail::Trail;
use cbm_medium::{Geometry, Link, Medium, Trouble};
use std::alloc::{AllocError, Global};

/// What can be read of a file.
#[derive(Drop)]
pub struct Salvaged {
    /// Its bytes, up to where its chain breaks off or comes back to a sector of its own.
    pub bytes: Vec<u8>,
    /// Why it breaks off there, 71 where it comes back; None where it ends.
    pub trouble: Option<Trouble>,
}

/// The data of a sector of a chain (Inside Commodore DOS): in the last one up to the byte that its second byte names.
fn data_of(sector: &[u8; 256]) -> &[u8]
    ensures { result.now ≡ data_of sector.now }
{
    let end = if sector[0] == 0 {
        (sector[1] as usize + 1).max(2)
    } else {
        256
    };
    &sector[2..end]
}

/// What can be read of a chain: the bytes of its sectors in order, each once, up to where it breaks off or comes back to one of
/// them. The one error is want of memory.
pub fn salvage<M: Medium>(
    alloc: Global,
    medium: &M,
    geometry: Geometry,
    first: Link,
) -> Result<Salvaged, AllocError>
    requires { geometry ≤ (M.seen medium.now).tracks }
    ensures { let content = (M.seen medium.now).content in IfOk result (λ s.
        held_in content (follow_once geometry content (sector_count geometry) nothing first)
        ≡ (record { bytes = s.bytes.items; trouble = s.trouble })) }
{
    let mut trail = Trail::begin(geometry, geometry.sectors(), first);
    let mut bytes = Vec::new(alloc);
    'sectors: while let Some(step) = trail.next(medium) {
        bytes.extend_from_slice(data_of(&step.bytes))?;
    }
    Ok(Salvaged {
        bytes,
        trouble: trail.trouble(),
    })
}
