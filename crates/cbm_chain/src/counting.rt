// How many bytes a chain holds.

ghost use Rattle.std.specs.Prelude.{◌≡◌, ◌≢◌, ◌≤◌, ◌<◌, ◌+◌, ◌-◌, [], length, OnOk, IfOk, IfErr, Some};
ghost use Rattle.cbm_medium.specs.Place.{sector_count};
ghost use Rattle.cbm_chain.specs.Reading.{held_from};
ghost use Rattle.cbm_medium.specs.Met.{Walks};
ghost use Rattle.cbm_medium.specs.Seen.{ShowsGround};

use crate::loaded::{Loaded, load};
use cbm_medium::{Geometry, Link, Medium, Trouble};

/// How many bytes a chain holds, counted block by block. An `Err` is what breaks the chain off: 66, 71 or the medium's
/// fault.
pub fn byte_count<M: Medium>(medium: &M, geometry: Geometry, first: Link) -> Result<u32, Trouble>
    requires { geometry ≤ (M.seen medium.now).tracks }
    ensures counted { let content = (M.seen medium.now).content in IfOk result
        (λ n. n ≡ length (held_from geometry content (sector_count geometry) first).bytes) }
    ensures walk { Walks (held_from geometry (M.seen medium.now).content (sector_count geometry) first).trouble result }
    ensures shown { IfErr result (ShowsGround (M.seen medium.now)) }
{
    let mut at = first;
    let mut left = geometry.sectors();
    let mut count: u32 = 0;
    while !at.is_end() {
        let (bytes, next) = count_one(medium, geometry, at, left)?;
        at = next;
        left -= 1;
        count = count.saturating_add(bytes);
    }
    Ok(count)
}

/// How many bytes the block that a link names holds, and its own link to the next.
fn count_one<M: Medium>(
    medium: &M,
    geometry: Geometry,
    at: Link,
    left: u16,
) -> Result<(u32, Link), Trouble>
    requires tracks { geometry ≤ (M.seen medium.now).tracks }
    requires going { at.track ≢ 0 }
    ensures bytes { let content = (M.seen medium.now).content in IfOk result
        (λ r. length (held_from geometry content left at).bytes
        ≡ r.0 + length (held_from geometry content (left - 1) r.1).bytes) }
    ensures trouble { let content = (M.seen medium.now).content in IfOk result
        (λ r. (held_from geometry content left at).trouble ≡ (held_from geometry content (left - 1) r.1).trouble) }
    ensures few { IfOk result (λ r. r.0 ≤ 254) }
    ensures left { OnOk result (0 < left) }
    ensures err { IfErr result
        (λ t. held_from geometry (M.seen medium.now).content left at ≡ (record { bytes = []; trouble = Some t })) }
    ensures never_26 { IfErr result (λ t. t.code ≢ 26) }
    ensures shown { IfErr result (ShowsGround (M.seen medium.now)) }
{
    let Loaded { sector, to, next } = load(medium, geometry, at, left)?;
    Ok(((to - 2) as u32, next))
}
