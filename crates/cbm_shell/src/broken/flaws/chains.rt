//! A walk along a chain.
ghost use Rattle.std.specs.Prelude.{◌≡◌, ◌≤◌, IfOk, length};
ghost use Rattle.cbm_bam.specs.Marks.{is_marked};
ghost use Rattle.cbm_shell.specs.Flaws.{chain_from};
ghost use Rattle.cbm_shell.specs.FlawSteps.{IsWalked};

use super::findings::Findings;
use super::found::Whose;
use super::steps::step;
use cbm_medium::{Geometry, Link, Medium};
use std::alloc::AllocError;

/// No disk has more sectors.
const SECTORS: u16 = 768;

/// Where a walk went.
#[derive(Drop)]
pub struct Way {
    /// The sectors that it met, in order.
    pub blocks: Vec<Link>,
    /// Whether it came to the chain's end.
    pub is_whole: bool,
}

/// Follows a chain, and claims its sectors. What is wrong is added.
pub(super) fn walk<M: Medium>(
    medium: &M,
    geometry: Geometry,
    whose: Whose,
    first: Link,
    found: &mut Findings,
) -> Result<Way, AllocError>
    requires { geometry ≤ (M.seen medium.now).tracks }
    ensures walked { let w = chain_from whose geometry (M.seen medium.now).content (is_marked found.old.claimed) first in
        IfOk result (λ way. IsWalked w (is_marked found.new.claimed) found.old.flaws.items found.new.flaws.items way.is_whole) }
    ensures blocks { let w = chain_from whose geometry (M.seen medium.now).content (is_marked found.old.claimed) first in
        IfOk result (λ way. way.blocks.items ≡ w.blocks) }
    ensures few { IfOk result (λ way. length way.blocks.items ≤ 768) }
{
    let mut at = first;
    let mut blocks = Vec::new(found.alloc);
    for before in 0..SECTORS {
        if at.is_end() {
            return Ok(Way {
                blocks,
                is_whole: true,
            });
        }
        let Some(bytes) = step(medium, geometry, whose, before, at, found)? else {
            return Ok(Way {
                blocks,
                is_whole: false,
            });
        };
        blocks.push(at).map_err(AllocError::from)?;
        at = Link::of(&bytes);
    }
    Ok(Way {
        blocks,
        is_whole: false,
    })
}
