//! The blocks of a file, in order.
ghost use Rattle.std.specs.Prelude.{◌≡◌, ◌≤◌, [], ◌∷◌, ◌++◌, IfOk, OnOk};
ghost use Rattle.cbm_bam.specs.Marks.{is_marked, nothing};
ghost use Rattle.cbm_shell.specs.Mapping.{chain_of, is_among};
ghost use Rattle.cbm_shell.specs.Marking.{with_places};
ghost use Rattle.cbm_place.specs.Moves.{held_blocks};

use cbm_bam::SectorSet;
use cbm_medium::{Address, Geometry, Link, Medium};
use std::alloc::{AllocError, Global};

/// The blocks of a chain: where they lie, and what they hold.
#[derive(Drop)]
pub(crate) struct Chain {
    /// Where each lies.
    pub(crate) places: Vec<Address>,
    /// The bytes of each.
    pub(crate) blocks: Vec<[u8; 256]>,
}

/// Adds a block.
fn add_block(chain: &mut Chain, at: Address, bytes: &[u8; 256]) -> Result<(), AllocError>
    ensures places { OnOk result (chain.new.places.items ≡ chain.old.places.items ++ at ∷ []) }
    ensures blocks { OnOk result (chain.new.blocks.items ≡ chain.old.blocks.items ++ bytes.now ∷ []) }
{
    chain.places.push(at).map_err(AllocError::from)?;
    chain.blocks.push(*bytes).map_err(AllocError::from)
}

/// The blocks that links lead to from one on, up to the chain's end or to what cuts it off.
pub(crate) fn chain_of<M: Medium>(
    alloc: Global,
    medium: &M,
    geometry: Geometry,
    from: Link,
) -> Result<Chain, AllocError>
    requires { geometry ≤ (M.seen medium.now).tracks }
    ensures places { IfOk result (λ c. c.places.items ≡ chain_of geometry (M.seen medium.now).content from) }
    ensures blocks { IfOk result (λ c. c.blocks.items ≡ held_blocks (M.seen medium.now).content (chain_of geometry (M.seen medium.now).content from)) }
{
    let mut chain = Chain {
        places: Vec::new(alloc),
        blocks: Vec::new(alloc),
    };
    let mut link = from;
    let count = geometry.sectors();
    for done in 0..count {
        let Some(at) = link.address(geometry) else {
            return Ok(chain);
        };
        let Ok(bytes) = medium.read(at) else {
            return Ok(chain);
        };
        add_block(&mut chain, at, &bytes)?;
        link = Link::of(&bytes);
    }
    Ok(chain)
}

/// The set of these sectors.
pub(crate) fn set_of(places: &[Address]) -> SectorSet
    ensures { is_marked result ≡ is_among places.now }
{
    let mut set = SectorSet::new();
    for at in places {
        set.insert(*at);
    }
    set
}
