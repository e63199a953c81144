// The blocks of a chain whose last one was never written are given back.

ghost use Rattle.std.specs.Prelude.{◌≡◌, ◌≢◌, ◌≤◌, ℕ, suc, false, [], OnOk, IfOk, IfErr, Some};
ghost use Rattle.cbm_medium.specs.Place.{Has, has};
ghost use Rattle.cbm_medium.specs.Links.{with_block};
ghost use Rattle.cbm_bam.specs.Map.{Frees, IsGiven};
ghost use Rattle.cbm_chain.specs.GivenUp.{linked_blocks};
ghost use Rattle.cbm_medium.specs.Met.{Walks};
ghost use Rattle.cbm_medium.specs.Seen.{ShowsGround};

use cbm_bam::Release;
use cbm_medium::codes::ILLEGAL_LINK;
use cbm_medium::{Address, Geometry, Link, Medium, Trouble};

/// Gives back a block and this many more, each of which the one before links to; the last one isn't read. An `Err` is
/// what cuts them off: 66 or the medium's fault.
pub(crate) fn give_linked<M: Medium>(
    medium: &M,
    geometry: Geometry,
    first: Link,
    more: u16,
    release: &mut Release,
) -> Result<(), Trouble>
    requires { geometry ≤ (M.seen medium.now).tracks }
    ensures freed { OnOk result (Frees geometry release.old
        (linked_blocks geometry (M.seen medium.now).content more first).blocks release.new) }
    ensures walk { Walks (linked_blocks geometry (M.seen medium.now).content more first).trouble result }
    ensures shown { IfErr result (ShowsGround (M.seen medium.now)) }
{
    let mut at = first;
    for passed in 0..more {
        at = give_and_follow(medium, geometry, at, release)?;
    }
    give_at(geometry, at, release)?;
    Ok(())
}

/// Gives the block that a link names back, and answers its own link to the next.
fn give_and_follow<M: Medium>(
    medium: &M,
    geometry: Geometry,
    at: Link,
    release: &mut Release,
) -> Result<Link, Trouble>
    requires { geometry ≤ (M.seen medium.now).tracks }
    ensures followed { let content = (M.seen medium.now).content in (n : ℕ) →
        IfOk result (λ next. linked_blocks geometry content (suc n) at ≡ with_block at
        (linked_blocks geometry content n next)) }
    ensures given { OnOk result (IsGiven geometry release.old release.new at) }
    ensures err { (n : ℕ) → IfErr result (λ t. linked_blocks geometry (M.seen medium.now).content (suc n) at ≡
        (record { blocks = []; trouble = Some t })) }
    ensures never_26 { IfErr result (λ t. t.code ≢ 26) }
    ensures shown { IfErr result (ShowsGround (M.seen medium.now)) }
{
    let address = give_at(geometry, at, release)?;
    let bytes = medium.read(address)?;
    Ok(Link::of(&bytes))
}

/// Gives the block that a link names back: 66 if the disk has no such block.
fn give_at(geometry: Geometry, at: Link, release: &mut Release) -> Result<Address, Trouble>
    ensures given { OnOk result (IsGiven geometry release.old release.new at) }
    ensures place { IfOk result (λ p. p ≡ at) }
    ensures has { OnOk result (Has geometry at) }
    ensures err { IfErr result (λ t. (has geometry at ≡ false) ×
        (t ≡ (record { code = 66; track = at.track; sector = at.sector }))) }
    ensures never_26 { IfErr result (λ t. t.code ≢ 26) }
    ensures code { IfErr result (λ t. t.code ≡ 66) }
{
    let Some(address) = at.address(geometry) else {
        return Err(at.trouble(ILLEGAL_LINK));
    };
    prove!(geometry.tracks() <= 40);
    release.give(address);
    Ok(address)
}
