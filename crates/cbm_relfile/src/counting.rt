// How many data blocks and side sectors a relative file has.

ghost use Rattle.std.specs.Prelude.{◌≡◌, ◌≤◌, ℕ, List, length, Ok, IsOkAnd, IfOk};
ghost use Rattle.cbm_medium.specs.Place.{Place, Has, sector_count};
ghost use Rattle.cbm_medium.specs.Links.{Chain};
ghost use Rattle.cbm_medium.specs.Met.{MeetsTrouble};
ghost use Rattle.cbm_relfile.specs.Counting.{IsChainCounted};
ghost use Rattle.cbm_relfile.specs.OfFile.{IsOfFile};
ghost use Rattle.cbm_relfile.specs.SideSectors.{sides_following};

use crate::relative::Relative;
use crate::sectors::read_at;
use crate::side::SIDES;
use cbm_medium::{Geometry, Link, Medium, Trouble};

/// How many data blocks a relative file has, and how many side sectors its first one lists.
#[derive(Clone, Copy)]
pub struct Extent {
    pub blocks: u16,
    pub sides: u8,
}

/// How many blocks the chain has that begins here; at most as many as the disk has sectors.
fn block_count<M: Medium>(medium: &M, geometry: Geometry, first: Link) -> Result<u16, Trouble>
    requires { geometry ≤ (M.seen medium.now).tracks }
    ensures chain { (blocks : List Place) → Chain geometry (M.seen medium.now).content first blocks →
        length blocks ≤ sector_count geometry → IsOkAnd result (λ k. k ≡ length blocks) }
    ensures walked { IfOk result (IsChainCounted geometry (M.seen medium.now).content first) }
    ensures err { MeetsTrouble geometry (M.seen medium.now).content (λ q. q ≡ first) result }
{
    let sectors = geometry.sectors();
    let mut at = first;
    for passed in 0..sectors {
        if at.is_end() {
            return Ok(passed);
        }
        let bytes = read_at(medium, geometry, at)?;
        at = Link::of(&bytes);
    }
    Ok(sectors)
}

/// How many side sectors a first one lists: up to its first track 0.
fn side_count(head: &[u8; 256]) -> u8
    ensures value { result ≡ length (sides_following 0 head.now) }
    ensures most { result ≤ 6 }
{
    for number in 0..6u8 {
        if head[SIDES + 2 * number as usize] == 0 {
            return number;
        }
    }
    6
}

/// How many data blocks and side sectors the file has. An `Err` is why a block or its first side sector doesn't read.
pub fn extent_of<M: Medium>(
    medium: &M,
    geometry: Geometry,
    file: Relative,
) -> Result<Extent, Trouble>
    requires { geometry ≤ (M.seen medium.now).tracks }
    ensures counted { let now = M.seen medium.now in (blocks : List Place) (head : List ℕ) →
        Chain geometry now.content file.first blocks → length blocks ≤ sector_count geometry →
        Has geometry file.side → now.content file.side ≡ Ok head →
        IsOkAnd result (λ x. (x.blocks ≡ length blocks) × (x.sides ≡ length (sides_following 0 head))) }
    // On any disk: the blocks were walked, and the first side sector was read.
    ensures walked { IfOk result (λ x. IsChainCounted geometry (M.seen medium.now).content file.first x.blocks) }
    ensures sides { IfOk result (λ x. IsOkAnd ((M.seen medium.now).content file.side)
        (λ head. x.sides ≡ length (sides_following 0 head))) }
    ensures most { IfOk result (λ x. x.sides ≤ 6) }
    ensures err { MeetsTrouble geometry (M.seen medium.now).content (IsOfFile geometry (M.seen medium.now).content file) result }
{
    let blocks = block_count(medium, geometry, file.first())?;
    let head = read_at(medium, geometry, file.side())?;
    let sides = side_count(&head);
    Ok(Extent { blocks, sides })
}
