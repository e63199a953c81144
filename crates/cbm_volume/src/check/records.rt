ghost use Rattle.std.specs.Prelude.{◌≡◌, ◌≤◌, ◌<◌, ℕ, List, Option, IsOk, Ok};
ghost use Rattle.cbm_medium.specs.Links.{link, bytes_at};
ghost use Rattle.cbm_relfile.specs.SideSectors.{listed_following};
ghost use Rattle.cbm_volume.specs.check.SideLists.{step_along, along, side_along, side_found, all_along};

use cbm_medium::{Geometry, Link, Medium};
use cbm_relfile::side::{BLOCKS, NUMBER, RECORD_LENGTH, SIDES};

/// Where the chain goes on after a block, if that block is the one that the side sector lists next; None if it isn't.
fn step<M: Medium>(medium: &M, geometry: Geometry, listed: Link, at: Link) -> Option<Link>
    requires { geometry ≤ (M.seen medium.now).tracks }
    ensures { result ≡ step_along geometry (M.seen medium.now).content listed at }
{
    if listed != at {
        return None;
    }
    let address = at.address(geometry)?;
    match medium.read(address) {
        Ok(bytes) => Some(Link::of(&bytes)),
        Err(_) => Some(Link::new(0, 0)),
    }
}

/// Checks that the data blocks a side sector lists are, in order, the next blocks of the file's chain. Returns the
/// link after the last of them, or None at the first difference.
fn walk_listed<M: Medium>(
    medium: &M,
    geometry: Geometry,
    side: &[u8; 256],
    from: Link,
) -> Option<Link>
    requires { geometry ≤ (M.seen medium.now).tracks }
    ensures { result ≡ along geometry (M.seen medium.now).content (listed_following 0 side.now) from }
{
    let mut at = from;
    for number in 0..120usize {
        let listed = Link::new(side[BLOCKS + 2 * number], side[BLOCKS + 2 * number + 1]);
        if listed.is_end() {
            return Some(at);
        }
        at = step(medium, geometry, listed, at)?;
    }
    Some(at)
}

/// First checks the side sector's own number and record length.
#[tactic(auto, using(crate::proofs::checked::SidesListed::side_right))]
pub fn walk_side<M: Medium>(
    medium: &M,
    geometry: Geometry,
    length: u8,
    number: u8,
    side: &[u8; 256],
    from: Link,
) -> Option<Link>
    requires { geometry ≤ (M.seen medium.now).tracks }
    ensures { result ≡ side_along geometry (M.seen medium.now).content length number side.now from }
{
    if side[NUMBER] != number || side[RECORD_LENGTH] != length {
        return None;
    }
    walk_listed(medium, geometry, side, from)
}

/// Checks the side sector that a link names; None if the link names no sector of the disk, or it doesn't read.
fn walk_side_at<M: Medium>(
    medium: &M,
    geometry: Geometry,
    length: u8,
    number: u8,
    at: Link,
    from: Link,
) -> Option<Link>
    requires tracks { geometry ≤ (M.seen medium.now).tracks }
    requires length { 0 < length }
    ensures { result ≡ side_found geometry (M.seen medium.now).content length number at from }
{
    let address = at.address(geometry)?;
    match medium.read(address) {
        Ok(side) => walk_side(medium, geometry, length, number, &side, from),
        Err(_) => None,
    }
}

/// Checks all side sectors of a file, from the bytes of the first. Returns the link after the last block that they
/// list, or None at the first that isn't right.
pub fn walk_sides<M: Medium>(
    medium: &M,
    geometry: Geometry,
    length: u8,
    first: &[u8; 256],
    from: Link,
) -> Option<Link>
    requires tracks { geometry ≤ (M.seen medium.now).tracks }
    requires length { 0 < length }
    ensures { result ≡ all_along geometry (M.seen medium.now).content length first.now from }
{
    let mut at = walk_side(medium, geometry, length, 0, first, from)?;
    if first[SIDES] == 0 {
        return Some(at);
    }
    for number in 1..6u8 {
        let place = SIDES + 2 * number as usize;
        let side = Link::new(first[place], first[place + 1]);
        if side.is_end() {
            return Some(at);
        }
        at = walk_side_at(medium, geometry, length, number, side, at)?;
    }
    Some(at)
}
