// The side sectors of a file are written anew, so that each lists its next 120 blocks.

ghost use Rattle.std.specs.Prelude.{◌≡◌, ◌≢◌, ◌≤◌, ◌<◌, ◌+◌, ◌*◌, ◌⊎◌, ℕ, List, [], true, length, take, drop, slice_index, Ok, IsOk, OnOk, IfErr, IfOk, IsOkAnd, MatchResult};
ghost use Rattle.cbm_medium.specs.Place.{Place, Has, sector_count};
ghost use Rattle.cbm_medium.specs.Links.{Chain, place_in};
ghost use Rattle.cbm_medium.specs.Seen.{ShowsGround, OnlyContent};
ghost use Rattle.cbm_relfile.specs.Making.{IsNotWritten};
ghost use Rattle.cbm_relfile.specs.Records.{AllWhole, Relative, IsLaid};
ghost use Rattle.cbm_relfile.specs.SideSectors.{IsEnded};
ghost use Rattle.cbm_relfile.specs.Relisting.{SidesRead, HaveSides, ListsThese, IsSideListed, lists_at, NamesSides, IsSideRefused, AreListed, AreInForm, AreApart, IsRelisted};

use crate::growth::growing::cut_at;
use crate::relative::Relative;
use crate::sectors::read_at;
use crate::side::{BLOCKS, SIDES};
use cbm_medium::codes::ILLEGAL_LINK;
use cbm_medium::{Geometry, Link, Medium, Trouble};

/// A side sector of this many blocks: in the last one the second byte names the last byte that is used.
fn ended(side: &[u8; 256], count: usize) -> [u8; 256]
    requires { count ≤ 120 }
    ensures whole { length result ≡ 256 }
    ensures ended { IsEnded side.now count result }
    ensures rest { (i : ℕ) → 2 ≤ i → slice_index result i ≡ slice_index side.now i }
{
    let mut new = *side;
    if new[0] == 0 {
        new[1] = (BLOCKS - 1 + 2 * count) as u8;
    }
    new
}

/// A side sector that lists the next 120 blocks of a chain, from a link on, and the link after them.
fn listed_from<M: Medium>(
    medium: &M,
    geometry: Geometry,
    side: &[u8; 256],
    first: Link,
) -> Result<([u8; 256], Link), Trouble>
    requires { geometry ≤ (M.seen medium.now).tracks }
    ensures chain { let now = M.seen medium.now in (blocks : List Place) → Chain geometry now.content first blocks →
        IsOkAnd result (λ r. ListsThese side.now (take 120 blocks) r.0 ×
        Chain geometry now.content r.1 (drop 120 blocks)) }
    ensures front { IfOk result (λ r. (i : ℕ) → 2 ≤ i → i < 16 → slice_index r.0 i ≡ slice_index side.now i) }
    ensures never_26 { IfErr result (λ t. t.code ≢ 26) }
    ensures shown { IfErr result (ShowsGround (M.seen medium.now)) }
{
    let mut new = cut_at(side, BLOCKS);
    let mut at = first;
    for number in 0..120usize {
        if at.is_end() {
            return Ok((ended(&new, number), at));
        }
        let bytes = read_at(medium, geometry, at)?;
        new[BLOCKS + 2 * number] = at.track();
        new[BLOCKS + 2 * number + 1] = at.sector();
        at = Link::of(&bytes);
    }
    Ok((ended(&new, 120), at))
}

/// Writes a side sector, which lists the next 120 blocks of a chain, from a link on then; answers the link after them.
fn write_side<M: Medium>(
    medium: &mut M,
    geometry: Geometry,
    side: Link,
    first: Link,
) -> Result<Link, Trouble>
    requires { geometry ≤ (M.seen medium.old).tracks }
    ensures listed { let old = M.seen medium.old in let new = M.seen medium.new in (blocks : List Place) →
        Has geometry side → IsOk (old.content side) → Chain geometry old.content first blocks →
        MatchResult result
        (λ next. IsSideListed old.content new.content side (take 120 blocks) ×
        Chain geometry old.content next (drop 120 blocks))
        (λ t. (new.content ≡ old.content) × IsNotWritten old new side t.code) }
    ensures only { OnlyContent geometry result (M.seen medium.old) (M.seen medium.new) }
{
    let Some(at) = side.address(geometry) else {
        return Err(side.trouble(ILLEGAL_LINK));
    };
    let sector = medium.read(at)?;
    let (new, next) = listed_from(medium, geometry, &sector, first)?;
    medium.write(at, &new)?;
    Ok(next)
}

/// The side sector of a number, counted from 0, as the first one lists it.
fn side_named(head: &[u8; 256], number: u8) -> Link
    requires { number < 6 }
    ensures { result ≡ place_in head.now (4 + 2 * number) }
{
    let place = SIDES + 2 * number as usize;
    Link::new(head[place], head[place + 1])
}

/// Whether two side sectors have the same bytes in the list of data blocks.
fn is_same_list(one: &[u8; 256], other: &[u8; 256]) -> bool
    ensures tells { result ≡ true → (i : ℕ) → 16 ≤ i → i < 256 → slice_index one.now i ≡ slice_index other.now i }
    ensures same { ((i : ℕ) → 16 ≤ i → i < 256 → slice_index one.now i ≡ slice_index other.now i) → result ≡ true }
{
    for place in BLOCKS..256 {
        if one[place] != other[place] {
            return false;
        }
    }
    true
}

/// Whether each side sector lists its next 120 blocks, with zeros after them. All of them are read, also after one that
/// doesn't.
fn are_listed<M: Medium>(
    medium: &M,
    geometry: Geometry,
    head: &[u8; 256],
    sides: u8,
    first: Link,
) -> Result<bool, Trouble>
    requires tracks { geometry ≤ (M.seen medium.now).tracks }
    requires sides { sides ≤ 6 }
    ensures listed { let now = M.seen medium.now in (file : Relative) (xs ss : List Place) →
        IsLaid geometry now.content file xs ss → first ≡ file.first →
        NamesSides head.now ss → length ss ≡ sides →
        IsOkAnd result (λ yes. yes ≡ true → AreListed now.content ss xs) }
    ensures form { let now = M.seen medium.now in (file : Relative) (xs ss : List Place) →
        IsLaid geometry now.content file xs ss → first ≡ file.first →
        NamesSides head.now ss → length ss ≡ sides → AreInForm now.content ss xs → result ≡ Ok true }
    ensures reads { OnOk result (SidesRead (M.seen medium.now).content head.now sides) }
    ensures never_26 { IfErr result (λ t. t.code ≢ 26) }
    ensures shown { IfErr result (ShowsGround (M.seen medium.now)) }
{
    let mut at = first;
    let mut same = true;
    for number in 0..sides {
        let side = read_at(medium, geometry, side_named(head, number))?;
        let (new, next) = listed_from(medium, geometry, &side, at)?;
        same &= is_same_list(&new, &side);
        at = next;
    }
    Ok(same)
}

/// Takes the lists of blocks away, from the last side sector down to the first.
fn unlist<M: Medium>(
    medium: &mut M,
    geometry: Geometry,
    head: &[u8; 256],
    sides: u8,
) -> Result<(), Trouble>
    requires tracks { geometry ≤ (M.seen medium.old).tracks }
    requires sides { sides ≤ 6 }
    ensures unlisted { let old = M.seen medium.old in let new = M.seen medium.new in
        (file : Relative) (xs ss : List Place) →
        AllWhole old.content → IsLaid geometry old.content file xs ss → AreApart xs ss →
        NamesSides head.now ss → length ss ≡ sides →
        IsRelisted geometry old.content new.content file xs ss ×
        MatchResult result (λ x. (i : ℕ) → i < length ss → lists_at new.content ss i ≡ [])
        (λ t. IsSideRefused old new t.code) }
    ensures only { OnlyContent geometry result (M.seen medium.old) (M.seen medium.new) }
{
    for passed in 0..sides {
        let side = side_named(head, sides - 1 - passed);
        write_side(medium, geometry, side, Link::new(0, 0))?;
    }
    Ok(())
}

/// Gives each side sector its next 120 blocks, from the first one up, if none lists any.
fn relist<M: Medium>(
    medium: &mut M,
    geometry: Geometry,
    head: &[u8; 256],
    sides: u8,
    first: Link,
) -> Result<(), Trouble>
    requires tracks { geometry ≤ (M.seen medium.old).tracks }
    requires sides { sides ≤ 6 }
    ensures relisted { let old = M.seen medium.old in let new = M.seen medium.new in
        (file : Relative) (xs ss : List Place) →
        AllWhole old.content → IsLaid geometry old.content file xs ss → AreApart xs ss → first ≡ file.first →
        NamesSides head.now ss → length ss ≡ sides →
        ((i : ℕ) → i < length ss → lists_at old.content ss i ≡ []) →
        IsRelisted geometry old.content new.content file xs ss ×
        MatchResult result (λ x. AreListed new.content ss xs) (λ t. IsSideRefused old new t.code) }
    ensures only { OnlyContent geometry result (M.seen medium.old) (M.seen medium.new) }
{
    let mut at = first;
    for number in 0..sides {
        at = write_side(medium, geometry, side_named(head, number), at)?;
    }
    Ok(())
}

/// Brings the side sectors of a file into the drive's form, in which each lists its next 120 blocks: their lists
/// are taken away, from the last one down, and then each gets its own, from the first one up, so that the file is sound
/// after each write. Nothing is written if each lists its blocks, with zeros after them, nor if a side sector
/// doesn't read. An `Err` is why a side sector or a block doesn't read, or why one isn't written: the file lies where
/// it lay.
pub fn list_anew<M: Medium>(
    medium: &mut M,
    geometry: Geometry,
    file: Relative,
    sides: u8,
) -> Result<(), Trouble>
    requires tracks { geometry ≤ (M.seen medium.old).tracks }
    requires sides { sides ≤ 6 }
    ensures laid { let old = M.seen medium.old in let new = M.seen medium.new in (xs ss : List Place) →
        AllWhole old.content → IsLaid geometry old.content file xs ss → AreApart xs ss → length ss ≡ sides →
        IsRelisted geometry old.content new.content file xs ss ×
        MatchResult result (λ x. AreListed new.content ss xs) (λ t. IsSideRefused old new t.code) }
    ensures form { let old = M.seen medium.old in (xs ss : List Place) →
        IsLaid geometry old.content file xs ss → length ss ≡ sides → AreInForm old.content ss xs →
        IsOk result × ((M.seen medium.new).content ≡ old.content) }
    ensures only { OnlyContent geometry result (M.seen medium.old) (M.seen medium.new) }
    // Nothing is written where a side sector doesn't read.
    ensures reads { OnOk result (HaveSides (M.seen medium.old).content file.side sides) }
    ensures spares { ((M.seen medium.new).content ≡ (M.seen medium.old).content) ⊎
        HaveSides (M.seen medium.old).content file.side sides }
{
    let head = read_at(medium, geometry, file.side())?;
    if are_listed(medium, geometry, &head, sides, file.first())? {
        return Ok(());
    }
    unlist(medium, geometry, &head, sides)?;
    relist(medium, geometry, &head, sides, file.first())
}
