//! A way along a chain that enters no sector twice.
ghost use Rattle.std.specs.Prelude.{◌≡◌, ◌≢◌, ◌≤◌, ◌<◌, ◌+◌, ◌-◌, [], IfOk, IfErr, OnOk, OnSome, Some};
ghost use Rattle.cbm_medium.specs.Links.{bytes_at, link, with_block};
ghost use Rattle.cbm_bam.specs.Marks.{is_marked, nothing};
ghost use Rattle.cbm_salvage.specs.Trails.{follow_once, trail_left, GivesSector};

use cbm_bam::SectorSet;
use cbm_medium::codes::{ENDLESS_CHAIN, ILLEGAL_LINK};
use cbm_medium::{Geometry, Link, Medium, Trouble};

/// A sector that a trail enters.
#[derive(Drop)]
pub(crate) struct Step {
    /// Where it lies.
    pub(crate) at: Link,
    /// Its bytes.
    pub(crate) bytes: [u8; 256],
}

/// Goes along a chain, and enters no sector twice.
#[derive(Drop)]
pub(crate) struct Trail {
    geometry: Geometry,
    // The sectors that came already.
    seen: SectorSet,
    next: Link,
    // How many sectors are left to the chain.
    left: u16,
    // Why the chain is cut off, once that was met.
    trouble: Option<Trouble>,
}

/// Enters the next sector of a chain, and answers its bytes: 66 where the disk has no such sector, 71 where it came already or
/// is one too many, else the medium's fault.
fn enter<M: Medium>(
    medium: &M,
    geometry: Geometry,
    left: u16,
    seen: &mut SectorSet,
    at: Link,
) -> Result<[u8; 256], Trouble>
    requires tracks { geometry ≤ (M.seen medium.now).tracks }
    requires going { at.track ≢ 0 }
    ensures ok { let content = (M.seen medium.now).content in IfOk result (λ bytes.
        follow_once geometry content left (is_marked seen.old) at
        ≡ with_block at (follow_once geometry content (left - 1) (is_marked seen.new) (link bytes))) }
    ensures read { IfOk result (λ bytes. bytes_at (M.seen medium.now).content at ≡ bytes) }
    ensures left { OnOk result (0 < left) }
    ensures err { IfErr result (λ t. follow_once geometry (M.seen medium.now).content left (is_marked seen.old) at
        ≡ (record { blocks = []; trouble = Some t })) }
{
    let Some(address) = at.address(geometry) else {
        return Err(at.trouble(ILLEGAL_LINK));
    };
    if left == 0 || seen.has(address) {
        return Err(at.trouble(ENDLESS_CHAIN));
    }
    let bytes = medium.read(address)?;
    seen.insert(address);
    Ok(bytes)
}

impl Trail {
    /// Stands before the first sector of a chain of at most this many. It reads nothing.
    pub(crate) fn begin(geometry: Geometry, left: u16, first: Link) -> Trail
        ensures left { (content : _) → trail_left content result ≡ follow_once geometry content left nothing first }
        ensures tracks { result.geometry ≡ geometry }
    {
        Trail {
            geometry,
            seen: SectorSet::new(),
            next: first,
            left,
            trouble: None,
        }
    }

    /// Why the chain is cut off, once no sector came.
    pub(crate) fn trouble(&self) -> Option<Trouble>
        ensures { result ≡ self.now.trouble }
    {
        self.trouble
    }

    /// The next sector; None where the chain has ended, or is cut off.
    pub(crate) fn next<M: Medium>(&mut self, medium: &M) -> Option<Step>
        requires { self.old.geometry ≤ (M.seen medium.now).tracks }
        ensures gives { let content = (M.seen medium.now).content in
            GivesSector content (trail_left content self.old) (trail_left content self.new) self.new.trouble result }
        ensures tracks { self.new.geometry ≡ self.old.geometry }
        ensures left { OnSome result (self.new.left + 1 ≡ self.old.left) }
    {
        self.trouble = None;
        if self.next.is_end() {
            return None;
        }
        let at = self.next;
        match enter(medium, self.geometry, self.left, &mut self.seen, at) {
            Ok(bytes) => {
                self.next = Link::of(&bytes);
                self.left -= 1;
                Some(Step { at, bytes })
            }
            Err(trouble) => {
                self.trouble = Some(trouble);
                None
            }
        }
    }
}
