ghost use Rattle.std.specs.Prelude.{◌≡◌, ◌≢◌, ℕ, ◌-◌, ◌<◌, ◌≤◌, ◌↔◌, List, length, Some, None, IfOk, IfErr, OnOk, SomeIff, IsTrue};
ghost use Rattle.cbm_medium.specs.Place.{Place, Has};
ghost use Rattle.cbm_medium.specs.Content.{Content, written};
ghost use Rattle.cbm_medium.specs.Links.{link, Chain, IsCut, follow, ended, IsApart};
ghost use Rattle.cbm_medium.specs.declared.fault.Trouble.{Trouble};
ghost use Rattle.cbm_medium.specs.Met.{WalksOn};
ghost use Rattle.cbm_medium.specs.Seen.{ShowsGround};

use crate::address::Address;
use crate::codes::{ENDLESS_CHAIN, ILLEGAL_LINK};
use crate::fault::Trouble;
use crate::geometry::Geometry;
use crate::medium::Medium;
use std::marker::Model;

/// The two bytes by which one sector names another, of the disk or not (Inside Commodore DOS).
#[derive(Clone, Copy, Debug, PartialEq, Eq)]
pub struct Link {
    track: u8,
    sector: u8,
}

impl Model for Link {
    ghost use Rattle.cbm_medium.specs.Place.{Place};

    ghost Value = { Place };

    ghost view = { λ l. record { track = l.track; sector = l.sector } };

    ghost inverse = { λ p. record { track = p.track; sector = p.sector } };
}

impl Link {
    /// The link of these two bytes.
    pub fn new(track: u8, sector: u8) -> Link
        ensures { result ≡ (record { track = track; sector = sector }) }
    {
        Link { track, sector }
    }

    /// The link in a sector's first two bytes.
    pub fn of(sector: &[u8; 256]) -> Link
        ensures { result ≡ link sector.now }
    {
        Link {
            track: sector[0],
            sector: sector[1],
        }
    }

    /// Its first byte.
    pub fn track(self) -> u8
        ensures { result ≡ self.track }
    {
        self.track
    }

    /// Its second byte.
    pub fn sector(self) -> u8
        ensures { result ≡ self.sector }
    {
        self.sector
    }

    /// Whether it says that its sector is the last: track 0.
    pub fn is_end(self) -> bool
        ensures { IsTrue result ↔ (self.track ≡ 0) }
    {
        self.track == 0
    }

    /// The sector that it names, None if a disk of this geometry has no such sector.
    pub fn address(self, geometry: Geometry) -> Option<Address>
        ensures { SomeIff result (Has geometry self) self }
    {
        Address::new(self.track, self.sector).filter(|at| geometry.has(*at))
    }

    /// A trouble at the place that it names.
    pub fn trouble(self, code: u8) -> Trouble
        ensures { result ≡ (record { code = code; track = self.track; sector = self.sector }) }
    {
        Trouble {
            code,
            track: self.track,
            sector: self.sector,
        }
    }
}

impl From<Address> for Link {
    ghost from_gives = { λ a l. l ≡ a };

    fn from(at: Address) -> Link {
        Link {
            track: at.track(),
            sector: at.sector(),
        }
    }
}

/// Reads the sector that a link names, if this many sectors are left to the walk: 66 if the disk has no such
/// sector, 71 if none is left, else what the medium answers.
#[tactic(auto, unfolding(crate::specs::Links::follow))]
pub fn read_linked<M: Medium>(
    medium: &M,
    geometry: Geometry,
    at: Link,
    left: u16,
) -> Result<[u8; 256], Trouble>
    requires tracks { geometry ≤ (M.seen medium.now).tracks }
    requires going { at.track ≢ 0 }
    ensures ok { IfOk result (λ bytes. (M.seen medium.now).content at ≡ Ok bytes) }
    ensures has { OnOk result (Has geometry at) }
    ensures step { WalksOn geometry (M.seen medium.now).content left at result link }
    ensures shown { IfErr result (ShowsGround (M.seen medium.now)) }
{
    let Some(address) = at.address(geometry) else {
        return Err(at.trouble(ILLEGAL_LINK));
    };
    if left == 0 {
        return Err(at.trouble(ENDLESS_CHAIN));
    }
    let bytes = medium.read(address)?;
    Ok(bytes)
}

/// Following links gives the blocks of a chain that is short enough, and no others; and if it is cut, the blocks
/// up to there, with 66 at a link to no sector of the disk, 71 at one sector too many, or the fault of the sector.
pub fn chains_are_followed()
    ensures whole { (tracks : ℕ) (content : Content) (most : ℕ) (a : Place) (blocks : List Place) →
        ((Chain tracks content a blocks × (length blocks ≤ most)) ↔ (follow tracks content most a ≡ ended blocks)) }
    ensures cut { (tracks : ℕ) (content : Content) (most : ℕ) (a : Place) (blocks : List Place) (t : Trouble) →
        (IsCut tracks content most a blocks t ↔
        (follow tracks content most a ≡ (record { blocks = blocks; trouble = Some t }))) }
{}

/// A write to a sector that is none of a chain's leaves the chain.
pub fn writes_elsewhere_change_no_chain()
    ensures { (tracks : ℕ) (content : Content) (a : Place) (blocks : List Place) (p : Place) (bytes : List ℕ) →
        Chain tracks content a blocks → IsApart p blocks → Chain tracks (written content p bytes) a blocks }
{}
