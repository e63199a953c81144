// VALIDATE: the map is written anew from the closed files.

ghost use Rattle.std.specs.Prelude.{◌≡◌, ◌≢◌, ◌≤◌, ◌⊎◌, true, false, IfOk, IfErr, IsOk, IsErrAnd, OnOk, OnErr, ℕ};
ghost use Rattle.cbm_medium.specs.Place.{directory_head};
ghost use Rattle.cbm_medium.specs.Seen.{ShowsGround, OnlyContent};
ghost use Rattle.cbm_medium.specs.Content.{written};
ghost use Rattle.cbm_file.specs.Files.{Disk};
ghost use Rattle.cbm_file.specs.Changes.{validated};
ghost use Rattle.cbm_bam.specs.Map.{geometry_of};
ghost use Rattle.cbm_bam.specs.Marks.{is_marked};
ghost use Rattle.cbm_volume.specs.Holding.{HoldsDisk, OfSound};
ghost use Rattle.cbm_volume.specs.Opens.{IsHindered};
ghost use Rattle.cbm_volume.specs.Views.{view_of};
ghost use Rattle.cbm_volume.specs.Unmendable.{code_at, flaw_code, IsUnmendable, IsUnmended};
ghost use Rattle.cbm_volume.specs.SeenDisks.{seen_tracks};
ghost use Rattle.cbm_volume.specs.Sweeps.{OfDirectory, IsSwept, SlotSwept, PutsInOrder, StopsSweep};
ghost use Rattle.cbm_volume.specs.check.WholeDisk.{ClaimsInto};
ghost use Rattle.cbm_volume.specs.Calls.{OnlyOnDisk, OfDisk, OfUnusedDisk, IsChange, KeepsProtected};
ghost use Rattle.cbm_bam.specs.Causes.{IsHeadRefused};

use crate::check::{Flaw, Unsound, check_disk};
use crate::disk::view::ClosedView;
use crate::volume::Volume;
use cbm_bam::{SectorSet, anew, read_map};
use cbm_directory::{clear_slot, slot};
use cbm_medium::codes::{ENDLESS_CHAIN, ILLEGAL_LINK, WRITE_PROTECT_ON};
use cbm_medium::{Address, Geometry, Link, Medium, Trouble};

/// The most slots that a directory has.
const SLOTS: u8 = 144;

/// The code of the fault that stands at a place of the disk; 71 if none does.
fn code_at<M: Medium>(medium: &M, geometry: Geometry, at: Link) -> u8
    requires { geometry ≤ (M.seen medium.now).tracks }
    ensures value { result ≡ code_at geometry (M.seen medium.now).content at }
    ensures never_26 { result ≢ 26 }
    ensures shown { (result ≡ 71) ⊎ ((M.seen medium.now).content at ≡ Err result) }
{
    let Some(address) = at.address(geometry) else {
        return ENDLESS_CHAIN;
    };
    match medium.read(address) {
        Ok(_) => ENDLESS_CHAIN,
        Err(fault) => fault.code,
    }
}

/// The code of a flaw that VALIDATE can't mend: the fault of the sector itself if that is at fault, 66 for a link
/// to no sector for it, and 71 for all else.
fn flaw_code<M: Medium>(medium: &M, geometry: Geometry, flaw: Unsound) -> u8
    requires { geometry ≤ (M.seen medium.now).tracks }
    ensures value { result ≡ flaw_code geometry (M.seen medium.now).content flaw }
    ensures never_26 { result ≢ 26 }
    ensures shown { ShowsGround (M.seen medium.now) (record { code = result; track = flaw.track; sector = flaw.sector }) }
{
    if flaw.is(Flaw::BadHeader) || flaw.is(Flaw::Unreadable) {
        return code_at(medium, geometry, Link::new(flaw.track, flaw.sector));
    }
    if flaw.is(Flaw::ChainOutside) || flaw.is(Flaw::DirectoryChain) {
        return ILLEGAL_LINK;
    }
    ENDLESS_CHAIN
}

/// The sectors of the directory and of the closed files, if nothing is wrong with them; what the map has as free
/// and how it counts is no matter.
fn closed_sectors<M: Medium>(medium: &M) -> Result<SectorSet, Trouble>
    ensures ok { let now = M.seen medium.now in let tracks = geometry_of now.tracks now.content in
        IfOk result (λ set. ClaimsInto tracks (view_of tracks now.content) (is_marked set)) }
    ensures exact { OfSound (M.seen medium.now) (λ l. IsOk result) }
    ensures err { IfErr result (IsUnmendable (seen_tracks (M.seen medium.now)) (M.seen medium.now).content) }
    ensures never_26 { IfErr result (λ t. t.code ≢ 26) }
    ensures shown { IfErr result (ShowsGround (M.seen medium.now)) }
{
    let geometry = cbm_bam::geometry(medium);
    let view = ClosedView { medium, geometry };
    match check_disk(&view) {
        Ok(used) => Ok(used),
        Err(flaw) => Err(Trouble {
            code: flaw_code(medium, geometry, flaw),
            track: flaw.track,
            sector: flaw.sector,
        }),
    }
}

/// Makes a slot empty that was never closed.
fn sweep_slot<M: Medium>(medium: &mut M, geometry: Geometry, number: u8) -> Result<(), Trouble>
    requires { geometry ≤ (M.seen medium.old).tracks }
    ensures swept { let old = M.seen medium.old in OfDirectory geometry old.content (λ directory.
        OnOk result (SlotSwept old.content (M.seen medium.new).content directory number)) }
    ensures err { OnErr result ((M.seen medium.new).content ≡ (M.seen medium.old).content) }
    ensures cause { StopsSweep geometry (M.seen medium.old) (M.seen medium.new) result }
    ensures only { OnlyContent geometry result (M.seen medium.old) (M.seen medium.new) }
{
    let Some(entry) = slot(medium, geometry, number)? else {
        return Ok(());
    };
    if entry.is_closed() || entry.is_empty() {
        return Ok(());
    }
    clear_slot(medium, geometry, number)
}

/// Makes each slot empty that was never closed, in their order.
fn sweep<M: Medium>(medium: &mut M, geometry: Geometry) -> Result<(), Trouble>
    requires { geometry ≤ (M.seen medium.old).tracks }
    ensures swept { let old = M.seen medium.old in OfDirectory geometry old.content (λ directory.
        OnOk result (IsSwept old.content (M.seen medium.new).content directory 144)) }
    ensures stopped { let old = M.seen medium.old in OfDirectory geometry old.content (λ directory.
        OnErr result ((k : ℕ) × IsSwept old.content (M.seen medium.new).content directory k)) }
    ensures cause { StopsSweep geometry (M.seen medium.old) (M.seen medium.new) result }
    ensures only { OnlyContent geometry result (M.seen medium.old) (M.seen medium.new) }
{
    for number in 0..SLOTS {
        sweep_slot(medium, geometry, number)?;
    }
    Ok(())
}

/// Writes the map. An `Err` changes nothing.
fn write_map<M: Medium>(medium: &mut M, geometry: Geometry, map: &[u8; 256]) -> Result<(), Trouble>
    requires { geometry ≤ (M.seen medium.old).tracks }
    ensures ok { OnOk result ((M.seen medium.new).content ≡ written (M.seen medium.old).content directory_head
        map.now) }
    ensures err { OnErr result ((M.seen medium.new).content ≡ (M.seen medium.old).content) }
    ensures cause { IfErr result (λ t. IsHeadRefused (M.seen medium.old) (M.seen medium.new) t.code) }
    ensures only { OnlyContent geometry result (M.seen medium.old) (M.seen medium.new) }
{
    prove!(geometry.tracks() >= 35);
    medium.write(Address::of_map(), map)?;
    Ok(())
}

impl<M: Medium> Volume<M> {
    /// VALIDATE: slots that were never closed become empty, and the map is made again from the directory and the
    /// closed files, so that each block is free or a file's. If a header has a fault, a sector of these doesn't
    /// read or is used twice, a link leads elsewhere, or an entry or the records of a file aren't right, nothing is
    /// changed, and the `Err` reports the first that is met. Else an `Err` is the medium's refusal: 26 if it is
    /// protected, with nothing changed.
    pub fn validate(&mut self) -> Result<(), Trouble>
        ensures call { OfUnusedDisk (M.seen self.old) (λ d uses.
            IsChange result (M.seen self.old) (M.seen self.new) d (validated d) uses (λ m. false)) }
        // On any content: what can't be mended is reported, and nothing is changed; else the medium refused a write.
        ensures refused { IfErr result (λ t. IsUnmended (M.seen self.old) (M.seen self.new) t ⊎ IsHindered (M.seen self.old) (M.seen self.new) t) }
        // On any content: the disk is sound; closed entries, their files and the label stay.
        ensures sound { OnOk result ((e : Disk) × HoldsDisk (M.seen self.old).tracks (M.seen self.new).content e × (e ≡ validated e)) }
        ensures in_order { PutsInOrder result (M.seen self.old) (M.seen self.new) }
        ensures kept { KeepsProtected (M.seen self.old) (M.seen self.new) }
        ensures guarded { OfDisk (M.seen self.old) (λ d uses. (M.seen self.old).protected ≡ true → IsErrAnd result (λ t. t.code ≡ 26)) }
        ensures only { OnlyOnDisk result (M.seen self.old) (M.seen self.new) }
    {
        let geometry = self.geometry();
        let used = closed_sectors(&self.medium)?;
        if self.medium.protected() {
            return Err(Trouble {
                code: WRITE_PROTECT_ON,
                track: 0,
                sector: 0,
            });
        }
        let map = read_map(&self.medium, geometry)?;
        sweep(&mut self.medium, geometry)?;
        write_map(&mut self.medium, geometry, &anew(&map, geometry, &used))
    }
}
