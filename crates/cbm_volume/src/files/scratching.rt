// Files that are scratched.

ghost use Rattle.std.specs.Prelude.{◌≡◌, ◌≢◌, ◌==◌, ◌≤◌, ◌++◌, true, length, Some, IsOk, OnOk, OnErr, IfErr};
ghost use Rattle.cbm_medium.specs.Place.{sector_count};
ghost use Rattle.cbm_medium.specs.Seen.{ShowsGround};
ghost use Rattle.cbm_file.specs.Files.{File, file_at};
ghost use Rattle.cbm_file.specs.Changes.{scratched};
ghost use Rattle.cbm_bam.specs.Map.{Frees};
ghost use Rattle.cbm_directory.specs.Entries.{is_relative};
ghost use Rattle.cbm_volume.specs.Blocks.{Blocks, LiesAs};
ghost use Rattle.cbm_volume.specs.Opens.{IsUnused};
ghost use Rattle.cbm_volume.specs.Calls.{OnlyOnDisk, OfDisk, IsChange};
ghost use Rattle.cbm_volume.specs.Led.{FreesFile, ScratchesLed, ScratchStopped};

use crate::volume::Volume;
use cbm_bam::Release;
use cbm_chain::free_chain;
use cbm_directory::{Entry, clear_slot};
use cbm_medium::{Geometry, Medium, Trouble};
use cbm_relfile::free_sides;

impl<M: Medium> Volume<M> {
    /// SCRATCH of one slot: its entry is cleared, and then the blocks of a closed file are given back, and with them
    /// the side sectors of a relative one; those of a file that was never closed are lost until VALIDATE. Nothing is
    /// written if the file's chain or the list of its side sectors breaks off. An `Err` leaves the slot as it was,
    /// or empty and its blocks to nobody. On a sound disk it says that the medium is protected (26), or failed by
    /// itself.
    pub fn scratch(&mut self, slot: u8) -> Result<(), Trouble>
        ensures call { OfDisk (M.seen self.old) (λ d uses. (f : File) → file_at d slot ≡ Some f → IsUnused uses slot →
            IsChange result (M.seen self.old) (M.seen self.new) d (scratched d slot) uses (λ m. m == slot)) }
        ensures led { OnOk result (ScratchesLed (M.seen self.old) (M.seen self.new) slot) }
        ensures stopped { OnErr result (ScratchStopped (M.seen self.old) (M.seen self.new) slot) }
        ensures only { OnlyOnDisk result (M.seen self.old) (M.seen self.new) }
    {
        let geometry = self.geometry();
        let Some(entry) = self.slot(slot)? else {
            return Ok(());
        };
        if !entry.is_closed() {
            return clear_slot(&mut self.medium, geometry, slot);
        }
        let mut release = Release::begin(&self.medium, geometry)?;
        free_file(&self.medium, geometry, &entry, &mut release)?;
        clear_slot(&mut self.medium, geometry, slot)?;
        release.write(&mut self.medium, geometry)
    }
}

/// Gives all sectors of a closed file back to a map that was read: its blocks, and its side sectors if it is
/// relative. An `Err` is what breaks off its chain (66, 71 or the medium's fault) or the list of its side sectors (66
/// or the medium's fault).
fn free_file<M: Medium>(
    medium: &M,
    geometry: Geometry,
    entry: &Entry,
    release: &mut Release,
) -> Result<(), Trouble>
    requires { geometry ≤ (M.seen medium.now).tracks }
    ensures freed { (b : Blocks) → LiesAs true (is_relative entry.now) geometry (M.seen medium.now).content entry.now b →
        length b.data_blocks ≤ sector_count geometry →
        IsOk result × Frees geometry release.old (b.data_blocks ++ b.sides) release.new }
    ensures given { let old = (M.seen medium.now).content in
        OnOk result (FreesFile geometry old entry.now release.old release.new) }
    ensures never_26 { IfErr result (λ t. t.code ≢ 26) }
    ensures shown { IfErr result (ShowsGround (M.seen medium.now)) }
{
    free_chain(medium, geometry, entry.first_block(), release)?;
    if !entry.is_relative() {
        return Ok(());
    }
    free_sides(medium, geometry, entry.first_side(), release)
}
