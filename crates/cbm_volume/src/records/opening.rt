// OPEN of a relative file that is there: its side sectors are looked at.

ghost use Rattle.std.specs.Prelude.{◌≡◌, ◌⊎◌, ℕ, List, true, IsOk, OnOk, IfErr};
ghost use Rattle.cbm_medium.specs.Met.{IsMetFrom};
ghost use Rattle.cbm_file.specs.Files.{Disk, File, Records, file_at};
ghost use Rattle.cbm_bam.specs.Map.{geometry_of};
ghost use Rattle.cbm_directory.specs.Entries.{first_side};
ghost use Rattle.cbm_volume.specs.Holding.{HoldsDisk, EntryStandsAt};
ghost use Rattle.cbm_volume.specs.RecordFaults.{IsMislisted};
ghost use Rattle.cbm_volume.specs.check.SideLists.{are_records};

use crate::check::has_records;
use crate::volume::Volume;
use cbm_directory::Entry;
use cbm_medium::codes::{ENDLESS_CHAIN, ILLEGAL_LINK};
use cbm_medium::{Medium, Trouble};

impl<M: Medium> Volume<M> {
    /// Looks whether the side sectors of a relative file's entry are right, so that its records can be used. An `Err`
    /// is 71 at the first side sector if they aren't, and 66 or the medium's fault if that doesn't read.
    pub fn open_records(&self, entry: &Entry) -> Result<(), Trouble>
        ensures means { let now = M.seen self.now in (d : Disk) (n : ℕ) (f : File) (w b s : ℕ) (rs : List (List ℕ)) →
            HoldsDisk now.tracks now.content d → EntryStandsAt now.tracks now.content n entry.now →
            file_at d n ≡ Some f → f.body ≡ Records w rs b s → IsOk result }
        ensures right { let now = M.seen self.now in
            OnOk result (are_records (geometry_of now.tracks now.content) now.content entry.now ≡ true) }
        ensures cause { let now = M.seen self.now in let tracks = geometry_of now.tracks now.content in
            IfErr result (λ t. IsMetFrom tracks now.content (λ q. q ≡ first_side entry.now) t ⊎
            IsMislisted tracks now.content entry.now t) }
    {
        let geometry = self.geometry();
        let at = entry.first_side();
        let Some(address) = at.address(geometry) else {
            return Err(at.trouble(ILLEGAL_LINK));
        };
        let first = self.medium.read(address)?;
        if has_records(&self.medium, geometry, entry, &first) {
            return Ok(());
        }
        Err(at.trouble(ENDLESS_CHAIN))
    }
}
