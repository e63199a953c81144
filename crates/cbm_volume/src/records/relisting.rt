// A relative file that grows: its side sectors are brought into the drive's form.

ghost use Rattle.std.specs.Prelude.{◌≤◌, ℕ};
ghost use Rattle.cbm_medium.specs.Seen.{OnlyContent};
ghost use Rattle.cbm_relfile.specs.Relisting.{AreInForm};
ghost use Rattle.cbm_volume.specs.Calls.{IsLeftAlone};
ghost use Rattle.cbm_volume.specs.Growing.{OfSized};
ghost use Rattle.cbm_volume.specs.Relists.{ListsAnew};

use cbm_medium::{Geometry, Medium, Trouble};
use cbm_relfile::Relative;

/// Brings the side sectors of a file into the drive's form, in which each lists its next 120 blocks; a file that
/// is in it is left as it is. The disk is the same after each write. On a sound disk an `Err` says that the medium is
/// protected (26), with nothing changed, or failed by itself.
pub(crate) fn list_anew<M: Medium>(
    medium: &mut M,
    geometry: Geometry,
    file: Relative,
    sides: u8,
) -> Result<(), Trouble>
    requires tracks { geometry ≤ (M.seen medium.old).tracks }
    requires sides { sides ≤ 6 }
    ensures listed { ListsAnew result (M.seen medium.old) (M.seen medium.new) geometry file sides }
    ensures form { let old = M.seen medium.old in (n b : ℕ) → OfSized geometry old file n b sides (λ d uses w rs o.
        let l = o.holds.layout in AreInForm old.content (l.files n).sides (l.files n).data_blocks → IsLeftAlone result old (M.seen medium.new)) }
    ensures only { OnlyContent geometry result (M.seen medium.old) (M.seen medium.new) }
{
    // Each sector that reads has 256 bytes.
    let _tracks = medium.tracks();
    cbm_relfile::list_anew(medium, geometry, file, sides)
}
