ghost use Rattle.std.specs.Prelude.{ℕ, List};
ghost use Rattle.cbm_device.specs.Devices.{OnLines};
ghost use Rattle.cbm_device.specs.Snapshots.{IsSnapshot, IsRestoredFrom, IsSameDrive};

/// A law: a drive that is read from the bytes of a drive's whole state is the same to all that is promised of a drive.
pub fn a_restored_drive_is_the_saved_one()
    ensures { (old : OnLines) (new : OnLines) (bytes : List ℕ) → IsSnapshot old bytes → IsRestoredFrom bytes new → IsSameDrive old new }
{}
