//! Changes of a disk, as the drive makes them.
ghost use Rattle.std.specs.Prelude.{◌≡◌, ◌≤◌, MatchResult, IfErr, IfOk, IsOk, OnOk};
ghost use Rattle.cbm_machine.specs.Codes.{code_number};
ghost use Rattle.cbm_machine.specs.Machines.{Machine};
ghost use Rattle.cbm_channel.specs.Standing.{Stands};
ghost use Rattle.cbm_channel.specs.Going.{IsOutsideKept, KeepsMedium};
ghost use Rattle.cbm_file.specs.Files.{Disk};
ghost use Rattle.cbm_volume.specs.Holding.{HoldsDisk};
ghost use Rattle.cbm_shell.specs.Images.{IsSoundDisk};
ghost use Rattle.cbm_shell.specs.Editing.{IsUnedited};
ghost use Rattle.cbm_shell.specs.Changing.{change_formats, disk_after_change, IsFine, IsUndone, IsStatusRefusal, IsFaultOf, MakesChange};

pub(crate) mod art;
pub(crate) mod locking;
pub(crate) mod recording;
pub(crate) mod several;
pub(crate) mod swapping;

use crate::fault::ShellFault;
pub use art::{Looks, add_art, dress};
use cbm_channel::{Channels, Dos, Status};
use cbm_medium::{Medium, Steady};
use cbm_talk::hear;
use cbm_volume::Volume;
pub use locking::{lock, remark, retitle};
pub use recording::{Records, put_records};
pub use several::changes;
pub use swapping::{Swap, swap_entries};

/// The channel of commands.
const COMMANDS: u8 = 15;

/// The channel on which a file is written.
const WRITING: u8 = 2;

/// The first code of a status that reports an error.
const ERRORS: u8 = 20;

/// A change of a disk.
#[derive(Clone, Copy)]
pub enum DiskChange<'a> {
    /// A command for the drive, such as `R0:NEW=OLD`.
    Command(&'a [u8]),
    /// The text of an OPEN that writes a file, such as `0:NAME,P,W`, and the file's bytes.
    File(&'a [u8], &'a [u8]),
}

/// The status if it reports no error, else the refusal.
pub(crate) fn told(status: Status) -> Result<(), ShellFault>
    ensures { MatchResult result (λ _. IsFine status) (λ fault. (fault ≡ ShellFault.Refused status) × (20 ≤ code_number status.code)) }
{
    if status.code.number() < ERRORS {
        Ok(())
    } else {
        Err(ShellFault::Refused(status))
    }
}

/// Makes a change on a drive.
fn apply<M: Steady>(dos: &mut Dos<M>, change: &DiskChange<'_>) -> Result<(), ShellFault>
    ensures made { (m : Machine) → Stands M.seen dos.old m → MatchResult result
        (λ _. IsFine (disk_after_change change.now m).status × Stands M.seen dos.new (disk_after_change change.now m))
        (IsUndone change.now m) }
    ensures refused { IfErr result IsStatusRefusal }
    ensures medium { KeepsMedium (change_formats change.now) (M.seen dos.old.medium) (M.seen dos.new.medium) }
{
    match change {
        DiskChange::Command(text) => {
            dos.open(COMMANDS, text);
            told(dos.status())
        }
        DiskChange::File(text, bytes) => {
            dos.open(WRITING, text);
            told(dos.status())?;
            hear(dos, WRITING, bytes);
            dos.close(WRITING);
            told(dos.status())
        }
    }
}

/// Refuses a disk that isn't sound.
pub fn require_sound<M: Medium>(volume: &Volume<M>) -> Result<(), ShellFault>
    ensures sound { let now = M.seen volume.now in
        OnOk result (IsSoundDisk now.tracks now.content) }
    ensures exact { let now = M.seen volume.now in (d : Disk) → HoldsDisk now.tracks now.content d → IsOk result }
    ensures fault { let now = M.seen volume.now in IfErr result (IsUnedited now.tracks now.content ⊥) }
{
    match volume.check() {
        Ok(()) => Ok(()),
        Err(unsound) => Err(ShellFault::Unsound(unsound)),
    }
}

/// Makes a change on a disk, if it is sound. Errors: `Unsound`, and then nothing was changed; `Refused` with the drive's
/// status.
pub fn changed<M: Steady + Drop>(
    medium: M,
    channels: Channels,
    change: &DiskChange<'_>,
) -> Result<M, ShellFault>
    ensures made { MakesChange M.seen medium change.now result }
    // Of any disk:
    ensures sound { OnOk result (IsSoundDisk (M.seen medium).tracks (M.seen medium).content) }
    ensures fault { IfErr result (IsFaultOf (M.seen medium).tracks (M.seen medium).content) }
    ensures same_tracks { IfOk result (λ after. (M.seen after).tracks ≡ (M.seen medium).tracks) }
    ensures same_protection { IfOk result (λ after. (M.seen after).protected ≡ (M.seen medium).protected) }
    ensures same_outside { IfOk result (λ after. IsOutsideKept (change_formats change.now) (M.seen medium).outside (M.seen after).outside) }
{
    let volume = Volume::open(medium);
    require_sound(&volume)?;
    let mut dos = Dos::new(volume.into_medium(), channels);
    apply(&mut dos, change)?;
    Ok(dos.into_medium())
}
