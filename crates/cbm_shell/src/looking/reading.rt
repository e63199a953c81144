//! Taking a file out.
ghost use Rattle.std.specs.Prelude.{◌≡◌, ℕ, List, IfOk, IfErr, None, MatchResult};
ghost use Rattle.cbm_file.specs.Files.{Disk};
ghost use Rattle.cbm_volume.specs.Holding.{HoldsDisk, EntryStandsAt, HasBytes};
ghost use Rattle.cbm_shell.specs.Reading.{IsReadFault, Gets, IsGetFault, ShowsFile, file_held};

use crate::fault::ShellFault;
use cbm_command::matches;
use cbm_medium::Medium;
use cbm_volume::{Entry, Volume, Wanted};
use std::alloc::{AllocError, Global};

/// A file that is looked for by a pattern, whatever its type.
#[derive(Drop)]
pub struct Named<'a> {
    pattern: &'a [u8],
}

impl Wanted for Named<'_> {
    ghost use Rattle.std.specs.Prelude.{None};
    ghost use Rattle.cbm_channel.specs.Sought.{is_sought};

    ghost wants = { λ s. is_sought s.pattern.now None };

    fn wants(&self, entry: &Entry) -> bool {
        !entry.is_empty() && matches(self.pattern, entry.name())
    }
}

/// The bytes of an entry's file, in the order of its chain; of a relative file all records with what follows them in the
/// last block. Errors: `Trouble` where the chain can't be followed to its end, `Memory`.
pub fn read_file<M: Medium>(
    alloc: Global,
    volume: &Volume<M>,
    entry: &Entry,
) -> Result<Vec<u8>, ShellFault>
    ensures ok { IfOk result (λ v. file_held (M.seen volume.now) entry.now ≡ (record { bytes = v.items; trouble = None })) }
    ensures err { IfErr result (IsReadFault (file_held (M.seen volume.now) entry.now).trouble) }
    ensures means { let now = M.seen volume.now in (d : Disk) (n : ℕ) (bytes : List ℕ) →
        HoldsDisk now.tracks now.content d → EntryStandsAt now.tracks now.content n entry.now → HasBytes d n bytes →
        MatchResult result (λ v. v.items ≡ bytes) (λ fault. fault ≡ ShellFault.Memory) }
{
    let mut reader = volume.begin_read(entry)?;
    let mut bytes = Vec::new(alloc);
    'bytes: while let Some((byte, _)) = reader.peek() {
        bytes.push(byte).map_err(AllocError::from)?;
        volume.read_on(&mut reader)?;
    }
    Ok(bytes)
}

/// Takes out the first file whose name matches a pattern, of any type. Errors: `NotFound`, `NotClosed`, `Trouble` where
/// the directory or the file can't be followed to its end, `Memory`.
pub fn get<M: Medium>(
    alloc: Global,
    volume: &Volume<M>,
    pattern: &[u8],
) -> Result<Vec<u8>, ShellFault>
    ensures means { (d : Disk) → HoldsDisk (M.seen volume.now).tracks (M.seen volume.now).content d →
        MatchResult result (λ v. Gets d pattern.now v.items) (IsGetFault d pattern.now) }
    // What stands before the place where the directory breaks off is got all the same.
    ensures shown { (bytes : List ℕ) → ShowsFile (M.seen volume.now) pattern.now bytes →
        MatchResult result (λ v. v.items ≡ bytes) (λ fault. fault ≡ ShellFault.Memory) }
{
    let Some((_, entry)) = volume.find(&Named { pattern })? else {
        return Err(ShellFault::NotFound);
    };
    if !entry.is_closed() {
        return Err(ShellFault::NotClosed);
    }
    read_file(alloc, volume, &entry)
}
