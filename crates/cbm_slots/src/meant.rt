//! The file that a slot means, and the names that the others have.
ghost use Rattle.std.specs.Prelude.{◌≡◌, IfOk, IfErr, slice_range};
ghost use Rattle.cbm_shell.specs.declared.fault.ShellFault.{ShellFault};
ghost use Rattle.cbm_slots.specs.InSlots.{is_named, has_name, AreEntriesOf, IsMeant, IsNoFile};

use cbm_channel::{Code, Status};
use cbm_shell::{ShellFault, entries};
use cbm_volume::Entry;
use std::alloc::Global;
use std::ops::Range;

/// Where an entry's thirty bytes have its name.
const NAME: Range<usize> = 3..19;

/// The entries of a directory, and what the one says whose file is meant.
#[derive(Drop)]
pub(crate) struct Meant {
    /// All entries, those of empty slots too.
    pub(crate) entries: Vec<Entry>,
    /// The name, filled up with $A0.
    pub(crate) name: [u8; 16],
    /// How many blocks it says.
    pub(crate) blocks: u16,
    /// Whether the file is locked.
    pub(crate) is_locked: bool,
}

/// The bytes of an entry's name, with what fills it up.
fn whole_name(entry: &Entry) -> [u8; 16]
    ensures { result ≡ slice_range entry.now 3 19 }
{
    let mut name = [0; 16];
    name.copy_from_slice(&entry.bytes()[NAME]);
    name
}

/// The file in a slot of an image's directory. Errors: those of `entries`; `NotFound`, if the slot has none.
pub(crate) fn find_meant(alloc: Global, image: &[u8], slot: u8) -> Result<Meant, ShellFault>
    ensures all { IfOk result (λ m. AreEntriesOf image.now m.entries.items) }
    ensures there { IfOk result (IsMeant slot) }
    ensures err { IfErr result (IsNoFile image.now slot) }
{
    let entries = entries(alloc, image)?;
    let Some(entry) = entries.as_slice().get(slot as usize) else {
        return Err(ShellFault::NotFound);
    };
    if entry.is_empty() {
        return Err(ShellFault::NotFound);
    }
    let (name, blocks, is_locked) = (whole_name(entry), entry.blocks(), entry.is_locked());
    Ok(Meant {
        entries,
        name,
        blocks,
        is_locked,
    })
}

/// Whether an entry is that of a file of this name.
pub(crate) fn is_named(entry: &Entry, name: &[u8]) -> bool
    ensures { result ≡ is_named name.now entry.now }
{
    !entry.is_empty() && entry.name() == name
}

/// Whether a file has a name.
pub(crate) fn has_name(entries: &[Entry], name: &[u8]) -> bool
    ensures { result ≡ has_name name.now entries.now }
{
    let mut rest = entries;
    'entries: while let Some((entry, more)) = rest.split_first() {
        if is_named(entry, name) {
            return true;
        }
        rest = more;
    }
    false
}

/// The refusal of a drive that needs no place on the disk.
pub(crate) fn refused(code: Code) -> ShellFault
    ensures { result ≡ ShellFault.Refused (record { code = code; first = 0; second = 0 }) }
{
    ShellFault::Refused(Status {
        code,
        first: 0,
        second: 0,
    })
}
