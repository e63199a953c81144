//! The directory, as the drive sends it.
ghost use Rattle.std.specs.Prelude.{◌≡◌, ◌≤◌, ◌++◌, IfOk, OnOk, MatchResult};
ghost use Rattle.cbm_machine.specs.Machines.{Machine};
ghost use Rattle.cbm_channel.specs.Standing.{Stands};
ghost use Rattle.cbm_shell.specs.Listing.{list_text, listed, IsSent, IsListing, IsUnlisted};

use crate::fault::ShellFault;
use crate::texts::petscii::Charset;
use crate::texts::readable::readable_listing;
use cbm_channel::Dos;
use cbm_medium::Steady;
use cbm_talk::said;
use std::alloc::{AllocError, Global};

/// The channel on which the directory is asked for.
const LISTING: u8 = 0;

/// More bytes than any listing has.
const MOST: u32 = 5000;

/// The text that asks for the directory: all of it where the pattern is empty.
fn list_text(alloc: Global, pattern: &[u8]) -> Result<Vec<u8>, AllocError>
    ensures { IfOk result (λ v. v.items ≡ list_text pattern.now) }
{
    if pattern.is_empty() {
        return Vec::from_slice(alloc, b"$");
    }
    let mut text = Vec::from_slice(alloc, b"$0:")?;
    text.extend_from_slice(pattern)?;
    Ok(text)
}

/// The directory of a drive's disk as the drive sends it, a BASIC program, with the files that match a pattern; an empty
/// pattern asks for all. Errors: `Refused` with the drive's status, `Memory`.
pub fn raw_list<M: Steady>(
    alloc: Global,
    dos: &mut Dos<M>,
    pattern: &[u8],
) -> Result<Vec<u8>, ShellFault>
    ensures sent { (m : Machine) → Stands M.seen dos.old m →
        MatchResult result (λ v. IsSent pattern.now m v.items) (IsUnlisted pattern.now m) }
    // The drive has done nothing else.
    ensures stands { (m : Machine) → Stands M.seen dos.old m →
        OnOk result (Stands M.seen dos.new (listed pattern.now m)) }
{
    let text = list_text(alloc, pattern)?;
    dos.open(LISTING, text.as_slice());
    if dos.status_code() != 0 {
        return Err(ShellFault::Refused(dos.status()));
    }
    let bytes = said(alloc, dos, LISTING, MOST)?;
    Ok(bytes)
}

/// The directory of a drive's disk as readable text, with the files that match a pattern; an empty pattern asks for all.
/// Each line has a number, a space and a text in UTF-8, as a character set of a C64 shows it. Errors: `Refused` with the
/// drive's status, `Memory`.
pub fn list<M: Steady>(
    alloc: Global,
    dos: &mut Dos<M>,
    charset: Charset,
    pattern: &[u8],
) -> Result<Vec<u8>, ShellFault>
    ensures sent { (m : Machine) → Stands M.seen dos.old m →
        MatchResult result (λ v. IsListing charset pattern.now m v.items) (IsUnlisted pattern.now m) }
    // The drive has done nothing else.
    ensures stands { (m : Machine) → Stands M.seen dos.old m →
        OnOk result (Stands M.seen dos.new (listed pattern.now m)) }
{
    let bytes = raw_list(alloc, dos, pattern)?;
    let lines = readable_listing(alloc, charset, bytes.as_slice())?;
    Ok(lines)
}
