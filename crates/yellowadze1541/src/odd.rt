//! Disks that are sound but for odd entries: these are put away, what is left is changed by any call, and they are put back.
ghost use Rattle.std.specs.Prelude.{◌≡◌, true, false, IfOk, IfErr, MatchResult};
ghost use Rattle.cbm_device.specs.Answers.{GivesBytes};
ghost use Rattle.cbm_odd.specs.Away.{IsNotAwayIn};
ghost use Rattle.cbm_odd.specs.Changes.{IsChangedAround, IsNotChangedAround};
ghost use Rattle.yellowadze1541.specs.Slots.{IsSomeFault};
ghost use Rattle.yellowadze1541.specs.Odd.{is_unsound, is_validate, IsLeftOf, IsWholeOf, IsNotWholeOf};

use crate::slots::handed;
use cbm_device::DeviceRefusal;
use cbm_odd::{Away, put_away, put_back};
use cbm_shell::{DiskChange, ShellFault};
use std::alloc::Global;

/// What is left of an image without its odd entries. Errors: those of `put_away`.
fn left_of(alloc: Global, image: &[u8]) -> Result<Vec<u8>, ShellFault>
    ensures left { IfOk result (λ v. IsLeftOf image.now v.items) }
    ensures fault { IfErr result (IsNotAwayIn image.now) }
{
    let Away { image, odds: _ } = put_away(alloc, image)?;
    Ok(image)
}

/// A changed image with the odd entries of the one that it was made of. Errors: those of `put_away` and `put_back`.
fn whole_of(alloc: Global, image: &[u8], changed: &[u8]) -> Result<Vec<u8>, ShellFault>
    ensures whole { IfOk result (λ v. IsWholeOf image.now changed.now v.items) }
    ensures fault { IfErr result (IsNotWholeOf image.now changed.now) }
{
    let away = put_away(alloc, image)?;
    put_back(alloc, image, away.odds.as_slice(), changed)
}

/// The image of a change around odd entries. Errors: those of `cbm_odd::change`.
fn around(alloc: Global, image: &[u8], change: &DiskChange<'_>) -> Result<Vec<u8>, DeviceRefusal>
    ensures { MatchResult result (λ v. IsChangedAround image.now change.now v.items)
        (IsSomeFault (IsNotChangedAround image.now change.now)) }
{
    match cbm_odd::change(alloc, image, change) {
        Ok(new) => Ok(new),
        Err(fault) => Err(DeviceRefusal::from(fault)),
    }
}

/// Whether a command is VALIDATE. Beside odd entries it isn't carried out: blocks that no file uses may be the rest of what one of
/// them led to.
pub(crate) fn is_validate(text: &[u8]) -> bool
    ensures { result ≡ is_validate text.now }
{
    text.first() == Some(&b'V')
}

/// What a change made of an image; if its disk isn't sound, and the change may be made around odd entries, what it makes so.
pub(crate) fn or_around(
    alloc: Global,
    image: &[u8],
    made: Result<Vec<u8>, DeviceRefusal>,
    change: &DiskChange<'_>,
    may_go_around: bool,
) -> Result<Vec<u8>, DeviceRefusal>
    ensures same { is_unsound made ≡ false → result ≡ made }
    ensures stays { may_go_around ≡ false → result ≡ made }
    ensures around { is_unsound made ≡ true → may_go_around ≡ true → MatchResult result (λ v. IsChangedAround image.now change.now v.items)
        (IsSomeFault (IsNotChangedAround image.now change.now)) }
{
    match made {
        Err(DeviceRefusal::Unsound) if may_go_around => around(alloc, image, change),
        Ok(new) => Ok(new),
        Err(refusal) => Err(refusal),
    }
}

/// What is left of an image without its odd entries is given: a sound disk, which any call changes.
#[unsafe(no_mangle)]
pub extern "C" fn y1541_image_put_away(
    alloc: Global,
    image: &[u8],
    out: &mut [u8],
    needed: &mut usize,
) -> i32
    ensures { GivesBytes result out.old out.new needed.old needed.new
        (IsLeftOf image.now) (IsSomeFault (IsNotAwayIn image.now)) }
{
    handed(left_of(alloc, image), out, needed)
}

/// A changed image is given with the odd entries of the one that it was made of: each in its slot, and what it leads to as it was.
#[unsafe(no_mangle)]
pub extern "C" fn y1541_image_put_back(
    alloc: Global,
    image: &[u8],
    changed: &[u8],
    out: &mut [u8],
    needed: &mut usize,
) -> i32
    ensures { GivesBytes result out.old out.new needed.old needed.new
        (IsWholeOf image.now changed.now) (IsSomeFault (IsNotWholeOf image.now changed.now)) }
{
    handed(whole_of(alloc, image, changed), out, needed)
}
