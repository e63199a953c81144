//! Blocks written to the places that are named.
ghost use Rattle.std.specs.Prelude.{◌≡◌, OnOk, IfErr, replicate};
ghost use Rattle.cbm_medium.specs.Content.{written};
ghost use Rattle.cbm_place.specs.Moves.{led, laid_out, wiped_at, wiped};
ghost use Rattle.cbm_bam.specs.Marks.{is_marked};
ghost use Rattle.cbm_shell.specs.Remaking.{IsTroubled};

use cbm_bam::SectorSet;
use cbm_medium::codes::ILLEGAL_LINK;
use cbm_medium::{Address, Steady, Trouble};
use cbm_shell::ShellFault;

/// The bytes of a block before these places.
fn led(bytes: &[u8; 256], rest: &[Address]) -> [u8; 256]
    ensures { result ≡ led bytes.now rest.now }
{
    let mut led = *bytes;
    if let Some((next, _)) = rest.split_first() {
        led[0] = next.track();
        led[1] = next.sector();
    }
    led
}

/// Writes a sector. Errors: `Trouble`, with 66 if the disk has no such sector.
pub(crate) fn write<M: Steady>(
    medium: &mut M,
    at: Address,
    bytes: &[u8; 256],
) -> Result<(), ShellFault>
    ensures written { OnOk result ((M.seen medium.new).content ≡ written (M.seen medium.old).content at bytes.now) }
    ensures tracks { (M.seen medium.new).tracks ≡ (M.seen medium.old).tracks }
    ensures outside { (M.seen medium.new).outside ≡ (M.seen medium.old).outside }
    ensures fault { IfErr result IsTroubled }
{
    if at.track() > medium.tracks() {
        return Err(ShellFault::Trouble(Trouble {
            code: ILLEGAL_LINK,
            track: at.track(),
            sector: at.sector(),
        }));
    }
    match medium.write(at, bytes) {
        Ok(()) => Ok(()),
        Err(fault) => Err(ShellFault::Trouble(Trouble::from(fault))),
    }
}

/// A sector of zeros.
fn zeros() -> [u8; 256]
    ensures { result ≡ replicate 256 0 }
{
    [0; 256]
}

/// Writes zeros to a sector, unless it is claimed. Errors: `Trouble`.
fn wipe_one<M: Steady>(medium: &mut M, at: Address, is_claimed: bool) -> Result<(), ShellFault>
    ensures wiped { OnOk result ((M.seen medium.new).content ≡ wiped_at is_claimed at (M.seen medium.old).content) }
    ensures tracks { (M.seen medium.new).tracks ≡ (M.seen medium.old).tracks }
    ensures outside { (M.seen medium.new).outside ≡ (M.seen medium.old).outside }
    ensures fault { IfErr result IsTroubled }
{
    if is_claimed {
        return Ok(());
    }
    write(medium, at, &zeros())
}

/// Writes zeros to the sectors that a file left and didn't claim. Errors: `Trouble`.
pub(crate) fn wipe<M: Steady>(
    medium: &mut M,
    left: &[Address],
    claimed: &SectorSet,
) -> Result<(), ShellFault>
    ensures wiped { OnOk result ((M.seen medium.new).content ≡ wiped (is_marked claimed.now) left.now (M.seen medium.old).content) }
    ensures tracks { (M.seen medium.new).tracks ≡ (M.seen medium.old).tracks }
    ensures outside { (M.seen medium.new).outside ≡ (M.seen medium.old).outside }
    ensures fault { IfErr result IsTroubled }
{
    let mut rest = left;
    'places: while let Some((at, more)) = rest.split_first() {
        wipe_one(medium, *at, claimed.has(*at))?;
        rest = more;
    }
    Ok(())
}

/// Writes blocks to places in order, each leading to the next.
pub(crate) fn lay<M: Steady>(
    medium: &mut M,
    places: &[Address],
    blocks: &[[u8; 256]],
) -> Result<(), ShellFault>
    ensures laid { OnOk result ((M.seen medium.new).content ≡ laid_out places.now blocks.now (M.seen medium.old).content) }
    ensures tracks { (M.seen medium.new).tracks ≡ (M.seen medium.old).tracks }
    ensures outside { (M.seen medium.new).outside ≡ (M.seen medium.old).outside }
    ensures fault { IfErr result IsTroubled }
{
    let (mut places_left, mut blocks_left) = (places, blocks);
    'places: while let Some((at, rest)) = places_left.split_first() {
        let Some((block, more)) = blocks_left.split_first() else {
            return Ok(());
        };
        write(medium, *at, &led(block, rest))?;
        places_left = rest;
        blocks_left = more;
    }
    Ok(())
}
