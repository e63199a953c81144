//! A file whose blocks and entry are written anew, for files that lead on to their blocks in a way of their own, as GEOS's do.
ghost use Rattle.std.specs.Prelude.{◌≡◌, ◌≤◌, IfOk, IfErr, OnOk};
ghost use Rattle.cbm_bam.specs.Map.{geometry_of};
ghost use Rattle.cbm_image.specs.Images.{kind_of, ChangesSectors};
ghost use Rattle.cbm_shell.specs.Images.{IsSoundImage};
ghost use Rattle.cbm_shell.specs.Remaking.{IsTroubled};
ghost use Rattle.cbm_place.specs.Carving.{written_each, IsCarved, IsNotCarved, IsCarvedIn, IsUncarvedIn};

use crate::chain::chain_of;
use crate::laying::write;
use crate::moving::movable;
use cbm_directory::put_slot;
use cbm_image::kind_of;
use cbm_medium::{Address, Steady};
use cbm_shell::parts::{require_sound, saved};
use cbm_shell::{ShellFault, open_disk};
use cbm_volume::{Entry, Volume};
use std::alloc::Global;

/// Writes sectors, in order. Errors: `Trouble`.
fn write_each<M: Steady>(
    medium: &mut M,
    places: &[Address],
    blocks: &[[u8; 256]],
) -> Result<(), ShellFault>
    ensures written { OnOk result ((M.seen medium.new).content ≡ written_each places.now blocks.now (M.seen medium.old).content) }
    ensures tracks { (M.seen medium.new).tracks ≡ (M.seen medium.old).tracks }
    ensures outside { (M.seen medium.new).outside ≡ (M.seen medium.old).outside }
    ensures fault { IfErr result IsTroubled }
{
    let (mut places_left, mut blocks_left) = (places, blocks);
    'places: while let Some((at, rest)) = places_left.split_first() {
        let Some((block, more)) = blocks_left.split_first() else {
            return Ok(());
        };
        write(medium, *at, block)?;
        places_left = rest;
        blocks_left = more;
    }
    Ok(())
}

/// The disk with the blocks of the file in a slot, and its entry, written anew.
fn carved<M: Steady + Drop>(
    alloc: Global,
    volume: Volume<M>,
    slot: u8,
    entry: &Entry,
    blocks: &[[u8; 256]],
) -> Result<M, ShellFault>
    ensures tracks { IfOk result (λ after. (M.seen after).tracks ≡ (M.seen volume).tracks) }
    ensures outside { IfOk result (λ after. (M.seen after).outside ≡ (M.seen volume).outside) }
    ensures carved { let old = M.seen volume in IfOk result (λ after.
        IsCarved (geometry_of old.tracks old.content) old.content (M.seen after).content slot entry.now blocks.now) }
    ensures fault { let old = M.seen volume in
        IfErr result (IsNotCarved (geometry_of old.tracks old.content) old.content slot blocks.now) }
{
    let geometry = volume.geometry();
    let old = movable(&volume, slot)?;
    let chain = chain_of(alloc, volume.medium(), geometry, old.first_block())?;
    if blocks.len() != chain.places.len() {
        return Err(ShellFault::Mistaken);
    }
    let mut medium = volume.into_medium();
    write_each(&mut medium, chain.places.as_slice(), blocks)?;
    put_slot(&mut medium, geometry, slot, entry)?;
    Ok(medium)
}

/// Writes the blocks of the file in a slot of an image, and its entry, as they are given: each block is all 256 bytes of a sector, its
/// link too. Every other sector stays, and so does the BAM, so blocks that the file no longer leads to stay taken. Errors: `Image`;
/// `Unsound`, with what is wrong first, before or after; `NotFound`, if the slot has no file; `NotClosed`; `Mistaken`, if the file is
/// relative, or the blocks aren't as many as its; `Trouble`; `Memory`.
pub fn carve(
    alloc: Global,
    image: &[u8],
    slot: u8,
    entry: &Entry,
    blocks: &[[u8; 256]],
) -> Result<Vec<u8>, ShellFault>
    ensures carved { IfOk result (λ v. IsCarvedIn image.now slot entry.now blocks.now v.items) }
    ensures sound { OnOk result (IsSoundImage (kind_of image.now) image.now) }
    ensures stays { IfOk result (λ v. IsSoundImage (kind_of image.now) v.items) }
    ensures opens { IfOk result (λ v. ChangesSectors image.now v.items) }
    ensures fault { IfErr result (IsUncarvedIn image.now slot entry.now blocks.now) }
{
    let volume = open_disk(alloc, image)?;
    require_sound(&volume)?;
    let new = Volume::open(carved(alloc, volume, slot, entry, blocks)?);
    require_sound(&new)?;
    saved(alloc, &new.into_medium(), kind_of(image))
}
