//! What a disk is, in numbers.
ghost use Rattle.std.specs.Prelude.{◌≡◌, Some, IfOk};
ghost use Rattle.cbm_file.specs.Files.{Disk};
ghost use Rattle.cbm_volume.specs.Holding.{HoldsDisk};
ghost use Rattle.cbm_shell.specs.Images.{IsChecked};
ghost use Rattle.cbm_shell.specs.Sectors.{faults_in};

use crate::looking::sectors::faults_in;
use cbm_medium::{Fault, Medium};
use cbm_volume::{Label, Unsound, Volume};
use std::alloc::{AllocError, Global};

/// What a disk is.
#[derive(Drop)]
pub struct Info {
    /// How many tracks its image has.
    pub tracks: u8,
    /// Title, id and kind of DOS; None where 18/0 can't be read.
    pub label: Option<Label>,
    /// The blocks that are free for files; None where 18/0 can't be read.
    pub free: Option<u16>,
    /// Whether it is sound, or what is wrong first.
    pub check: Result<(), Unsound>,
    /// The sectors that don't read, in order of track and sector.
    pub unreadable: Vec<Fault>,
}

/// What a disk is. The one error is want of memory.
pub fn info_of<M: Medium + Drop>(alloc: Global, medium: M) -> Result<Info, AllocError>
    ensures tracks { IfOk result (λ info. info.tracks ≡ (M.seen medium).tracks) }
    ensures faults { let now = M.seen medium in
        IfOk result (λ info. info.unreadable.items ≡ faults_in now.content now.tracks) }
    ensures check { let now = M.seen medium in IfOk result (λ info. IsChecked now.tracks now.content info.check) }
    ensures means { let now = M.seen medium in (d : Disk) → HoldsDisk now.tracks now.content d →
        IfOk result (λ info. (info.label ≡ Some (record { title = d.title; mark = d.mark })) × (info.free ≡ Some d.free)) }
{
    let tracks = medium.tracks();
    let unreadable = faults_in(alloc, &medium, tracks)?;
    let volume = Volume::open(medium);
    Ok(Info {
        tracks,
        label: volume.label().ok(),
        free: volume.free().ok(),
        check: volume.check(),
        unreadable,
    })
}
