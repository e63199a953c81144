ghost use Rattle.std.specs.Prelude.{◌≡◌, ◌≢◌, ◌<◌, ◌≤◌, Ok, None, IfErr, IfOk, length, replicate, true};
ghost use Rattle.cbm_medium.specs.Place.{Has, Place, sectors_on};
ghost use Rattle.cbm_g64.specs.File.{g64_fault, g64_circles};
ghost use Rattle.cbm_g64.specs.NewFile.{new_file};
ghost use Rattle.cbm_g64.specs.Tracks.{g64_content, id_for, or_zeros, AreFilled, AreFresh, AreLaid};
ghost use Rattle.cbm_g64.specs.Image.{IsImageOf, AreOfNewDisk};

use crate::circles::fill_on;
use crate::fault::G64Fault;
use crate::image::{base, put_tracks};
use cbm_medium::{Address, Medium, sectors_of};
use cbm_sector::{IndexedTrack, fresh_track};
use std::alloc::{AllocError, Global};

/// The tracks of a formatted disk.
fn fresh_tracks(alloc: Global, id: &[u8; 2]) -> Result<Vec<IndexedTrack>, AllocError>
    ensures fresh { IfOk result (λ v. AreFresh id.now v.items) }
    ensures blank { IfOk result (λ v. (p : Place) → g64_content v.items p ≡ Ok (replicate 256 0)) }
    ensures disk { IfOk result (λ v. AreOfNewDisk id.now v.items) }
{
    let mut tracks = Vec::with_capacity(alloc, 35)?;
    for track in 1..36u8 {
        tracks.push(IndexedTrack::new(fresh_track(track, *id), track))?;
    }
    Ok(tracks)
}

/// Copies a sector of a medium to a track where it still holds zeros; one with a fault stays zeros.
fn copy_sector<M: Medium>(medium: &M, tracks: &mut [IndexedTrack], at: Address, id: &[u8; 2])
    requires tracks { (M.seen medium.now).tracks ≡ 35 }
    requires disk { AreOfNewDisk id.now tracks.old }
    requires track { at.track ≤ 35 }
    requires blank { g64_content tracks.old at ≡ Ok (replicate 256 0) }
    ensures here { g64_content tracks.new at ≡ or_zeros ((M.seen medium.now).content at) }
    ensures others { (p : Place) → at ≢ p → g64_content tracks.new p ≡ g64_content tracks.old p }
    ensures disk { AreOfNewDisk id.now tracks.new }
{
    match medium.read(at) {
        Ok(bytes) => fill_on(tracks, at, id, &bytes),
        Err(_) => {}
    }
}

/// Copies the sectors of a track.
fn copy_track<M: Medium>(medium: &M, tracks: &mut [IndexedTrack], track: u8, id: &[u8; 2])
    requires tracks { (M.seen medium.now).tracks ≡ 35 }
    requires disk { AreOfNewDisk id.now tracks.old }
    requires track { track ≤ 35 }
    requires blank { (p : Place) → p.track ≡ track → g64_content tracks.old p ≡ Ok (replicate 256 0) }
    ensures here { (p : Place) → p.track ≡ track → p.sector < sectors_on track →
        g64_content tracks.new p ≡ or_zeros ((M.seen medium.now).content p) }
    ensures others { (p : Place) → p.track ≢ track → g64_content tracks.new p ≡ g64_content tracks.old p }
    ensures disk { AreOfNewDisk id.now tracks.new }
{
    for sector in 0..sectors_of(track) {
        match Address::new(track, sector) {
            Some(at) => copy_sector(medium, tracks, at, id),
            None => unreachable!(),
        }
    }
}

/// Copies the sectors of a medium to the tracks of a formatted disk.
fn copy_tracks<M: Medium>(medium: &M, tracks: &mut [IndexedTrack], id: &[u8; 2])
    requires tracks { (M.seen medium.now).tracks ≡ 35 }
    requires disk { AreOfNewDisk id.now tracks.old }
    requires blank { (p : Place) → g64_content tracks.old p ≡ Ok (replicate 256 0) }
    ensures shown { (p : Place) → Has 35 p → g64_content tracks.new p ≡ or_zeros ((M.seen medium.now).content p) }
    ensures disk { AreOfNewDisk id.now tracks.new }
{
    for track in 1..36 {
        copy_track(medium, tracks, track, id);
    }
}

/// The image of a formatted disk that was given the sectors of a medium.
pub(crate) fn image_of<M: Medium>(
    alloc: Global,
    medium: &M,
    id: [u8; 2],
) -> Result<Vec<u8>, G64Fault>
    requires { (M.seen medium.now).tracks ≡ 35 }
    ensures size { IfOk result (λ v. length v.items ≡ 278234) }
    ensures right { IfOk result (λ v. g64_fault v.items ≡ None) }
    ensures form { IfOk result (λ v. IsImageOf new_file (g64_circles v.items 35) v.items) }
    ensures laid { IfOk result (λ v. AreLaid (g64_circles v.items 35)) }
    ensures filled { IfOk result (λ v. AreFilled id (g64_circles v.items 35)) }
    ensures shown { IfOk result (λ v. (p : Place) → Has 35 p →
        g64_content (g64_circles v.items 35) p ≡ or_zeros ((M.seen medium.now).content p)) }
    ensures id { IfOk result (λ v. id_for (g64_circles v.items 35) ≡ id) }
    ensures err { IfErr result (λ fault. fault ≡ G64Fault.Memory) }
{
    let Ok(mut tracks) = fresh_tracks(alloc, &id) else {
        return Err(G64Fault::Memory);
    };
    copy_tracks(medium, tracks.as_mut_slice(), &id);
    let Ok(mut out) = base(alloc, &[], true) else {
        return Err(G64Fault::Memory);
    };
    put_tracks(&[], true, tracks.as_slice(), out.as_mut_slice());
    Ok(out)
}
