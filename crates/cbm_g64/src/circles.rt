ghost use Rattle.std.specs.Prelude.{◌≡◌, ℕ, ◌<◌, ◌≤◌, ◌-◌, List, true, Ok, Err, Some, length, IfOk, IfErr, OnOk, OnErr, IfSome};
ghost use Rattle.cbm_medium.specs.Content.{blank, written, header_fault};
ghost use Rattle.cbm_g64.specs.Tracks.{AreFilled, AreFresh, AreLaid, g64_content, id_for, IsCircleChanged, IsPut};
ghost use Rattle.cbm_g64.specs.File.{is_track_inside, is_sized, track_in, g64_circles, greatest, IsGood};
ghost use Rattle.cbm_g64.specs.Head.{IsHead};
ghost use Rattle.cbm_track.specs.Circle.{circle_bits_of};

use crate::numbers::{offset, two_at};
use cbm_medium::{Address, Fault};
use cbm_sector::{IndexedTrack, fresh_track};
use cbm_track::Track;
use std::alloc::{AllocError, Global};

/// The circle of bytes.
fn circle(bytes: &[u8]) -> Track
    requires some { 0 < length bytes.now }
    requires most { length bytes.now ≤ 7928 }
    ensures { result ≡ circle_bits_of bytes.now }
{
    match Track::from_bytes(bytes) {
        Some(track) => track,
        None => unreachable!(),
    }
}

/// The circle of a track, one without sync mark if there is no track.
#[tactic(auto, unfolding(crate::specs::File::is_track_inside, crate::specs::File::is_sized, crate::specs::File::size, crate::specs::File::track_in))]
fn track_at(file: &[u8], i: usize) -> Track
    requires track { i < 35 }
    requires tables { 292 ≤ length file.now }
    requires few { greatest file.now ≤ 7928 }
    requires inside { is_track_inside file.now i ≡ true }
    requires sized { is_sized file.now i ≡ true }
    ensures { result ≡ track_in file.now i }
{
    let at = offset(file, i);
    if at == 0 {
        return circle(&[0]);
    }
    let size = two_at(file, at);
    circle(&file[at + 2..at + 2 + size])
}

/// The circles of all tracks.
#[tactic(auto, using(crate::proofs::Files::tracks_none, crate::proofs::Files::tracks_more))]
pub(crate) fn tracks_of(alloc: Global, file: &[u8]) -> Result<Vec<IndexedTrack>, AllocError>
    requires { IsGood file.now }
    ensures { IfOk result (λ v. v.items ≡ g64_circles file.now 35) }
{
    let mut tracks = Vec::with_capacity(alloc, 35)?;
    for i in 0..35u8 {
        tracks.push(IndexedTrack::new(track_at(file, i as usize), i + 1))?;
    }
    Ok(tracks)
}

/// The disk's id, by its track 18.
fn id_on(tracks: &[IndexedTrack]) -> [u8; 2]
    requires { length tracks.now ≡ 35 }
    ensures { result ≡ id_for tracks.now }
{
    tracks[17].id().unwrap_or([0, 0])
}

/// A sector's answer.
pub(crate) fn read_on(tracks: &[IndexedTrack], at: Address) -> Result<[u8; 256], Fault>
    requires count { length tracks.now ≡ 35 }
    requires track { at.track ≤ 35 }
    ensures ok { IfOk result (λ bytes. g64_content tracks.now at ≡ Ok bytes) }
    ensures err { IfErr result (λ fault. (g64_content tracks.now at ≡ Err fault.code) × (fault.at ≡ at)) }
{
    tracks[at.track() as usize - 1].read_sector(at, id_on(tracks))
}

/// Writes a sector to its track. An `Err` changes nothing.
fn put_on(tracks: &mut [IndexedTrack], at: Address, bytes: &[u8; 256]) -> Result<(), Fault>
    requires count { length tracks.old ≡ 35 }
    requires track { at.track ≤ 35 }
    ensures ok { OnOk result (g64_content tracks.new ≡ written (g64_content tracks.old) at bytes.now) }
    ensures err { OnErr result (tracks.new ≡ tracks.old) }
    ensures refused { IfSome (header_fault (g64_content tracks.old at))
        (λ code. result ≡ Err (record { code = code; at = at })) }
    ensures cause { IfErr result (λ fault. (header_fault (g64_content tracks.old at) ≡ Some fault.code) ×
        (fault.at ≡ at)) }
    ensures changed { IsCircleChanged tracks.old tracks.new (at.track - 1) }
    ensures block { OnOk result (IsPut tracks.old tracks.new at bytes.now) }
{
    let id = id_on(tracks);
    let track = &mut tracks[at.track() as usize - 1];
    track.write_sector(at, id, bytes)
}

/// Writes a sector, and keeps what 18/0 answers then. An `Err` changes nothing.
pub(crate) fn write_on(
    tracks: &mut [IndexedTrack],
    head: &mut Result<[u8; 256], Fault>,
    at: Address,
    bytes: &[u8; 256],
) -> Result<(), Fault>
    requires count { length tracks.old ≡ 35 }
    requires track { at.track ≤ 35 }
    requires head { IsHead tracks.old head.old }
    ensures ok { OnOk result (g64_content tracks.new ≡ written (g64_content tracks.old) at bytes.now) }
    ensures err { OnErr result (tracks.new ≡ tracks.old) }
    ensures refused { IfSome (header_fault (g64_content tracks.old at))
        (λ code. result ≡ Err (record { code = code; at = at })) }
    ensures cause { IfErr result (λ fault. (header_fault (g64_content tracks.old at) ≡ Some fault.code) ×
        (fault.at ≡ at)) }
    ensures changed { IsCircleChanged tracks.old tracks.new (at.track - 1) }
    ensures block { OnOk result (IsPut tracks.old tracks.new at bytes.now) }
    ensures head { IsHead tracks.new head.new }
    ensures kept { OnErr result (head.new ≡ head.old) }
{
    put_on(tracks, at, bytes)?;
    if at == Address::of_map() {
        *head = Ok(*bytes);
    }
    Ok(())
}

/// Writes a sector of a disk whose blocks stand where formatting put them.
pub(crate) fn fill_on(tracks: &mut [IndexedTrack], at: Address, id: &[u8; 2], bytes: &[u8; 256])
    requires count { length tracks.old ≡ 35 }
    requires track { at.track ≤ 35 }
    requires laid { AreLaid tracks.old }
    requires filled { AreFilled id.now tracks.old }
    requires id { id_for tracks.old ≡ id.now }
    ensures content { g64_content tracks.new ≡ written (g64_content tracks.old) at bytes.now }
    ensures changed { IsCircleChanged tracks.old tracks.new (at.track - 1) }
    ensures laid { AreLaid tracks.new }
    ensures filled { AreFilled id.now tracks.new }
{
    let track = &mut tracks[at.track() as usize - 1];
    track.fill_sector(at, id, bytes);
}

/// Formats each track under a disk id.
pub(crate) fn format_on(tracks: &mut [IndexedTrack], id: &[u8; 2])
    requires { length tracks.old ≡ 35 }
    ensures fresh { AreFresh id.now tracks.new }
    ensures blank { g64_content tracks.new ≡ blank }
    ensures id { id_for tracks.new ≡ id.now }
{
    for i in 0..35u8 {
        tracks[i as usize] = IndexedTrack::new(fresh_track(i + 1, *id), i + 1);
    }
}
