//! D64 images as G64 images, and back.
ghost use Rattle.std.specs.Prelude.{IsTrue, ◌↔◌, ◌≡◌, ◌∷◌, ◌≢◌, ◌≤◌, ◌<◌, Ok, [], false, length, replicate, slice_index, IfOk, IfErr};
ghost use Rattle.cbm_medium.specs.Place.{Place, Has, sectors_on};
ghost use Rattle.cbm_medium.specs.Content.{written};
ghost use Rattle.cbm_d64.specs.Image.{d64_content, d64_tracks};
ghost use Rattle.cbm_g64.specs.Tracks.{or_zeros, id_for, HasTrack};
ghost use Rattle.cbm_image.specs.Images.{kind_of};
ghost use Rattle.cbm_image.specs.declared.kind.Kind.TheVariants.{D64, G64};
ghost use Rattle.cbm_shell.specs.Converting.{told_id, content_held, is_plain_table, has_more_tracks, has_error_bytes, IsConverted, AreLosses, circles_shown};
ghost use Rattle.cbm_shell.specs.Images.{IsOpenFault};

use crate::fault::ShellFault;
use crate::images::making::zeros;
use crate::images::{opened, saved};
use crate::looking::sectors::faults_in;
use cbm_d64::D64Disk;
use cbm_g64::{G64Disk, G64Fault};
use cbm_image::{AnyDisk, Kind, OF_35_TRACKS, OF_40_TRACKS, WITH_ERRORS, kind_of};
use cbm_medium::{Address, Fault, Medium, sectors_of};
use cbm_sector::id_of;
use std::alloc::Global;

/// The track of the directory.
const DIRECTORY: u8 = 18;

/// The tracks that an image of each format has.
const TRACKS: u8 = 35;

/// What an image of the other format doesn't hold of the one that it was made from.
#[derive(Drop)]
pub struct Losses {
    /// The sectors of the tracks 1 to 35 that don't read, in order; they are zeros in the new image.
    pub unreadable: Vec<Fault>,
    /// More tracks: 36 to 40 of a D64, half tracks and those beyond 35 of a G64.
    pub more_tracks: bool,
    /// Error bytes of a D64 other than 1, which says that all is well.
    pub error_bytes: bool,
    /// The id in the headers of a G64, where 18/0 has another one.
    pub header_id: bool,
}

impl Losses {
    /// Whether nothing is lost.
    pub fn is_none(&self) -> bool
        ensures { IsTrue result ↔ ((self.now.unreadable.items ≡ []) × (self.now.more_tracks ≡ false) ×
            (self.now.error_bytes ≡ false) × (self.now.header_id ≡ false)) }
    {
        self.unreadable.is_empty() && !self.more_tracks && !self.error_bytes && !self.header_id
    }
}

/// An image of the other format.
#[derive(Drop)]
pub struct Converted {
    /// Its bytes.
    pub image: Vec<u8>,
    /// What it lacks.
    pub lost: Losses,
}

/// The id that 18/0 has; zeros where it doesn't read.
fn told_id<M: Medium>(medium: &M) -> [u8; 2]
    ensures { result ≡ told_id (M.seen medium.now).content }
{
    let _tracks = medium.tracks();
    match medium.read(Address::of_map()) {
        Ok(bytes) => [bytes[162], bytes[163]],
        Err(_) => [0, 0],
    }
}

/// The id in the headers of track 18; zeros where it has none.
fn header_id(disk: &G64Disk) -> [u8; 2]
    ensures there { HasTrack disk.now 18 → result ≡ id_for disk.now.tracks }
    ensures missing { (HasTrack disk.now 18 → ⊥) → result ≡ 0 ∷ 0 ∷ [] }
{
    match disk.track(DIRECTORY) {
        Some(track) => id_of(track).unwrap_or([0, 0]),
        None => [0, 0],
    }
}

/// The disk of a G64. Errors: `Image` with the number of the format's first fault, `Memory`.
fn circles(alloc: Global, image: &[u8]) -> Result<G64Disk, ShellFault>
    requires { kind_of image.now ≡ G64 }
    ensures ok { IfOk result (λ d. d ≡ circles_shown image.now) }
    ensures err { IfErr result (IsOpenFault image.now) }
{
    match G64Disk::from_bytes(alloc, image, false) {
        Ok(disk) => Ok(disk),
        Err(G64Fault::Memory) => Err(ShellFault::Memory),
        Err(fault) => Err(ShellFault::Image(fault.number())),
    }
}

/// A byte of a file, 0 past its end.
fn byte(file: &[u8], at: usize) -> u8
    ensures { result ≡ slice_index file.now at }
{
    if at < file.len() { file[at] } else { 0 }
}

/// Whether an entry of a G64's table is that of one of the tracks 1 to 35, or has no track.
#[tactic(auto, unfolding(crate::specs::Converting::is_plain_table))]
fn is_plain(file: &[u8], entry: u8) -> bool
    ensures { result ≡ is_plain_table file.now entry }
{
    let at = 12 + 4 * entry as usize;
    entry % 2 == 0 && entry < 70
        || byte(file, at) == 0
            && byte(file, at + 1) == 0
            && byte(file, at + 2) == 0
            && byte(file, at + 3) == 0
}

/// Whether a G64 has half tracks or tracks beyond 35.
fn has_more_tracks(file: &[u8]) -> bool
    ensures { result ≡ has_more_tracks G64 file.now }
{
    for entry in 0..byte(file, 9) {
        if !is_plain(file, entry) {
            return true;
        }
    }
    false
}

/// Whether a D64 has 40 tracks.
fn is_long(image: &[u8]) -> bool
    ensures { result ≡ has_more_tracks D64 image.now }
{
    image.len() == OF_40_TRACKS
}

/// Whether a D64 has an error byte other than 1.
#[tactic(auto, unfolding(crate::specs::Converting::is_good))]
fn has_error_bytes(image: &[u8]) -> bool
    ensures { result ≡ has_error_bytes D64 image.now }
{
    if image.len() != WITH_ERRORS {
        return false;
    }
    for i in 0..WITH_ERRORS - OF_35_TRACKS {
        if image[OF_35_TRACKS + i] != 1 {
            return true;
        }
    }
    false
}

/// The tracks 1 to 35 of a D64.
fn inner_tracks(image: &[u8]) -> &[u8]
    ensures tracks { d64_tracks (length result.now) ≡ 35 }
    ensures kept { (p : Place) → Has 35 p → d64_content result.now p ≡ d64_content image.now p }
{
    if image.len() == OF_40_TRACKS {
        &image[..OF_35_TRACKS]
    } else {
        image
    }
}

/// Writes a sector of a disk that refuses no write.
fn put_sector(disk: &mut D64Disk, at: Address, bytes: &[u8; 256])
    requires track { at.track ≤ 35 }
    requires free { disk.old.protected ≡ false }
    requires blank { d64_content disk.old.bytes at ≡ Ok (replicate 256 0) }
    ensures content { d64_content disk.new.bytes ≡ written (d64_content disk.old.bytes) at bytes.now }
    ensures free { disk.new.protected ≡ false }
    ensures size { length disk.new.bytes ≡ length disk.old.bytes }
{
    match disk.write(at, bytes) {
        Ok(()) => {}
        Err(_) => unreachable!(),
    }
}

/// Copies a sector of a medium to where a disk has zeros; one that doesn't read stays zeros.
fn copy_sector<M: Medium>(medium: &M, disk: &mut D64Disk, at: Address)
    requires here { at.track ≤ (M.seen medium.now).tracks }
    requires track { at.track ≤ 35 }
    requires free { disk.old.protected ≡ false }
    requires blank { d64_content disk.old.bytes at ≡ Ok (replicate 256 0) }
    ensures here { d64_content disk.new.bytes at ≡ or_zeros ((M.seen medium.now).content at) }
    ensures others { (p : Place) → at ≢ p → d64_content disk.new.bytes p ≡ d64_content disk.old.bytes p }
    ensures free { disk.new.protected ≡ false }
    ensures size { length disk.new.bytes ≡ length disk.old.bytes }
{
    match medium.read(at) {
        Ok(bytes) => put_sector(disk, at, &bytes),
        Err(_) => {}
    }
}

/// Copies the sectors of a track.
fn copy_track<M: Medium>(medium: &M, disk: &mut D64Disk, track: u8)
    requires here { track ≤ (M.seen medium.now).tracks }
    requires track { track ≤ 35 }
    requires free { disk.old.protected ≡ false }
    requires blank { (p : Place) → p.track ≡ track → d64_content disk.old.bytes p ≡ Ok (replicate 256 0) }
    ensures here { (p : Place) → p.track ≡ track → p.sector < sectors_on track →
        d64_content disk.new.bytes p ≡ or_zeros ((M.seen medium.now).content p) }
    ensures others { (p : Place) → p.track ≢ track → d64_content disk.new.bytes p ≡ d64_content disk.old.bytes p }
    ensures free { disk.new.protected ≡ false }
    ensures size { length disk.new.bytes ≡ length disk.old.bytes }
{
    for sector in 0..sectors_of(track) {
        match Address::new(track, sector) {
            Some(at) => copy_sector(medium, disk, at),
            None => unreachable!(),
        }
    }
}

/// Copies the sectors of a medium to a disk of zeros.
fn copy_tracks<M: Medium>(medium: &M, disk: &mut D64Disk)
    requires here { (M.seen medium.now).tracks ≡ 35 }
    requires free { disk.old.protected ≡ false }
    requires blank { (p : Place) → d64_content disk.old.bytes p ≡ Ok (replicate 256 0) }
    ensures shown { (p : Place) → Has 35 p → d64_content disk.new.bytes p ≡ or_zeros ((M.seen medium.now).content p) }
    ensures size { length disk.new.bytes ≡ length disk.old.bytes }
{
    for track in 1..TRACKS + 1 {
        copy_track(medium, disk, track);
    }
}

/// A disk with the sectors of a medium of 35 tracks; those that don't read are zeros. The one error is `Memory`.
fn copied<M: Medium>(alloc: Global, medium: &M) -> Result<D64Disk, ShellFault>
    requires { (M.seen medium.now).tracks ≡ 35 }
    ensures ok { IfOk result (λ disk. (p : Place) → Has 35 p →
        d64_content disk.bytes p ≡ or_zeros ((M.seen medium.now).content p)) }
    ensures tracks { IfOk result (λ disk. d64_tracks (length disk.bytes) ≡ 35) }
    ensures err { IfErr result (λ fault. fault ≡ ShellFault.Memory) }
{
    let blank = zeros(alloc, OF_35_TRACKS)?;
    let Ok(mut disk) = D64Disk::from_bytes(alloc, blank.as_slice(), false) else {
        return Err(ShellFault::Memory);
    };
    copy_tracks(medium, &mut disk);
    Ok(disk)
}

/// A D64 as a G64.
fn to_g64(alloc: Global, image: &[u8]) -> Result<Converted, ShellFault>
    requires { kind_of image.now ≡ D64 }
    ensures kept { IfOk result (λ c. IsConverted image.now c.image.items) }
    ensures told { IfOk result (λ c. AreLosses image.now c.lost.unreadable.items c.lost.more_tracks
        c.lost.error_bytes c.lost.header_id) }
    ensures cause { IfErr result (IsOpenFault image.now) }
{
    let whole = opened(alloc, image)?;
    let unreadable = faults_in(alloc, &whole, TRACKS)?;
    let Ok(disk) = D64Disk::from_bytes(alloc, inner_tracks(image), false) else {
        return Err(ShellFault::Memory);
    };
    let Ok(new) = G64Disk::from_sectors(alloc, &disk, told_id(&disk)) else {
        return Err(ShellFault::Memory);
    };
    let lost = Losses {
        unreadable,
        more_tracks: is_long(image),
        error_bytes: has_error_bytes(image),
        header_id: false,
    };
    Ok(Converted { image: new, lost })
}

/// A G64 as a D64 of 35 tracks.
fn to_d64(alloc: Global, image: &[u8]) -> Result<Converted, ShellFault>
    requires { kind_of image.now ≡ G64 }
    ensures kept { IfOk result (λ c. IsConverted image.now c.image.items) }
    ensures told { IfOk result (λ c. AreLosses image.now c.lost.unreadable.items c.lost.more_tracks
        c.lost.error_bytes c.lost.header_id) }
    ensures cause { IfErr result (IsOpenFault image.now) }
{
    let disk = circles(alloc, image)?;
    let lost = Losses {
        unreadable: faults_in(alloc, &disk, TRACKS)?,
        more_tracks: has_more_tracks(image),
        error_bytes: false,
        header_id: header_id(&disk) != told_id(&disk),
    };
    let new = copied(alloc, &disk)?;
    let image = saved(alloc, &AnyDisk::D64(new), Kind::D64)?;
    Ok(Converted { image, lost })
}

/// An image of the other format: a D64 as a G64, a G64 as a D64 of 35 tracks. A G64 is formatted under the id that 18/0
/// has. Errors: `Image`, `Memory`.
pub fn convert(alloc: Global, image: &[u8]) -> Result<Converted, ShellFault>
    // Each sector that reads is in the new image byte for byte.
    ensures kept { IfOk result (λ c. IsConverted image.now c.image.items) }
    // What the new image can't hold is reported.
    ensures told { IfOk result (λ c. AreLosses image.now c.lost.unreadable.items c.lost.more_tracks
        c.lost.error_bytes c.lost.header_id) }
    // Where all sectors read, the new image holds what the old one does.
    ensures whole { IfOk result (λ c. c.lost.unreadable.items ≡ [] →
        (p : Place) → Has 35 p → content_held c.image.items p ≡ content_held image.now p) }
    ensures cause { IfErr result (IsOpenFault image.now) }
{
    match kind_of(image) {
        Kind::D64 => to_g64(alloc, image),
        Kind::G64 => to_d64(alloc, image),
    }
}
