// Work on the bytes of an image.

ghost use Rattle.std.specs.Prelude.{◌*◌, ◌≢◌, ◌≤◌, ◌≡◌, ℕ, ◌<◌, ◌+◌, length, ◌↔◌, IsTrue};
ghost use Rattle.cbm_d64.specs.Image.{index_of, IsImageSize, IsSectorStored, IsErased, code_of_error, mended, error_at, sector_at, d64_tracks, sectors_in};
ghost use Rattle.cbm_medium.specs.Place.{IsOnDisk};

use cbm_medium::Address;
use cbm_medium::codes::{DISK_ID_MISMATCH, HEADER_CHECKSUM};

/// The bytes of a D64 of 35 tracks, 683 sectors.
pub const OF_35_TRACKS: usize = 174_848;
/// The bytes of a D64 of 35 tracks with an error byte for each sector.
pub const WITH_ERRORS: usize = 175_531;
/// The bytes of a D64 of 40 tracks, 768 sectors.
pub const OF_40_TRACKS: usize = 196_608;

/// The error byte of a good sector.
const GOOD: u8 = 1;

/// Whether a file of this many bytes is an image.
pub fn is_size(bytes: usize) -> bool
    ensures { IsTrue result ↔ IsImageSize bytes }
{
    matches!(bytes, OF_35_TRACKS | WITH_ERRORS | OF_40_TRACKS)
}

/// How many tracks an image of this many bytes has.
pub fn tracks_in(bytes: usize) -> u8
    ensures { result ≡ d64_tracks bytes }
{
    if bytes == OF_40_TRACKS { 40 } else { 35 }
}

/// How many sectors an image of this many bytes has.
fn sectors_in(bytes: usize) -> usize
    ensures { result ≡ sectors_in bytes }
{
    if bytes == OF_40_TRACKS { 768 } else { 683 }
}

/// The place of a sector in the order of tracks and sectors.
pub fn index(at: Address) -> usize
    ensures place { result ≡ index_of at }
    ensures on_disk { IsOnDisk at }
{
    let track = at.track() as usize;
    let before = match track {
        0..=17 => 21 * track - 21,
        18..=24 => 19 * track + 15,
        25..=30 => 18 * track + 40,
        _ => 17 * track + 71,
    };
    before + at.sector() as usize
}

/// The status code that an error byte means (the D64 format).
fn fault_code(error: u8) -> Option<u8>
    ensures { result ≡ code_of_error error }
{
    match error {
        2..=6 => Some(error + 18),
        9 => Some(HEADER_CHECKSUM),
        11 => Some(DISK_ID_MISMATCH),
        _ => None,
    }
}

/// The fault of a sector, if its error byte is one.
pub fn code_at(image: &[u8], place: usize) -> Option<u8>
    requires { place < sectors_in (length image.now) }
    ensures { result ≡ code_of_error (error_at image.now place) }
{
    if image.len() == WITH_ERRORS {
        fault_code(image[OF_35_TRACKS + place])
    } else {
        None
    }
}

/// The bytes of a sector.
pub fn sector(image: &[u8], place: usize) -> [u8; 256]
    requires { 256 * place + 256 ≤ length image.now }
    ensures { result ≡ sector_at image.now place }
{
    let mut sector = [0; 256];
    sector.copy_from_slice(&image[256 * place..256 * place + 256]);
    sector
}

/// Makes a sector good. What was good before stays as it was: its byte may say more than 1.
fn mend(image: &mut [u8], place: usize)
    requires place { place < sectors_in (length image.old) }
    requires size { IsImageSize (length image.old) }
    ensures size { length image.new ≡ length image.old }
    ensures sectors { (j : ℕ) → j < sectors_in (length image.old) → sector_at image.new j ≡ sector_at image.old j }
    ensures error { error_at image.new place ≡ mended (error_at image.old place) }
    ensures other_errors { (j : ℕ) → j ≢ place → error_at image.new j ≡ error_at image.old j }
{
    if code_at(image, place).is_some() {
        image[OF_35_TRACKS + place] = GOOD;
    }
}

/// Writes a sector, and mends it.
pub fn store(image: &mut [u8], place: usize, sector: &[u8; 256])
    requires place { place < sectors_in (length image.old) }
    requires size { IsImageSize (length image.old) }
    ensures { IsSectorStored image.old image.new place sector.now }
{
    mend(image, place);
    image[256 * place..256 * place + 256].copy_from_slice(sector);
}

/// Makes each sector zeros, and good.
pub fn erase(image: &mut [u8])
    requires { IsImageSize (length image.old) }
    ensures { IsErased image.old image.new }
{
    let (sectors, errors) = image.split_at_mut(256 * sectors_in(image.len()));
    sectors.fill(0);
    errors.fill(GOOD);
}
