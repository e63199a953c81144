ghost use Rattle.std.specs.Prelude.{◌≡◌, ℕ, ◌<◌, ◌≤◌, true, length, slice_index};
ghost use Rattle.cbm_g64.specs.File.{has_signature, has_version, has_entries, has_greatest, is_track_inside, is_sized, is_apart, are_inside, are_sized, are_apart, g64_fault};
ghost use Rattle.cbm_track.specs.Circle.{each_below};

use crate::fault::G64Fault;
use crate::numbers::{offset, two_at};

/// Whether a file begins with the eight bytes of a G64 image.
fn has_signature(file: &[u8]) -> bool
    ensures { result ≡ has_signature file.now }
{
    matches!(file, [b'G', b'C', b'R', b'-', b'1', b'5', b'4', b'1', ..])
}

/// Whether its version is 0.
fn has_version(file: &[u8]) -> bool
    ensures { result ≡ has_version file.now }
{
    file.len() >= 9 && file[8] == 0
}

/// Whether its tables have 69 to 84 entries, so that track 35 has one.
fn has_entries(file: &[u8]) -> bool
    ensures { result ≡ has_entries file.now }
{
    file.len() >= 10 && file[9] >= 69 && file[9] <= 84
}

/// Whether its greatest track size is one that a track may have.
fn has_greatest(file: &[u8]) -> bool
    ensures { result ≡ has_greatest file.now }
{
    file.len() >= 12 && two_at(file, 10) <= 7928
}

/// Whether a track lies in the file, after the tables.
#[tactic(auto, unfolding(crate::specs::File::is_track_inside, crate::specs::File::size))]
fn is_inside(file: &[u8], i: usize) -> bool
    requires track { i < 35 }
    requires tables { 292 ≤ length file.now }
    ensures { result ≡ is_track_inside file.now i }
{
    let at = offset(file, i);
    let tables = 12 + 8 * file[9] as usize;
    if at == 0 {
        return true;
    }
    if at < tables || file.len() < at + 2 {
        return false;
    }
    at + 2 + two_at(file, at) <= file.len()
}

/// Whether each track lies in the file.
fn each_inside(file: &[u8]) -> bool
    requires { 292 ≤ length file.now }
    ensures { result ≡ each_below (is_track_inside file.now) 35 }
{
    for i in 0..35 {
        if !is_inside(file, i) {
            return false;
        }
    }
    true
}

/// Whether the tables and each track lie in the file.
#[tactic(auto, unfolding(crate::specs::File::are_inside))]
fn are_inside(file: &[u8]) -> bool
    requires length { 12 ≤ length file.now }
    requires entries { 35 ≤ slice_index file.now 9 }
    ensures { result ≡ are_inside file.now }
{
    if file.len() < 12 + 8 * file[9] as usize {
        return false;
    }
    each_inside(file)
}

/// Whether a track that lies in the file has a length that may be.
#[tactic(auto, unfolding(crate::specs::File::is_track_inside, crate::specs::File::is_sized, crate::specs::File::size))]
fn is_sized(file: &[u8], i: usize) -> bool
    requires track { i < 35 }
    requires tables { 292 ≤ length file.now }
    requires inside { is_track_inside file.now i ≡ true }
    ensures { result ≡ is_sized file.now i }
{
    let at = offset(file, i);
    if at == 0 {
        return true;
    }
    let size = two_at(file, at);
    0 < size && size <= two_at(file, 10)
}

/// Whether each track has a length that may be.
#[tactic(auto, unfolding(crate::specs::File::are_sized))]
fn are_sized(file: &[u8]) -> bool
    requires tables { 292 ≤ length file.now }
    requires inside { (i : ℕ) → i < 35 → is_track_inside file.now i ≡ true }
    ensures { result ≡ are_sized file.now }
{
    for i in 0..35 {
        if !is_sized(file, i) {
            return false;
        }
    }
    true
}

/// Whether two tracks that lie in the file share no byte.
#[tactic(auto, unfolding(crate::specs::File::is_track_inside, crate::specs::File::is_apart, crate::specs::File::size))]
fn is_apart(file: &[u8], i: usize, j: usize) -> bool
    requires tracks { (i < 35) × (j < 35) }
    requires tables { 292 ≤ length file.now }
    requires first { is_track_inside file.now i ≡ true }
    requires second { is_track_inside file.now j ≡ true }
    ensures { result ≡ is_apart file.now i j }
{
    let (one, other) = (offset(file, i), offset(file, j));
    if i == j || one == 0 || other == 0 {
        return true;
    }
    one + 2 + two_at(file, one) <= other || other + 2 + two_at(file, other) <= one
}

/// Whether a track shares no byte with any other.
fn is_apart_from_all(file: &[u8], i: usize) -> bool
    requires track { i < 35 }
    requires tables { 292 ≤ length file.now }
    requires inside { (i : ℕ) → i < 35 → is_track_inside file.now i ≡ true }
    ensures { result ≡ each_below (is_apart file.now i) 35 }
{
    for j in 0..35 {
        if !is_apart(file, i, j) {
            return false;
        }
    }
    true
}

/// Whether no two tracks share a byte.
#[tactic(auto, unfolding(crate::specs::File::are_apart))]
fn are_apart(file: &[u8]) -> bool
    requires tables { 292 ≤ length file.now }
    requires inside { (i : ℕ) → i < 35 → is_track_inside file.now i ≡ true }
    ensures { result ≡ are_apart file.now }
{
    for i in 0..35 {
        if !is_apart_from_all(file, i) {
            return false;
        }
    }
    true
}

/// The first fault of a file that is to be an image.
pub(crate) fn fault_of(file: &[u8]) -> Option<G64Fault>
    ensures { result ≡ g64_fault file.now }
{
    if !has_signature(file) {
        return Some(G64Fault::Signature);
    }
    if !has_version(file) {
        return Some(G64Fault::Version);
    }
    if !has_entries(file) {
        return Some(G64Fault::Entries);
    }
    if !has_greatest(file) {
        return Some(G64Fault::GreatestSize);
    }
    if !are_inside(file) {
        return Some(G64Fault::OffsetOutside);
    }
    if !are_sized(file) {
        return Some(G64Fault::TrackLength);
    }
    if !are_apart(file) {
        return Some(G64Fault::Overlap);
    }
    None
}
