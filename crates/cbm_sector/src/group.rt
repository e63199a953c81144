ghost use Rattle.std.specs.Prelude.{◌≡◌, ◌↔◌, ℕ, ◌<◌, ◌≤◌, ◌+◌, ◌*◌, List, Bool, Some, IfSome, true, false, length, slice_index_or, take, drop};
ghost use Rattle.cbm_gcr.specs.Code.{code, bits_of, IsFourBytes};
ghost use Rattle.cbm_sector.specs.Decoding.{decoded, coded_at, IsBytes};

use cbm_gcr::decode5;
use cbm_track::Track;

/// What bytes are coded as is decoded to them, and nothing else is.
pub fn decoding_undoes_code()
    ensures again { (v : List ℕ) → IsBytes v → decoded (length v) (code v) ≡ Some v }
    ensures only { (n : ℕ) (bits : List Bool) (v : List ℕ) → length bits ≡ 10 * n → decoded n bits ≡ Some v →
        (length v ≡ n) × IsBytes v × (bits ≡ code v) }
    ensures no_sync { (v : List ℕ) → IsBytes v → (j : ℕ) → j + 10 ≤ 10 * length v →
        ((k : ℕ) → k < 10 → slice_index_or (code v) (j + k) false ≡ true) → ⊥ }
{}

/// The four bytes whose code stands at a byte of others.
#[inline(always)]
fn group_in(coded: &[u8], at: usize) -> Option<[u8; 4]>
    requires inside { at + 5 ≤ length coded.now }
    requires few { length coded.now ≤ 325 }
    ensures value { (v : List ℕ) → IsFourBytes v →
        ((result ≡ Some v) ↔ (code v ≡ take 40 (drop (8 * at) (bits_of coded.now)))) }
    ensures block { IfSome result IsFourBytes }
{
    decode5(&[
        coded[at],
        coded[at + 1],
        coded[at + 2],
        coded[at + 3],
        coded[at + 4],
    ])
}

/// The four bytes whose code stands at a place.
pub(crate) fn group_at(track: &Track, place: u32) -> Option<[u8; 4]>
    requires { place < length track.now }
    ensures { result ≡ coded_at track.now place 4 }
{
    let mut coded = [0; 5];
    track.bytes_at(place, &mut coded);
    group_in(&coded, 0)
}

/// The eight bytes whose code stands at a place.
pub(crate) fn header_bytes(track: &Track, place: u32) -> Option<[u8; 8]>
    requires { place < length track.now }
    ensures { result ≡ coded_at track.now place 8 }
{
    let mut coded = [0; 10];
    track.bytes_at(place, &mut coded);
    let [a, b, c, d] = group_in(&coded, 0)?;
    let [e, f, g, h] = group_in(&coded, 5)?;
    Some([a, b, c, d, e, f, g, h])
}

/// The bytes of a data block whose code stands at a place.
pub(crate) fn block_bytes(track: &Track, place: u32) -> Option<[u8; 260]>
    requires { place < length track.now }
    ensures { result ≡ coded_at track.now place 260 }
{
    let mut coded = [0; 325];
    track.bytes_at(place, &mut coded);
    let mut block = [0; 260];
    for i in 0..65 {
        let group = group_in(&coded, 5 * i)?;
        block[4 * i..4 * i + 4].copy_from_slice(&group);
    }
    Some(block)
}
