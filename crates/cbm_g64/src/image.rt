ghost use Rattle.std.specs.Prelude.{◌≡◌, ◌<◌, ◌≤◌, ◌+◌, ◌++◌, IfOk, None, OnOk, false, is_some, replicate};
ghost use Rattle.byteorder.specs.Endian.{little_bytes};
ghost use Rattle.cbm_sector.specs.Decoding.{IsBytes};
ghost use Rattle.cbm_sector.specs.Fresh.{bytes_on};
ghost use Rattle.cbm_g64.specs.File.{offset, g64_fault, g64_circles};
ghost use Rattle.cbm_g64.specs.NewFile.{base_of, new_track_blocks, entries_of, new_file, new_place, new_zone};
ghost use Rattle.cbm_g64.specs.Rest.{g64_rest};
ghost use Rattle.cbm_g64.specs.Image.{IsHeld, IsImageOf};

use crate::numbers::offset;
use byteorder::{ByteOrder, LittleEndian};
use cbm_sector::{IndexedTrack, track_bytes};
use std::alloc::{AllocError, Global};

/// The bytes of a new file.
const NEW_BYTES: usize = 278_234;

/// Where the first track stands in a new file: after the front and both tables.
const FIRST_TRACK: usize = 684;

/// How many bytes apart the tracks of a new file stand: two for the length, and the greatest size.
const TRACK_ROOM: usize = 7_930;

/// The signature, version 0, 84 entries and the greatest size 7,928.
const FRONT: [u8; 12] = [71, 67, 82, 45, 49, 53, 52, 49, 0, 84, 248, 30];

/// An entry of the tables of a new file, and that of the half track after it.
fn entry(number: u32) -> [u8; 8]
    ensures { result ≡ little_bytes 4 number ++ replicate 4 0 }
{
    let mut entry = [0; 8];
    LittleEndian::write_u32(&mut entry, number);
    entry
}

/// The zone of track `i + 1`, which is its speed.
fn zone(i: u32) -> u32
    ensures { result ≡ new_zone i }
{
    match i {
        0..=16 => 3,
        17..=23 => 2,
        24..=29 => 1,
        _ => 0,
    }
}

/// The length field of track `i + 1` of a new file.
fn length_field(i: u32) -> [u8; 2]
    requires { i < 35 }
    ensures { result ≡ little_bytes 2 (bytes_on (i + 1)) }
{
    let mut field = [0; 2];
    LittleEndian::write_u16(&mut field, track_bytes(i as u8 + 1));
    field
}

/// Appends the offsets of the tracks of a new file.
fn append_offsets(out: &mut Vec<u8>) -> Result<(), AllocError>
    ensures { OnOk result (out.new.items ≡ out.old.items ++ entries_of new_place 35) }
{
    for i in 0..35usize {
        out.extend_from_slice(&entry((FIRST_TRACK + TRACK_ROOM * i) as u32))?;
    }
    Ok(())
}

/// Appends the speeds of the tracks of a new file.
fn append_speeds(out: &mut Vec<u8>) -> Result<(), AllocError>
    ensures { OnOk result (out.new.items ≡ out.old.items ++ entries_of new_zone 35) }
{
    for i in 0..35 {
        out.extend_from_slice(&entry(zone(i)))?;
    }
    Ok(())
}

/// Appends the tracks of a new file, as zeros.
fn append_blocks(out: &mut Vec<u8>) -> Result<(), AllocError>
    ensures { OnOk result (out.new.items ≡ out.old.items ++ new_track_blocks 35) }
{
    for i in 0..35 {
        out.extend_from_slice(&length_field(i))?;
        out.extend_from_slice(&[0; 7928])?;
    }
    Ok(())
}

/// The file that formatting makes, before its tracks are put in.
fn new_file(alloc: Global) -> Result<Vec<u8>, AllocError>
    ensures { IfOk result (λ v. v.items ≡ new_file) }
{
    let mut out = Vec::with_capacity(alloc, NEW_BYTES)?;
    out.extend_from_slice(&FRONT)?;
    append_offsets(&mut out)?;
    out.extend_from_slice(&[0; 56])?;
    append_speeds(&mut out)?;
    out.extend_from_slice(&[0; 56])?;
    append_blocks(&mut out)?;
    Ok(out)
}

/// The file that a disk's tracks are put into.
pub(crate) fn base(alloc: Global, file: &[u8], formatted: bool) -> Result<Vec<u8>, AllocError>
    ensures { IfOk result (λ v. v.items ≡ base_of formatted file.now) }
{
    if formatted {
        new_file(alloc)
    } else {
        Vec::from_slice(alloc, file)
    }
}

/// The offset of track `i + 1` in the file that a disk's tracks are put into.
pub(crate) fn offset_in(file: &[u8], formatted: bool, i: usize) -> usize
    requires track { i < 35 }
    requires right { is_some (g64_fault (base_of formatted file.now)) ≡ false }
    ensures value { result ≡ offset (base_of formatted file.now) i }
    ensures below { result < 4294967296 }
{
    if formatted {
        FIRST_TRACK + TRACK_ROOM * i
    } else {
        offset(file, i)
    }
}

/// Says of bytes that were written through a loan that each is below 256.
fn are_bytes(bytes: &[u8])
    ensures { IsBytes bytes.now }
{}

/// Puts the circles of a disk into the file that they are for.
pub(crate) fn put_tracks(file: &[u8], formatted: bool, tracks: &[IndexedTrack], out: &mut [u8])
    requires held { IsHeld (base_of formatted file.now) tracks.now }
    requires base { out.old ≡ base_of formatted file.now }
    ensures image { IsImageOf (base_of formatted file.now) tracks.now out.new }
    ensures again { (g64_fault out.new ≡ None) × (g64_circles out.new 35 ≡ tracks.now) }
    ensures rest { g64_rest out.new ≡ g64_rest (base_of formatted file.now) }
    ensures unwritten { formatted ≡ false → tracks.now ≡ g64_circles file.now 35 → out.new ≡ file.now }
{
    for i in 0..35 {
        let at = offset_in(file, formatted, i);
        if at != 0 {
            let track = tracks[i].track();
            let end = at + 2 + track.bits() as usize / 8;
            track.bytes_at(0, &mut out[at + 2..end]);
        }
    }
    are_bytes(out);
}
