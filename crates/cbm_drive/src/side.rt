//! What a drive waits for, as bytes, and of bytes.
ghost use Rattle.std.specs.Prelude.{◌≡◌, ◌++◌, OnOk, option_map};
ghost use Rattle.cbm_saved.specs.Numbers.{eight_bytes};
ghost use Rattle.cbm_channel.specs.Saved.{flag_byte as flag_of};
ghost use Rattle.cbm_drive.specs.Saved.{saved_ear, saved_mouth, saved_side};
ghost use Rattle.cbm_drive.specs.Loaded.{ear_by as ear_with, mouth_by as mouth_with, hearing_by, speaking_by, side_by as side_with, side_at as side_in};

use cbm_iec::{Ear, Mouth, Side};
use cbm_saved::{eight_at, put_eight};
use std::alloc::AllocError;

/// 1 for yes, 0 for no.
pub fn flag(is: bool) -> u8
    ensures { result ≡ flag_of is }
{
    if is { 1 } else { 0 }
}

/// The number of what a listener waits for, with its bytes, and the moment.
fn of_ear(ear: Ear) -> ([u8; 5], u64)
    ensures { result.0 ++ eight_bytes result.1 ≡ saved_ear ear }
{
    match ear {
        Ear::Idle => ([0, 0, 0, 0, 0], 0),
        Ear::Starting(at) => ([1, 0, 0, 0, 0], at),
        Ear::Await => ([2, 0, 0, 0, 0], 0),
        Ear::Leaving(at) => ([3, 0, 0, 0, 0], at),
        Ear::Returning(at) => ([4, 0, 0, 0, 0], at),
        Ear::Holding => ([5, 0, 0, 0, 0], 0),
        Ear::Freeing(at) => ([6, 0, 0, 0, 0], at),
        Ear::Ready => ([7, 0, 0, 0, 0], 0),
        Ear::Timed(at) => ([8, 0, 0, 0, 0], at),
        Ear::Pulsing(at) => ([9, 0, 0, 0, 0], at),
        Ear::EoiNoted => ([10, 0, 0, 0, 0], 0),
        Ear::Gathering { eoi, count, byte } => ([11, flag(eoi), count, byte, 0], 0),
        Ear::Accepting { at, eoi, byte } => ([12, flag(eoi), byte, 0, 0], at),
    }
}

/// The number of what a talker waits for, with its bytes, and the moment.
fn of_mouth(mouth: Mouth) -> ([u8; 5], u64)
    ensures { result.0 ++ eight_bytes result.1 ≡ saved_mouth mouth }
{
    match mouth {
        Mouth::Turned => ([13, 0, 0, 0, 0], 0),
        Mouth::Answering(at) => ([14, 0, 0, 0, 0], at),
        Mouth::Mute(at) => ([15, 0, 0, 0, 0], at),
        Mouth::Led(at) => ([16, 0, 0, 0, 0], at),
        Mouth::Offering { byte, last } => ([17, byte, flag(last), 0, 0], 0),
        Mouth::EoiOffered(byte) => ([18, byte, 0, 0, 0], 0),
        Mouth::EoiPulsed(byte) => ([19, byte, 0, 0, 0], 0),
        Mouth::Sending {
            at,
            byte,
            last,
            left,
            half,
        } => ([20, byte, flag(last), left, half], at),
        Mouth::Waiting { byte, last } => ([21, byte, flag(last), 0, 0], 0),
        Mouth::Ending(at) => ([22, 0, 0, 0, 0], at),
        Mouth::Over => ([23, 0, 0, 0, 0], 0),
    }
}

/// Adds what a drive waits for.
pub fn save_side(out: &mut Vec<u8>, side: Side) -> Result<(), AllocError>
    ensures { OnOk result (out.new.items ≡ out.old.items ++ saved_side side) }
{
    let (bytes, moment) = match side {
        Side::Hearing(ear) => of_ear(ear),
        Side::Speaking(mouth) => of_mouth(mouth),
    };
    out.extend_from_slice(&bytes)?;
    put_eight(out, moment)
}

/// What a listener waits for, by its number, its bytes and the moment.
fn ear_by(kind: u8, a: u8, b: u8, c: u8, at: u64) -> Option<Ear>
    ensures { result ≡ ear_with kind a b c at }
{
    let eoi = a != 0;
    match kind {
        0 => Some(Ear::Idle),
        1 => Some(Ear::Starting(at)),
        2 => Some(Ear::Await),
        3 => Some(Ear::Leaving(at)),
        4 => Some(Ear::Returning(at)),
        5 => Some(Ear::Holding),
        6 => Some(Ear::Freeing(at)),
        7 => Some(Ear::Ready),
        8 => Some(Ear::Timed(at)),
        9 => Some(Ear::Pulsing(at)),
        10 => Some(Ear::EoiNoted),
        11 => Some(Ear::Gathering {
            eoi,
            count: b,
            byte: c,
        }),
        12 => Some(Ear::Accepting { at, eoi, byte: b }),
        _ => None,
    }
}

/// What a talker waits for, by its number, its four bytes and the moment.
fn mouth_by(kind: u8, byte: u8, flagged: u8, left: u8, half: u8, at: u64) -> Option<Mouth>
    ensures { result ≡ mouth_with kind byte flagged left half at }
{
    let last = flagged != 0;
    match kind {
        13 => Some(Mouth::Turned),
        14 => Some(Mouth::Answering(at)),
        15 => Some(Mouth::Mute(at)),
        16 => Some(Mouth::Led(at)),
        17 => Some(Mouth::Offering { byte, last }),
        18 => Some(Mouth::EoiOffered(byte)),
        19 => Some(Mouth::EoiPulsed(byte)),
        20 => Some(Mouth::Sending {
            at,
            byte,
            last,
            left,
            half,
        }),
        21 => Some(Mouth::Waiting { byte, last }),
        22 => Some(Mouth::Ending(at)),
        23 => Some(Mouth::Over),
        _ => None,
    }
}

/// What a listener waits for, as a side of the port.
fn hearing(kind: u8, a: u8, b: u8, c: u8, at: u64) -> Option<Side>
    ensures { result ≡ hearing_by kind a b c at }
{
    let ear = ear_by(kind, a, b, c, at)?;
    Some(Side::Hearing(ear))
}

/// What a talker waits for, as a side of the port.
fn speaking(kind: u8, a: u8, b: u8, c: u8, d: u8, at: u64) -> Option<Side>
    ensures { result ≡ speaking_by kind a b c d at }
{
    let mouth = mouth_by(kind, a, b, c, d, at)?;
    Some(Side::Speaking(mouth))
}

/// What a drive waits for, by its number, its four bytes and the moment.
fn side_by(kind: u8, a: u8, b: u8, c: u8, d: u8, at: u64) -> Option<Side>
    ensures { result ≡ side_with kind a b c d at }
{
    if kind < 13 {
        hearing(kind, a, b, c, at)
    } else {
        speaking(kind, a, b, c, d, at)
    }
}

/// What a drive waits for, and what follows it; None if it is none.
pub fn side_at(bytes: &[u8]) -> Option<(Side, &[u8])>
    ensures { option_map (λ x. (x.0, x.1.now)) result ≡ side_in bytes.now }
{
    let [kind, a, b, c, d, rest @ ..] = bytes else {
        return None;
    };
    let (at, rest) = eight_at(rest)?;
    let side = side_by(*kind, *a, *b, *c, *d, at)?;
    Some((side, rest))
}
