//! A drive of a talk, as the command line names it.

use cbm_bus::{Pace, Party};

/// How long a drive takes to react if the command line doesn't say, in microseconds.
const REACTION: u8 = 20;

/// A drive, its disk's image, and if that goes.
#[derive(Clone, Copy, Drop)]
pub struct Seat<'a> {
    /// The file of the image.
    pub image: &'a str,
    /// The file that it is saved to; None if it isn't.
    pub out: Option<&'a str>,
    /// The drive.
    pub party: Party,
}

/// The number of a word, if it is one of these.
fn number(word: &str, low: u8, high: u8) -> Option<u8> {
    match word.parse::<u8>() {
        Ok(number) if low <= number && number <= high => Some(number),
        _ => None,
    }
}

fn pace_called(word: &str) -> Option<Pace> {
    match word {
        "profile" => Some(Pace::Profile),
        "kernal" => Some(Pace::Kernal),
        _ => None,
    }
}

/// A drive of `REACTION[:PACE]`.
fn party_with(device: u8, rest: &str) -> Option<Party> {
    match rest.split_once(':') {
        None => Some(Party {
            device,
            reaction: number(rest, 1, 60)?,
            pace: Pace::Profile,
        }),
        Some((reaction, pace)) => Some(Party {
            device,
            reaction: number(reaction, 1, 60)?,
            pace: pace_called(pace)?,
        }),
    }
}

/// The drive that nothing is said of.
pub fn plain_party(device: u8) -> Party {
    Party {
        device,
        reaction: REACTION,
        pace: Pace::Profile,
    }
}

/// The drive of a word `DEVICE[:REACTION[:PACE]]`.
pub fn party_of(word: &str) -> Option<Party> {
    match word.split_once(':') {
        None => Some(plain_party(number(word, 8, 11)?)),
        Some((device, rest)) => party_with(number(device, 8, 11)?, rest),
    }
}

/// The files of a word `IMAGE` or `IMAGE=OUT`: its last `=` parts them, and nothing is saved if OUT is empty.
pub fn files_of(word: &str) -> (&str, Option<&str>) {
    match word.rsplit_once('=') {
        None => (word, None),
        Some((image, "")) => (image, None),
        Some((image, out)) => (image, Some(out)),
    }
}
