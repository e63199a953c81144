//! A drive by words: its device number, its reaction or a range of them, and its pace.

use bus_judge::Range;
use cbm_iec::{Pace, Party};

/// A drive of the bus.
#[derive(Clone, Copy, Debug, PartialEq, Eq, Drop)]
pub struct Seat {
    /// The drive as it always reacts in its least time.
    pub party: Party,
    /// How much longer it may take; by 0 if it always takes the same time.
    pub range: Range,
}

fn pace_of(word: &str) -> Option<Pace> {
    match word {
        "profile" => Some(Pace::Profile),
        "kernal" => Some(Pace::Kernal),
        _ => None,
    }
}

/// The least reaction of a word such as `20` or `10-40`, and how much longer it may be.
fn reactions_of(word: &str) -> Option<(u8, u8)> {
    match word.split_once('-') {
        None => Some((word.parse::<u8>().ok()?, 0)),
        Some((least, most)) => {
            let least = least.parse::<u8>().ok()?;
            let most = most.parse::<u8>().ok()?;
            Some((least, most.checked_sub(least)?))
        }
    }
}

/// The drive of a word such as `8:20`, `8:10-40` or `9:35:kernal`: device number, reaction in microseconds or the least and
/// the greatest, and pace, which is the profile's if none is named. None if the word is none.
pub fn seat_of(word: &str) -> Option<Seat> {
    let (device, rest) = word.split_once(':')?;
    let (reactions, pace) = match rest.split_once(':') {
        Some((reactions, pace)) => (reactions, pace_of(pace)?),
        None => (rest, Pace::Profile),
    };
    let device = device.parse::<u8>().ok()?;
    let (reaction, more) = reactions_of(reactions)?;
    let party = Party {
        device,
        reaction,
        pace,
    };
    let range = Range { device, more };
    Some(Seat { party, range })
}
