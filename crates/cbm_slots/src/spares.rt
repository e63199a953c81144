//! Names that files get for a while: they can be said to the drive, and no file has them.
ghost use Rattle.std.specs.Prelude.{◌≡◌, ◌<◌, false, None, IfSome};
ghost use Rattle.cbm_slots.specs.InSlots.{has_name, spare_of, AreSparesTaken, ArePairsTaken};

use crate::meant::has_name;
use cbm_volume::Entry;

/// How many spare names there are.
const SPARES: u8 = 144;

/// The spare name of a number. No command of the drive gives a meaning to its bytes, 1 to 12.
fn spare_of(number: u8) -> [u8; 2]
    requires { number < 144 }
    ensures { result ≡ spare_of number }
{
    [1 + number / 12, 1 + number % 12]
}

/// A name that no file has and that SCRATCH takes for nothing else; None if files have all of them.
pub(crate) fn spare_name(entries: &[Entry]) -> Option<[u8; 2]>
    ensures free { IfSome result (λ name. has_name name entries.now ≡ false) }
    ensures none { result ≡ None → AreSparesTaken entries.now }
{
    let mut number = 0;
    'names: while number < SPARES {
        let name = spare_of(number);
        if !has_name(entries, &name) {
            return Some(name);
        }
        number += 1;
    }
    None
}

/// How many pairs of spare names there are.
const PAIRS: u8 = 72;

/// Two spare names.
#[derive(Clone, Copy)]
pub(crate) struct Spares {
    /// That of a file which is copied.
    pub(crate) old: [u8; 2],
    /// That of its copy.
    pub(crate) new: [u8; 2],
}

/// Two names that no file has and that COPY takes for nothing else; None if files have one of each pair.
pub(crate) fn spare_pair(entries: &[Entry]) -> Option<Spares>
    ensures old { IfSome result (λ s. has_name s.old entries.now ≡ false) }
    ensures new { IfSome result (λ s. has_name s.new entries.now ≡ false) }
    ensures none { result ≡ None → ArePairsTaken entries.now }
{
    let mut number = 0;
    'pairs: while number < PAIRS {
        let (old, new) = (spare_of(2 * number), spare_of(2 * number + 1));
        if !has_name(entries, &old) && !has_name(entries, &new) {
            return Some(Spares { old, new });
        }
        number += 1;
    }
    None
}
