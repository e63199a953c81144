//! Why changes aren't played.

ghost use Rattle.std.specs.Prelude.{◌≡◌, ◌+◌, ◌<◌, ◌^◌, length};
ghost use Rattle.cbm_drive.specs.Ordered.{fault_of};

use cbm_iec::Change;
use thiserror::Error;

/// Why a list of changes isn't played, or not to its end. Changes count from 0.
#[derive(Clone, Copy, Debug, PartialEq, Eq, Error)]
pub enum PlayFault {
    /// A change comes before the one in front of it.
    #[error("change {0} goes back in time")]
    Backwards(usize),
    /// A change comes after the end.
    #[error("change {0} comes after the end")]
    PastEnd(usize),
    /// Memory ran out for the events.
    #[error("no memory for the events")]
    Memory,
}

/// The first change that is at fault, among those that count from a number on: it comes before the one in front of it, or
/// else after the end.
pub(crate) fn first_fault(
    changes: &[Change],
    number: usize,
    before: u64,
    end: u64,
) -> Option<PlayFault>
    requires { number + length changes.now < 2 ^ 64 }
    ensures { result ≡ fault_of number before end changes.now }
{
    let mut rest = changes;
    let mut number = number;
    let mut before = before;
    while let Some((change, more)) = rest.split_first() {
        if change.moment < before {
            return Some(PlayFault::Backwards(number));
        }
        if end < change.moment {
            return Some(PlayFault::PastEnd(number));
        }
        rest = more;
        number += 1;
        before = change.moment;
    }
    None
}
