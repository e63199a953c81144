//! The timescale of a VCD.
ghost use Rattle.std.specs.Prelude.{◌≤◌};

use crate::event::LATEST;

/// How a VCD's times are microseconds: so many to the microsecond, or so many microseconds each.
#[derive(Clone, Copy, Debug, PartialEq, Eq, Drop)]
pub(crate) struct Scale {
    times: u64,
    per: u64,
    ghost parts: { 1 ≤ per },
}

/// A number in decimal.
fn decimal(digits: &[u8]) -> Option<u64> {
    if digits.is_empty() {
        return None;
    }
    let mut value: u64 = 0;
    for digit in digits {
        if !digit.is_ascii_digit() {
            return None;
        }
        value = value
            .checked_mul(10)?
            .checked_add(u64::from(digit.saturating_sub(b'0')))?;
    }
    Some(value)
}

/// A unit, as microseconds times and per.
fn unit(word: &[u8]) -> Option<(u64, u64)> {
    match word {
        b"s" => Some((1_000_000, 1)),
        b"ms" => Some((1_000, 1)),
        b"us" => Some((1, 1)),
        b"ns" => Some((1, 1_000)),
        b"ps" => Some((1, 1_000_000)),
        b"fs" => Some((1, 1_000_000_000)),
        _ => None,
    }
}

impl Scale {
    /// The scale of a VCD that names none: microseconds.
    pub(crate) fn micro() -> Scale {
        Scale { times: 1, per: 1 }
    }

    /// The scale of `1us`, `10ns` and the like; None if it is none.
    pub(crate) fn of(word: &[u8]) -> Option<Scale> {
        let (count, rest) = match word {
            [b'1', b'0', b'0', rest @ ..] => (100, rest),
            [b'1', b'0', rest @ ..] => (10, rest),
            [b'1', rest @ ..] => (1, rest),
            _ => return None,
        };
        match unit(rest)? {
            (times, 1) => Some(Scale {
                times: times.checked_mul(count)?,
                per: 1,
            }),
            (_, per) => Some(Scale {
                times: count,
                per: per.max(1),
            }),
        }
    }

    /// The moment of a time in decimal, in microseconds, rounded down; None if it is none, or above the latest.
    pub(crate) fn moment(&self, digits: &[u8]) -> Option<u64> {
        let moment = decimal(digits)?.checked_mul(self.times)? / self.per;
        if moment <= LATEST { Some(moment) } else { None }
    }
}
