//! A row of the drive's table: what a reaction does.

ghost use Rattle.std.specs.Prelude.{◌≡◌};
ghost use Rattle.cbm_iec.specs.Table.{happens, stays};

use crate::lines::{Held, Lines};
use crate::machine::Act;
use crate::pace::Pace;

/// A reaction that is due: what its drive sees then.
#[derive(Clone, Copy, Debug, PartialEq, Eq, Drop)]
pub struct Due {
    /// The drive's pace.
    pub pace: Pace,
    /// The drive's reaction in microseconds.
    pub reaction: u8,
    /// The moment of the reaction, in microseconds.
    pub moment: u64,
    /// The lines that the drive holds.
    pub own: Held,
    /// The lines that the others hold.
    pub others: Lines,
}

/// What a reaction does: a row of the drive's table. W is what the drive waits for.
#[derive(Clone, Copy, Drop)]
pub struct Row<W> {
    /// The lines that the drive holds from then on.
    pub held: Held,
    /// What it waits for then.
    pub next: W,
    /// The act that counts with the reaction.
    pub act: Option<Act>,
}

impl<W> Row<W> {
    /// Nothing is due: the drive goes on as it is.
    pub fn stays(due: Due, waits: W) -> Row<W>
        ensures { result ≡ happens due (stays waits) }
    {
        Row {
            held: due.own,
            next: waits,
            act: None,
        }
    }
}
