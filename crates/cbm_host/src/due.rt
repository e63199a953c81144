//! What comes next on the wires, as the host sees it.

ghost use Rattle.std.specs.Prelude.{◌≡◌};
ghost use Rattle.cbm_host.specs.Stages.{due_of};

use cbm_iec::Change;

/// What the host does next.
#[derive(Clone, Copy, Drop)]
pub(crate) enum Due {
    /// It changes a line, whatever the drive does before.
    Makes(Change),
    /// It waits for the drive, but no longer than this moment; at it, it goes on by itself.
    Waits(u64),
    /// It waits for the drive.
    Hears,
    /// Nothing: the request was over at this moment.
    Over(u64),
}

impl Due {
    /// A change, or a wait for the drive.
    #[inline(always)]
    pub(crate) fn of(change: Option<Change>) -> Due
        ensures { result ≡ due_of change }
    {
        match change {
            Some(change) => Due::Makes(change),
            None => Due::Hears,
        }
    }
}
