//! The bounds of the host's timing.

pub use bus_judge::Bound;

/// All of them.
pub const BOUNDS: [Bound; 14] = [
    Bound::Together,
    Bound::Attention,
    Bound::Ready,
    Bound::Start,
    Bound::StartAfterPulse,
    Bound::Settled,
    Bound::Shown,
    Bound::Release,
    Bound::Turn,
    Bound::Silence,
    Bound::Take,
    Bound::Mark,
    Bound::Unmark,
    Bound::Accept,
];
