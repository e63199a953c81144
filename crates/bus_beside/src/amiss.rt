//! Why two plays don't go on side by side.

/// Why two plays don't go on side by side.
#[derive(Clone, Copy, Debug, PartialEq, Eq, Drop)]
pub enum Amiss {
    /// A host's change comes too soon, or a drive heeds that it comes so.
    Host,
    /// A drive's reaction isn't the same under both hosts, or reactions have no end.
    Drive,
    /// The trace has another event than a drive shows.
    Event,
}
