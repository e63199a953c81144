//! How long the host waits on the bus, in microseconds.

/// From ATN's pull, its release or an accept to CLOCK's release for a byte; and from the last release of ATN to the end.
pub(crate) const READY: u64 = 100;

/// From DATA's release, or the end of the EOI pulse, to the first bit; from a talker's release of CLOCK to the release of
/// DATA; from a talked byte to its accept, and from there to ATN's pull.
pub(crate) const ANSWER: u64 = 20;

/// How long CLOCK is pulled in a bit, and how long it is free; from ATN's release to CLOCK's in a turnaround.
pub(crate) const PHASE: u64 = 20;

/// From an accept by the drive to the next change of ATN.
pub(crate) const TURN: u64 = 60;

/// A talker that hasn't begun its byte this long after DATA's release has EOI to say: this is its last one.
pub(crate) const LAST_WAIT: u64 = 200;

/// How long DATA is pulled for the answer to EOI.
pub(crate) const LAST_PULSE: u64 = 60;

/// A talker that hasn't pulled CLOCK this long after its release has nothing to say; one at a KERNAL's pace pulls it, and lets go
/// of both lines.
pub(crate) const SILENCE: u64 = 1000;
