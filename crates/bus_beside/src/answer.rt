//! What a drive shows.

use arrayvec::ArrayVec;
use cbm_iec::Change;

/// The lines that a drive's reaction changes: at most CLOCK, then DATA.
#[derive(Drop)]
pub(crate) struct Answer {
    pub(crate) device: u8,
    pub(crate) changes: ArrayVec<Change, 2>,
}
