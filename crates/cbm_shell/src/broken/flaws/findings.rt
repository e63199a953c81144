//! What was met so far on a walk along the disk.
use super::found::DiskFlaw;
use cbm_bam::SectorSet;
use std::alloc::Global;

/// What the walks have met so far.
#[derive(Drop)]
pub struct Findings {
    /// For the sectors of a chain.
    pub alloc: Global,
    /// The sectors that are claimed.
    pub claimed: SectorSet,
    /// What is wrong.
    pub flaws: Vec<DiskFlaw>,
}
