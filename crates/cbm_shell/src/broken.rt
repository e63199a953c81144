//! Disks that are broken, and files that are gone.
mod around_geos;
pub(crate) mod flaws;
pub(crate) mod forgetting;
pub(crate) mod undeleting;

pub use around_geos::{held_around, map_around_geos};
pub use flaws::{DiskFlaw, Whose, error_at, flaws_of, lost_of, users_of};
pub use forgetting::forget;
pub use undeleting::{remapped, sound_image, undelete};
