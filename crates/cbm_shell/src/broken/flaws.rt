//! All that is wrong with a disk.
mod all;
mod chains;
mod errors;
mod files;
mod findings;
mod found;
mod headers;
mod lost;
mod map;
mod sides;
mod steps;
mod users;

pub use all::flaws_of;
pub use errors::error_at;
pub use found::{DiskFlaw, Whose};
pub use lost::lost_of;
pub use users::users_of;
