//! Scripts of line changes, played on a drive.

mod playing;
mod staging;
mod timed;

pub(crate) use playing::run_changes;
pub(crate) use staging::Stage;
pub(crate) use timed::{Timed, is_skipped, timed_from};
