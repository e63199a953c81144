//! The drive's DOS over a medium: OPEN, CLOSE and bytes by sixteen channels. It refines the named-files machine.
#![tactic(auto)]

mod channel;
mod channels;
mod dos;
mod finding;
mod gathered;
mod laws;
mod listing;
mod on_record;
mod plan;
mod sought;

pub use cbm_command::{Command, Mode, Name, Names, Opening, Refusal, Wanted};
pub use cbm_file::FileType;
pub use cbm_machine::{Code, Status, StatusLine, Telling, tells_as_the_machine};
pub use channels::Channels;
pub use dos::Dos;
pub use laws::what_is_kept_is_read_again;
