//! What the commands of `disk1541` stand on: failures in words, files of this computer, names, and calls that promise nothing.
#![tactic(auto)]

mod answers;
pub mod border;
mod break_off;
pub mod calls;
pub mod changing;
mod choice;
mod disk;
mod failure;
mod flaws;
mod formats;
pub mod host;
mod kinds;
mod names;
pub mod odd;
mod packed;
pub mod placing;
mod ranges;
mod refusal;
pub mod rests;
pub mod spare;
pub mod strays;
pub mod swaps;
mod what;
mod word_fault;

pub use answers::{on_new_name, on_room};
pub use break_off::{BreakOff, Cause};
pub use choice::{Choice, slot_chosen, slot_named, slot_number};
pub use disk::Disk;
pub use failure::{Failure, in_memory, on_disk};
pub use flaws::{is_mendable, place_of, slots_of};
pub use formats::{form, format};
pub use kinds::{FileKind, is_relative_name, is_wrapped_name, kind_of_entry, kind_of_file};
pub use names::{file_name, id_codes, name_of_file, petscii, require_name, title_of};
pub use ranges::add_sectors;
pub use what::What;
pub use word_fault::WordFault;
