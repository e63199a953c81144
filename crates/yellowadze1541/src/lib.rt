//! A Commodore 1541 for programs in C. Each function takes what C may pass, tests what it asks for, and answers a number.
#![tactic(auto)]

mod any_device;
mod changes;
mod channels;
mod commands;
mod disks;
mod drives;
mod entries;
mod handle;
mod images;
mod inner;
mod odd;
mod plays;
mod putting;
mod shapes;
mod slots;
mod snapshots;
mod sound;

pub use any_device::AnyDevice;
pub use handle::Handle;
pub use inner::Inner;
pub use shapes::{Entry, File, Flaw, Lost, Place, Pulls, Reacted, Said, Signal, Title};
