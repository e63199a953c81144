//! Direct access to a disk's blocks beside the drive's DOS: `#`, U1, U2, B-R, B-W, B-P, B-A, B-F, UI, UJ, and M-R of what programs ask.
#![tactic(auto)]

mod access;
mod asked;
mod buffer;
mod buffers;
mod direct;
mod form;
mod memory;
mod next_free;
mod numbers;
mod reading;
mod spared;
mod vouch;
mod vouched;
mod wanted;

pub use access::Access;
pub use asked::{Asked, Block, Sector};
pub use buffer::Buffer;
pub use buffers::Buffers;
pub use direct::DirectDos;
pub use form::Form;
pub use memory::Reply;
pub use reading::asked_by;
pub use vouch::Vouch;
pub use vouched::Vouched;
pub use wanted::{Wanted, wanted_by};
