//! What each call of the C library does: a drive on lines with the disk of an image, and looks into images.
#![tactic(auto)]

mod calls;
mod changing;
mod device;
mod image_disk;
mod laws;
mod looking;
mod playing;
mod refusal;
mod room;

pub use calls::{CalledAct, Came, call_close, call_open, call_read, call_write};
pub use changing::change;
pub use device::{Device, DeviceReaction};
pub use image_disk::{ImageDisk, Sectors};
pub use laws::a_restored_drive_is_the_saved_one;
pub use looking::{Heading, check, entry, file, list, sector, title};
pub use playing::play;
pub use refusal::{DeviceRefusal, number};
pub use room::{give, given};
