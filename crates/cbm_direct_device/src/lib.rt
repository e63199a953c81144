//! A drive with direct access on lines, with the disk of an image: what each call of the C library does with it.
#![tactic(auto)]

mod device;

pub use device::DirectDevice;
