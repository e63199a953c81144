//! What stands at the pointer of a handle.
use crate::any_device::AnyDevice;

/// A drive.
#[derive(Drop)]
pub struct Inner {
    /// The drive.
    pub device: AnyDevice,
}
