//! What C holds of a drive.
ghost use Rattle.std.specs.Prelude.{◌≡◌, Option, Some, None, MatchOption};
ghost use Rattle.yellowadze1541.specs.declared.inner.Inner.{Inner};

use crate::inner::Inner;
use std::alloc::Global;
use std::marker::Model;

/// A drive as its pointer, or null for none.
#[repr(C)]
#[derive(Drop)]
pub struct Handle {
    pub(crate) at: *mut u8,
    pub(crate) ghost value: { Option Inner },
}

impl Model for Handle {
    ghost use Rattle.yellowadze1541.specs.Handles.{handle_owns};

    ghost also_owns = { λ h. handle_owns h.at h.value };
}

unsafe impl Send for Handle {}

/// The handle of a drive.
pub(crate) fn of(inner: Box<Inner>) -> Handle
    ensures { result.value ≡ Some inner.value }
{
    let at = Box::into_raw(inner);
    Handle { at: at as *mut u8 }
}

/// The handle of none.
pub(crate) fn empty() -> Handle
    ensures { result.value ≡ None }
{
    Handle {
        at: std::ptr::null_mut(),
    }
}

/// The drive of a handle again, if it holds one.
pub(crate) fn back(alloc: Global, handle: Handle) -> Option<Box<Inner>>
    ensures { MatchOption result (handle.value ≡ None) (λ b. handle.value ≡ Some b.value) }
{
    let Handle { at } = handle;
    if at.is_null() {
        return None;
    }
    Some(unsafe { Box::from_raw(alloc, at as *mut Inner) })
}
