//! A file by its name.
use serde::Serialize;

/// A file of a disk by its slot and its name.
#[derive(Drop, Serialize)]
pub struct Named {
    /// Its slot in the directory, from 0 on.
    pub slot: usize,
    /// Its name, as it is shown.
    pub name: String,
    /// Its name in digits.
    pub petscii: String,
}
