//! Files with the head that the emulator PC64 gives them.
ghost use Rattle.std.specs.Prelude.{◌≡◌, ◌≤◌, length, false, MatchOption};
ghost use Rattle.cbm_shell.specs.Wrapped.{is_wrapped, before_zero, IsUnwrapped};

use std::ops::Range;

/// How many bytes the head has.
const HEAD: usize = 26;

/// Where it has the file's name.
const NAME: Range<usize> = 8..24;

/// Where it has the length of the records of a relative file.
const RECORD_LENGTH: usize = 25;

/// A file without its head, and what the head says.
#[derive(Clone, Copy, Debug)]
pub struct Wrapped<'a> {
    /// Its name on a disk.
    pub name: &'a [u8],
    /// The length of its records, if it is relative.
    pub record_length: u8,
    /// Its bytes.
    pub bytes: &'a [u8],
}

/// Whether a file has such a head.
fn is_wrapped(file: &[u8]) -> bool
    ensures { result ≡ is_wrapped file.now }
{
    file.len() >= HEAD && file.starts_with(b"C64File\0")
}

/// A name without the zeros that fill it up.
fn before_zero(name: &[u8]) -> &[u8]
    ensures value { result.now ≡ before_zero name.now }
    ensures short { length result.now ≤ length name.now }
{
    for i in 0..name.len() {
        if name[i] == 0 {
            return &name[..i];
        }
    }
    name
}

/// A file without its head; None where it has none.
pub fn unwrapped(file: &[u8]) -> Option<Wrapped<'_>>
    ensures { MatchOption result (is_wrapped file.now ≡ false)
        (λ w. IsUnwrapped file.now w.name.now w.record_length w.bytes.now) }
{
    if !is_wrapped(file) {
        return None;
    }
    Some(Wrapped {
        name: before_zero(&file[NAME]),
        record_length: file[RECORD_LENGTH],
        bytes: &file[HEAD..],
    })
}
