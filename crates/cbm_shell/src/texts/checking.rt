//! Whether a disk is sound, in words.
ghost use Rattle.std.specs.Prelude.{◌≡◌, ◌++◌, IfOk, OnOk, codes, decimal};
ghost use Rattle.cbm_shell.specs.Checking.{words, unsound_text, check_text};

use cbm_volume::Unsound;
use itoa::Buffer;
use std::alloc::{AllocError, Global};

/// What a number of `check` means.
pub fn words(number: u8) -> &'static [u8]
    ensures { result.now ≡ words number }
{
    match number {
        1 => b"the count of the track's free blocks isn't the number of blocks marked free",
        2 => b"the block is in use, but marked free",
        3 => b"the block is used twice",
        4 => b"a file's chain leads here, where no block of a file can be",
        5 => b"the sector's header can't be read",
        6 => b"the directory's chain leads here, off the directory's track",
        7 => b"the side sectors that begin here don't list the blocks of their relative file",
        8 => b"an entry in this sector of the directory has a type that no file has",
        9 => b"the block is in use, but can't be read",
        _ => b"it isn't sound",
    }
}

/// Adds the place.
fn add_place(out: &mut Vec<u8>, track: u8, sector: u8) -> Result<(), AllocError>
    ensures { OnOk result (out.new.items
        ≡ out.old.items ++ codes "track " ++ decimal track ++ codes ", sector " ++ decimal sector ++ codes ": ") }
{
    let mut buffer = Buffer::new();
    out.extend_from_slice(b"track ")?;
    out.extend_from_slice(buffer.format(track).as_bytes())?;
    out.extend_from_slice(b", sector ")?;
    out.extend_from_slice(buffer.format(sector).as_bytes())?;
    out.extend_from_slice(b": ")
}

/// What is wrong with a disk, as a line: the place, and what it means. The one error is want of memory.
pub fn unsound_text(alloc: Global, unsound: Unsound) -> Result<Vec<u8>, AllocError>
    ensures { IfOk result (λ v. v.items ≡ unsound_text unsound) }
{
    let mut out = Vec::new(alloc);
    add_place(&mut out, unsound.track, unsound.sector)?;
    out.extend_from_slice(words(unsound.number))?;
    out.extend_from_slice(b"\n")?;
    Ok(out)
}

/// What `check` answers, as a line: `sound`, or what is wrong first, and where. The one error is want of memory.
pub fn check_text(alloc: Global, answer: &Result<(), Unsound>) -> Result<Vec<u8>, AllocError>
    ensures { IfOk result (λ v. v.items ≡ check_text answer.now) }
{
    match answer {
        Ok(()) => Vec::from_slice(alloc, b"sound\n"),
        Err(unsound) => unsound_text(alloc, *unsound),
    }
}
