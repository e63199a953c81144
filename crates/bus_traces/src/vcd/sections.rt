//! The words of a VCD, and its sections.

use crate::fault::{Flaw, TraceFault};
use crate::text::{Source, is_blank};
use arrayvec::ArrayVec;
use std::io::Read;

/// The most bytes of a word.
const LONGEST: usize = 64;

/// A word of a VCD.
pub(crate) type Word = ArrayVec<u8, LONGEST>;

/// What was read.
#[derive(Clone, Copy, Debug, PartialEq, Eq, Drop)]
pub(crate) enum Found {
    /// A word.
    Word,
    /// A word of which only the beginning was kept.
    Long,
    /// The end of the file.
    End,
}

/// Reads a word, as far as there is room for it.
pub(crate) fn next_word<R: Read>(
    source: &mut Source<R>,
    word: &mut Word,
) -> Result<Found, TraceFault> {
    word.clear();
    if source.skip_blanks()?.is_none() {
        return Ok(Found::End);
    }
    let mut read = Found::Word;
    for _ in 0..u64::MAX {
        match source.peek()? {
            Some(byte) if !is_blank(byte) => {
                source.next()?;
                if word.try_push(byte).is_err() {
                    read = Found::Long;
                }
            }
            _ => break,
        }
    }
    Ok(read)
}

/// Reads a word of a section; false at its `$end`. Errors: `Cut` at the end of the file, and `Long`.
pub(crate) fn section_word<R: Read>(
    source: &mut Source<R>,
    word: &mut Word,
) -> Result<bool, TraceFault> {
    match next_word(source, word)? {
        Found::End => Err(source.refused(Flaw::Cut)),
        Found::Long => Err(source.refused(Flaw::Long)),
        Found::Word => Ok(word.as_slice() != b"$end".as_slice()),
    }
}

/// Skips a section up to its `$end`. Error: `Cut` at the end of the file.
pub(crate) fn skip_section<R: Read>(
    source: &mut Source<R>,
    word: &mut Word,
) -> Result<(), TraceFault> {
    for _ in 0..u64::MAX {
        match next_word(source, word)? {
            Found::End => return Err(source.refused(Flaw::Cut)),
            Found::Word if word.as_slice() == b"$end".as_slice() => return Ok(()),
            _ => {}
        }
    }
    Ok(())
}
