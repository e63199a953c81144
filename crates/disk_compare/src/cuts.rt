//! Where a chain or a directory breaks off, in words.
use crate::report::Texts;
use cbm_volume::Trouble;
use disk_basics::{BreakOff, Cause};
use std::alloc::{AllocError, Global};

/// Where a chain breaks off of which so many bytes were read.
fn cut_text(
    alloc: Global,
    count: usize,
    trouble: Option<Trouble>,
) -> Result<Option<String>, AllocError> {
    let Some(trouble) = trouble else {
        return Ok(None);
    };
    let cause = Cause(trouble);
    Ok(Some(format!(in alloc; "breaks off after {count} bytes: {cause}")?))
}

/// Where a directory breaks off of which so many entries were read.
fn broken_text(
    alloc: Global,
    entries: usize,
    trouble: Option<Trouble>,
) -> Result<Option<String>, AllocError> {
    let Some(trouble) = trouble else {
        return Ok(None);
    };
    let end = BreakOff { entries, trouble };
    Ok(Some(format!(in alloc; "{end}")?))
}

/// Two texts, if there is one.
fn both(first: Option<String>, second: Option<String>) -> Option<Texts> {
    if first.is_none() && second.is_none() {
        return None;
    }
    Some(Texts { first, second })
}

/// What was read of a chain or a directory: how much, and why no more.
#[derive(Clone, Copy)]
pub struct Read {
    /// How many bytes or entries.
    pub count: usize,
    /// Why no more; None where that is all.
    pub trouble: Option<Trouble>,
}

/// Where the chains of two files break off, if one does. The one error is want of memory.
pub fn cuts(alloc: Global, first: Read, second: Read) -> Result<Option<Texts>, AllocError> {
    let one = cut_text(alloc, first.count, first.trouble)?;
    let other = cut_text(alloc, second.count, second.trouble)?;
    Ok(both(one, other))
}

/// Where two directories break off, if one does. The one error is want of memory.
pub fn breaks(alloc: Global, first: Read, second: Read) -> Result<Option<Texts>, AllocError> {
    let one = broken_text(alloc, first.count, first.trouble)?;
    let other = broken_text(alloc, second.count, second.trouble)?;
    Ok(both(one, other))
}
