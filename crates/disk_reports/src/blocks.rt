//! LIST of where files lie.
use crate::broken::answer_by;
use crate::seen::Seen;
use crate::view::{Look, LookAnswer};
use disk_basics::placing::add_places;
use disk_facts::is_meant;
use std::alloc::{AllocError, Global};

/// Adds a line for each file that matches, up to where the directory breaks off: where its blocks lie, in order. The one error is
/// want of memory.
pub fn add_blocks(
    alloc: Global,
    text: &mut Vec<u8>,
    seen: Seen<'_>,
    look: Look<'_>,
) -> Result<LookAnswer, AllocError> {
    for entry in seen.listed.entries.as_slice() {
        if is_meant(entry, look.pattern) {
            let blocks = seen.disk.blocks(alloc, entry)?;
            add_places(text, alloc, look.charset, entry, blocks.as_slice())?;
        }
    }
    Ok(answer_by(seen.listed, LookAnswer::Fine))
}
