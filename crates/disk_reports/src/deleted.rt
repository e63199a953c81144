//! LIST of the files that were deleted.
use crate::broken::answer_by;
use crate::view::{Look, LookAnswer};
use cbm_command::matches;
use cbm_shell::ShellFault;
use cbm_shell::texts::Charset;
use cbm_volume::Entry;
use disk_basics::calls::{listed, name_text};
use disk_facts::{block_noun, is_deleted};
use std::alloc::{AllocError, Global};

/// Adds the line of a deleted file.
fn add_line(
    alloc: Global,
    text: &mut Vec<u8>,
    entry: &Entry,
    charset: Charset,
) -> Result<(), AllocError> {
    let shown = name_text(alloc, charset, entry.name())?;
    let name = shown.as_str();
    let blocks = entry.blocks();
    let noun = block_noun(blocks);
    text.extend_from_slice(format!(in alloc; "\"{name}\", {blocks} {noun}\n")?.as_bytes())
}

/// Adds a line for each deleted file that matches, up to where the directory breaks off. Errors: `Image`, `Memory`.
pub fn add_deleted(
    alloc: Global,
    text: &mut Vec<u8>,
    image: &[u8],
    look: Look<'_>,
) -> Result<LookAnswer, ShellFault> {
    let listed = listed(alloc, image)?;
    for entry in listed.entries.as_slice() {
        if is_deleted(entry) && matches(look.pattern, entry.name()) {
            add_line(alloc, text, entry, look.charset)?;
        }
    }
    Ok(answer_by(&listed, LookAnswer::Fine))
}
