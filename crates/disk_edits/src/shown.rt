//! What a change does to a disk, in words or for programs.
mod facts;
mod steps;

use self::facts::change_line;
pub use self::facts::text_of;
use self::steps::{Becoming, Both, Shown, Step, shown_of};
use crate::exact::Desk;
use cbm_shell::ShellFault;
use cbm_shell::texts::Charset;
use disk_basics::calls::{entries, name_text};
use disk_facts::{block_noun, type_of};
use std::alloc::{AllocError, Global};

/// How a change is shown.
#[derive(Clone, Copy)]
pub struct Showing {
    /// The character set of names.
    pub charset: Charset,
    /// Nothing is changed.
    pub is_dry: bool,
    /// It is shown for programs.
    pub is_json: bool,
}

/// What follows the name in the line of a step.
fn end_of(alloc: Global, step: &Step<'_>, charset: Charset) -> Result<String, AllocError> {
    let kind = type_of(step.entry).unwrap_or("?");
    match step.becoming {
        Becoming::Added => {
            let blocks = step.entry.blocks();
            let noun = block_noun(blocks);
            format!(in alloc; ", {kind}, {blocks} {noun}")
        }
        Becoming::Renamed(new) => {
            let shown = name_text(alloc, charset, new.name())?;
            let name = shown.as_str();
            format!(in alloc; " to \"{name}\"")
        }
        Becoming::Retyped => format!(in alloc; " the type {kind}"),
        Becoming::Rewritten => String::from_str(alloc, " anew"),
        Becoming::Deleted | Becoming::Locked | Becoming::Unlocked => Ok(String::new(alloc)),
    }
}

/// The word of a line for what becomes of a file.
fn word_of(becoming: Becoming<'_>) -> &'static str {
    match becoming {
        Becoming::Added => "add",
        Becoming::Deleted => "delete",
        Becoming::Renamed(_) => "rename",
        Becoming::Locked => "lock",
        Becoming::Unlocked => "unlock",
        Becoming::Retyped => "give",
        Becoming::Rewritten => "write",
    }
}

/// Adds the line of a step.
fn add_step(
    alloc: Global,
    text: &mut String,
    step: &Step<'_>,
    charset: Charset,
) -> Result<(), AllocError> {
    let shown = name_text(alloc, charset, step.entry.name())?;
    let name = shown.as_str();
    let word = word_of(step.becoming);
    let end = end_of(alloc, step, charset)?;
    let end = end.as_str();
    text.push_str(format!(in alloc; "would {word} \"{name}\"{end}\n")?.as_str())
}

/// A change in lines: files that go, come, or are others, and the title.
fn lines_of(alloc: Global, shown: &Shown<'_>, charset: Charset) -> Result<String, AllocError> {
    let mut text = String::new(alloc);
    for step in shown.steps.as_slice() {
        add_step(alloc, &mut text, step, charset)?;
    }
    let moved = shown.moved;
    if moved != 0 {
        text.push_str(format!(in alloc; "would move {moved} files in the directory\n")?.as_str())?;
    }
    if shown.has_title {
        text.push_str("would change the title\n")?;
    }
    if shown.has_id {
        text.push_str("would change the id\n")?;
    }
    if text.is_empty() {
        text.push_str("nothing would change\n")?;
    }
    Ok(text)
}

/// What a change of an image does, in lines or as a line of JSON: files that go, come, or are others, and the title. Errors: `Image`,
/// `Trouble`, `Memory`.
pub fn shown_change(
    alloc: Global,
    desk: Desk<'_, '_>,
    new: &[u8],
    showing: Showing,
) -> Result<String, ShellFault> {
    let before = entries(alloc, desk.bytes)?;
    let after = entries(alloc, new)?;
    let both = Both {
        old: before.as_slice(),
        new: after.as_slice(),
    };
    let shown = shown_of(alloc, both, desk.bytes, new)?;
    if showing.is_json {
        return Ok(change_line(alloc, desk.image, &shown, showing)?);
    }
    Ok(lines_of(alloc, &shown, showing.charset)?)
}
