//! What a change does to a disk, for programs.
use super::Showing;
use super::steps::{Becoming, Shown, Step};
use cbm_shell::texts::Charset;
use disk_basics::calls::name_text;
use disk_basics::rests::named;
use disk_facts::type_of;
use disk_json::{Named, line};
use serde::Serialize;
use std::alloc::{AllocError, Global};

/// What becomes of a file.
#[derive(Drop, Serialize)]
struct Change {
    change: &'static str,
    slot: usize,
    name: String,
    petscii: String,
    to: Option<String>,
    #[serde(rename = "type")]
    kind: Option<&'static str>,
    blocks: Option<u16>,
}

/// What a change does to a disk.
#[derive(Drop, Serialize)]
struct ChangeReport<'a> {
    image: &'a str,
    dry_run: bool,
    changes: Vec<Change>,
    moved: usize,
    title: bool,
    id: bool,
}

/// The word for what becomes of a file.
fn word_of(becoming: Becoming<'_>) -> &'static str {
    match becoming {
        Becoming::Added => "add",
        Becoming::Deleted => "delete",
        Becoming::Renamed(_) => "rename",
        Becoming::Locked => "lock",
        Becoming::Unlocked => "unlock",
        Becoming::Retyped => "retype",
        Becoming::Rewritten => "rewrite",
    }
}

/// A step as a change.
fn change_of(alloc: Global, step: &Step<'_>, charset: Charset) -> Result<Change, AllocError> {
    let Named {
        slot,
        name,
        petscii,
    } = named(alloc, charset, step.slot, step.entry)?;
    let to = match step.becoming {
        Becoming::Renamed(new) => Some(name_text(alloc, charset, new.name())?),
        _ => None,
    };
    let (kind, blocks) = match step.becoming {
        Becoming::Added => (type_of(step.entry), Some(step.entry.blocks())),
        Becoming::Retyped => (type_of(step.entry), None),
        _ => (None, None),
    };
    Ok(Change {
        change: word_of(step.becoming),
        slot,
        name,
        petscii,
        to,
        kind,
        blocks,
    })
}

/// The text of these bytes, which are JSON. The one error is want of memory.
pub fn text_of(alloc: Global, bytes: &[u8]) -> Result<String, AllocError> {
    String::from_str(alloc, std::str::from_utf8(bytes).unwrap_or(""))
}

/// What a change does to a disk, as a line of JSON. The one error is want of memory.
pub fn change_line(
    alloc: Global,
    image: &str,
    shown: &Shown<'_>,
    showing: Showing,
) -> Result<String, AllocError> {
    let mut changes = Vec::new(alloc);
    for step in shown.steps.as_slice() {
        let change = change_of(alloc, step, showing.charset)?;
        changes.push(change).map_err(AllocError::from)?;
    }
    let report = ChangeReport {
        image,
        dry_run: showing.is_dry,
        changes,
        moved: shown.moved,
        title: shown.has_title,
        id: shown.has_id,
    };
    text_of(alloc, line(alloc, &report)?.as_slice())
}
