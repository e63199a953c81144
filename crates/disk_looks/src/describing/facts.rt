//! The recipe of a disk and its omissions, for programs.
use cbm_shell::texts::Charset;
use cbm_volume::Entry;
use disk_basics::calls::name_text;
use disk_facts::hex;
use disk_json::line;
use disk_recipes::Recipe;
use serde::Serialize;
use std::alloc::{AllocError, Global};

/// What a recipe doesn't say of a file.
#[derive(Drop, Serialize)]
pub struct Note {
    /// The file's name.
    pub name: String,
    /// Its name in digits.
    pub petscii: String,
    /// What isn't said.
    pub text: &'static str,
}

impl Note {
    /// What a recipe doesn't say of an entry's file. The one error is want of memory.
    pub fn of(alloc: Global, entry: &Entry, text: &'static str) -> Result<Note, AllocError> {
        Ok(Note {
            name: name_text(alloc, Charset::Upper, entry.name())?,
            petscii: hex(alloc, entry.name())?,
            text,
        })
    }
}

/// The recipe of a disk and its omissions.
#[derive(Drop, Serialize)]
struct RecipeReport<'a> {
    image: &'a str,
    recipe: &'a Recipe,
    notes: &'a [Note],
    unlisted: Option<&'a str>,
}

/// The recipe of a disk, what it doesn't say of files, and why there are others, if so, as a line of JSON. The one error is want of
/// memory.
pub fn recipe_line(
    alloc: Global,
    image: &str,
    recipe: &Recipe,
    notes: &[Note],
    unlisted: Option<&str>,
) -> Result<Vec<u8>, AllocError> {
    let report = RecipeReport {
        image,
        recipe,
        notes,
        unlisted,
    };
    line(alloc, &report)
}
