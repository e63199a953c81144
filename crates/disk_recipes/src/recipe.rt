//! A disk in words.
use crate::fault::RecipeFault;
use serde::{Deserialize, Serialize};
use std::alloc::Global;

/// A disk.
#[derive(Drop, Serialize, Deserialize)]
#[serde(deny_unknown_fields)]
pub struct Recipe {
    /// Its title.
    pub title: String,
    /// Its id.
    pub id: String,
    /// How many tracks it has; 35, where that isn't said.
    pub tracks: Option<u8>,
    /// The format of its image; that of the image's name, where it isn't said.
    pub format: Option<String>,
    /// How many sectors behind one block of a file the next is laid; as the drive lays them, where nothing is said of that.
    pub interleave: Option<u8>,
    /// The track on which the first file begins.
    pub track: Option<u8>,
    /// The sector at which it begins.
    pub sector: Option<u8>,
    /// Its directory, line by line.
    #[serde(default, rename = "entry")]
    pub lines: Vec<RecipeLine>,
}

/// A line of its directory: a file, or a line of art.
#[derive(Drop, Serialize, Deserialize)]
#[serde(deny_unknown_fields)]
pub struct RecipeLine {
    /// The file of the host that is put there.
    pub file: Option<String>,
    /// The name on the disk; made of the host's file, where it isn't said.
    pub name: Option<String>,
    /// The line of art that stands there, in place of a file.
    pub art: Option<String>,
    /// The file's type; given by the ending of the host's file, where it isn't said.
    #[serde(rename = "type")]
    pub kind: Option<String>,
    /// The length of the records of a relative file.
    pub record: Option<u8>,
    /// The number of blocks that is shown, where that isn't what the file has.
    pub blocks: Option<u16>,
    /// Whether it is locked; it isn't, where that isn't said.
    pub locked: Option<bool>,
    /// How many sectors behind one block of the file the next is laid.
    pub interleave: Option<u8>,
    /// The track on which the file begins.
    pub track: Option<u8>,
    /// The sector at which it begins.
    pub sector: Option<u8>,
}

/// The recipe that a text is. Errors: `Text`, with its place where the text is no TOML; `Memory`.
pub fn read_recipe(alloc: Global, text: &str) -> Result<Recipe, RecipeFault> {
    Ok(toml::from_str(alloc, text)?)
}

/// The text of a recipe. The one error is `Memory`.
pub fn recipe_text(alloc: Global, recipe: &Recipe) -> Result<String, RecipeFault> {
    Ok(toml::to_string(alloc, recipe)?)
}
