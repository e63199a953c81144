//! BUILD: an image of the disk that a recipe describes.
mod bench;
mod laid;
mod lines;
mod ordered;

use self::bench::Bench;
use self::laid::Lane;
use self::lines::with_lines;
use crate::blanks::{Blank, blank_image};
use cbm_shell::texts::Charset;
use disk_basics::host::{read_file, require_new, require_no_input, write};
use disk_basics::{Failure, What, WordFault};
use disk_facts::kind_of_name;
use disk_recipes::{Recipe, RecipeFault, line_of_unknown, read_recipe};
use host_files::Sync;
use std::path::Path;
use std::rt::Runtime;

/// An image that is built.
#[derive(Clone, Copy)]
pub struct Build<'a> {
    /// The file of the recipe.
    pub recipe: &'a str,
    /// The image.
    pub image: &'a str,
    /// An image that is there is replaced.
    pub replaces: bool,
    /// The character set of names.
    pub charset: Charset,
}

/// Reports what is wrong with the text of a recipe, and in which line if a word of it is unknown.
fn report<R: Runtime + AllocGlobal>(rt: &R, name: &str, text: &str, fault: RecipeFault) {
    let Ok(sentence) = format!(in rt.alloc(); "{fault}") else {
        return;
    };
    let _ = match line_of_unknown(text, sentence.as_str()) {
        Some(line) => eprint!(rt; "disk1541: {name}: line {line}: {sentence}"),
        None => eprint!(rt; "disk1541: {name}: {sentence}"),
    };
}

/// The recipe of a text; what is wrong with it is reported.
fn recipe_in<R: Runtime + AllocGlobal>(rt: &R, name: &str, text: &str) -> Result<Recipe, Failure> {
    match read_recipe(rt.alloc(), text) {
        Ok(recipe) => Ok(recipe),
        Err(RecipeFault::Memory) => Err(Failure::new(What::NoMemory)),
        Err(fault) => {
            report(rt, name, text, fault);
            Err(Failure::named(rt.alloc(), What::Word(WordFault::Recipe), name))
        }
    }
}

/// Reads a recipe.
fn recipe_of<R: Runtime + AllocGlobal>(rt: &R, name: &str) -> Result<Recipe, Failure> {
    let bytes = read_file(rt, name)?;
    match std::str::from_utf8(bytes.as_slice()) {
        Ok(text) => recipe_in(rt, name, text),
        Err(_) => Err(Failure::named(rt.alloc(), What::Word(WordFault::Recipe), name)),
    }
}

/// How many tracks a recipe asks for.
fn tracks_of(recipe: &Recipe) -> &'static str {
    match recipe.tracks {
        None | Some(35) => "35",
        Some(40) => "40",
        Some(_) => "that many",
    }
}

/// The word for the format, where the image's name doesn't say it.
fn format_of<'r>(recipe: &'r Recipe, image: &str) -> Option<&'r str> {
    match &recipe.format {
        Some(format) if kind_of_name(image).is_none() => Some(format.as_str()),
        _ => None,
    }
}

/// The empty disk of a recipe.
fn blank_of<'r>(recipe: &'r Recipe, image: &str, charset: Charset) -> Blank<'r> {
    Blank {
        title: recipe.title.as_str(),
        id: recipe.id.as_str(),
        tracks: tracks_of(recipe),
        format: format_of(recipe, image),
        replaces: true,
        charset,
    }
}

/// The folder of a recipe, from which its files are named; none for standard input.
fn folder_of(recipe: &str) -> &str {
    match Path::new(recipe).parent() {
        Some(folder) => folder.as_str(),
        None => "",
    }
}

/// The image of the disk that a recipe describes, whose files are in a folder.
fn built<R: Runtime + AllocGlobal>(
    rt: &R,
    recipe: &Recipe,
    image: &str,
    folder: &str,
    charset: Charset,
) -> Result<Vec<u8>, Failure> {
    let blank = blank_image(rt.alloc(), image, &blank_of(recipe, image, charset))?;
    let bench = Bench {
        image,
        folder,
        charset,
    };
    let lane = Lane::of(recipe)?;
    with_lines(rt, bench, lane, recipe.lines.as_slice(), blank)
}

/// The image of the disk that a recipe describes.
fn built_of<R: Runtime + AllocGlobal>(rt: &R, build: &Build<'_>) -> Result<Vec<u8>, Failure> {
    let recipe = recipe_of(rt, build.recipe)?;
    let folder = folder_of(build.recipe);
    built(rt, &recipe, build.image, folder, build.charset)
}

/// Builds an image, all of it or nothing. Errors: `Exists`; `Read`, `TooLong` or `Word`, where the recipe can't be read
/// or is none, or the image is the recipe or a file of it; those of its lines; `NoMemory`; `Write`.
pub fn build_image<R: Runtime + AllocGlobal>(rt: &R, build: &Build<'_>) -> Result<(), Failure> {
    require_no_input(rt, build.recipe, build.image)?;
    require_new(rt, build.image, build.replaces)?;
    let image = built_of(rt, build)?;
    write(rt, build.image, image.as_slice(), Sync::Before)
}
