//! Formats of images.
use crate::failure::Failure;
use crate::what::What;
use crate::word_fault::WordFault;
use cbm_image::Kind;
use cbm_shell::Form;
use disk_facts::{kind_of_name, kind_of_word};
use std::alloc::Global;

/// The format of a new image: what `--format` says, or the ending of its name. Errors: `Word`, where that says none.
pub fn format(alloc: Global, image: &str, word: Option<&str>) -> Result<Kind, Failure> {
    let (kind, name) = match word {
        Some(word) => (kind_of_word(word), word),
        None => (kind_of_name(image), image),
    };
    match kind {
        Some(kind) => Ok(kind),
        None => Err(Failure::named(alloc, What::Word(WordFault::Format), name)),
    }
}

/// What a new image is. Errors: `Word`, where no disk has that many tracks, or no G64.
pub fn form(alloc: Global, kind: Kind, tracks: &str) -> Result<Form, Failure> {
    let is_long = tracks == "40";
    if !is_long && tracks != "35" {
        return Err(Failure::named(alloc, What::Word(WordFault::Tracks), tracks));
    }
    match kind {
        Kind::D64 if is_long => Ok(Form::LongD64),
        Kind::D64 => Ok(Form::D64),
        Kind::G64 if is_long => Err(Failure::new(What::Word(WordFault::LongG64))),
        Kind::G64 => Ok(Form::G64),
    }
}
