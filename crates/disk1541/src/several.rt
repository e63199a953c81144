//! Commands that change several images, each by itself.
use crate::lock::lock_folder;
use crate::tasks::{Walk, change_with, image_noun, tell_other};
use clap::ArgMatches;
use disk_basics::host::{is_standard, print};
use disk_basics::{Failure, What, WordFault, in_memory};
use disk_commands::{Verb, flag};
use host_files::{Kind, kind_of};
use std::alloc::{AllocError, Global};

/// The images that a command changes one by one: those of VALIDATE, and those of DELETE, LOCK and UNLOCK with `--only`, whose other
/// words are images, too. None of other commands.
pub fn images_of<'a>(
    alloc: Global,
    verb: Verb,
    words: &ArgMatches<'a>,
) -> Result<Vec<&'a str>, AllocError> {
    let mut images = Vec::new(alloc);
    let (first, others) = match verb {
        Verb::Validate => ("IMAGE", ""),
        Verb::Delete | Verb::Lock | Verb::Unlock if words.get_strs("only").is_some() => (
            "IMAGE", "PATTERN",
        ),
        _ => return Ok(images),
    };
    images.extend_from_slice(words.get_strs(first).unwrap_or(&[]))?;
    images.extend_from_slice(words.get_strs(others).unwrap_or(&[]))?;
    Ok(images)
}

/// How many images were changed, and how many weren't.
#[derive(Clone, Copy)]
struct Outcome {
    done: u32,
    refused: u32,
}

impl Outcome {
    /// The line that says it.
    fn line(self, alloc: Global, is_dry: bool) -> Result<String, AllocError> {
        let Outcome { done, refused } = self;
        let all = done.wrapping_add(refused);
        let noun = image_noun(all);
        let word = if is_dry { "would be done" } else { "done" };
        format!(in alloc; "{all} {noun}: {done} {word}, {refused} refused\n")
    }
}

/// Changes one of several images, while its folder is locked.
fn change_one(
    rt: &HostRuntime,
    verb: Verb,
    words: &ArgMatches<'_>,
    image: &str,
) -> Result<(), Failure> {
    let others_wait = lock_folder(rt, image);
    let answer = change_with(rt, verb, words, image, None);
    drop(others_wait);
    answer
}

/// Prints the name of an image over what is said of it.
fn print_name(rt: &HostRuntime, image: &str) -> Result<(), Failure> {
    let line = in_memory(format!(in rt.alloc(); "{image}:\n"))?;
    print(rt, line.as_bytes())
}

/// Changes one of several images; where that is refused, it is reported.
fn change_among(
    rt: &HostRuntime,
    verb: Verb,
    words: &ArgMatches<'_>,
    image: &str,
    outcome: &mut Outcome,
) -> Result<(), Failure> {
    let is_json = flag(words, "json");
    if !is_json && (flag(words, "dry-run") || matches!(verb, Verb::Validate)) {
        print_name(rt, image)?;
    }
    match change_one(rt, verb, words, image) {
        Ok(()) => outcome.done = outcome.done.wrapping_add(1),
        Err(failure) if matches!(failure.what, What::NoMemory | What::Word(_)) => {
            return Err(failure);
        }
        Err(failure) => {
            outcome.refused = outcome.refused.wrapping_add(1);
            tell_other(rt, image, &failure, is_json)?;
            let _ = eprintln!(rt; "disk1541: {image} was not changed");
        }
    }
    Ok(())
}

/// Changes the images of a folder. A folder that can't be read is reported, as an image is.
fn change_into(
    rt: &HostRuntime,
    verb: Verb,
    words: &ArgMatches<'_>,
    folder: &str,
    outcome: &mut Outcome,
) -> Result<(), Failure> {
    let walk = in_memory(Walk::through(rt, folder, false))?;
    for failure in walk.refused() {
        outcome.refused = outcome.refused.wrapping_add(1);
        tell_other(rt, failure.name(), failure, flag(words, "json"))?;
    }
    for image in walk.images() {
        change_among(rt, verb, words, image.as_str(), outcome)?;
    }
    Ok(())
}

/// Changes one of several images, or those of a folder.
fn change_at(
    rt: &HostRuntime,
    verb: Verb,
    words: &ArgMatches<'_>,
    name: &str,
    outcome: &mut Outcome,
) -> Result<(), Failure> {
    if flag(words, "recursive") && matches!(kind_of(rt, name), Ok(Kind::Folder)) {
        return change_into(rt, verb, words, name, outcome);
    }
    change_among(rt, verb, words, name, outcome)
}

/// Changes several images one after the other, those of folders included, and prints their number. Errors: `Word`; `Several`,
/// where some are refused, as is reported; `Write`; `NoMemory`.
pub fn change_each(
    rt: &HostRuntime,
    verb: Verb,
    words: &ArgMatches<'_>,
    images: &[&str],
) -> Result<(), Failure> {
    if images.iter().any(|image| is_standard(*image)) {
        return Err(Failure::new(What::Word(WordFault::Twice)));
    }
    let mut outcome = Outcome {
        done: 0,
        refused: 0,
    };
    for image in images {
        change_at(rt, verb, words, *image, &mut outcome)?;
    }
    if !flag(words, "json") {
        let line = in_memory(outcome.line(rt.alloc(), flag(words, "dry-run")))?;
        print(rt, line.as_bytes())?;
    }
    if outcome.refused == 0 {
        Ok(())
    } else {
        Err(Failure::new(What::Several))
    }
}
