//! A command that changes one image: it is read, changed, and saved; or what would change is shown.
use super::changes::{Made, Manner, made_by, require_words};
use crate::reading::charset;
use clap::ArgMatches;
use disk_basics::host::{is_standard, print, read_image, replace};
use disk_basics::{Failure, in_memory, on_disk};
use disk_commands::{Verb, flag};
use disk_edits::{Desk, Showing, shown_change};
use std::alloc::Global;
use std::rt::Runtime;

/// Prints what a command did: on standard error, if standard output has the image.
pub fn print_plan<R: Runtime + AllocGlobal>(
    rt: &R,
    image: &str,
    plan: &str,
    is_dry: bool,
) -> Result<(), Failure> {
    if is_standard(image) && !is_dry {
        let _ = eprint!(rt; "{plan}");
        return Ok(());
    }
    print(rt, plan.as_bytes())
}

/// What a command changes, as it is shown.
fn shown_of(
    alloc: Global,
    desk: Desk<'_, '_>,
    made: &Made,
    showing: Showing,
) -> Result<String, Failure> {
    if let Some(plan) = &made.plan {
        return in_memory(String::from_str(alloc, plan.as_str()));
    }
    let shown = shown_change(alloc, desk, made.image.as_slice(), showing);
    on_disk(alloc, desk.image, shown)
}

/// Prints the plan that a command made, if it made one.
fn print_own<R: Runtime + AllocGlobal>(rt: &R, image: &str, made: &Made) -> Result<(), Failure> {
    match &made.plan {
        Some(plan) => print_plan(rt, image, plan.as_str(), false),
        None => Ok(()),
    }
}

/// Saves what a command made, and says what is to be said.
fn save_made<R: Runtime + AllocGlobal>(
    rt: &R,
    desk: Desk<'_, '_>,
    made: &Made,
    showing: Showing,
) -> Result<(), Failure> {
    let shown = if showing.is_json {
        Some(shown_of(rt.alloc(), desk, made, showing)?)
    } else {
        None
    };
    replace(rt, desk.image, desk.bytes, made.image.as_slice())?;
    if let Some(rest) = &made.rest {
        let _ = eprint!(rt; "{rest}");
    }
    match shown {
        Some(told) => print_plan(rt, desk.image, told.as_str(), false),
        None => print_own(rt, desk.image, made),
    }
}

/// How a command's words want the change shown. Errors: `Word`, where a C64 has no such character set.
pub fn showing_of(alloc: Global, words: &ArgMatches<'_>) -> Result<Showing, Failure> {
    Ok(Showing {
        charset: charset(alloc, words)?,
        is_dry: flag(words, "dry-run"),
        is_json: flag(words, "json"),
    })
}

/// Changes an image by a command, and saves it; or shows what would change, if the words say so. Errors: `Word`; those of
/// `read_image` and of `made_by`; those of `replace`; `Write`.
pub fn change_with<'a, R: Runtime + AllocGlobal>(
    rt: &R,
    verb: Verb,
    words: &ArgMatches<'a>,
    image: &str,
    input: Option<&'a [u8]>,
) -> Result<(), Failure> {
    let showing = showing_of(rt.alloc(), words)?;
    let manner = Manner { input, showing };
    require_words(rt.alloc(), verb, words, image, manner)?;
    let old = read_image(rt, image)?;
    let desk = Desk {
        image,
        bytes: old.as_slice(),
    };
    let made = made_by(rt, verb, words, desk, manner)?;
    if showing.is_dry {
        let shown = shown_of(rt.alloc(), desk, &made, showing)?;
        return print(rt, shown.as_bytes());
    }
    save_made(rt, desk, &made, showing)
}
