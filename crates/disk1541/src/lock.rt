//! Commands that change images come one after the other.
use clap::ArgMatches;
use disk_basics::host::{PROGRAM, path_of};
use disk_commands::{Verb, given, verb_of};
use host_locks::lock_beside;
use std::fs::File;

/// Whether a command changes its image.
fn changes(verb: Verb) -> bool {
    match verb {
        Verb::Put | Verb::Transfer | Verb::Copy | Verb::Rename | Verb::Delete => true,
        Verb::Undelete | Verb::Lock | Verb::Unlock | Verb::Title | Verb::Validate => true,
        Verb::Sort | Verb::Errors | Verb::Retype | Verb::Place | Verb::Run => true,
        Verb::Art | Verb::Move => true,
        Verb::Describe | Verb::Build | Verb::Track | Verb::Show | Verb::Diff => false,
        Verb::List | Verb::Find | Verb::Get | Verb::GetAll | Verb::Info => false,
        Verb::Map | Verb::Sector | Verb::Check | Verb::Hash | Verb::New | Verb::Convert => false,
    }
}

/// The image that the command line changes.
fn changed_image<'a>(line: &ArgMatches<'a>) -> Option<&'a str> {
    let (name, words) = line.subcommand()?;
    if changes(verb_of(name)?) {
        return Some(given(words, "IMAGE"));
    }
    None
}

/// Waits until no other program changes an image in the folder of the one that the command line changes. Others wait until
/// the answer is dropped, or this program ends in whatever way. None where no image is changed, or where the folder can't be
/// locked.
pub fn lock(rt: &HostRuntime, line: &ArgMatches<'_>) -> Option<File> {
    lock_folder(rt, changed_image(line)?)
}

/// The same for an image that is changed.
pub fn lock_folder(rt: &HostRuntime, image: &str) -> Option<File> {
    let path = path_of(rt.alloc(), image).ok()?;
    lock_beside(rt, PROGRAM, path.as_str())
}
