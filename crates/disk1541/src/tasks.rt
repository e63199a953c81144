//! Carrying out the commands.
mod changes;
mod counts;
mod folders;
mod look;
mod running;
mod saving;
mod words;

pub use self::counts::image_noun;
pub use self::folders::Walk;
use self::look::look_at_all;
pub use self::look::tell_other;
use self::running::run_lines;
pub use self::saving::change_with;
use crate::reading::{
    blank, building, charset, checking, conversion, description, error_deed, listing, mapping,
    one_file, pattern, place, wanted,
};
use cbm_shell::texts::Charset;
use clap::ArgMatches;
use disk_basics::host::is_standard;
use disk_basics::{Failure, What, petscii};
use disk_changes::{build_image, make};
use disk_commands::{Verb, flag, given, option, verb_of};
use disk_compare::{Comparison, diff, show};
use disk_edits::error_bytes;
use disk_looks::{Progress, Selection, describe, show_map, show_sector, show_track};
use disk_reports::{Look, View};
use disk_sources::{Transfer, convert_image, get, get_all, transfer_files};
use std::rt::Runtime;

/// Carries out a command that looks at images.
fn look_with<R: Runtime + AllocGlobal>(
    rt: &R,
    words: &ArgMatches<'_>,
    charset: Charset,
    view: View,
) -> Result<(), Failure> {
    let pattern = petscii(rt.alloc(), charset, pattern(words))?;
    let look = Look {
        view,
        charset,
        pattern: pattern.as_slice(),
        is_json: flag(words, "json"),
        is_csv: flag(words, "csv"),
        is_recursive: flag(words, "recursive"),
        is_among: false,
    };
    look_at_all(rt, words.get_strs("IMAGE").unwrap_or(&[]), look)
}

/// Takes files of another disk or archive over.
fn transfer_with<R: Runtime + AllocGlobal>(
    rt: &R,
    words: &ArgMatches<'_>,
    charset: Charset,
) -> Result<(), Failure> {
    let wanted = Transfer {
        from: given(words, "FROM"),
        patterns: words.get_strs("PATTERN").unwrap_or(&[]),
        replaces: flag(words, "replace"),
        is_dry: flag(words, "dry-run"),
        is_json: flag(words, "json"),
        charset,
    };
    transfer_files(rt, given(words, "IMAGE"), &wanted)
}

/// Takes files out into a folder.
fn get_all_with<R: Runtime + AllocGlobal>(
    rt: &R,
    words: &ArgMatches<'_>,
    charset: Charset,
    progress: Progress,
) -> Result<(), Failure> {
    let patterns = words.get_strs("PATTERN").unwrap_or(&[]);
    let selection = Selection::of(rt.alloc(), patterns, option(words, "type"), charset)?;
    get_all(
        rt,
        given(words, "IMAGE"),
        place(words),
        &selection,
        progress,
    )
}

/// Shows what differs between two images.
fn diff_with<R: Runtime + AllocGlobal>(
    rt: &R,
    words: &ArgMatches<'_>,
    charset: Charset,
) -> Result<(), Failure> {
    let comparison = Comparison {
        first: given(words, "FIRST"),
        second: given(words, "SECOND"),
        charset,
        is_json: flag(words, "json"),
    };
    diff(rt, comparison)
}

/// Carries out a command with its words.
fn perform<'a, R: Runtime + AllocGlobal>(
    rt: &R,
    verb: Verb,
    words: &ArgMatches<'a>,
    progress: Progress,
    input: Option<&'a [u8]>,
) -> Result<(), Failure> {
    let image = given(words, "IMAGE");
    let charset = charset(rt.alloc(), words)?;
    match verb {
        Verb::List => look_with(rt, words, charset, listing(words)),
        Verb::Find => look_with(rt, words, charset, View::Matches),
        Verb::Info => look_with(rt, words, charset, View::Facts),
        Verb::Map => show_map(rt, image, mapping(words, charset, progress.is_coloured())),
        Verb::Track => show_track(rt, image, given(words, "TRACK"), flag(words, "json")),
        Verb::Sector => {
            let (track, sector) = (given(words, "TRACK"), given(words, "SECTOR"));
            show_sector(rt, image, track, sector, flag(words, "json"))
        }
        Verb::Check => look_with(rt, words, charset, checking(words)),
        Verb::Hash => look_with(rt, words, charset, View::Sum),
        Verb::Get => get(rt, image, &one_file(words, charset)?),
        Verb::Show => show(rt, image, wanted(words, charset)?),
        Verb::Diff => diff_with(rt, words, charset),
        Verb::GetAll => get_all_with(rt, words, charset, progress),
        Verb::New => make(rt, image, &blank(words, charset)),
        Verb::Convert => convert_image(rt, image, &conversion(words)),
        Verb::Transfer => transfer_with(rt, words, charset),
        Verb::Describe => describe(rt, image, description(words, charset)),
        Verb::Build => build_image(rt, &building(words, charset)),
        Verb::Errors => error_bytes(rt, image, error_deed(words)),
        Verb::Run => run_lines(rt, words, input),
        Verb::Put | Verb::Copy | Verb::Rename | Verb::Delete | Verb::Undelete | Verb::Lock =>
            change_with(rt, verb, words, image, input),
        Verb::Unlock | Verb::Title | Verb::Retype | Verb::Place | Verb::Sort | Verb::Validate =>
            change_with(rt, verb, words, image, input),
        Verb::Art | Verb::Move => change_with(rt, verb, words, image, input),
    }
}

/// Whether a command line puts what standard input gives on a disk, or carries it out.
pub fn reads_input(line: &ArgMatches<'_>) -> bool {
    let Some((name, words)) = line.subcommand() else {
        return false;
    };
    if !matches!(verb_of(name), Some(Verb::Put | Verb::Run)) || is_standard(given(words, "IMAGE")) {
        return false;
    }
    for file in words.get_strs("FILE").unwrap_or(&[]) {
        if is_standard(*file) {
            return true;
        }
    }
    false
}

/// Carries out the command line. It has a command of the table, since clap refuses any other.
pub fn carry_out<'a, R: Runtime + AllocGlobal>(
    rt: &R,
    line: &ArgMatches<'a>,
    progress: Progress,
    input: Option<&'a [u8]>,
) -> Result<(), Failure> {
    let Some((name, words)) = line.subcommand() else {
        return Err(Failure::new(What::Told));
    };
    match verb_of(name) {
        Some(verb) => perform(rt, verb, words, progress, input),
        None => Err(Failure::new(What::Told)),
    }
}
