//! The command line, as clap reads it.
use crate::asked::{Asked, asked_by};
use crate::commands::{
    Command, arranging_commands, changing_commands, looking_commands, making_commands,
    reading_commands,
};
use crate::examples::examples_of;
use crate::word::{Mark, Word};
use clap::{Arg, ArgMatches, Error};
use std::alloc::{AllocError, Global};

/// The program's version.
const VERSION: &str = "0.4.0";

/// A word without its mark.
fn unmarked<'a>(alloc: Global, word: &Word) -> Result<Arg<'a>, AllocError> {
    Arg::new(alloc, word.name)
        .help(word.help)
        .required(word.is_needed)
        .action(word.action)
        .value_names(word.value)
        .default_values(word.default)
        .allow_hyphen_values(word.takes_hyphens)
        .conflicts_with_all(word.excludes)
}

/// A word.
fn arg<'a>(alloc: Global, word: &Word) -> Result<Arg<'a>, AllocError> {
    let arg = unmarked(alloc, word)?;
    Ok(match word.mark {
        Mark::Place => arg,
        Mark::Long => arg.long(word.name),
        Mark::Short(letter) => arg.short(letter).long(word.name),
    })
}

/// The words of a command.
fn args<'a>(alloc: Global, words: &[Word]) -> Result<Vec<Arg<'a>>, AllocError> {
    let mut args = Vec::new(alloc);
    for word in words {
        args.push(arg(alloc, word)?)?;
    }
    Ok(args)
}

/// A command.
fn subcommand<'a>(alloc: Global, command: &Command) -> Result<clap::Command<'a>, AllocError> {
    let args = args(alloc, command.words)?;
    clap::Command::new(alloc, command.name)
        .about(command.about)
        .after_help(examples_of(command.verb))
        .args(args)
}

/// Adds a command.
fn add_subcommand<'a>(
    alloc: Global,
    subcommands: &mut Vec<clap::Command<'a>>,
    command: &Command,
) -> Result<(), AllocError> {
    let subcommand = subcommand(alloc, command)?;
    subcommands.push(subcommand)?;
    Ok(())
}

/// Adds commands.
fn add_subcommands<'a>(
    alloc: Global,
    subcommands: &mut Vec<clap::Command<'a>>,
    commands: &[Command],
) -> Result<(), AllocError> {
    for command in commands {
        add_subcommand(alloc, subcommands, command)?;
    }
    Ok(())
}

/// All commands.
fn subcommands<'a>(alloc: Global) -> Result<Vec<clap::Command<'a>>, AllocError> {
    let mut subcommands = Vec::new(alloc);
    add_subcommands(alloc, &mut subcommands, reading_commands())?;
    add_subcommands(alloc, &mut subcommands, looking_commands())?;
    add_subcommands(alloc, &mut subcommands, making_commands())?;
    add_subcommands(alloc, &mut subcommands, changing_commands())?;
    add_subcommands(alloc, &mut subcommands, arranging_commands())?;
    Ok(subcommands)
}

/// The commands that are asked for. To make the words of all of them takes longer than most of them do.
fn subcommands_for<'a>(alloc: Global, asked: Asked) -> Result<Vec<clap::Command<'a>>, AllocError> {
    match asked {
        Asked::Version => Ok(Vec::new(alloc)),
        Asked::One(command) => {
            let mut subcommands = Vec::new(alloc);
            add_subcommand(alloc, &mut subcommands, &command)?;
            Ok(subcommands)
        }
        Asked::Any => subcommands(alloc),
    }
}

/// What may stand on the command line; help prints this text.
fn program<'a>(
    alloc: Global,
    asked: Asked,
    help: &'a str,
) -> Result<clap::Command<'a>, AllocError> {
    let subcommands = subcommands_for(alloc, asked)?;
    clap::Command::new(alloc, "disk1541")
        .override_help(help)
        .version(VERSION)
        .subcommand_required(true)
        .arg_required_else_help(true)
        .subcommands(subcommands)
}

/// Reads the command line; `help` is the text of `help_for` these words. Errors: clap's, for a word that can't
/// stand there, and for help or the version, which are asked for so.
pub fn parse<'a>(
    alloc: Global,
    words: &'a [String],
    help: &'a str,
) -> Result<ArgMatches<'a>, Error> {
    program(alloc, asked_by(words), help)?.try_get_matches_from(words)
}

/// A word that the command line must have.
pub fn given<'a>(words: &ArgMatches<'a>, name: &str) -> &'a str {
    words.get_str(name).unwrap_or("")
}

/// A word that may be missing; None where it is.
pub fn option<'a>(words: &ArgMatches<'a>, name: &str) -> Option<&'a str> {
    words.get_str(name)
}

/// Whether a word is there.
pub fn flag(words: &ArgMatches<'_>, name: &str) -> bool {
    words.get_flag(name)
}
