//! The help of all commands: those that look, and those that change.
use crate::asked::{Asked, asked_by};
use crate::commands::{
    Command, arranging_commands, changing_commands, looking_commands, making_commands,
    reading_commands,
};
use crate::examples::EXAMPLES;
use std::alloc::{AllocError, Global};

/// What stands above the commands.
const HEAD: &str =
    "List, change, check and convert disk images of the Commodore 1541\n\nUsage: disk1541 <COMMAND>\n";

/// What stands below them.
const OPTIONS: &str = "\nOptions:\n  -h, --help     Print help\n  -V, --version  Print version\n\n";

/// How wide the column of names is.
const WIDTH: usize = 10;

/// Adds the line of a command.
fn push_line(text: &mut String, command: &Command) -> Result<(), AllocError> {
    text.push_str("  ")?;
    text.push_str(command.name)?;
    for _ in command.name.len()..WIDTH {
        text.push(' ')?;
    }
    text.push_str(command.about)?;
    text.push('\n')
}

/// Adds commands under a head.
fn push_group(text: &mut String, head: &str, commands: &[Command]) -> Result<(), AllocError> {
    text.push_str(head)?;
    for command in commands {
        push_line(text, command)?;
    }
    Ok(())
}

/// The help of all commands, for a command line that may ask for it; else nothing.
pub fn help_for(alloc: Global, words: &[String]) -> Result<String, AllocError> {
    match asked_by(words) {
        Asked::Any => help_text(alloc),
        Asked::One(_) | Asked::Version => Ok(String::new(alloc)),
    }
}

/// The help of all commands.
fn help_text(alloc: Global) -> Result<String, AllocError> {
    let mut text = String::from_str(alloc, HEAD)?;
    push_group(
        &mut text,
        "\nCommands that look at disks:\n",
        reading_commands(),
    )?;
    push_group(&mut text, "", looking_commands())?;
    push_group(
        &mut text,
        "\nCommands that change disks:\n",
        making_commands(),
    )?;
    push_group(&mut text, "", changing_commands())?;
    push_group(&mut text, "", arranging_commands())?;
    text.push_str(OPTIONS)?;
    text.push_str(EXAMPLES)?;
    Ok(text)
}
