//! Which commands a command line can be about.
use crate::commands::{Command, command_of};

/// What the first word of a command line asks for.
#[derive(Clone, Copy)]
pub enum Asked {
    /// The program's version.
    Version,
    /// This command: no other one's words can follow.
    One(Command),
    /// Help, or a word that is at fault: all commands may be told of.
    Any,
}

/// What a command line asks for; its first word is the program's name.
pub fn asked_by(words: &[String]) -> Asked {
    let Some(first) = words.get(1) else {
        return Asked::Any;
    };
    match first.as_str() {
        "--version" | "-V" => Asked::Version,
        name => match command_of(name) {
            Some(command) => Asked::One(command),
            None => Asked::Any,
        },
    }
}

/// The command that has another name in other tools; None where the first word of a command line is no such name.
pub fn other_name(words: &[String]) -> Option<&'static str> {
    let first = words.get(1)?;
    match first.as_str() {
        "ls" | "dir" | "cat" | "directory" => Some("list"),
        "extract" | "read" => Some("get"),
        "add" | "write" | "insert" => Some("put"),
        "format" | "create" => Some("new"),
        "rm" | "del" | "scratch" | "erase" => Some("delete"),
        "mv" | "ren" => Some("rename"),
        "cp" => Some("copy"),
        "bam" => Some("map"),
        "verify" => Some("check"),
        _ => None,
    }
}
