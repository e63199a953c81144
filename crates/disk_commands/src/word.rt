//! A word that a command takes.
use clap::ArgAction;

/// How a word is marked on the command line.
#[derive(Clone, Copy)]
pub enum Mark {
    /// By its place.
    Place,
    /// By `--` and its name.
    Long,
    /// By `--` and its name, or by `-` and a letter.
    Short(char),
}

/// A word that a command takes.
#[derive(Clone, Copy)]
pub struct Word {
    /// Its name.
    pub name: &'static str,
    /// What help says of it.
    pub help: &'static str,
    /// How it is marked.
    pub mark: Mark,
    /// Whether it must be there.
    pub is_needed: bool,
    /// Whether it has a value.
    pub action: ArgAction,
    /// What help calls its value, where that isn't its name.
    pub value: &'static [&'static str],
    /// What it is where it is missing.
    pub default: &'static [&'static str],
    /// The words that can't stand beside it.
    pub excludes: &'static [&'static str],
    /// Whether it may begin with a hyphen.
    pub takes_hyphens: bool,
}

/// A word that must be there.
pub const NEEDED: Word = Word {
    name: "",
    help: "",
    mark: Mark::Place,
    is_needed: true,
    action: ArgAction::Set,
    value: &[],
    default: &[],
    excludes: &[],
    takes_hyphens: false,
};

/// A word with a value that may be missing.
pub const OPTION: Word = Word {
    mark: Mark::Long,
    is_needed: false,
    ..NEEDED
};

/// A word that is there or not.
pub const FLAG: Word = Word {
    action: ArgAction::SetTrue,
    ..OPTION
};
