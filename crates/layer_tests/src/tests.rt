//! The rows, a file for each crate or what it does, and what they share.

mod command;
mod d64;
mod disks;
mod file;
mod g64;
mod gcr;
mod listing;
mod machine;
mod maps;
mod medium;
mod names;
mod sector;
mod track;

use std::process::Abort;

/// Stops if a row doesn't hold, and says its text.
fn holds(rt: &impl Abort, held: bool, text: &[u8]) {
    assert!(rt; held, "{text:?}");
}
