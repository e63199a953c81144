//! The files that the program is told to play.

use crate::player;
use std::process::ExitCode;
use std::{env, fs, io};

/// The text of a file, which lies where the program runs, or in the folder data there.
fn text_of(rt: &HostRuntime, name: &str) -> io::Result<String> {
    if let Ok(text) = fs::read_to_string(rt, name) {
        return Ok(text);
    }
    let name = format!(in rt.alloc(); "data/{name}")?;
    fs::read_to_string(rt, name.as_str())
}

/// Plays a file, prints its report, and answers whether all came as written.
fn play_file(rt: &HostRuntime, name: &str) -> io::Result<bool> {
    let text = text_of(rt, name)?;
    let report = player::play(rt.alloc(), text.as_str())?;
    for told in report.told() {
        println!(rt; "{name}:{told}")?;
    }
    let (cases, steps, wrong) = report.counts();
    println!(rt; "{name}: {cases} cases, {steps} steps, {wrong} wrong")?;
    Ok(wrong == 0)
}

/// Plays the files that the arguments name.
fn play_files(rt: &HostRuntime) -> io::Result<bool> {
    let words: Vec<String> = env::args(rt)?.collect(rt.alloc())?;
    let mut all = true;
    for name in words.as_slice().iter().skip(1) {
        let right = play_file(rt, name.as_str())?;
        all = all && right;
    }
    Ok(all)
}

/// Plays the files that the arguments name. The exit status is 1 if a line comes otherwise, 2 if a file can't be read.
pub fn play(rt: &HostRuntime) -> ExitCode {
    match play_files(rt) {
        Ok(true) => ExitCode::from(0),
        Ok(false) => ExitCode::from(1),
        Err(error) => {
            let _ = eprintln!(rt; "a file can't be read: {error}");
            ExitCode::from(2)
        }
    }
}
