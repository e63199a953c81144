//! A tool for disk images: what is on them, files out and in, soundness, formats.
#![tactic(auto)]

mod lock;
mod program;
mod reading;
mod several;
mod tasks;

use std::process::ExitCode;

fn main(rt: HostRuntime) -> ExitCode {
    program::run_program(&rt)
}
