//! The command line: an image, a script of requests, and if the image goes.
#![tactic(auto)]

mod arguments;
mod failure;
mod judge;
mod noted;
mod outputs;
mod program;
mod reason;
mod reply;
mod returns;
mod saving;
mod traced;

use std::process::ExitCode;

fn main(rt: HostRuntime) -> ExitCode {
    program::run_program(&rt)
}
