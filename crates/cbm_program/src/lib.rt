//! A script of requests, and what it prints.
#![tactic(auto)]

mod direct;
mod fault;
mod images;
mod line;
mod numbered;
mod output;
mod performing;
mod request;
mod session;
mod station;
mod text;
mod wires;
mod word;

pub use cbm_drive::{Half, Pace, Unwatched, Watches};
pub use fault::RunFault;
pub use images::{DirectOptions, Options, run, run_direct, run_watched};
pub use line::{ScriptLine, parse};
pub use request::{ScriptRequest, Text};
pub use text::{decode, what_is_written_reads_back};
