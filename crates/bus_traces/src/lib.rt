//! Traces of the serial bus: who changed which line when, written and read as lines and as VCD, and as a picture.
#![tactic(auto)]

mod bytes;
mod cable;
mod event;
mod fault;
mod lines;
mod picture;
mod reader;
mod recorder;
mod text;
mod vcd;

pub use bytes::{Decoder, Sent};
pub use event::{event_of, event_text, host_event_of, moment_of, what_is_written_reads_back};
pub use fault::{Flaw, LineFault, TraceFault};
pub use lines::EventLines;
pub use picture::Picture;
pub use reader::{Told, Traces};
pub use recorder::{Recorder, TraceForm};
pub use text::{Source, number, split_word};
