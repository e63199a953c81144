//! A talk with the host of a bus: it says what it does line by line, and is answered by what comes of it.
#![tactic(auto)]

mod carrying;
mod clock;
mod fault;
mod lines;
mod plays;
mod ready;
mod replying;
mod request;

pub use fault::{ReplyFault, ReplyRefusal};
pub use lines::LineReader;
pub use plays::Plays;
pub use ready::ready_text;
pub use replying::reply;
pub use request::{ReplyRequest, request_of};
