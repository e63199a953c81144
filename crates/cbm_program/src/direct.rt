//! Scripts on a drive with direct access, whose events on the bus are told as they come.

mod cable;
mod changes;
mod printing;
mod session;

pub(crate) use cable::DirectCable;
pub(crate) use changes::change_direct;
pub(crate) use session::{Bench, serve_direct};
