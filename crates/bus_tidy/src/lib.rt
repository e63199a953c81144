//! Beside the trace of a host as it is, that of a tidy host: the changes of CLOCK and DATA that no drive heeds are left
//! out, or come where a session has them.
#![tactic(auto)]

mod cable;
mod phase;
mod tidy;

pub use tidy::{Changes, Tidy};
