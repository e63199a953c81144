//! The host's side of the serial bus: requests as changes of the lines.
#![tactic(auto)]

mod commands;
mod done;
mod due;
mod engine;
mod frame;
mod hosted;
pub mod laws;
mod left;
mod performer;
mod performing;
mod request;
mod stage;
mod take;
mod waits;

pub use done::Done;
pub use hosted::Hosted;
pub use performer::Performer;
pub use performing::{perform, perform_at};
pub use request::Request;
