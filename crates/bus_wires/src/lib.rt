//! What the wires of the bus show, as events of its parties.
#![tactic(auto)]

mod drive;
mod hands;
mod host;
mod looks;
mod playing;
mod wires;

pub use wires::{Unread, Wires};
