//! The disk as a whole: its label and its room, NEW and VALIDATE.

mod formatting;
mod label;
mod room;
mod validating;
mod view;

pub use label::Label;
pub use room::Room;
