//! A track: a circle of bits, its sync marks, and the bytes at any bit of it.
#![tactic(auto)]

mod bits;
mod marks;
mod stretches;
mod track;
mod words;

pub use track::Track;
