//! Group code: four bytes as five, in which at most two zeros and eight ones stand in a row.
#![tactic(auto)]

mod byte;
mod group;
mod nibble;

pub use group::{decode5, encode4};
