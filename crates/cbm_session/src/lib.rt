//! Sessions on the serial bus: what a host and one to four drives do on the wires, and the laws of it.
#![tactic(auto)]

pub mod laws;
