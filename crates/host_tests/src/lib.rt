//! Requests over the wires, to a drive with a disk.
#![tactic(auto)]

#[cfg(test)]
mod failing;
#[cfg(test)]
mod moments;
#[cfg(test)]
mod requests;
#[cfg(test)]
mod wired;
