//! Drives on the bus: with machines of a few lines, and with disks.
#![tactic(auto)]

#[cfg(test)]
mod cables;
#[cfg(test)]
mod desks;
#[cfg(test)]
mod disks;
#[cfg(test)]
mod drives;
#[cfg(test)]
mod files;
#[cfg(test)]
mod host;
#[cfg(test)]
mod players;
#[cfg(test)]
mod recorder;
#[cfg(test)]
mod strays;
#[cfg(test)]
mod streams;
#[cfg(test)]
mod wires;
