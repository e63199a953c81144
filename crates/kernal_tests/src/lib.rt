//! The KERNAL of a C64 and a VIC-20 as a host on the bus, store by store and look by look. Its moments are a model: counted
//! in cycles from memory of the ROM's listing, and not measured at a computer.
#![tactic(auto)]

#[cfg(test)]
mod tests;
