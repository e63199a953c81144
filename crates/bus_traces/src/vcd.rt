//! Traces as VCD (Value Change Dump, IEEE 1364): 0 is pulled, 1 is free.

mod changes;
pub(crate) mod dumping;
mod header;
mod names;
mod scale;
mod sections;
mod variables;

pub(crate) use changes::Dump;
