//! Drives on a bus with a host that talks.
#![tactic(auto)]

mod hosted_bus;

pub use hosted_bus::HostedBus;
