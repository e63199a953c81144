//! Traces of the bus, read, written and drawn: what no clause of bus_traces says.
#![tactic(auto)]

#[cfg(test)]
mod tests;
