//! What a host says, read as it comes: what no clause of bus_replies says.
#![tactic(auto)]

#[cfg(test)]
mod tests;
