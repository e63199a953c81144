//! A plain reader of traces of the serial bus, and with it worked and generated sessions of the drives.
#![tactic(auto)]

#[cfg(test)]
mod tests;
