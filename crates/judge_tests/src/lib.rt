//! What the judge of traces has to say: by its calls, and in words.
#![tactic(auto)]

#[cfg(test)]
mod tests;
