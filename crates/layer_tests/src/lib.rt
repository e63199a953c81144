//! Worked rows of the layers below the volume, and of what the tool knows of files and maps, by their public names.
#![tactic(auto)]

#[cfg(test)]
mod tests;
