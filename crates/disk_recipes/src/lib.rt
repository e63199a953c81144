//! Recipes of disks, as TOML: what `disk1541 build` makes, and what `disk1541 describe` writes.
#![tactic(auto)]

mod fault;
mod misspelt;
mod recipe;

pub use fault::RecipeFault;
pub use misspelt::line_of_unknown;
pub use recipe::{Recipe, RecipeLine, read_recipe, recipe_text};
