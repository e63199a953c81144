//! Commands of `disk1541` that compare two images, and show a file.
#![tactic(auto)]

mod comparing;
mod cuts;
mod files;
mod labels;
mod lines;
mod moved;
mod pairs;
mod report;
mod screen;
mod sectors;
mod showing;
mod side;

pub use comparing::{Comparison, diff};
pub use screen::Form;
pub use showing::{Wanted, show};
