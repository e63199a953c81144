//! What an image shows: lines for people, and JSON and tables for programs.
#![tactic(auto)]

mod blocks;
mod broken;
mod deleted;
mod find;
mod flaws;
mod geos;
mod info;
mod other;
mod report;
mod seen;
mod sum;
mod unlinked;
mod view;

pub use find::match_line;
pub use other::{OtherKind, other_lines};
pub use report::{Broken, Facts, Files, heads, refusal_line};
pub use view::{Look, LookAnswer, Shown, View, lines_of};
