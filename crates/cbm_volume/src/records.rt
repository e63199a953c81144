//! Relative files: they are made, opened, written in place, and grow.

mod adding_sides;
mod beginning_growth;
mod counting_blocks;
mod growing;
mod growing_blocks;
mod last_blocks;
mod making;
mod opening;
mod relisting;
mod writing;
