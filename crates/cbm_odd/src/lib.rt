//! Disks with odd entries, as lines of art that lead into the directory: all else is changed as on any disk, and they are left alone.
#![tactic(auto)]

// (`put_away`, `put_back` and `change` are never inlined: in one caller's frame all of them would take stack at once.)

mod away;
mod back;
mod changing;
mod held;
mod marking;
mod odd;

pub use away::{Away, put_away};
pub use back::{put_back, put_back_by};
pub use changing::{change, map_around};
pub use marking::Marks;
pub use odd::Odd;
