//! Files of bytes: they are written, appended to, replaced, copied, renamed and scratched.

mod appending;
mod copying;
mod filling;
mod giving_up;
mod opening;
mod renaming;
mod replacing;
mod scratching;
mod writing;

pub use filling::FileWriter;
