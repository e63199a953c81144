//! Single sectors: one that is no part of the disk is written, claimed or given back by itself, and any is written where that is asked for by name.

mod claiming;
mod giving;
mod looking;
mod sparing;
mod writing;
