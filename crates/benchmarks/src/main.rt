//! Times of the calls that move whole images, printed on standard error.
#![tactic(auto)]

mod circles;
mod disks;
mod drives;
mod images;
mod records;
mod scripts;
mod times;
mod wires;
mod writes;

use std::io;

fn main(rt: HostRuntime) -> io::Result<()> {
    times::all(&rt)
}
