//! The times that are taken.

use crate::{circles, disks, drives, records, scripts, wires, writes};
use std::io;

/// Takes all times, one after another.
pub fn all(rt: &HostRuntime) -> io::Result<()> {
    disks::copies(rt, rt.alloc())?;
    disks::images(rt, rt.alloc())?;
    disks::chains(rt, rt.alloc())?;
    drives::files(rt, rt.alloc())?;
    drives::checks(rt, rt.alloc())?;
    writes::files(rt, rt.alloc())?;
    writes::validations(rt, rt.alloc())?;
    writes::copies(rt, rt.alloc())?;
    records::files(rt, rt.alloc())?;
    wires::drives(rt, rt.alloc())?;
    scripts::requests(rt, rt.alloc())?;
    circles::images(rt, rt.alloc())
}
