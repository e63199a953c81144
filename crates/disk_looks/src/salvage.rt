//! GET and GET-ALL of damaged disks: what can be read of a file.
use crate::strays::with_strays;
use cbm_medium::Fault;
use cbm_shell::texts::Charset;
use cbm_shell::{Listed, Salvaged, ShellFault};
use cbm_volume::Entry;
use disk_basics::calls::{file_blocks, info, name_text};
use disk_basics::{BreakOff, Cause, Disk};
use disk_facts::without_errors;
use std::io;
use std::rt::Runtime;

/// Reports which sectors of a file were taken in spite of their faults.
fn tell_faults<R: Runtime + AllocGlobal>(
    rt: &R,
    image: &[u8],
    plain: &[u8],
    entry: &Entry,
    name: &str,
) -> Result<(), ShellFault> {
    let faults = info(rt.alloc(), image)?.unreadable;
    let blocks = file_blocks(rt.alloc(), plain, entry)?;
    for fault in faults.as_slice() {
        if blocks.has(fault.at) {
            let _ = tell_fault(rt, name, *fault);
        }
    }
    Ok(())
}

/// Reports which sector was taken in spite of its fault.
fn tell_fault(rt: &impl Eprint, name: &str, fault: Fault) -> io::Result<()> {
    let track = fault.at.track();
    let sector = fault.at.sector();
    let code = fault.code;
    eprintln!(rt; "disk1541: \"{name}\": {track}/{sector} was extracted despite its error {code}")
}

/// Reports how much of a file was read, and why no more was.
fn tell_end(rt: &impl Eprint, name: &str, entry: &Entry, salvaged: &Salvaged) -> io::Result<()> {
    let count = salvaged.bytes.len();
    if !entry.is_closed() {
        eprintln!(rt; "disk1541: \"{name}\" was never closed: {count} bytes were extracted")?;
    }
    let Some(trouble) = salvaged.trouble else {
        return Ok(());
    };
    let cause = Cause(trouble);
    eprintln!(rt; "disk1541: \"{name}\" is cut off after {count} bytes: {cause}")
}

/// Reports what was read of a file.
fn tell<R: Runtime + AllocGlobal>(
    rt: &R,
    image: &[u8],
    plain: &[u8],
    entry: &Entry,
    salvaged: &Salvaged,
) -> Result<(), ShellFault> {
    let name = name_text(rt.alloc(), Charset::Upper, entry.name())?;
    tell_faults(rt, image, plain, entry, name.as_str())?;
    let _ = tell_end(rt, name.as_str(), entry, salvaged);
    Ok(())
}

/// What can be read of an entry's file on a disk without error bytes; what there is to say of it is reported.
pub fn salvaged<R: Runtime + AllocGlobal>(
    rt: &R,
    image: &[u8],
    disk: &Disk,
    entry: &Entry,
) -> Result<Vec<u8>, ShellFault> {
    let salvaged = disk.salvage(rt.alloc(), entry)?;
    tell(rt, image, without_errors(image), entry, &salvaged)?;
    Ok(salvaged.bytes)
}

/// The entries of a disk's directory up to where that breaks off, and then those that no link leads to; where it breaks off is
/// reported. Errors: `Image`, `Memory`.
pub fn salvaged_entries<R: Runtime + AllocGlobal>(
    rt: &R,
    image: &[u8],
    disk: &Disk,
) -> Result<Vec<Entry>, ShellFault> {
    let Listed {
        sectors,
        entries,
        trouble,
    } = disk.listed(rt.alloc())?;
    if let Some(trouble) = trouble {
        let end = BreakOff {
            entries: entries.len(),
            trouble,
        };
        let _ = eprintln!(rt; "disk1541: {end}");
    }
    with_strays(rt, without_errors(image), sectors.as_slice(), entries)
}
