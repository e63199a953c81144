//! DIFF: what differs between two images.
use crate::cuts::{Read, breaks};
use crate::files::{Sides, files_of};
use crate::labels::labels_of;
use crate::lines::lines_of;
use crate::report::{Numbers, Report};
use crate::sectors::sectors_in;
use crate::side::Side;
use cbm_shell::texts::Charset;
use disk_basics::host::{is_standard, print, read_to_look};
use disk_basics::{Failure, What, WordFault, in_memory, on_disk};
use disk_json::line;
use std::alloc::{AllocError, Global};
use std::rt::Runtime;

/// Two images, and how they are compared.
#[derive(Clone, Copy)]
pub struct Comparison<'a> {
    /// The first.
    pub first: &'a str,
    /// The second.
    pub second: &'a str,
    /// How names are shown.
    pub charset: Charset,
    /// What differs is shown for programs.
    pub is_json: bool,
}

/// How many tracks two disks have, if these numbers differ.
fn tracks(first: &Side, second: &Side) -> Option<Numbers> {
    if first.info.tracks == second.info.tracks {
        return None;
    }
    Some(Numbers {
        first: usize::from(first.info.tracks),
        second: usize::from(second.info.tracks),
    })
}

/// How much was read of a directory.
fn read_of(side: &Side) -> Read {
    Read {
        count: side.listed.entries.len(),
        trouble: side.listed.trouble,
    }
}

/// What differs between two disks; whether something does is still to be said.
fn differences<'a>(
    alloc: Global,
    comparison: Comparison<'a>,
    sides: Sides<'_>,
) -> Result<Report<'a>, AllocError> {
    let Sides { first, second, .. } = sides;
    let labels = labels_of(alloc, comparison.charset, first, second)?;
    let files = files_of(alloc, sides)?;
    let sectors = sectors_in(alloc, first, second)?;
    Ok(Report {
        first: comparison.first,
        second: comparison.second,
        same: false,
        tracks: tracks(first, second),
        title: labels.title,
        id: labels.id,
        dos: labels.dos,
        broken: breaks(alloc, read_of(first), read_of(second))?,
        only_first: files.only_first,
        only_second: files.only_second,
        files: files.both,
        sectors: sectors.differing,
        unreadable: sectors.unreadable,
    })
}

/// What differs between two disks.
fn report_of<'a>(
    alloc: Global,
    comparison: Comparison<'a>,
    sides: Sides<'_>,
) -> Result<Report<'a>, AllocError> {
    let mut report = differences(alloc, comparison, sides)?;
    report.same = !report.differs();
    Ok(report)
}

/// What is printed.
fn shown(alloc: Global, report: &Report<'_>, is_json: bool) -> Result<Vec<u8>, AllocError> {
    if is_json {
        return line(alloc, report);
    }
    Ok(lines_of(alloc, report)?.into_bytes())
}

/// What is printed, and whether nothing differs.
fn compared(
    alloc: Global,
    comparison: Comparison<'_>,
    sides: Sides<'_>,
) -> Result<(Vec<u8>, bool), AllocError> {
    let report = report_of(alloc, comparison, sides)?;
    let text = shown(alloc, &report, comparison.is_json)?;
    Ok((text, report.same))
}

/// Prints what differs between the disks of two images. Answers whether nothing does.
fn compare<R: Runtime + AllocGlobal>(
    rt: &R,
    comparison: Comparison<'_>,
    first: &[u8],
    second: &[u8],
) -> Result<bool, Failure> {
    let alloc = rt.alloc();
    let first = on_disk(rt.alloc(), comparison.first, Side::open(alloc, first))?;
    let second = on_disk(rt.alloc(), comparison.second, Side::open(alloc, second))?;
    let sides = Sides {
        first: &first,
        second: &second,
        charset: comparison.charset,
    };
    let (text, is_same) = in_memory(compared(alloc, comparison, sides))?;
    print(rt, text.as_slice())?;
    Ok(is_same)
}

/// Prints what differs between two images. Errors: `Word`, where both are standard input; those of `read_to_look`; `Disk`; `Told`, where
/// something differs; `Write`; `NoMemory`.
pub fn diff<R: Runtime + AllocGlobal>(rt: &R, comparison: Comparison<'_>) -> Result<(), Failure> {
    if is_standard(comparison.first) && is_standard(comparison.second) {
        return Err(Failure::new(What::Word(WordFault::Twice)));
    }
    let first = read_to_look(rt, comparison.first)?;
    let second = read_to_look(rt, comparison.second)?;
    if compare(rt, comparison, first.as_slice(), second.as_slice())? {
        return Ok(());
    }
    Err(Failure::new(What::Told))
}
