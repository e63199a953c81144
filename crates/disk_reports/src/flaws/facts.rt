//! CHECK --ALL as a line of JSON, for programs.
use super::{Findings, error_of, found_in, names_of, outcome};
use crate::unlinked::{UnlinkedSector, unlinked_sectors};
use crate::view::{Look, Shown};
use cbm_shell::texts::{Charset, words};
use cbm_shell::{DiskFlaw, ShellFault};
use cbm_volume::Entry;
use disk_basics::{Disk, is_mendable};
use disk_json::{Named, Sector, line, sectors_of};
use serde::Serialize;
use std::alloc::{AllocError, Global};

/// A flaw, for programs.
#[derive(Drop, Serialize)]
struct FlawFacts {
    track: u8,
    sector: u8,
    number: u8,
    text: &'static str,
    error: Option<u8>,
    files: Vec<String>,
    before: u16,
    mendable: bool,
}

/// The flaws of an image, for programs.
#[derive(Drop, Serialize)]
struct FlawReport<'a> {
    image: &'a str,
    sound: bool,
    flaws: Vec<FlawFacts>,
    lost: Vec<Sector>,
    rests: &'a [Named],
    odd: &'a [usize],
    unlinked: Vec<UnlinkedSector>,
}

/// A flaw, for programs.
fn facts_of(
    alloc: Global,
    disk: &Disk,
    charset: Charset,
    entries: &[Entry],
    flaw: &DiskFlaw,
) -> Result<FlawFacts, ShellFault> {
    let files = names_of(alloc, disk, charset, entries, flaw)?;
    Ok(FlawFacts {
        track: flaw.what.track,
        sector: flaw.what.sector,
        number: flaw.what.number,
        text: std::str::from_utf8(words(flaw.what.number)).unwrap_or("it is not sound"),
        error: error_of(disk, flaw),
        files,
        before: flaw.before,
        mendable: is_mendable(flaw),
    })
}

/// The flaws, for programs.
fn all_facts(
    alloc: Global,
    disk: &Disk,
    charset: Charset,
    findings: &Findings,
) -> Result<Vec<FlawFacts>, ShellFault> {
    let mut all = Vec::new(alloc);
    for flaw in findings.flaws.as_slice() {
        let facts = facts_of(alloc, disk, charset, findings.entries.as_slice(), flaw)?;
        all.push(facts).map_err(AllocError::from)?;
    }
    Ok(all)
}

/// The flaws of an image as a line of JSON.
fn report_of(
    alloc: Global,
    name: &str,
    disk: &Disk,
    charset: Charset,
    findings: &Findings,
) -> Result<Vec<u8>, ShellFault> {
    let flaws = all_facts(alloc, disk, charset, findings)?;
    let lost = sectors_of(alloc, findings.lost.as_slice())?;
    let report = FlawReport {
        image: name,
        sound: findings.flaws.is_empty(),
        flaws,
        lost,
        rests: findings.rests.as_slice(),
        odd: findings.odd.as_slice(),
        unlinked: unlinked_sectors(alloc, &findings.strays)?,
    };
    Ok(line(alloc, &report)?)
}

/// The flaws of an image as a line of JSON, and what they come to.
fn shown_flaws(
    alloc: Global,
    name: &str,
    disk: &Disk,
    charset: Charset,
    findings: &Findings,
) -> Result<Shown, ShellFault> {
    let text = report_of(alloc, name, disk, charset, findings)?;
    let answer = outcome(findings.flaws.as_slice());
    Ok(Shown { text, answer })
}

/// The flaws of the disk of an image as a line of JSON. Errors: `Image`, `Trouble`, `Memory`.
pub fn flaw_report(
    alloc: Global,
    name: &str,
    image: &[u8],
    look: Look<'_>,
) -> Result<Shown, ShellFault> {
    let disk = Disk::open(alloc, image)?;
    let findings = found_in(alloc, image, &disk, look.charset)?;
    shown_flaws(alloc, name, &disk, look.charset, &findings)
}
