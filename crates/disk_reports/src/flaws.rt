//! CHECK --ALL: each flaw of a disk, the files that have it, and whether it can be mended.
mod facts;

use crate::view::{Look, LookAnswer, odd_text};
use cbm_medium::Address;
use cbm_shell::texts::{Charset, words};
use cbm_shell::{DiskFlaw, ShellFault, Whose};
use cbm_volume::Entry;
use disk_basics::calls::name_text;
use disk_basics::odd::odd_slots;
use disk_basics::rests::{add_rests, rests_of};
use disk_basics::strays::{Strays, strays_on};
use disk_basics::{Disk, add_sectors, is_mendable, place_of, slots_of};
use disk_json::Named;
pub use facts::flaw_report;
use std::alloc::{AllocError, Global};

/// What is wrong with a disk.
#[derive(Drop)]
struct Findings {
    /// The entries of its directory, up to where that breaks off.
    entries: Vec<Entry>,
    /// The flaws, in the order in which `check` looks.
    flaws: Vec<DiskFlaw>,
    /// The blocks that nothing uses, and that aren't free.
    lost: Vec<Address>,
    /// The files whose rest they may be.
    rests: Vec<Named>,
    /// The slots of the odd entries, if those are all that is wrong.
    odd: Vec<usize>,
    /// The sectors that have files which aren't listed.
    strays: Strays,
}

/// What is wrong with a disk.
fn found_in(
    alloc: Global,
    image: &[u8],
    disk: &Disk,
    charset: Charset,
) -> Result<Findings, ShellFault> {
    let listed = disk.listed(alloc)?;
    let strays = strays_on(alloc, disk, &listed)?;
    let entries = listed.entries;
    let flaws = disk.flaws(alloc)?;
    let lost = disk.lost(alloc)?;
    let rests = rests_of(
        alloc,
        charset,
        entries.as_slice(),
        flaws.as_slice(),
        lost.as_slice(),
    )?;
    let odd = odd_slots(alloc, image)?;
    Ok(Findings {
        entries,
        flaws,
        lost,
        rests,
        odd,
        strays,
    })
}

/// What a disk's faults of reading are called.
fn error_name(code: u8) -> &'static str {
    match code {
        20 => "no header",
        21 => "no sync mark",
        22 => "no data block",
        23 => "checksum",
        24 => "group code",
        27 => "checksum of the header",
        29 => "another id",
        _ => "it doesn't read",
    }
}

/// The code of the fault that is read in place of the flaw's sector, if the flaw is that it doesn't read.
fn error_of(disk: &Disk, flaw: &DiskFlaw) -> Option<u8> {
    match flaw.what.number {
        5 | 9 => disk.error_at(place_of(flaw)?),
        _ => None,
    }
}

/// The name of the file in a slot, as it is shown.
fn name_of(
    alloc: Global,
    charset: Charset,
    entries: &[Entry],
    slot: usize,
) -> Result<String, AllocError> {
    match entries.get(slot) {
        Some(entry) => name_text(alloc, charset, entry.name()),
        None => format!(in alloc; "slot {slot}"),
    }
}

/// The names of the files that have a flaw.
fn names_of(
    alloc: Global,
    disk: &Disk,
    charset: Charset,
    entries: &[Entry],
    flaw: &DiskFlaw,
) -> Result<Vec<String>, ShellFault> {
    let slots = slots_of(alloc, disk, flaw)?;
    let mut names = Vec::new(alloc);
    for slot in slots.as_slice() {
        let name = name_of(alloc, charset, entries, *slot)?;
        names.push(name).map_err(AllocError::from)?;
    }
    Ok(names)
}

/// Adds where a flaw is, and what.
fn add_what(
    alloc: Global,
    text: &mut String,
    disk: &Disk,
    flaw: &DiskFlaw,
) -> Result<(), AllocError> {
    let track = flaw.what.track;
    let sector = flaw.what.sector;
    let what = std::str::from_utf8(words(flaw.what.number)).unwrap_or("it is not sound");
    text.push_str(format!(in alloc; "{track}/{sector}  {what}")?.as_str())?;
    if let Some(code) = error_of(disk, flaw) {
        let name = error_name(code);
        text.push_str(format!(in alloc; ": {name} (error {code})")?.as_str())?;
    }
    Ok(())
}

/// Adds the names of the files that have a flaw.
fn add_names(text: &mut String, names: &[String]) -> Result<(), AllocError> {
    for (place, name) in names.iter().enumerate() {
        text.push_str(if place == 0 { ", in \"" } else { ", \"" })?;
        text.push_str(name.as_str())?;
        text.push('"')?;
    }
    Ok(())
}

/// Adds how many of its file's blocks come before a flaw in its chain.
fn add_before(
    alloc: Global,
    text: &mut String,
    entries: &[Entry],
    flaw: &DiskFlaw,
) -> Result<(), AllocError> {
    let Whose::File(slot) = flaw.whose else {
        return Ok(());
    };
    match entries.get(slot as usize) {
        Some(entry) if !matches!(flaw.what.number, 7 | 8) => {
            let before = flaw.before;
            let blocks = entry.blocks();
            text.push_str(format!(in alloc;
                ", {before} of its {blocks} blocks come before it"
            )?.as_str())
        }
        _ => Ok(()),
    }
}

/// Adds the line of a flaw.
fn add_flaw(
    alloc: Global,
    text: &mut String,
    disk: &Disk,
    charset: Charset,
    entries: &[Entry],
    flaw: &DiskFlaw,
) -> Result<(), ShellFault> {
    add_what(alloc, text, disk, flaw)?;
    let names = names_of(alloc, disk, charset, entries, flaw)?;
    add_names(text, names.as_slice())?;
    add_before(alloc, text, entries, flaw)?;
    text.push('\n')?;
    Ok(())
}

/// Adds the line of the blocks that are lost, if there are some.
fn add_lost(alloc: Global, text: &mut String, lost: &[Address]) -> Result<(), AllocError> {
    if lost.is_empty() {
        return Ok(());
    }
    text.push_str("lost:")?;
    add_sectors(alloc, text, lost)?;
    text.push('\n')
}

/// The parts of a disk that can't be mended.
#[derive(Clone, Copy)]
struct Broken {
    /// How many headers.
    headers: usize,
    /// How many files.
    files: usize,
    /// The slot of the file that was counted last: the flaws of one file follow each other.
    last: Option<u16>,
    /// Whether 18/0 is one of them.
    has_map: bool,
    /// Whether the directory is.
    has_directory: bool,
}

/// The same with a file more, unless it was counted.
fn with_file(broken: Broken, slot: u16) -> Broken {
    if broken.last == Some(slot) {
        return broken;
    }
    Broken {
        files: broken.files.saturating_add(1),
        last: Some(slot),
        ..broken
    }
}

/// The same with a flaw more.
fn with_flaw(broken: Broken, flaw: &DiskFlaw) -> Broken {
    match flaw.whose {
        Whose::Disk if flaw.what.number == 5 => Broken {
            headers: broken.headers.saturating_add(1),
            ..broken
        },
        Whose::Disk => Broken {
            has_map: true,
            ..broken
        },
        Whose::Directory => Broken {
            has_directory: true,
            ..broken
        },
        Whose::File(slot) => with_file(broken, slot),
    }
}

/// What can't be mended.
fn broken_by(flaws: &[DiskFlaw]) -> Broken {
    let mut broken = Broken {
        headers: 0,
        files: 0,
        last: None,
        has_map: false,
        has_directory: false,
    };
    for flaw in flaws {
        if !is_mendable(flaw) {
            broken = with_flaw(broken, flaw);
        }
    }
    broken
}

/// Whether one of the flaws is the BAM's alone.
fn is_any_mendable(flaws: &[DiskFlaw]) -> bool {
    for flaw in flaws {
        if is_mendable(flaw) {
            return true;
        }
    }
    false
}

/// Adds a part of the list of what can or can't be mended, after the first of them with a comma.
fn add_part(text: &mut String, part: &str) -> Result<(), AllocError> {
    if !text.is_empty() {
        text.push_str(", ")?;
    }
    text.push_str(part)
}

/// Adds how many there are of a part, if there are some.
fn add_count(
    alloc: Global,
    text: &mut String,
    count: usize,
    one: &str,
    more: &str,
) -> Result<(), AllocError> {
    match count {
        0 => Ok(()),
        1 => add_part(text, format!(in alloc; "1 {one}")?.as_str()),
        _ => add_part(text, format!(in alloc; "{count} {more}")?.as_str()),
    }
}

/// What can be mended, as a list.
fn mended_text(alloc: Global, findings: &Findings) -> Result<String, AllocError> {
    let mut text = String::new(alloc);
    if is_any_mendable(findings.flaws.as_slice()) {
        add_part(&mut text, "the map")?;
    }
    // The blocks of files that aren't listed are lost too, and giving them back would be their end.
    if findings.strays.sectors.is_empty() {
        let lost = findings.lost.len();
        add_count(alloc, &mut text, lost, "lost block", "lost blocks")?;
    }
    Ok(text)
}

/// What can't, as a list.
fn broken_text(alloc: Global, broken: Broken) -> Result<String, AllocError> {
    let mut text = String::new(alloc);
    add_count(alloc, &mut text, broken.files, "file", "files")?;
    add_count(alloc, &mut text, broken.headers, "header", "headers")?;
    if broken.has_map {
        add_part(&mut text, "18/0")?;
    }
    if broken.has_directory {
        add_part(&mut text, "the directory")?;
    }
    Ok(text)
}

/// Adds a list after what it is of, and an end.
fn add_list(text: &mut String, start: &str, list: &str, end: &str) -> Result<(), AllocError> {
    text.push_str(start)?;
    text.push_str(list)?;
    text.push_str(end)
}

/// Adds the lists of what can be mended and of what can't, where they aren't empty.
fn add_lists(text: &mut String, mended: &str, broken: &str) -> Result<(), AllocError> {
    if broken.is_empty() && mended.is_empty() {
        return Ok(());
    }
    if broken.is_empty() {
        return add_list(text, "can be repaired: ", mended, "\n");
    }
    if mended.is_empty() {
        return add_list(text, "can't be repaired: ", broken, "\n");
    }
    add_list(text, "can be repaired: ", mended, ". can't: ")?;
    add_list(text, "", broken, "\n")
}

/// Adds what can be mended and what can't, if anything is wrong.
fn add_sum(alloc: Global, text: &mut String, findings: &Findings) -> Result<(), AllocError> {
    let mended = mended_text(alloc, findings)?;
    let broken = broken_text(alloc, broken_by(findings.flaws.as_slice()))?;
    add_lists(text, mended.as_str(), broken.as_str())
}

/// Adds how many entries are odd, if those are all that is wrong.
fn add_odd(alloc: Global, text: &mut String, odd: usize) -> Result<(), AllocError> {
    if odd == 0 {
        return Ok(());
    }
    text.push_str("sound but for ")?;
    text.push_str(odd_text(alloc, odd)?.as_str())?;
    text.push_str(": everything else can be changed\n")
}

/// Adds the line of the files that aren't listed, if there are such.
fn add_unlinked(alloc: Global, text: &mut String, strays: &Strays) -> Result<(), AllocError> {
    match strays.count() {
        Some(unlinked) => text.push_str(format!(in alloc; "not listed: {unlinked}\n")?.as_str()),
        None => Ok(()),
    }
}

/// What a look at the disk came to.
fn outcome(flaws: &[DiskFlaw]) -> LookAnswer {
    match flaws.first() {
        Some(flaw) => LookAnswer::Unsound(flaw.what),
        None => LookAnswer::Fine,
    }
}

/// Adds the lines of the flaws.
fn add_flaws(
    alloc: Global,
    text: &mut String,
    disk: &Disk,
    charset: Charset,
    findings: &Findings,
) -> Result<(), ShellFault> {
    if findings.flaws.is_empty() {
        text.push_str("sound\n")?;
    }
    for flaw in findings.flaws.as_slice() {
        add_flaw(
            alloc,
            text,
            disk,
            charset,
            findings.entries.as_slice(),
            flaw,
        )?;
    }
    Ok(())
}

/// Adds the lines of the flaws, of the blocks that are lost, and of what can be mended.
fn add_findings(
    alloc: Global,
    text: &mut Vec<u8>,
    disk: &Disk,
    charset: Charset,
    findings: &Findings,
) -> Result<(), ShellFault> {
    let mut lines = String::new(alloc);
    add_flaws(alloc, &mut lines, disk, charset, findings)?;
    add_lost(alloc, &mut lines, findings.lost.as_slice())?;
    add_rests(&mut lines, "lost blocks", findings.rests.as_slice())?;
    add_unlinked(alloc, &mut lines, &findings.strays)?;
    add_sum(alloc, &mut lines, findings)?;
    add_odd(alloc, &mut lines, findings.odd.len())?;
    text.extend_from_slice(lines.as_bytes())?;
    Ok(())
}

/// Adds all flaws of the disk of an image, the first of which is the one that `check` names. Errors: `Image`, `Trouble`,
/// `Memory`.
pub fn add_all_flaws(
    alloc: Global,
    text: &mut Vec<u8>,
    image: &[u8],
    look: Look<'_>,
) -> Result<LookAnswer, ShellFault> {
    let disk = Disk::open(alloc, image)?;
    let findings = found_in(alloc, image, &disk, look.charset)?;
    add_findings(alloc, text, &disk, look.charset, &findings)?;
    Ok(outcome(findings.flaws.as_slice()))
}
