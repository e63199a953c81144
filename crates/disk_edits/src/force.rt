//! DELETE --FORCE: files at fault out of the directory of a disk that isn't sound.
use cbm_shell::texts::Charset;
use cbm_shell::{DiskFlaw, ShellFault};
use cbm_volume::Entry;
use disk_basics::calls::check;
use disk_basics::changing::forget;
use disk_basics::{Disk, Failure, What, in_memory, is_mendable, on_disk, petscii, slots_of};
use disk_facts::is_meant;
use std::alloc::Global;
use std::rt::Runtime;

/// The most files of a disk.
const FILES: u8 = 144;

/// The first of these slots whose file is meant.
fn meant_among(entries: &[Entry], slots: &[usize], pattern: &[u8]) -> Option<usize> {
    for slot in slots {
        match entries.get(*slot) {
            Some(entry) if is_meant(entry, pattern) => return Some(*slot),
            _ => {}
        }
    }
    None
}

/// The slot of the first file that has one of these flaws and is meant.
fn meant_at_fault(
    alloc: Global,
    disk: &Disk,
    flaws: &[DiskFlaw],
    pattern: &[u8],
) -> Result<Option<usize>, ShellFault> {
    let entries = disk.listed(alloc)?.entries;
    for flaw in flaws {
        if !is_mendable(flaw) {
            let slots = slots_of(alloc, disk, flaw)?;
            let meant = meant_among(entries.as_slice(), slots.as_slice(), pattern);
            if meant.is_some() {
                return Ok(meant);
            }
        }
    }
    Ok(None)
}

/// The slot of the first file at fault that a pattern means.
fn slot_at_fault(alloc: Global, bytes: &[u8], pattern: &[u8]) -> Result<Option<usize>, ShellFault> {
    let disk = Disk::open(alloc, bytes)?;
    let flaws = disk.flaws(alloc)?;
    meant_at_fault(alloc, &disk, flaws.as_slice(), pattern)
}

/// The image without the first file at fault that a pattern means; None where none is.
fn without_one(alloc: Global, bytes: &[u8], pattern: &[u8]) -> Result<Option<Vec<u8>>, ShellFault> {
    let Some(slot) = slot_at_fault(alloc, bytes, pattern)? else {
        return Ok(None);
    };
    match u8::try_from(slot) {
        Ok(slot) => forget(alloc, bytes, slot),
        Err(_) => Ok(None),
    }
}

/// The image without the files at fault that a pattern means.
fn without_meant(
    alloc: Global,
    bytes: &[u8],
    pattern: &[u8],
) -> Result<Option<Vec<u8>>, ShellFault> {
    let mut new = without_one(alloc, bytes, pattern)?;
    for _ in 0..FILES {
        let Some(now) = &new else {
            return Ok(new);
        };
        match without_one(alloc, now.as_slice(), pattern)? {
            Some(next) => new = Some(next),
            None => return Ok(new),
        }
    }
    Ok(new)
}

/// The image without the files at fault that a word means.
fn without_word(
    alloc: Global,
    image: &str,
    bytes: &[u8],
    charset: Charset,
    word: &str,
) -> Result<Vec<u8>, Failure> {
    let pattern = petscii(alloc, charset, word)?;
    match on_disk(
        alloc,
        image,
        without_meant(alloc, bytes, pattern.as_slice()),
    )? {
        Some(new) => Ok(new),
        None => Err(Failure::named(alloc, What::NoneAtFault, word)),
    }
}

/// Whether a word means a file that is at fault on a disk.
fn is_at_fault(
    alloc: Global,
    image: &str,
    bytes: &[u8],
    charset: Charset,
    word: &str,
) -> Result<bool, Failure> {
    let pattern = petscii(alloc, charset, word)?;
    let slot = on_disk(
        alloc,
        image,
        slot_at_fault(alloc, bytes, pattern.as_slice()),
    )?;
    Ok(slot.is_some())
}

/// The image without the files at fault that a word means; it is as it was where such a file was at fault at first and, as others
/// are out, isn't any longer, which is reported.
fn without_next<R: Runtime + AllocGlobal>(
    rt: &R,
    image: &str,
    old: &[u8],
    now: Vec<u8>,
    charset: Charset,
    word: &str,
) -> Result<Vec<u8>, Failure> {
    match without_word(rt.alloc(), image, now.as_slice(), charset, word) {
        Err(failure)
            if matches!(failure.what, What::NoneAtFault)
                && is_at_fault(rt.alloc(), image, old, charset, word)? => {
            let _ = eprintln!(rt;
                "disk1541: {word} was kept: once the others are gone, it shares no block. After `validate` you can delete it normally"
            );
            Ok(now)
        }
        made => made,
    }
}

/// The image without the files at fault that the words mean.
fn without_words<R: Runtime + AllocGlobal>(
    rt: &R,
    image: &str,
    bytes: &[u8],
    charset: Charset,
    words: &[&str],
) -> Result<Vec<u8>, Failure> {
    let mut new = in_memory(Vec::from_slice(rt.alloc(), bytes))?;
    for word in words {
        new = without_next(rt, image, bytes, new, charset, *word)?;
    }
    Ok(new)
}

/// Refuses a disk that is sound.
fn require_unsound(alloc: Global, image: &str, bytes: &[u8]) -> Result<(), Failure> {
    match on_disk(alloc, image, check(alloc, bytes))? {
        Ok(()) => Err(Failure::named(alloc, What::IsSound, image)),
        Err(_) => Ok(()),
    }
}

/// The image without the files at fault that the words mean. Errors: `IsSound`, where no file is at fault; those of `petscii`;
/// `NoneAtFault`, where a word means no such file; `Disk`; `NoMemory`.
pub fn without_fault<R: Runtime + AllocGlobal>(
    rt: &R,
    image: &str,
    bytes: &[u8],
    words: &[&str],
    charset: Charset,
) -> Result<Vec<u8>, Failure> {
    require_unsound(rt.alloc(), image, bytes)?;
    without_words(rt, image, bytes, charset, words)
}
