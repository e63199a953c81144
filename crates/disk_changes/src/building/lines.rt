//! The lines of a recipe: files first, each by the drive's own calls, then lines of art, then their order.
ghost use Rattle.std.specs.Prelude.{◌≤◌, length};

use super::bench::{Bench, Next, any_name, read_beside};
use super::laid::Lane;
use super::ordered::ordered;
use crate::putting::{Body, body_of, tell_empty};
use crate::stored::{Stored, with_stored};
use cbm_shell::{Looks, ShellFault};
use cbm_volume::Entry;
use disk_basics::calls::entries;
use disk_basics::changing::{add_art, dress};
use disk_basics::{Failure, What, WordFault, in_memory, kind_of_file, name_of_file, on_disk};
use disk_recipes::RecipeLine;
use std::alloc::Global;
use std::rt::Runtime;

/// The name under which a file is put before it gets its own, which may be one that no command can say.
const FOR_NOW: &[u8] = b"\x01\x02\x03";

/// A text that may be missing.
fn option(text: &Option<String>) -> Option<&str> {
    match text {
        Some(text) => Some(text.as_str()),
        None => None,
    }
}

/// The name of a file on the disk: what its line says, what its own bytes say, or one made of the host's file.
fn name_of<R: Runtime + AllocGlobal>(
    rt: &R,
    bench: Bench<'_>,
    line: &RecipeLine,
    file: &str,
    body: Body<'_>,
) -> Result<Vec<u8>, Failure> {
    match (option(&line.name), body.name) {
        (Some(name), _) => any_name(rt, bench.charset, name),
        (None, Some(codes)) => in_memory(Vec::from_slice(rt.alloc(), codes)),
        (None, None) => name_of_file(rt.alloc(), bench.charset, file),
    }
}

/// A name of at most sixteen codes, as all are here.
fn sixteen(name: &[u8]) -> &[u8]
    ensures { length result.now ≤ 16 }
{
    if name.len() > 16 {
        return &[];
    }
    name
}

/// The number of blocks that the entry of a slot shows.
fn blocks_at(alloc: std::alloc::Global, image: &[u8], slot: u8) -> Result<u16, ShellFault> {
    let entries = entries(alloc, image)?;
    match entries.as_slice().get(usize::from(slot)) {
        Some(entry) => Ok(entry.blocks()),
        None => Err(ShellFault::NotFound),
    }
}

/// The image whose file in the next slot looks as its line says.
fn dressed<R: Runtime + AllocGlobal>(
    rt: &R,
    bench: Bench<'_>,
    image: &[u8],
    next: Next<'_>,
    name: &[u8],
) -> Result<Vec<u8>, Failure> {
    let blocks = match next.line.blocks {
        Some(blocks) => blocks,
        None => on_disk(
            rt.alloc(),
            bench.image,
            blocks_at(rt.alloc(), image, next.slot),
        )?,
    };
    let looks = Looks {
        name: sixteen(name),
        blocks,
        is_locked: next.line.locked == Some(true),
    };
    on_disk(
        rt.alloc(),
        bench.image,
        dress(rt.alloc(), image, next.slot, looks),
    )
}

/// The length of the records of a line's file, if that is known.
fn record_of(line: &RecipeLine, body: Body<'_>) -> Option<u8> {
    match line.record {
        Some(length) => Some(length),
        None => body.record,
    }
}

/// The image with a file in the next slot, under its own name, which looks as its line says.
fn with_put<R: Runtime + AllocGlobal>(
    rt: &R,
    bench: Bench<'_>,
    old: &[u8],
    next: Next<'_>,
    name: &[u8],
    put: &Stored<'_>,
) -> Result<Vec<u8>, Failure> {
    let new = with_stored(rt.alloc(), bench.image, old, put)?;
    dressed(rt, bench, new.as_slice(), next, name)
}

/// Refuses a name that an earlier file of the recipe has.
fn require_new_name(alloc: Global, image: &str, old: &[u8], name: &[u8]) -> Result<(), Failure> {
    let entries = on_disk(alloc, image, entries(alloc, old))?;
    for entry in entries.as_slice() {
        if !entry.is_empty() && entry.name() == name {
            return Err(Failure::named(alloc, What::SameName, image));
        }
    }
    Ok(())
}

/// Reports which entry of a recipe can't be built, counted from 1.
fn tell_entry(rt: &impl Eprint, place: usize) {
    let number = place.saturating_add(1);
    let _ = eprintln!(rt; "disk1541: entry {number} of the recipe can't be built");
}

/// The image with the file of a line in the next slot.
fn with_body<R: Runtime + AllocGlobal>(
    rt: &R,
    bench: Bench<'_>,
    old: &[u8],
    next: Next<'_>,
    file: &str,
    body: Body<'_>,
) -> Result<Vec<u8>, Failure> {
    let kind = kind_of_file(rt.alloc(), option(&next.line.kind), file)?;
    tell_empty(rt, file, kind, body.bytes);
    let put = Stored {
        name: FOR_NOW,
        kind,
        record: record_of(next.line, body),
        replaces: false,
        bytes: body.bytes,
    };
    let name = name_of(rt, bench, next.line, file, body)?;
    require_new_name(rt.alloc(), bench.image, old, name.as_slice())?;
    with_put(rt, bench, old, next, name.as_slice(), &put)
}

/// The image with the file of a line in the next slot, read from this computer.
fn with_file<R: Runtime + AllocGlobal>(
    rt: &R,
    bench: Bench<'_>,
    old: &[u8],
    next: Next<'_>,
    file: &str,
) -> Result<Vec<u8>, Failure> {
    let bytes = read_beside(rt, bench, file)?;
    let body = body_of(file, bytes.as_slice());
    with_body(rt, bench, old, next, file, body)
}

/// The image with a line of art in the next slot.
fn with_art<R: Runtime + AllocGlobal>(
    rt: &R,
    bench: Bench<'_>,
    old: &[u8],
    line: &RecipeLine,
    art: &str,
) -> Result<Vec<u8>, Failure> {
    let name = any_name(rt, bench.charset, art)?;
    let looks = Looks {
        name: sixteen(name.as_slice()),
        blocks: line.blocks.unwrap_or(0),
        is_locked: line.locked == Some(true),
    };
    match on_disk(rt.alloc(), bench.image, add_art(rt.alloc(), old, looks))? {
        Some(new) => Ok(new),
        None => Err(Failure::named(rt.alloc(), What::DirectoryFull, bench.image)),
    }
}

/// Whether the file in a slot is relative.
fn is_relative_at(alloc: Global, image: &[u8], slot: u8) -> Result<bool, ShellFault> {
    let entries = entries(alloc, image)?;
    Ok(
        entries
            .as_slice()
            .get(usize::from(slot))
            .is_some_and(Entry::is_relative),
    )
}

/// The image with the file of a line in the next slot, laid as the recipe says.
fn with_laid<R: Runtime + AllocGlobal>(
    rt: &R,
    bench: Bench<'_>,
    lane: &mut Lane,
    old: &[u8],
    next: Next<'_>,
    file: &str,
) -> Result<Vec<u8>, Failure> {
    let put = with_file(rt, bench, old, next, file)?;
    let is_relative = on_disk(
        rt.alloc(),
        bench.image,
        is_relative_at(rt.alloc(), put.as_slice(), next.slot),
    )?;
    match lane.laid(rt.alloc(), file, put.as_slice(), next, is_relative)? {
        Some(laid) => Ok(laid),
        None => Ok(put),
    }
}

/// The image with all files.
fn with_files<R: Runtime + AllocGlobal>(
    rt: &R,
    bench: Bench<'_>,
    lane: Lane,
    lines: &[RecipeLine],
    blank: Vec<u8>,
) -> Result<Vec<u8>, Failure> {
    let mut image = blank;
    let mut slot: u8 = 0;
    let mut lane = lane;
    for (place, line) in lines.iter().enumerate() {
        if let Some(file) = option(&line.file) {
            let next = Next { slot, line };
            let made = with_laid(rt, bench, &mut lane, image.as_slice(), next, file);
            if made.is_err() {
                tell_entry(rt, place);
            }
            image = made?;
            slot = slot.saturating_add(1);
        }
    }
    Ok(image)
}

/// The image with all lines of art.
fn with_arts<R: Runtime + AllocGlobal>(
    rt: &R,
    bench: Bench<'_>,
    lines: &[RecipeLine],
    filled: Vec<u8>,
) -> Result<Vec<u8>, Failure> {
    let mut image = filled;
    for (place, line) in lines.iter().enumerate() {
        if let Some(art) = option(&line.art) {
            let made = with_art(rt, bench, image.as_slice(), line, art);
            if made.is_err() {
                tell_entry(rt, place);
            }
            image = made?;
        }
    }
    Ok(image)
}

/// Refuses a line that is no file and no art, or both.
fn require_lines(lines: &[RecipeLine]) -> Result<(), Failure> {
    for line in lines {
        if line.file.is_some() == line.art.is_some() {
            return Err(Failure::new(What::Word(WordFault::Line)));
        }
    }
    Ok(())
}

/// The image with the lines of a recipe in their order. Errors: `Word`, where a line is no file and no art, or both, or
/// has a word that can't be used; those of `read_file`; `Disk`, where the drive or the disk refuses it;
/// `NoMemory`.
pub fn with_lines<R: Runtime + AllocGlobal>(
    rt: &R,
    bench: Bench<'_>,
    lane: Lane,
    lines: &[RecipeLine],
    blank: Vec<u8>,
) -> Result<Vec<u8>, Failure> {
    require_lines(lines)?;
    let filled = with_files(rt, bench, lane, lines, blank)?;
    let whole = with_arts(rt, bench, lines, filled)?;
    ordered(rt.alloc(), bench.image, lines, whole.as_slice())
}
