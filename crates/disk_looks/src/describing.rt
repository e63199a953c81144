//! DESCRIBE: the recipe of a disk.
mod facts;

use self::facts::{Note, recipe_line};
use crate::taking::{Names, is_art};
use cbm_channel::FileType;
use cbm_image::{Kind, kind_of};
use cbm_medium::Address;
use cbm_shell::texts::Charset;
use cbm_shell::{Info, Listed, ShellFault, geos_of};
use cbm_volume::{Entry, Label, Trouble};
use disk_basics::calls::{info, name_text, sector};
use disk_basics::host::{print, read_to_look};
use disk_basics::strays::unlisted_on;
use disk_basics::{Disk, Failure, What, in_memory, on_disk};
use disk_facts::unfilled;
use disk_recipes::{Recipe, RecipeLine, recipe_text};
use std::alloc::{AllocError, Global};
use std::path::Path;
use std::rt::Runtime;

/// The bytes of a block that a file has.
const BLOCK: usize = 254;

/// The blocks that a side sector lists.
const LISTED: usize = 120;

/// How a disk is described.
#[derive(Clone, Copy)]
pub struct Description<'a> {
    /// The folder of its files.
    pub folder: &'a str,
    /// The character set of names.
    pub charset: Charset,
    /// The recipe is for programs.
    pub is_json: bool,
}

/// Where a name stands in an entry.
fn sixteen(entry: &Entry) -> &[u8] {
    unfilled(entry.bytes().get(3..19).unwrap_or(&[]))
}

/// Whether an entry is locked, where it is.
fn lock_of(entry: &Entry) -> Option<bool> {
    if entry.is_locked() { Some(true) } else { None }
}

/// A line of art.
fn art_line(alloc: Global, entry: &Entry, charset: Charset) -> Result<RecipeLine, AllocError> {
    let name = name_text(alloc, charset, sixteen(entry))?;
    Ok(RecipeLine {
        file: None,
        name: None,
        art: Some(name),
        kind: None,
        record: None,
        blocks: Some(entry.blocks()),
        locked: lock_of(entry),
        interleave: None,
        track: None,
        sector: None,
    })
}

/// How many blocks the drive gives a file of this many bytes.
fn blocks_for(entry: &Entry, bytes: usize) -> usize {
    let blocks = bytes.div_ceil(BLOCK).max(1);
    if entry.is_relative() {
        return blocks.saturating_add(blocks.div_ceil(LISTED));
    }
    blocks
}

/// The number of blocks that is shown, where it isn't the one that a file has.
fn shown_blocks(entry: &Entry, bytes: usize) -> Option<u16> {
    if usize::from(entry.blocks()) == blocks_for(entry, bytes) {
        None
    } else {
        Some(entry.blocks())
    }
}

/// Where the next entry's file is among the host's files.
fn path_of(
    alloc: Global,
    entry: &Entry,
    names: &mut Names,
    folder: &str,
) -> Result<String, AllocError> {
    let host = names.next(alloc, entry)?;
    let path = Path::new(folder).join(alloc, host.as_str())?;
    String::from_str(alloc, path.as_path().as_str())
}

/// The line of a file of this many bytes, which is at a path.
fn file_line(
    alloc: Global,
    entry: &Entry,
    file: String,
    description: Description<'_>,
    bytes: usize,
) -> Result<RecipeLine, AllocError> {
    let name = name_text(alloc, description.charset, sixteen(entry))?;
    Ok(RecipeLine {
        file: Some(file),
        name: Some(name),
        art: None,
        kind: None,
        record: None,
        blocks: shown_blocks(entry, bytes),
        locked: lock_of(entry),
        interleave: None,
        track: None,
        sector: None,
    })
}

/// Whether an entry is a line of art to those who see the directory, of a type that files have: it has no block.
fn is_hollow(entry: &Entry) -> bool {
    let has_type = matches!(
        entry.kind(),
        Some(FileType::Prg | FileType::Seq | FileType::Usr)
    );
    has_type && entry.is_closed() && entry.first_block().is_end()
}

/// The line of the file of an entry, which is at a path. Errors: `NotClosed`, `Trouble`, where its file can't be built from what `get-all`
/// takes out.
fn line_of(
    alloc: Global,
    disk: &Disk,
    entry: &Entry,
    path: String,
    description: Description<'_>,
) -> Result<RecipeLine, ShellFault> {
    if !entry.is_closed() {
        return Err(ShellFault::NotClosed);
    }
    let bytes = disk.file_of(alloc, entry)?;
    Ok(file_line(alloc, entry, path, description, bytes.len())?)
}

/// What is made of a directory.
#[derive(Drop)]
struct Draft {
    // The names of the host's files.
    hosts: Names,
    // The names on the disk of the files that are described.
    files: Vec<Vec<u8>>,
    lines: Vec<RecipeLine>,
    // What isn't described.
    notes: Vec<Note>,
}

impl Draft {
    /// Nothing yet.
    fn new(alloc: Global) -> Draft {
        Draft {
            hosts: Names::new(alloc),
            files: Vec::new(alloc),
            lines: Vec::new(alloc),
            notes: Vec::new(alloc),
        }
    }

    /// Reports what isn't described of an entry, and notes it.
    fn note<R: Runtime + AllocGlobal>(
        &mut self,
        rt: &R,
        entry: &Entry,
        text: &'static str,
    ) -> Result<(), AllocError> {
        let note = Note::of(rt.alloc(), entry, text)?;
        let name = note.name.as_str();
        let _ = eprintln!(rt; "disk1541: \"{name}\" {text}");
        self.notes.push(note).map_err(AllocError::from)
    }

    /// Whether a file that is described has a name, as `build` compares names.
    fn has_file(&self, name: &[u8]) -> bool {
        for file in self.files.as_slice() {
            if file.as_slice() == name {
                return true;
            }
        }
        false
    }

    /// Adds the line of a file.
    fn add_file(
        &mut self,
        alloc: Global,
        entry: &Entry,
        line: RecipeLine,
    ) -> Result<(), AllocError> {
        let name = Vec::from_slice(alloc, entry.name())?;
        self.files.push(name).map_err(AllocError::from)?;
        self.lines.push(line).map_err(AllocError::from)
    }

    /// Adds a line of art.
    fn add_art(
        &mut self,
        alloc: Global,
        entry: &Entry,
        charset: Charset,
    ) -> Result<(), AllocError> {
        let line = art_line(alloc, entry, charset)?;
        self.lines.push(line).map_err(AllocError::from)
    }
}

/// What is noted of an entry that is left out.
fn why_left(fault: ShellFault) -> &'static str {
    match fault {
        ShellFault::NotClosed => "is not described: it was never closed",
        _ => "is not described: it can't be read to its end",
    }
}

/// Adds the line of a file, unless an earlier one has its name, and notes the omissions.
fn add_described<R: Runtime + AllocGlobal>(
    rt: &R,
    entry: &Entry,
    line: RecipeLine,
    draft: &mut Draft,
) -> Result<(), AllocError> {
    if draft.has_file(sixteen(entry)) {
        return draft.note(
            rt,
            entry,
            "is not described: `build` refuses a second file of one name",
        );
    }
    draft.add_file(rt.alloc(), entry, line)?;
    if geos_of(entry).is_some() {
        return draft.note(
            rt,
            entry,
            "is a GEOS file: its info block and records are not described",
        );
    }
    Ok(())
}

/// Adds the line of an entry.
fn add_line<R: Runtime + AllocGlobal>(
    rt: &R,
    disk: &Disk,
    entry: &Entry,
    draft: &mut Draft,
    description: Description<'_>,
) -> Result<(), ShellFault> {
    // `get-all` names each entry, whether it takes its file out or not.
    let path = path_of(rt.alloc(), entry, &mut draft.hosts, description.folder)?;
    if is_hollow(entry) {
        draft.note(
            rt,
            entry,
            "has no block: it is described as art, of type DEL",
        )?;
    }
    if is_art(entry) || is_hollow(entry) {
        return Ok(draft.add_art(rt.alloc(), entry, description.charset)?);
    }
    match line_of(rt.alloc(), disk, entry, path, description) {
        Ok(line) => Ok(add_described(rt, entry, line, draft)?),
        Err(ShellFault::Memory) => Err(ShellFault::Memory),
        Err(fault) => Ok(draft.note(rt, entry, why_left(fault))?),
    }
}

/// The lines of all entries, and the omissions.
fn drafted<R: Runtime + AllocGlobal>(
    rt: &R,
    disk: &Disk,
    entries: &[Entry],
    description: Description<'_>,
) -> Result<Draft, ShellFault> {
    let mut draft = Draft::new(rt.alloc());
    for entry in entries {
        if !entry.is_empty() {
            add_line(rt, disk, entry, &mut draft, description)?;
        }
    }
    Ok(draft)
}

/// Why 18/0 can't be read.
fn trouble_of(alloc: Global, image: &[u8]) -> Result<ShellFault, ShellFault> {
    let Some(at) = Address::new(18, 0) else {
        return Ok(ShellFault::NotFound);
    };
    match sector(alloc, image, at)? {
        Some(Err(code)) => Ok(ShellFault::Trouble(Trouble {
            code,
            track: 18,
            sector: 0,
        })),
        _ => Ok(ShellFault::NotFound),
    }
}

/// What 18/0 says of a disk.
fn label_of(alloc: Global, image: &[u8], info: &Info) -> Result<Label, ShellFault> {
    match info.label {
        Some(label) => Ok(label),
        None => Err(trouble_of(alloc, image)?),
    }
}

/// How an image's format is said.
fn format_word(image: &[u8]) -> &'static str {
    match kind_of(image) {
        Kind::D64 => "d64",
        Kind::G64 => "g64",
    }
}

/// A recipe with no line, of a disk of this many tracks that 18/0 says this of.
fn labelled(
    alloc: Global,
    charset: Charset,
    label: Label,
    tracks: u8,
    word: &str,
) -> Result<Recipe, AllocError> {
    let title = name_text(alloc, charset, unfilled(label.title.as_slice()))?;
    let id = name_text(alloc, charset, id_of(&label.mark))?;
    let format = String::from_str(alloc, word)?;
    Ok(Recipe {
        title,
        id,
        tracks: Some(tracks),
        format: Some(format),
        interleave: None,
        track: None,
        sector: None,
        lines: Vec::new(alloc),
    })
}

/// The id of the five bytes after the title: two of them, where the others are those of each new disk.
fn id_of(mark: &[u8; 5]) -> &[u8] {
    match mark {
        [_, _, 0xa0, b'2', b'A'] => mark.get(..2).unwrap_or(mark),
        _ => mark,
    }
}

/// The recipe of a disk, with no line yet.
fn recipe_of(alloc: Global, image: &[u8], charset: Charset) -> Result<Recipe, ShellFault> {
    let info = info(alloc, image)?;
    let label = label_of(alloc, image, &info)?;
    let recipe = labelled(alloc, charset, label, info.tracks, format_word(image))?;
    Ok(recipe)
}

/// The recipe of a disk with these lines.
fn recipe_with(
    alloc: Global,
    image: &[u8],
    charset: Charset,
    lines: Vec<RecipeLine>,
) -> Result<Recipe, ShellFault> {
    let mut recipe = recipe_of(alloc, image, charset)?;
    recipe.lines = lines;
    Ok(recipe)
}

/// Why a disk has more files than its directory lists, as is reported: it breaks off, or has no link to them. The one error is want of
/// memory.
fn unlisted_text<R: Runtime + AllocGlobal>(
    rt: &R,
    disk: &Disk,
    listed: &Listed,
) -> Result<Option<String>, AllocError> {
    let text = match unlisted_on(rt.alloc(), disk, listed)? {
        Some(What::Broken(end)) => format!(in rt.alloc(); "{end}")?,
        Some(What::Unlinked(unlinked)) => format!(in rt.alloc(); "{unlinked}")?,
        _ => return Ok(None),
    };
    let why = text.as_str();
    let _ = eprintln!(rt; "disk1541: {why}");
    Ok(Some(text))
}

/// The recipe of a disk, and its omissions.
#[derive(Drop)]
struct NotedRecipe {
    recipe: Recipe,
    notes: Vec<Note>,
    // Why the directory doesn't list all files, if so.
    unlisted: Option<String>,
}

/// The recipe of a disk, and its omissions.
fn described<R: Runtime + AllocGlobal>(
    rt: &R,
    image: &[u8],
    description: Description<'_>,
) -> Result<NotedRecipe, ShellFault> {
    let disk = Disk::open(rt.alloc(), image)?;
    let listed = disk.listed(rt.alloc())?;
    let draft = drafted(rt, &disk, listed.entries.as_slice(), description)?;
    let lines = draft.lines;
    let notes = draft.notes;
    let recipe = recipe_with(rt.alloc(), image, description.charset, lines)?;
    let unlisted = unlisted_text(rt, &disk, &listed)?;
    Ok(NotedRecipe {
        recipe,
        notes,
        unlisted,
    })
}

/// The omissions as comments.
fn comments_of(alloc: Global, notes: &[Note]) -> Result<String, AllocError> {
    let mut text = String::new(alloc);
    for note in notes {
        let name = note.name.as_str();
        let what = note.text;
        text.push_str(format!(in alloc; "# \"{name}\" {what}\n")?.as_str())?;
    }
    Ok(text)
}

/// Prints a recipe after its omissions.
fn print_recipe<R: Runtime + AllocGlobal>(rt: &R, described: &NotedRecipe) -> Result<(), Failure> {
    match recipe_text(rt.alloc(), &described.recipe) {
        Ok(text) => {
            let notes = in_memory(comments_of(rt.alloc(), described.notes.as_slice()))?;
            print(rt, notes.as_bytes())?;
            print(rt, text.as_bytes())
        }
        Err(_) => Err(Failure::new(What::NoMemory)),
    }
}

/// Prints a recipe and its omissions, for people or for programs.
fn print_described<R: Runtime + AllocGlobal>(
    rt: &R,
    image: &str,
    described: &NotedRecipe,
    is_json: bool,
) -> Result<(), Failure> {
    if !is_json {
        return print_recipe(rt, described);
    }
    let unlisted = match &described.unlisted {
        Some(text) => Some(text.as_str()),
        None => None,
    };
    let notes = described.notes.as_slice();
    let line = recipe_line(rt.alloc(), image, &described.recipe, notes, unlisted);
    print(rt, in_memory(line)?.as_slice())
}

/// Prints the recipe of an image's disk; what it doesn't say of it is reported, and stands in comments above it. Errors: those of
/// `read_to_look`; `Disk`; `Write`; `Told`, where something wasn't said; `NoMemory`.
pub fn describe<R: Runtime + AllocGlobal>(
    rt: &R,
    image: &str,
    description: Description<'_>,
) -> Result<(), Failure> {
    let bytes = read_to_look(rt, image)?;
    let described = on_disk(
        rt.alloc(),
        image,
        described(rt, bytes.as_slice(), description),
    )?;
    print_described(rt, image, &described, description.is_json)?;
    if described.unlisted.is_none() && described.notes.is_empty() {
        Ok(())
    } else {
        Err(Failure::new(What::Told))
    }
}
