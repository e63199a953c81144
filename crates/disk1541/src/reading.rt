//! The words of a command as plain values.
use cbm_medium::Address;
use cbm_shell::texts::Charset;
use clap::ArgMatches;
use disk_basics::placing::Head;
use disk_basics::{Choice, Failure, What, WordFault};
use disk_changes::{Blank, Build, Conversion, HostFiles};
use disk_commands::{flag, given, option};
use disk_compare::{Form, Wanted};
use disk_edits::{Art, ErrorDeed, Pair};
use disk_looks::{Description, Destination, Mapping, OneFile};
use disk_reports::View;
use std::alloc::Global;

/// The character set of a command's names. Errors: `Word`, where a C64 has no such set.
pub fn charset(alloc: Global, words: &ArgMatches<'_>) -> Result<Charset, Failure> {
    let word = option(words, "charset").unwrap_or("upper");
    if word == "lower" {
        return Ok(Charset::Lower);
    }
    if word != "upper" {
        return Err(Failure::named(alloc, What::Word(WordFault::Charset), word));
    }
    Ok(Charset::Upper)
}

/// What LIST shows.
pub fn listing(words: &ArgMatches<'_>) -> View {
    if flag(words, "raw") {
        return View::Sent;
    }
    if flag(words, "blocks") {
        View::Blocks
    } else if flag(words, "deleted") {
        View::Deleted
    } else {
        View::Directory
    }
}

/// What CHECK shows.
pub fn checking(words: &ArgMatches<'_>) -> View {
    if flag(words, "all") {
        View::Flaws
    } else {
        View::Soundness
    }
}

/// The pattern of the files that LIST and FIND are about; all files for other commands.
pub fn pattern<'a>(words: &ArgMatches<'a>) -> &'a str {
    match option(words, "only") {
        Some(pattern) => pattern,
        None => option(words, "PATTERN").unwrap_or("*"),
    }
}

/// How one file is said.
pub fn choice<'a>(words: &ArgMatches<'a>, name: &'a str, charset: Charset) -> Choice<'a> {
    Choice {
        name,
        slot: option(words, "slot"),
        is_exact: flag(words, "exact"),
        charset,
    }
}

/// The old name and the new one of COPY and RENAME: with a slot there is one name. Errors: `Word`, where one is missing.
fn two_names<'a>(words: &ArgMatches<'a>) -> Result<(&'a str, &'a str), Failure> {
    let has_slot = option(words, "slot").is_some();
    match (option(words, "OLD"), option(words, "NEW")) {
        (Some(new), None) if has_slot => Ok(("", new)),
        (Some(old), Some(new)) if !has_slot => Ok((old, new)),
        _ => Err(Failure::new(What::Word(WordFault::TwoNames))),
    }
}

/// The word that says the files of DELETE, LOCK and UNLOCK: `--only`, if it is there, else those after the image.
pub fn patterns_word(words: &ArgMatches<'_>) -> &'static str {
    if words.get_strs("only").is_some() {
        "only"
    } else {
        "PATTERN"
    }
}

/// The new type of a file, and how it is said: with a slot there is one word. Errors: `Word`, where one is missing.
pub fn type_and_choice<'a>(
    words: &ArgMatches<'a>,
    charset: Charset,
) -> Result<(&'a str, Choice<'a>), Failure> {
    let has_slot = option(words, "slot").is_some();
    match (option(words, "NAME"), option(words, "TYPE")) {
        (Some(kind), None) if has_slot => Ok((kind, choice(words, "", charset))),
        (Some(name), Some(kind)) if !has_slot => Ok((kind, choice(words, name, charset))),
        _ => Err(Failure::new(What::Word(WordFault::NameAndType))),
    }
}

/// What ERRORS does.
pub fn error_deed(words: &ArgMatches<'_>) -> ErrorDeed {
    if flag(words, "add") {
        return ErrorDeed::Add;
    }
    if flag(words, "drop") {
        return ErrorDeed::Drop(flag(words, "lossy"));
    }
    ErrorDeed::Show(flag(words, "json"))
}

/// One file, by its name or by its slot. Errors: `Word`, where it isn't said by one of them.
pub fn one_choice<'a>(words: &ArgMatches<'a>, charset: Charset) -> Result<Choice<'a>, Failure> {
    if option(words, "NAME").is_some() == option(words, "slot").is_some() {
        return Err(Failure::new(What::Word(WordFault::NoFileName)));
    }
    Ok(choice(words, given(words, "NAME"), charset))
}

/// How SHOW shows a file.
fn form(words: &ArgMatches<'_>) -> Form {
    if flag(words, "basic") {
        return Form::Basic;
    }
    if flag(words, "hex") {
        return Form::Hex;
    }
    if flag(words, "text") {
        Form::Text
    } else {
        Form::Either
    }
}

/// The file that SHOW shows. Errors: those of `one_choice`.
pub fn wanted<'a>(words: &ArgMatches<'a>, charset: Charset) -> Result<Wanted<'a>, Failure> {
    Ok(Wanted {
        choice: one_choice(words, charset)?,
        form: form(words),
        is_json: flag(words, "json"),
    })
}

/// The file that GET takes out. Errors: those of `one_choice`.
pub fn one_file<'a>(words: &ArgMatches<'a>, charset: Charset) -> Result<OneFile<'a>, Failure> {
    Ok(OneFile {
        choice: one_choice(words, charset)?,
        output: given(words, "output"),
        replaces: flag(words, "replace"),
        salvages: flag(words, "salvage"),
        is_cvt: flag(words, "cvt"),
    })
}

/// Where GET-ALL writes the files.
pub fn place<'a>(words: &ArgMatches<'a>) -> Destination<'a> {
    Destination {
        image: given(words, "IMAGE"),
        folder: given(words, "DIR"),
        replaces: flag(words, "replace"),
        salvages: flag(words, "salvage"),
        is_cvt: flag(words, "cvt"),
    }
}

/// How far apart blocks are laid. Errors: `Word`, if it isn't 1 to 20.
fn interleave(alloc: Global, word: &str) -> Result<u8, Failure> {
    match word.parse::<u8>() {
        Ok(interleave @ 1..=20) => Ok(interleave),
        _ => Err(Failure::named(alloc, What::Word(WordFault::Interleave), word)),
    }
}

/// The sector at which PLACE begins. Errors: `Word`, if no disk has it, or it is the directory's.
fn first_sector(alloc: Global, track: &str, sector: &str) -> Result<Address, Failure> {
    let Ok(track_number) = track.parse::<u8>() else {
        return Err(Failure::named(alloc, What::Word(WordFault::Sector), track));
    };
    let Ok(sector_number) = sector.parse::<u8>() else {
        return Err(Failure::named(alloc, What::Word(WordFault::Sector), sector));
    };
    match Address::new(track_number, sector_number) {
        Some(at) if at.track() == 18 => Err(Failure::new(What::Word(WordFault::DirectoryTrack))),
        Some(at) => Ok(at),
        None => Err(Failure::named(alloc, What::Word(WordFault::Sector), sector)),
    }
}

/// Where PLACE looks for the first block. Errors: `Word`, if a number can't be.
pub fn head(alloc: Global, words: &ArgMatches<'_>) -> Result<Head, Failure> {
    let first = first_sector(alloc, given(words, "track"), given(words, "sector"))?;
    Ok(Head {
        track: first.track(),
        sector: first.sector(),
        interleave: interleave(alloc, given(words, "interleave"))?,
    })
}

/// The line that ART adds.
pub fn art<'a>(words: &ArgMatches<'a>, charset: Charset) -> Art<'a> {
    Art {
        text: given(words, "TEXT"),
        blocks: given(words, "blocks"),
        place: option(words, "at"),
        charset,
    }
}

/// The disk that NEW makes.
pub fn blank<'a>(words: &ArgMatches<'a>, charset: Charset) -> Blank<'a> {
    Blank {
        title: given(words, "title"),
        id: given(words, "id"),
        tracks: given(words, "tracks"),
        format: option(words, "format"),
        replaces: flag(words, "replace"),
        charset,
    }
}

/// The image that CONVERT makes.
pub fn conversion<'a>(words: &ArgMatches<'a>) -> Conversion<'a> {
    Conversion {
        output: given(words, "OUT"),
        format: option(words, "format"),
        tracks: option(words, "tracks"),
        is_lossy: flag(words, "lossy"),
        replaces: flag(words, "replace"),
    }
}

/// How PUT puts files on the disk.
pub fn host_files<'a>(
    words: &ArgMatches<'a>,
    charset: Charset,
    input: Option<&'a [u8]>,
) -> HostFiles<'a> {
    HostFiles {
        name: option(words, "name"),
        kind: option(words, "type"),
        record: option(words, "record"),
        replaces: flag(words, "replace"),
        charset,
        input,
    }
}

/// The names of COPY and RENAME, and how the file is said. Errors: `Word`, where a name is missing.
pub fn pair<'a>(
    words: &ArgMatches<'a>,
    charset: Charset,
) -> Result<(Pair<'a>, Choice<'a>), Failure> {
    match two_names(words) {
        Ok((old, new)) => {
            let pair = Pair { old, new, charset };
            Ok((pair, choice(words, old, charset)))
        }
        Err(failure) => Err(failure),
    }
}

/// The image that BUILD makes.
pub fn building<'a>(words: &ArgMatches<'a>, charset: Charset) -> Build<'a> {
    Build {
        recipe: given(words, "FILE"),
        image: given(words, "IMAGE"),
        replaces: flag(words, "replace"),
        charset,
    }
}

/// How DESCRIBE describes a disk.
pub fn description<'a>(words: &ArgMatches<'a>, charset: Charset) -> Description<'a> {
    Description {
        folder: given(words, "folder"),
        charset,
        is_json: flag(words, "json"),
    }
}

/// How MAP shows a disk.
pub fn mapping<'a>(words: &ArgMatches<'a>, charset: Charset, is_coloured: bool) -> Mapping<'a> {
    Mapping {
        has_files: flag(words, "files"),
        svg: option(words, "svg"),
        replaces: flag(words, "replace"),
        charset,
        is_coloured,
        is_json: flag(words, "json"),
    }
}
