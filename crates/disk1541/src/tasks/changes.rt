//! What a command makes of the bytes of an image.
use crate::reading::{
    art, choice, head, host_files, one_choice, pair, patterns_word, type_and_choice,
};
use cbm_shell::texts::Charset;
use clap::ArgMatches;
use disk_basics::strays::require_kept;
use disk_basics::{Choice, Failure, What, WordFault, in_memory};
use disk_changes::{require_files, with_files};
use disk_commands::{Verb, flag, given, option};
use disk_edits::{
    Deed, Desk, Edit, Gone, Ordering, Placement, Showing, adorned, copied, done_with, edited,
    given_back, in_order, key_of_word, moved, placed, renamed, require_names, rest_of, retyped,
    sorted, without_fault,
};
use std::alloc::Global;
use std::rt::Runtime;

/// What a command made of an image.
#[derive(Drop)]
pub struct Made {
    /// The new image.
    pub image: Vec<u8>,
    /// What VALIDATE and PLACE do, in lines, or as a line of JSON.
    pub plan: Option<String>,
    /// What stays on the disk though the words mean it, in lines.
    pub rest: Option<String>,
}

/// How the words of a command are taken.
#[derive(Clone, Copy)]
pub struct Manner<'a> {
    /// What standard input gave, where it was read already.
    pub input: Option<&'a [u8]>,
    /// How the change is shown, and whether anything is saved.
    pub showing: Showing,
}

/// A new image of which there is nothing more to say.
fn plain(image: Result<Vec<u8>, Failure>) -> Result<Made, Failure> {
    Ok(Made {
        image: image?,
        plan: None,
        rest: None,
    })
}

/// What an edit makes of an image.
fn edit_of(alloc: Global, desk: Desk<'_, '_>, edit: &Edit<'_, '_>) -> Result<Made, Failure> {
    let image = edited(alloc, desk.image, desk.bytes, edit)?;
    let rest = rest_of(alloc, desk.bytes, image.as_slice(), edit);
    Ok(Made {
        image,
        plan: None,
        rest: Some(rest),
    })
}

/// The one file that is chosen by its slot or its exact name; None where patterns mean files. Errors: `Word`, where none or several
/// are said.
fn one_chosen<'a>(words: &ArgMatches<'a>, charset: Charset) -> Result<Option<Choice<'a>>, Failure> {
    let named = choice(words, "", charset);
    match words.get_strs(patterns_word(words)).unwrap_or(&[]) {
        [] if named.slot.is_some() => Ok(Some(named)),
        [name] if named.is_exact && named.slot.is_none() => {
            Ok(Some(choice(words, *name, charset)))
        }
        [_, ..] if named.is_pattern() => Ok(None),
        _ => Err(Failure::new(What::Word(WordFault::NoFileName))),
    }
}

/// The image with a copy of the file that is meant.
fn copy_of(
    alloc: Global,
    words: &ArgMatches<'_>,
    charset: Charset,
    desk: Desk<'_, '_>,
) -> Result<Vec<u8>, Failure> {
    let (pair, choice) = match pair(words, charset) {
        Ok(both) => both,
        Err(failure) => return Err(failure),
    };
    if choice.is_pattern() {
        return copied(alloc, desk.image, desk.bytes, &pair);
    }
    done_with(alloc, desk, choice, Deed::Copy(pair.new))
}

/// The image whose file that is meant has another name.
fn rename_of(
    alloc: Global,
    words: &ArgMatches<'_>,
    charset: Charset,
    desk: Desk<'_, '_>,
) -> Result<Vec<u8>, Failure> {
    let (pair, choice) = match pair(words, charset) {
        Ok(both) => both,
        Err(failure) => return Err(failure),
    };
    if choice.is_pattern() {
        return renamed(alloc, desk.image, desk.bytes, &pair);
    }
    done_with(alloc, desk, choice, Deed::Rename(pair.new))
}

/// The image whose files that are meant are locked, or free.
fn lock_of(
    alloc: Global,
    words: &ArgMatches<'_>,
    charset: Charset,
    desk: Desk<'_, '_>,
    is_locked: bool,
) -> Result<Made, Failure> {
    match one_chosen(words, charset)? {
        Some(choice) => plain(done_with(alloc, desk, choice, Deed::Lock(is_locked))),
        None => {
            let patterns = words.get_strs(patterns_word(words)).unwrap_or(&[]);
            edit_of(alloc, desk, &Edit::Lock(patterns, charset, is_locked))
        }
    }
}

/// The image without the files that are meant, or without those of them that are at fault.
fn delete_of<R: Runtime + AllocGlobal>(
    rt: &R,
    words: &ArgMatches<'_>,
    charset: Charset,
    desk: Desk<'_, '_>,
) -> Result<Made, Failure> {
    let patterns = words.get_strs(patterns_word(words)).unwrap_or(&[]);
    if flag(words, "force") {
        if patterns.is_empty() || !choice(words, "", charset).is_pattern() {
            return Err(Failure::new(What::Word(WordFault::NoFileName)));
        }
        return plain(without_fault(rt, desk.image, desk.bytes, patterns, charset));
    }
    match one_chosen(words, charset)? {
        Some(choice) => plain(done_with(rt.alloc(), desk, choice, Deed::Delete)),
        None => edit_of(rt.alloc(), desk, &Edit::Delete(patterns, charset)),
    }
}

/// The image whose file that is meant has another type.
fn retype_of(
    alloc: Global,
    words: &ArgMatches<'_>,
    charset: Charset,
    desk: Desk<'_, '_>,
) -> Result<Vec<u8>, Failure> {
    let (word, choice) = match type_and_choice(words, charset) {
        Ok(both) => both,
        Err(failure) => return Err(failure),
    };
    retyped(alloc, desk, choice, word)
}

/// The image put in order, and what that does.
fn order_of(
    alloc: Global,
    words: &ArgMatches<'_>,
    desk: Desk<'_, '_>,
    showing: Showing,
) -> Result<Made, Failure> {
    let ordering = Ordering {
        is_dry: showing.is_dry,
        is_forced: flag(words, "force"),
        is_json: showing.is_json,
    };
    let order = in_order(alloc, desk.image, desk.bytes, ordering)?;
    Ok(Made {
        image: order.image,
        plan: Some(order.plan),
        rest: None,
    })
}

/// The image whose files that are meant lie elsewhere, and where, if nothing is saved, or programs are told.
fn place_of(
    alloc: Global,
    words: &ArgMatches<'_>,
    desk: Desk<'_, '_>,
    showing: Showing,
) -> Result<Made, Failure> {
    let head = head(alloc, words)?;
    let patterns = words.get_strs("PATTERN").unwrap_or(&[]);
    let placement = Placement {
        patterns,
        charset: showing.charset,
        head,
    };
    let laying = placed(alloc, desk.image, desk.bytes, &placement)?;
    let plan = if showing.is_dry || showing.is_json {
        Some(in_memory(laying.shown(alloc, desk.image, showing))?)
    } else {
        None
    };
    Ok(Made {
        image: laying.image,
        plan,
        rest: None,
    })
}

/// Refuses names of COPY and RENAME that can't be used. Errors: `Word`.
fn require_pair(alloc: Global, words: &ArgMatches<'_>, charset: Charset) -> Result<(), Failure> {
    match pair(words, charset) {
        Ok((pair, choice)) if choice.is_pattern() => require_names(alloc, &pair),
        Ok(_) => Ok(()),
        Err(failure) => Err(failure),
    }
}

/// Refuses words that can't be used, whatever the image is. Errors: `Word`.
pub fn require_words<'a>(
    alloc: Global,
    verb: Verb,
    words: &ArgMatches<'a>,
    image: &str,
    manner: Manner<'a>,
) -> Result<(), Failure> {
    match verb {
        Verb::Put => {
            let put = host_files(words, manner.showing.charset, manner.input);
            require_files(image, words.get_strs("FILE").unwrap_or(&[]), &put)
        }
        Verb::Copy | Verb::Rename => { require_pair(alloc, words, manner.showing.charset) }
        Verb::Sort => {
            key_of_word(alloc, given(words, "by"))?;
            Ok(())
        }
        Verb::Place => {
            head(alloc, words)?;
            Ok(())
        }
        _ => Ok(()),
    }
}

/// What a command makes of an image, if that keeps what entries lead to that no link of the directory leads to, or the command is to put
/// the disk in order whatever that gives back. Errors: those of its call; `Told`, where it changes no image; `UnlinkedOrder`,
/// `UnlinkedChange`.
pub fn made_by<'a, R: Runtime + AllocGlobal>(
    rt: &R,
    verb: Verb,
    words: &ArgMatches<'a>,
    desk: Desk<'_, '_>,
    manner: Manner<'a>,
) -> Result<Made, Failure> {
    let made = made_plainly(rt, verb, words, desk, manner)?;
    let is_order = matches!(verb, Verb::Validate);
    if is_order && flag(words, "force") {
        return Ok(made);
    }
    let what = if is_order {
        What::UnlinkedOrder
    } else {
        What::UnlinkedChange
    };
    require_kept(
        rt.alloc(),
        desk.image,
        desk.bytes,
        made.image.as_slice(),
        what,
    )?;
    Ok(made)
}

/// What a command makes of an image.
fn made_plainly<'a, R: Runtime + AllocGlobal>(
    rt: &R,
    verb: Verb,
    words: &ArgMatches<'a>,
    desk: Desk<'_, '_>,
    manner: Manner<'a>,
) -> Result<Made, Failure> {
    let alloc = rt.alloc();
    let showing = manner.showing;
    let charset = showing.charset;
    match verb {
        Verb::Put => {
            let put = host_files(words, charset, manner.input);
            let files = words.get_strs("FILE").unwrap_or(&[]);
            plain(with_files(rt, desk.image, desk.bytes, files, &put))
        }
        Verb::Copy => plain(copy_of(alloc, words, charset, desk)),
        Verb::Rename => plain(rename_of(alloc, words, charset, desk)),
        Verb::Delete => delete_of(rt, words, charset, desk),
        Verb::Undelete => {
            let gone = Gone {
                names: words.get_strs("NAME").unwrap_or(&[]),
                kind: option(words, "type").unwrap_or("prg"),
                charset,
            };
            plain(given_back(alloc, desk.image, desk.bytes, &gone))
        }
        Verb::Lock => lock_of(alloc, words, charset, desk, true),
        Verb::Unlock => lock_of(alloc, words, charset, desk, false),
        Verb::Title => {
            let edit = Edit::Title(given(words, "TITLE"), option(words, "id"), charset);
            edit_of(alloc, desk, &edit)
        }
        Verb::Retype => plain(retype_of(alloc, words, charset, desk)),
        Verb::Place => place_of(alloc, words, desk, showing),
        Verb::Art => plain(adorned(alloc, desk, art(words, charset))),
        Verb::Move => {
            let choice = one_choice(words, charset)?;
            plain(moved(alloc, desk, choice, given(words, "to")))
        }
        Verb::Sort => {
            let key = key_of_word(rt.alloc(), given(words, "by"))?;
            plain(sorted(alloc, desk.image, desk.bytes, key))
        }
        Verb::Validate => order_of(alloc, words, desk, showing),
        _ => Err(Failure::new(What::Told)),
    }
}
