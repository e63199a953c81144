//! GET-ALL: which files are taken out.
use cbm_shell::texts::Charset;
use cbm_volume::Entry;
use disk_basics::{Failure, What, WordFault, in_memory, petscii};
use disk_facts::{is_meant, type_of};
use std::alloc::{AllocError, Global};

/// A pattern, and how it was typed.
#[derive(Drop)]
struct Pattern {
    word: String,
    codes: Vec<u8>,
}

/// Which files are taken out: those that one of the patterns means, or all where there is none, of one type or of any.
#[derive(Drop)]
pub struct Selection {
    patterns: Vec<Pattern>,
    // None for any type.
    kind: Option<String>,
}

/// The pattern of a word.
fn pattern_of(alloc: Global, word: &str, charset: Charset) -> Result<Pattern, Failure> {
    let codes = petscii(alloc, charset, word)?;
    let word = in_memory(String::from_str(alloc, word))?;
    Ok(Pattern { word, codes })
}

/// The patterns of words.
fn patterns_of(alloc: Global, words: &[&str], charset: Charset) -> Result<Vec<Pattern>, Failure> {
    let mut patterns = Vec::new(alloc);
    for word in words {
        let pattern = pattern_of(alloc, *word, charset)?;
        in_memory(patterns.push(pattern).map_err(AllocError::from))?;
    }
    Ok(patterns)
}

/// The type of a word. The one error beside `NoMemory` is `Word`, where no file has it.
fn kind_of(alloc: Global, word: &str) -> Result<String, Failure> {
    match word {
        "prg" | "seq" | "usr" | "rel" | "del" => in_memory(String::from_str(alloc, word)),
        _ => Err(Failure::named(alloc, What::Word(WordFault::Type), word)),
    }
}

impl Selection {
    /// The files that words mean, of a type or of any. Errors: those of `petscii`; `Word`, where no file has the type; `NoMemory`.
    pub fn of(
        alloc: Global,
        words: &[&str],
        kind: Option<&str>,
        charset: Charset,
    ) -> Result<Selection, Failure> {
        let patterns = patterns_of(alloc, words, charset)?;
        let kind = match kind {
            Some(word) => Some(kind_of(alloc, word)?),
            None => None,
        };
        Ok(Selection { patterns, kind })
    }

    /// Whether a file has the type.
    fn is_of_type(&self, entry: &Entry) -> bool {
        match &self.kind {
            Some(kind) => type_of(entry).unwrap_or("") == kind.as_str(),
            None => true,
        }
    }

    /// Whether a file is taken out.
    pub fn has(&self, entry: &Entry) -> bool {
        if entry.is_empty() || !self.is_of_type(entry) {
            return false;
        }
        for pattern in self.patterns.as_slice() {
            if is_meant(entry, pattern.codes.as_slice()) {
                return true;
            }
        }
        self.patterns.is_empty()
    }

    /// How many of these files are taken out.
    pub fn count(&self, entries: &[Entry]) -> usize {
        let mut count: usize = 0;
        for entry in entries {
            if self.has(entry) {
                count = count.saturating_add(1);
            }
        }
        count
    }

    /// Whether a pattern means one of these files that has the type.
    fn is_met(&self, pattern: &[u8], entries: &[Entry]) -> bool {
        for entry in entries {
            if is_meant(entry, pattern) && self.is_of_type(entry) {
                return true;
            }
        }
        false
    }

    /// Refuses patterns and a type that mean no file. Errors: `NoFile`, with the pattern; `NoMatch`.
    pub fn require_files(&self, alloc: Global, entries: &[Entry]) -> Result<(), Failure> {
        for pattern in self.patterns.as_slice() {
            if !self.is_met(pattern.codes.as_slice(), entries) {
                return Err(Failure::named(alloc, What::NoFile, pattern.word.as_str()));
            }
        }
        if self.kind.is_some() && self.count(entries) == 0 {
            return Err(Failure::new(What::NoMatch));
        }
        Ok(())
    }
}
