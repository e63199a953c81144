//! The words of a line: between spaces, or between quotation marks of either kind.
use disk_basics::{Failure, What, WordFault, in_memory};
use host_files::text_of;
use std::alloc::{AllocError, Global};

/// A line that is read byte by byte.
#[derive(Drop)]
struct Reader {
    // The words that are whole.
    words: Vec<String>,
    // The word that is read, if one is.
    word: Option<Vec<u8>>,
    // The quotation mark in which it is read.
    quote: Option<u8>,
}

impl Reader {
    /// Ends the word that is read.
    fn end(&mut self, alloc: Global) -> Result<(), AllocError> {
        if let Some(word) = self.word.take() {
            let text = text_of(alloc, word.as_slice())?;
            self.words.push(text).map_err(AllocError::from)?;
        }
        Ok(())
    }

    /// Adds a byte to the word that is read, which may begin with it.
    fn add(&mut self, alloc: Global, byte: u8) -> Result<(), AllocError> {
        let mut word = match self.word.take() {
            Some(word) => word,
            None => Vec::new(alloc),
        };
        let added = word.push(byte);
        self.word = Some(word);
        Ok(added?)
    }

    /// Begins what stands in quotation marks, also if that is nothing.
    fn open(&mut self, alloc: Global, mark: u8) {
        self.quote = Some(mark);
        if self.word.is_none() {
            self.word = Some(Vec::new(alloc));
        }
    }

    /// Reads a byte. Answers false at a comment.
    fn read(&mut self, alloc: Global, byte: u8) -> Result<bool, AllocError> {
        match (self.quote, byte) {
            (Some(mark), _) if mark == byte => self.quote = None,
            (Some(_), _) => self.add(alloc, byte)?,
            (None, b'\'' | b'"') => self.open(alloc, byte),
            (None, b' ' | b'\t' | b'\r') => self.end(alloc)?,
            (None, b'#') if self.word.is_none() => return Ok(false),
            (None, _) => self.add(alloc, byte)?,
        }
        Ok(true)
    }
}

/// The line, read to its end or to a comment.
fn read_line(alloc: Global, line: &[u8]) -> Result<Reader, AllocError> {
    let mut reader = Reader {
        words: Vec::new(alloc),
        word: None,
        quote: None,
    };
    for byte in line {
        if !reader.read(alloc, *byte)? {
            break;
        }
    }
    reader.end(alloc)?;
    Ok(reader)
}

/// The words of a line, up to a `#` that begins a word. A word may have parts between quotation marks, in which each byte is itself.
/// Errors: `Word`, if a quotation mark has no other; `NoMemory`.
pub fn words_of(alloc: Global, line: &[u8]) -> Result<Vec<String>, Failure> {
    let reader = in_memory(read_line(alloc, line))?;
    if reader.quote.is_some() {
        return Err(Failure::new(What::Word(WordFault::OpenQuote)));
    }
    Ok(reader.words)
}
