//! The header of a VCD.

use crate::fault::{Flaw, TraceFault};
use crate::text::Source;
use crate::vcd::names::{lowered, party_called, role_called};
use crate::vcd::scale::Scale;
use crate::vcd::sections::{Found, Word, next_word, section_word, skip_section};
use crate::vcd::variables::{Variable, Variables};
use arrayvec::ArrayVec;
use cbm_iec::Who;
use std::io::Read;
use std::mem;

/// How deep scopes lie in one another at most.
const DEEPEST: usize = 16;

/// What a VCD's header says.
#[derive(Drop)]
pub(crate) struct Header {
    pub(crate) scale: Scale,
    pub(crate) variables: Variables,
    scopes: ArrayVec<Option<Who>, DEEPEST>,
}

/// Reads the header of a VCD. Errors: `Reading`, or a line that is refused.
pub(crate) fn read_header<R: Read>(source: &mut Source<R>) -> Result<Header, TraceFault> {
    let mut header = Header {
        scale: Scale::micro(),
        variables: Variables::new(),
        scopes: ArrayVec::new(),
    };
    let mut word = Word::new();
    for _ in 0..u64::MAX {
        match next_word(source, &mut word)? {
            Found::End => return Err(source.refused(Flaw::Cut)),
            Found::Long => return Err(source.refused(Flaw::Header)),
            Found::Word => {}
        }
        if word.as_slice() == b"$enddefinitions".as_slice() {
            skip_section(source, &mut word)?;
            break;
        }
        header.section(source, &mut word)?;
    }
    match header.variables.settle() {
        Ok(()) => Ok(header),
        Err(flaw) => Err(source.refused(flaw)),
    }
}

impl Header {
    /// Reads a section after its first word.
    fn section<R: Read>(
        &mut self,
        source: &mut Source<R>,
        word: &mut Word,
    ) -> Result<(), TraceFault> {
        match word.as_slice() {
            b"$timescale" => self.timescale(source, word),
            b"$scope" => self.scope(source, word),
            b"$upscope" => self.upscope(source, word),
            b"$var" => self.variable(source, word),
            [b'$', ..] => skip_section(source, word),
            _ => Err(source.refused(Flaw::Header)),
        }
    }

    fn timescale<R: Read>(
        &mut self,
        source: &mut Source<R>,
        word: &mut Word,
    ) -> Result<(), TraceFault> {
        let mut words = Word::new();
        for _ in 0..u64::MAX {
            if !section_word(source, word)? {
                break;
            }
            for byte in word.as_slice() {
                let _ = words.try_push(*byte);
            }
        }
        match Scale::of(words.as_slice()) {
            Some(scale) => self.scale = scale,
            None => return Err(source.refused(Flaw::Timescale)),
        }
        Ok(())
    }

    fn scope<R: Read>(
        &mut self,
        source: &mut Source<R>,
        word: &mut Word,
    ) -> Result<(), TraceFault> {
        if !section_word(source, word)? || !section_word(source, word)? {
            return Err(source.refused(Flaw::Scope));
        }
        let name = lowered(word.as_slice());
        if self.scopes.try_push(party_called(name.as_slice())).is_err() {
            return Err(source.refused(Flaw::Scope));
        }
        skip_section(source, word)
    }

    fn upscope<R: Read>(
        &mut self,
        source: &mut Source<R>,
        word: &mut Word,
    ) -> Result<(), TraceFault> {
        if self.scopes.pop().is_none() {
            return Err(source.refused(Flaw::Scope));
        }
        skip_section(source, word)
    }

    /// `$var TYPE SIZE CODE NAME .. $end`.
    fn variable<R: Read>(
        &mut self,
        source: &mut Source<R>,
        word: &mut Word,
    ) -> Result<(), TraceFault> {
        if !section_word(source, word)? || !section_word(source, word)? {
            return Err(source.refused(Flaw::Variable));
        }
        let is_bit = word.as_slice() == b"1".as_slice();
        if !section_word(source, word)? {
            return Err(source.refused(Flaw::Variable));
        }
        let mut code = Word::new();
        mem::swap(&mut code, word);
        if !section_word(source, word)? {
            return Err(source.refused(Flaw::Variable));
        }
        let scope = self.scopes.last().copied().unwrap_or(None);
        let role = role_called(lowered(word.as_slice()).as_slice(), scope);
        let Some(variable) = Variable::new(code.as_slice(), is_bit, role) else {
            return Err(source.refused(Flaw::Variable));
        };
        if let Err(flaw) = self.variables.add(variable) {
            return Err(source.refused(flaw));
        }
        skip_section(source, word)
    }
}
