//! The changes of a VCD.

use crate::fault::{Flaw, TraceFault};
use crate::reader::Told;
use crate::text::Source;
use crate::vcd::header::read_header;
use crate::vcd::names::Role;
use crate::vcd::scale::Scale;
use crate::vcd::sections::{Found, Word, next_word, section_word, skip_section};
use crate::vcd::variables::Variables;
use cbm_iec::{Change, Event, Line, Way};
use std::io::Read;

/// A VCD after its header.
#[derive(Drop)]
pub(crate) struct Dump {
    scale: Scale,
    variables: Variables,
    moment: u64,
    /// Whether values are listed, up to `$end`.
    is_listing: bool,
}

/// What a word of a VCD means.
#[derive(Clone, Copy, Debug, PartialEq, Eq, Drop)]
enum Meaning {
    /// Nothing that counts for the bus.
    Nothing,
    /// A comment, up to `$end`.
    Comment,
    /// The next word is the code of a variable with this value.
    ValueOf(Option<bool>),
    /// A change.
    Tells(Told),
}

/// Whether a value of one bit is pulled: 0 is, 1 and z aren't; None of x.
fn is_pulled(digit: u8) -> Option<Option<bool>> {
    match digit {
        b'0' => Some(Some(true)),
        b'1' | b'z' | b'Z' => Some(Some(false)),
        b'x' | b'X' => Some(None),
        _ => None,
    }
}

/// The value of a vector's last bit; None of a number or a text.
fn value_of(word: &[u8]) -> Result<Option<bool>, Flaw> {
    match word {
        [b'b' | b'B', .., last] => is_pulled(*last).ok_or(Flaw::Change),
        [b'r' | b'R' | b's' | b'S', ..] => Ok(None),
        _ => Err(Flaw::Change),
    }
}

/// What is told of a variable's change.
fn told(role: Role, moment: u64, is_low: bool) -> Option<Told> {
    let way = if is_low { Way::Pull } else { Way::Free };
    let change = |line: Line| Change { moment, line, way };
    match role {
        Role::Other => None,
        Role::Wire(line) => Some(Told::Wire(change(line))),
        Role::Party(who, line) => Some(Told::Party(Event {
            who,
            change: change(line),
        })),
    }
}

impl Dump {
    /// Reads the header. Errors: `Reading`, or a line that is refused.
    pub(crate) fn begin<R: Read>(source: &mut Source<R>) -> Result<Dump, TraceFault> {
        let header = read_header(source)?;
        Ok(Dump {
            scale: header.scale,
            variables: header.variables,
            moment: 0,
            is_listing: false,
        })
    }

    pub(crate) fn moment(&self) -> u64 {
        self.moment
    }

    /// The next change that is told; None at the end. Errors: `Reading`, or a line that is refused.
    pub(crate) fn next<R: Read>(
        &mut self,
        source: &mut Source<R>,
    ) -> Result<Option<Told>, TraceFault> {
        let mut word = Word::new();
        for _ in 0..u64::MAX {
            match next_word(source, &mut word)? {
                Found::End if self.is_listing => return Err(source.refused(Flaw::Cut)),
                Found::End => return Ok(None),
                Found::Long => return Err(source.refused(Flaw::Long)),
                Found::Word => {}
            }
            if let Some(told) = self.word(source, &mut word)? {
                return Ok(Some(told));
            }
        }
        Ok(None)
    }

    /// What a word tells, with those after it that belong to it.
    fn word<R: Read>(
        &mut self,
        source: &mut Source<R>,
        word: &mut Word,
    ) -> Result<Option<Told>, TraceFault> {
        match self.meaning(word.as_slice()) {
            Err(flaw) => Err(source.refused(flaw)),
            Ok(Meaning::Nothing) => Ok(None),
            Ok(Meaning::Tells(told)) => Ok(Some(told)),
            Ok(Meaning::Comment) => {
                skip_section(source, word)?;
                Ok(None)
            }
            Ok(Meaning::ValueOf(value)) => {
                if !section_word(source, word)? {
                    return Err(source.refused(Flaw::Change));
                }
                match self.value(word.as_slice(), value) {
                    Ok(told) => Ok(told),
                    Err(flaw) => Err(source.refused(flaw)),
                }
            }
        }
    }

    /// What a word means.
    fn meaning(&mut self, word: &[u8]) -> Result<Meaning, Flaw> {
        match word {
            [b'#', digits @ ..] => {
                self.time(digits)?;
                Ok(Meaning::Nothing)
            }
            b"$comment" => Ok(Meaning::Comment),
            b"$end" => {
                self.is_listing = false;
                Ok(Meaning::Nothing)
            }
            b"$dumpvars" | b"$dumpall" | b"$dumpon" | b"$dumpoff" => {
                self.is_listing = true;
                Ok(Meaning::Nothing)
            }
            [digit @ (b'0' | b'1' | b'x' | b'X' | b'z' | b'Z'), code @ ..] => {
                let value = is_pulled(*digit).ok_or(Flaw::Change)?;
                Ok(match self.value(code, value)? {
                    Some(told) => Meaning::Tells(told),
                    None => Meaning::Nothing,
                })
            }
            _ => Ok(Meaning::ValueOf(value_of(word)?)),
        }
    }

    /// The time is this one. Errors: `Moment`, `Early`.
    fn time(&mut self, digits: &[u8]) -> Result<(), Flaw> {
        let moment = self.scale.moment(digits).ok_or(Flaw::Moment)?;
        if moment < self.moment {
            return Err(Flaw::Early);
        }
        self.moment = moment;
        Ok(())
    }

    /// What is told if the variable of a code has this value, if it had another and its changes are told. Error: `Unknown`.
    fn value(&mut self, code: &[u8], value: Option<bool>) -> Result<Option<Told>, Flaw> {
        let moment = self.moment;
        let variable = self.variables.find(code).ok_or(Flaw::Unknown)?;
        match value {
            Some(is_low) if variable.is_told && is_low != variable.is_low => {
                variable.is_low = is_low;
                Ok(told(variable.role, moment, is_low))
            }
            _ => Ok(None),
        }
    }
}
