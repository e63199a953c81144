//! The variables of a VCD.

use crate::fault::Flaw;
use crate::vcd::names::Role;
use arrayvec::ArrayVec;
use cbm_iec::{Line, Who};

/// The most variables.
const MOST: usize = 64;

/// The lines, in the order in which three nameless variables are taken for them.
const LINES: [Line; 3] = [Line::Atn, Line::Clock, Line::Data];

/// A variable: its code, what it is, and its value.
#[derive(Clone, Copy, Debug, Default, Drop)]
pub(crate) struct Variable {
    code: u64,
    /// Whether it has one bit.
    is_bit: bool,
    pub(crate) role: Role,
    /// Whether its changes are told.
    pub(crate) is_told: bool,
    pub(crate) is_low: bool,
}

/// A code of 1 to 8 printable bytes as a number; None of another.
fn code_of(code: &[u8]) -> Option<u64> {
    if code.is_empty() || code.len() > 8 {
        return None;
    }
    let mut number: u64 = 0;
    for byte in code {
        if !byte.is_ascii_graphic() {
            return None;
        }
        number = number << 8 | u64::from(*byte);
    }
    Some(number)
}

impl Variable {
    /// A variable with a code of 1 to 8 printable bytes; None if it is another.
    pub(crate) fn new(code: &[u8], is_bit: bool, role: Role) -> Option<Variable> {
        Some(Variable {
            code: code_of(code)?,
            is_bit,
            role,
            is_told: false,
            is_low: false,
        })
    }
}

/// The variables of a VCD.
#[derive(Drop)]
pub(crate) struct Variables {
    all: ArrayVec<Variable, MOST>,
}

impl Variables {
    pub(crate) fn new() -> Variables {
        Variables {
            all: ArrayVec::new(),
        }
    }

    /// One more. Error: `Many`.
    pub(crate) fn add(&mut self, variable: Variable) -> Result<(), Flaw> {
        self.all.try_push(variable).map_err(|_| Flaw::Many)
    }

    /// Whether there is a variable of this role.
    fn has(&self, role: Role) -> bool {
        self.all.iter().any(|v| v.role == role)
    }

    /// Whether the wires are there.
    fn has_wires(&self) -> bool {
        LINES.iter().all(|line| self.has(Role::Wire(*line)))
    }

    /// Whether the host's own lines are there.
    fn has_host(&self) -> bool {
        LINES
            .iter()
            .all(|line| self.has(Role::Party(Who::Host, *line)))
    }

    /// Takes the first three variables of one bit for ATN, CLOCK and DATA.
    fn take_first(&mut self) {
        let mut lines = LINES.iter();
        for variable in self.all.as_mut_slice() {
            if variable.is_bit {
                if let Some(line) = lines.next() {
                    variable.role = Role::Wire(*line);
                }
            }
        }
    }

    /// Settles whose changes are told: the parties' if the host's three lines are there, else the wires'. Error: `Lines`.
    pub(crate) fn settle(&mut self) -> Result<(), Flaw> {
        if self.all.iter().all(|v| v.role == Role::Other) {
            self.take_first();
        }
        let is_parties = self.has_host();
        if !is_parties && !self.has_wires() {
            return Err(Flaw::Lines);
        }
        for variable in self.all.as_mut_slice() {
            variable.is_told = match variable.role {
                Role::Party(..) => is_parties,
                Role::Wire(_) => !is_parties,
                Role::Other => false,
            };
        }
        Ok(())
    }

    /// The variable of a code, one whose changes are told first.
    pub(crate) fn find(&mut self, code: &[u8]) -> Option<&mut Variable> {
        let code = code_of(code)?;
        let told = self.all.iter().position(|v| v.code == code && v.is_told);
        let at = match told {
            Some(at) => at,
            None => self.all.iter().position(|v| v.code == code)?,
        };
        self.all.as_mut_slice().get_mut(at)
    }
}
