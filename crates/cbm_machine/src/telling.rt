ghost use Rattle.std.specs.Prelude.{◌≡◌, ℕ};
ghost use Rattle.cbm_machine.specs.Told.{next_told, after_the_next, told_by, is_unread_error};
ghost use Rattle.cbm_machine.specs.Machines.{Machine};
ghost use Rattle.cbm_machine.specs.Talking.{peek, taken};

mod resuming;

use crate::code::Code;
use crate::status::{Status, StatusLine};
use std::marker::Model;

/// The least number of a status that is an error.
const FIRST_ERROR: u8 = 20;

/// The status as channel 15 sends it: its line is made once, and sent byte by byte.
#[derive(Drop)]
pub struct Telling {
    status: Status,
    line: StatusLine,
    told: usize,
}

impl Model for Telling {
    ghost use Rattle.std.specs.Prelude.{◌≡◌, ◌<◌, length};
    ghost use Rattle.cbm_machine.specs.Statuses.{status_line};
    ghost use Rattle.cbm_machine.specs.Told.{ToldStatus};

    ghost Value = { ToldStatus };

    ghost view = { λ t. record { status = t.status; told = t.told } };

    ghost invariant = { λ t. (t.line.items ≡ status_line t.status) × (t.told < length t.line.items) };
}

impl Telling {
    /// A new status, of whose line nothing was sent yet.
    pub fn new(status: Status) -> Telling
        ensures { result ≡ (record { status = status; told = 0 }) }
    {
        Telling {
            status,
            line: status.line(),
            told: 0,
        }
    }

    /// The status.
    pub fn status(&self) -> Status
        ensures { result ≡ self.now.status }
    {
        self.status
    }

    /// Whether it is an error (20 or above) of whose line nothing was sent yet.
    pub fn is_unread_error(&self) -> bool
        ensures { result ≡ is_unread_error self.now }
    {
        self.told == 0 && self.status.code.number() >= FIRST_ERROR
    }

    /// The next byte of the line, and whether it is the last (EOI): the line always has one.
    pub fn peek(&self) -> Option<(u8, bool)>
        ensures { result ≡ next_told self.now }
    {
        let line = self.line.as_slice();
        Some((line[self.told], self.told + 1 == line.len()))
    }

    /// The byte that `peek` shows was sent. After the last one the status is 00.
    pub fn taken(&mut self)
        ensures { self.new ≡ after_the_next self.old }
    {
        if self.told + 1 < self.line.len() {
            self.told += 1;
        } else {
            *self = Telling::new(Status::plain(Code::Fine));
        }
    }
}

/// A law: channel 15 sends what the machine's channel 15 sends.
pub fn tells_as_the_machine()
    ensures peek { (m : Machine) → peek 15 m ≡ next_told (told_by m) }
    ensures taken { (m : Machine) → told_by (taken 15 m) ≡ after_the_next (told_by m) }
{}
