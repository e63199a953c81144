// What channel 15 tells, taken apart, and made again of its parts.

use crate::status::Status;
use crate::telling::Telling;

impl Telling {
    ghost use Rattle.std.specs.Prelude.{◌≡◌, ◌<◌, length, SomeIff};
    ghost use Rattle.cbm_machine.specs.Statuses.{status_line};

    /// How many bytes of the line were sent, at most 32.
    pub fn told(&self) -> u8
        ensures value { result ≡ self.now.told }
        ensures more { self.now.told < length (status_line self.now.status) }
    {
        prove!(self.line.len() <= 33);
        self.told as u8
    }

    /// A status of whose line so many bytes were sent; None if it has no more.
    pub fn resumed(status: Status, told: u8) -> Option<Telling>
        ensures { SomeIff result (told < length (status_line status)) (record { status = status; told = told }) }
    {
        let line = status.line();
        let told = told as usize;
        if told >= line.len() {
            return None;
        }
        Some(Telling { status, line, told })
    }
}
