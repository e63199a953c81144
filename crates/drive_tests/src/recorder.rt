// A machine above the wires that keeps what it is told.

use arrayvec::ArrayVec;
use cbm_drive::{Act, Machine};

/// How many acts are kept.
pub const KEPT: usize = 512;

/// A machine, and the first acts that it was told.
#[derive(Drop)]
pub struct Recorder<D: Machine + Drop> {
    pub machine: D,
    pub acts: ArrayVec<Option<Act>, 512>,
}

impl<D: Machine + Drop> Machine for Recorder<D> {
    ghost State = { D.State };

    ghost step = { D.step };

    ghost says = { D.says };

    ghost stands = { λ x m. D.stands x.machine m };

    ghost shows = { λ x. D.shows x.machine };

    ghost lasting = { λ x. D.lasting x.machine };

    ghost failures = { λ x. D.failures x.machine };

    fn act(&mut self, act: Act) {
        if !self.acts.is_full() {
            self.acts.push(Some(act));
        }
        self.machine.act(act);
    }

    fn peek(&self) -> Option<(u8, bool)> {
        self.machine.peek()
    }

    ghost byte = { λ x m n last s e. D.byte x.machine m n last s e };

    ghost more = { D.more };
}
