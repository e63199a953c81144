//! Which lines each party pulls, and the drives' roles.

use arrayvec::ArrayVec;
use cbm_iec::{Change, Held, Line, Pace, Party, Role};

/// A drive: its role by the bytes in attention so far, and the lines that it pulls.
#[derive(Clone, Copy, Debug, PartialEq, Eq, Drop)]
pub struct Seat {
    pub device: u8,
    pub pace: Pace,
    pub role: Role,
    pub held: Held,
}

impl Default for Seat {
    fn default() -> Seat {
        Seat {
            device: 0,
            pace: Pace::Profile,
            role: Role::Absent,
            held: Held::FREE,
        }
    }
}

/// The drives of the bus.
#[derive(Drop)]
pub struct Cable {
    seats: ArrayVec<Seat, 4>,
}

impl Cable {
    /// These drives as they are switched on; the first four, if they are more.
    pub fn new(parties: &[Party]) -> Cable {
        let mut seats = ArrayVec::new();
        for party in parties.iter().take(4) {
            let seat = Seat {
                device: party.device,
                pace: party.pace,
                role: Role::Absent,
                held: Held::FREE,
            };
            seats.try_push(seat).ok();
        }
        Cable { seats }
    }

    /// A drive changes a line.
    pub fn change(&mut self, device: u8, change: Change) {
        let low = change.way.is_pull();
        for seat in self.seats.as_mut_slice() {
            if seat.device == device {
                match change.line {
                    Line::Atn => {}
                    Line::Clock => seat.held.clock_low = low,
                    Line::Data => seat.held.data_low = low,
                }
            }
        }
    }

    /// A byte in attention makes the drives' roles.
    pub fn obey(&mut self, byte: u8) {
        for seat in self.seats.as_mut_slice() {
            if seat.device < 31 {
                seat.role = seat.role.after(seat.device, byte);
            }
        }
    }

    /// Whether a drive has this role.
    pub fn has(&self, role: Role) -> bool {
        self.seats.iter().any(|seat| seat.role == role)
    }

    /// Whether the drive with that device number talks.
    pub fn is_talker(&self, device: u8) -> bool {
        self.seats
            .iter()
            .any(|seat| seat.device == device && seat.role == Role::Talker)
    }

    /// Whether the host may pull CLOCK after ATN: each drive keeps a KERNAL's pace, and none pulls CLOCK.
    pub fn waits_for_clock(&self) -> bool {
        self.seats
            .iter()
            .all(|seat| seat.pace == Pace::Kernal && !seat.held.clock_low)
    }
}
