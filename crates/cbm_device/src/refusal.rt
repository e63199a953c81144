//! Why a call isn't carried out, and the number that says so.
ghost use Rattle.std.specs.Prelude.{◌≡◌};
ghost use Rattle.cbm_device.specs.Answers.{answer_number, answer};

use cbm_shell::ShellFault;
use cbm_volume::Trouble;
use std::alloc::AllocError;

/// Why a call isn't carried out.
#[derive(Clone, Copy, Debug, PartialEq, Eq)]
pub enum DeviceRefusal {
    /// Memory ran out.
    Memory,
    /// An argument is out of its range, or comes too late.
    Invalid,
    /// The caller's room is too small.
    NoRoom,
    /// There is no such file, slot or sector, or nothing is due.
    Absent,
    /// The bytes are no image of a disk.
    NoImage,
    /// The disk isn't sound, and so isn't changed.
    Unsound,
    /// The handle holds no drive, or one already.
    NoDrive,
    /// The drive refused it, with this number of its status.
    Status(u8),
}

/// The least number of a status that refuses anything.
const LEAST_STATUS: u8 = 20;

/// The number of a file that was never closed.
const NOT_CLOSED: u8 = 60;

impl DeviceRefusal {
    /// Its number: below 0 the call's own, from 20 on the drive's status.
    pub fn number(self) -> i32
        ensures { result ≡ answer_number self }
    {
        match self {
            DeviceRefusal::Memory => -1,
            DeviceRefusal::Invalid => -2,
            DeviceRefusal::NoRoom => -3,
            DeviceRefusal::Absent => -4,
            DeviceRefusal::NoImage => -5,
            DeviceRefusal::Unsound => -6,
            DeviceRefusal::NoDrive => -7,
            DeviceRefusal::Status(code) => code.max(LEAST_STATUS) as i32,
        }
    }
}

impl From<AllocError> for DeviceRefusal {
    ghost use Rattle.std.specs.Prelude.{◌≡◌};
    ghost use Rattle.cbm_device.specs.declared.refusal.DeviceRefusal.TheVariants.{Memory};

    ghost from_gives = { λ _ refusal. refusal ≡ Memory };

    fn from(_error: AllocError) -> DeviceRefusal {
        DeviceRefusal::Memory
    }
}

impl From<ShellFault> for DeviceRefusal {
    ghost use Rattle.std.specs.Prelude.{◌≡◌};
    ghost use Rattle.cbm_device.specs.Answers.{refusal_of};

    ghost from_gives = { λ fault refusal. refusal ≡ refusal_of fault };

    fn from(fault: ShellFault) -> DeviceRefusal {
        match fault {
            ShellFault::Memory => DeviceRefusal::Memory,
            ShellFault::Image(_) => DeviceRefusal::NoImage,
            ShellFault::Unsound(_) => DeviceRefusal::Unsound,
            ShellFault::Refused(status) => DeviceRefusal::Status(status.code.number()),
            ShellFault::Trouble(trouble) => DeviceRefusal::Status(trouble.code),
            ShellFault::NotFound => DeviceRefusal::Absent,
            ShellFault::NotClosed => DeviceRefusal::Status(NOT_CLOSED),
            ShellFault::Mistaken => DeviceRefusal::NoImage,
        }
    }
}

impl From<Trouble> for DeviceRefusal {
    ghost use Rattle.std.specs.Prelude.{◌≡◌};
    ghost use Rattle.cbm_device.specs.declared.refusal.DeviceRefusal.TheVariants.{Status};

    ghost from_gives = { λ trouble refusal. refusal ≡ Status trouble.code };

    fn from(trouble: Trouble) -> DeviceRefusal {
        DeviceRefusal::Status(trouble.code)
    }
}

/// What a call answers: 0, or the number of its refusal.
pub fn number(done: Result<(), DeviceRefusal>) -> i32
    ensures { result ≡ answer done }
{
    match done {
        Ok(()) => 0,
        Err(refusal) => refusal.number(),
    }
}
