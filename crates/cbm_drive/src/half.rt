//! Half of a bit of a byte that a drive says.
ghost use Rattle.std.specs.Prelude.{◌≡◌, if◌then◌else◌};
ghost use Rattle.cbm_drive.specs.Halves.{half_lines};
ghost use Rattle.cbm_iec.specs.Ports.{change_at};
ghost use Rattle.cbm_iec.specs.declared.lines.Way.TheVariants.{Pull, Free};

use arrayvec::ArrayVec;
use cbm_iec::{Change, Held, Line, Way};

/// Half of a bit that a drive said: it changed CLOCK, and then perhaps DATA.
#[derive(Clone, Copy, Drop)]
pub struct Half {
    /// When, in microseconds.
    pub moment: u64,
    /// The drive's device number.
    pub device: u8,
    /// The lines that it held before.
    pub was: Held,
    /// The lines that it holds since.
    pub now: Held,
}

impl Half {
    /// A line was pulled or freed.
    fn change(self, line: Line, low: bool) -> Change
        ensures { result ≡ change_at self.moment line (if low then Pull else Free) }
    {
        Change {
            moment: self.moment,
            line,
            way: if low { Way::Pull } else { Way::Free },
        }
    }

    /// The drive's changes in it: CLOCK's, and then DATA's, if that changes.
    pub fn changes(self) -> ArrayVec<Change, 2>
        ensures { result.items ≡ half_lines self }
    {
        let clock = self.change(Line::Clock, self.now.clock_low);
        let data = self.change(Line::Data, self.now.data_low);
        let mut changes = ArrayVec::new();
        match (
            self.was.clock_low != self.now.clock_low,
            self.was.data_low != self.now.data_low,
        ) {
            (true, true) => {
                changes.push(clock);
                changes.push(data);
            }
            (true, false) => changes.push(clock),
            (false, true) => changes.push(data),
            (false, false) => {}
        }
        changes
    }
}
